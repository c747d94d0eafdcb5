//! The schedules that words ask for. The texts were reckoned with exact fractions from what the methods are.

use mf_base::Fault;
use microloan_commands::schedule;
use microloan_words::{Command, command};
use std::alloc::Global;
use std::test::Fail;

/// A line of words, and what they print: nothing where a grace is not below the periods.
const EXAMPLES: [(&str, &str); 4] = [
    (
        "microloan schedule --method flat --principal 120000 --rate 1200 --periods 12 --day 2024-01-31",
        "  1 2024-02-29            100.00             12.00            112.00
  2 2024-03-31            100.00             12.00            112.00
  3 2024-04-30            100.00             12.00            112.00
  4 2024-05-31            100.00             12.00            112.00
  5 2024-06-30            100.00             12.00            112.00
  6 2024-07-31            100.00             12.00            112.00
  7 2024-08-31            100.00             12.00            112.00
  8 2024-09-30            100.00             12.00            112.00
  9 2024-10-31            100.00             12.00            112.00
 10 2024-11-30            100.00             12.00            112.00
 11 2024-12-31            100.00             12.00            112.00
 12 2025-01-31            100.00             12.00            112.00
sum                      1200.00            144.00           1344.00
",
    ),
    (
        "microloan schedule --method declining-equal-principal --principal 100000 --rate 1200 --periods 3 --day \
         2024-01-31",
        "  1 2024-02-29            333.33             10.00            343.33
  2 2024-03-31            333.33              6.67            340.00
  3 2024-04-30            333.34              3.33            336.67
sum                      1000.00             20.00           1020.00
",
    ),
    (
        "microloan schedule --method declining-equal-principal --principal 100000 --rate 1200 --periods 3 --day \
         2024-01-31 --principal-grace 3",
        "",
    ),
    (
        "microloan schedule --method declining-equal-instalments --principal 100000 --rate 1200 --periods 3 --day \
         2024-01-31",
        "  1 2024-02-29            330.03             10.00            340.03
  2 2024-03-31            333.33              6.70            340.03
  3 2024-04-30            336.64              3.37            340.01
sum                      1000.00             20.07           1020.07
",
    ),
];

/// What the words print; nothing where the schedule is refused.
fn print_schedule(alloc: Global, line: &str) -> Result<String, Fail> {
    let mut words = Vec::new(alloc);
    for word in line.split_whitespace() {
        words.push(String::from_str(alloc, word)?)?;
    }
    let Ok(Command::Schedule(asked)) = command(alloc, &words) else {
        return Err(Fail::new("a schedule"));
    };
    match schedule(alloc, &asked) {
        Ok(text) => Ok(text),
        Err(Fault::F8) => Ok(String::new(alloc)),
        Err(fault) => Err(Fail::from(fault)),
    }
}

#[test]
fn prints_each_example(rt: HostRuntime) -> Result<(), Fail> {
    for (line, text) in EXAMPLES {
        assert_eq!(rt; print_schedule(rt.alloc(), line)?.as_str(), text);
    }
    Ok(())
}
