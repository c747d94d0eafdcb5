//! Worked values of calls that no request line shows apart.

use mf_alloc::Instalment;
use mf_arrears::{Class, OfficeLine, arrears, class, report_text};
use mf_base::{Day, half_even, split};
use mf_office::{Key, OfficeNo, in_range};
use mf_schedule::fixed_amount;
use std::alloc::Global;
use std::test::Fail;

#[test]
fn rounds_splits_and_finds_the_least_amounts(rt: HostRuntime) {
    let rounded = (half_even(25, 10), half_even(35, 10), half_even(5025, 10));
    assert!(rt; rounded == (2, 4, 502));
    let parts = (split(100000, 3, 1), split(100000, 3, 3));
    assert!(rt; parts == (33333, 33334));
    let amounts = (
        fixed_amount(100000, 1200, 30, 3),
        fixed_amount(100000, 1200, 30, 2),
        fixed_amount(1, 0, 30, 3),
    );
    assert!(rt; amounts == (34003, 50751, 1));
}

/// The key of an office below another.
fn child(alloc: Global, above: &Key, number: u32) -> Result<Key, Fail> {
    Ok(above.child(alloc, OfficeNo::new(number).ok_or("a number")?)?)
}

/// The key, its range's ends, and whether the range has other keys.
fn tell(alloc: Global, key: &Key, others: &[&Key]) -> Result<String, Fail> {
    let (low, high) = key.range(alloc)?;
    let (low, high) = (low.as_str(), high.as_str());
    let mut text = format!(in alloc; "{low} to {high}")?;
    for other in others {
        let other = other.as_str();
        let has = in_range(low, high, other);
        write!(text, ";{other} {has}")?;
    }
    Ok(text)
}

#[test]
fn ranges_of_keys(rt: HostRuntime) -> Result<(), Fail> {
    let head = Key::head(rt.alloc())?;
    let two = child(rt.alloc(), &head, 2)?;
    let twenty = child(rt.alloc(), &head, 20)?;
    let five = child(rt.alloc(), &two, 5)?;
    let of_two = tell(rt.alloc(), &two, &[&two, &five, &twenty, &head])?;
    assert_eq!(rt;
        of_two.as_str(),
        ".2. to .2/;.2. true;.2.5. true;.20. false;. false"
    );
    Ok(())
}

/// An instalment due on 2024-03-31, on two days of April and May: days overdue, and their class.
#[test]
fn counts_the_days(rt: HostRuntime) -> Result<(), Fail> {
    let due = Day::parse(b"2024-03-31").ok_or("a day")?;
    let rows = [Instalment::fresh(due, [0, 0, 0, 100])];
    for (text, days, wanted) in [
        ("2024-03-30", 0, Class::C0),
        ("2024-04-30", 30, Class::C1To30),
        ("2024-05-01", 31, Class::C31To60),
    ] {
        let overdue = arrears(&rows, Day::parse(text.as_bytes()).ok_or("a day")?);
        assert!(rt; overdue == days && class(overdue) == wanted, "{text}");
    }
    Ok(())
}

#[test]
fn writes_the_report(rt: HostRuntime) -> Result<(), Fail> {
    let mut line = OfficeLine::new(OfficeNo::new(1).ok_or("an office")?);
    line.add(100000, 31);
    line.add(50000, 30);
    let text = report_text(rt.alloc(), &[line])?;
    let expected = concat!(
        "   1           2                 1500.00                  500.00                 1000.00                    \
         0.00                    0.00   66.67\n",
        " all           2                 1500.00                  500.00                 1000.00                    \
         0.00                    0.00   66.67\n"
    );
    assert!(rt; text.as_str() == expected);
    Ok(())
}
