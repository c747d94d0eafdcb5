//! The words that are read, and what is said of those that are not.

use mf_base::{Day, Freq};
use mf_catalog::Method;
use mf_office::Caller;
use microloan_words::{Command, LedgerForm, ScheduleWords, Words, command};
use std::alloc::{AllocError, Global};
use std::process::Abort;
use std::test::Fail;

fn words_of(alloc: Global, line: &str) -> Result<Vec<String>, AllocError> {
    let mut all = Vec::new(alloc);
    for word in line.split_whitespace() {
        all.push(String::from_str(alloc, word)?)?;
    }
    Ok(all)
}

/// The line that is said of words that are wrong.
fn line_of(rt: &impl Abort, alloc: Global, line: &str) -> Result<String, AllocError> {
    let words = words_of(alloc, line)?;
    match command(alloc, &words) {
        Err(Words::Bad(said)) => Ok(said),
        _ => {
            assert!(rt; false, "{line} is not refused");
            String::from_str(alloc, "")
        }
    }
}

/// The schedule that words ask for.
fn schedule_of(alloc: Global, line: &str) -> Result<ScheduleWords, Fail> {
    let words = words_of(alloc, line)?;
    match command(alloc, &words) {
        Ok(Command::Schedule(asked)) => Ok(asked),
        _ => Err(Fail::new("a schedule")),
    }
}

#[test]
fn reads_a_schedule(rt: HostRuntime) -> Result<(), Fail> {
    let asked = schedule_of(
        rt.alloc(),
        "microloan schedule --method declining-equal-principal --principal 100000 --rate 1200 --periods 3 --day \
         2024-01-31",
    )?;
    let wanted = ScheduleWords {
        method: Method::EqualPrincipal,
        principal: 100000,
        rate: 1200,
        periods: 3,
        day: Day::parse(b"2024-01-31").ok_or("a day")?,
        frequency: Freq::Months,
        every: 1,
        principal_grace: 0,
        interest_grace: 0,
    };
    assert!(rt; asked == wanted);
    let asked = schedule_of(
        rt.alloc(),
        "microloan schedule --interest-grace=1 --principal-grace 2 --every 52 --frequency weeks --day 2099-12-31 \
         --periods 360 --rate 100000 --principal 1000000000000 --method flat",
    )?;
    let wanted = ScheduleWords {
        method: Method::Flat,
        principal: 1_000_000_000_000,
        rate: 100_000,
        periods: 360,
        day: Day::parse(b"2099-12-31").ok_or("a day")?,
        frequency: Freq::Weeks,
        every: 52,
        principal_grace: 2,
        interest_grace: 1,
    };
    assert!(rt; asked == wanted);
    Ok(())
}

#[test]
fn reads_a_batch(rt: HostRuntime) -> Result<(), Fail> {
    let alloc = rt.alloc();
    let words = words_of(alloc, "microloan batch")?;
    let Ok(Command::Batch(asked)) = command(alloc, &words) else {
        return Err(Fail::from("a batch"));
    };
    assert!(rt; asked.file.is_none());
    assert!(rt; !asked.existing);
    assert!(rt; !asked.journal);
    assert_eq!(rt; Some(asked.day), Day::parse(b"2024-01-01"));
    let words = words_of(
        alloc,
        "microloan batch --day 2024-01-31 --existing --file desk.db",
    )?;
    let Ok(Command::Batch(asked)) = command(alloc, &words) else {
        return Err(Fail::from("a batch"));
    };
    assert!(rt; asked.existing);
    assert!(rt; !asked.journal);
    assert_eq!(rt; Some(asked.day), Day::parse(b"2024-01-31"));
    let file = asked.file.ok_or("a file")?;
    assert_eq!(rt; file.as_str(), "desk.db");
    let words = words_of(alloc, "microloan batch --journal --file desk.db")?;
    let Ok(Command::Batch(asked)) = command(alloc, &words) else {
        return Err(Fail::from("a batch"));
    };
    assert!(rt; !asked.existing);
    assert!(rt; asked.journal);
    assert!(rt; !asked.told);
    let words = words_of(alloc, "microloan batch --journal --told --file desk.db")?;
    let Ok(Command::Batch(asked)) = command(alloc, &words) else {
        return Err(Fail::from("a batch"));
    };
    assert!(rt; asked.told);
    assert!(rt; !asked.lists);
    let words = words_of(alloc, "microloan batch --lists --file desk.db")?;
    let Ok(Command::Batch(asked)) = command(alloc, &words) else {
        return Err(Fail::from("a batch"));
    };
    assert!(rt; asked.lists);
    assert!(rt; !asked.journal);
    Ok(())
}

#[test]
fn reads_what_is_served(rt: HostRuntime) -> Result<(), Fail> {
    let alloc = rt.alloc();
    let words = words_of(alloc, "microloan serve --file desk.db --port 65535")?;
    let Ok(Command::Serve(asked)) = command(alloc, &words) else {
        return Err(Fail::from("a server"));
    };
    assert_eq!(rt; asked.file.as_str(), "desk.db");
    assert!(rt; !asked.journal);
    assert_eq!(rt; asked.port, 65535);
    assert_eq!(rt; asked.count, u64::MAX);
    assert_eq!(rt; asked.patience, 10);
    assert_eq!(rt; Some(asked.day), Day::parse(b"2024-01-01"));
    let words = words_of(
        alloc,
        "microloan serve --file desk.db --port 1 --count 18446744073709551615 --patience 3600 --day 2099-12-31",
    )?;
    let Ok(Command::Serve(asked)) = command(alloc, &words) else {
        return Err(Fail::from("a server"));
    };
    assert_eq!(rt; asked.port, 1);
    assert_eq!(rt; asked.count, u64::MAX);
    assert_eq!(rt; asked.patience, 3600);
    assert_eq!(rt; Some(asked.day), Day::parse(b"2099-12-31"));
    let words = words_of(
        alloc,
        "microloan serve --existing --journal --file desk.db --port 80 --count 7 --patience 1",
    )?;
    let Ok(Command::Serve(asked)) = command(alloc, &words) else {
        return Err(Fail::from("a server"));
    };
    assert!(rt; asked.existing);
    assert!(rt; asked.journal);
    assert!(rt; !asked.lists);
    assert_eq!(rt; asked.count, 7);
    assert_eq!(rt; asked.patience, 1);
    let words = words_of(alloc, "microloan serve --lists --file desk.db --port 80")?;
    let Ok(Command::Serve(asked)) = command(alloc, &words) else {
        return Err(Fail::from("a server"));
    };
    assert!(rt; asked.lists);
    assert!(rt; !asked.journal);
    Ok(())
}

#[test]
fn reads_who_asks(rt: HostRuntime) -> Result<(), Fail> {
    let alloc = rt.alloc();
    let words = words_of(alloc, "microloan collect --file desk.db --staff 2/1")?;
    let Ok(Command::Collect(asked)) = command(alloc, &words) else {
        return Err(Fail::from("a collection"));
    };
    assert_eq!(rt; asked.file.as_str(), "desk.db");
    assert_eq!(rt; Some(asked.staff), Caller::parse(b"2/1"));
    assert!(rt; !asked.existing);
    assert!(rt; !asked.journal);
    let words = words_of(
        alloc,
        "microloan collect --journal --file desk.db --staff 2/1",
    )?;
    let Ok(Command::Collect(asked)) = command(alloc, &words) else {
        return Err(Fail::from("a collection"));
    };
    assert!(rt; !asked.existing);
    assert!(rt; asked.journal);
    assert!(rt; asked.told.is_none());
    let words = words_of(
        alloc,
        "microloan collect --journal --file desk.db --staff 2/1 --told 09:12,10.0.0.7",
    )?;
    let Ok(Command::Collect(asked)) = command(alloc, &words) else {
        return Err(Fail::from("a collection"));
    };
    let told = asked.told.ok_or("what is told")?;
    assert_eq!(rt; told.as_bytes(), b"09:12,10.0.0.7".as_slice());
    let words = words_of(
        alloc,
        "microloan report --staff 9999/9999 --file desk.db --existing",
    )?;
    let Ok(Command::Report(asked)) = command(alloc, &words) else {
        return Err(Fail::from("a report"));
    };
    assert!(rt; asked.existing);
    assert_eq!(rt; asked.file.as_str(), "desk.db");
    assert_eq!(rt; Some(asked.staff), Caller::parse(b"9999/9999"));
    Ok(())
}

#[test]
fn reads_which_file_to_look_into(rt: HostRuntime) -> Result<(), Fail> {
    let alloc = rt.alloc();
    let words = words_of(alloc, "microloan why --file desk.db")?;
    let Ok(Command::Why(asked)) = command(alloc, &words) else {
        return Err(Fail::from("a file to look into"));
    };
    assert_eq!(rt; asked.file.as_str(), "desk.db");
    for (line, all, from, archives) in [
        ("microloan audit --file desk.db", false, None, None),
        ("microloan audit --file desk.db --all", true, None, None),
        (
            "microloan audit --file desk.db --from old.db",
            false,
            Some("old.db"),
            None,
        ),
        (
            "microloan audit --archives parts --file desk.db",
            false,
            None,
            Some("parts"),
        ),
    ] {
        let words = words_of(alloc, line)?;
        let Ok(Command::Audit(asked)) = command(alloc, &words) else {
            return Err(Fail::from("a file to audit"));
        };
        assert_eq!(rt; asked.file.as_str(), "desk.db");
        assert_eq!(rt; asked.all, all);
        let named = match &asked.from {
            Some(path) => Some(path.as_str()),
            None => None,
        };
        assert!(rt; named == from);
        let folder = match &asked.archives {
            Some(path) => Some(path.as_str()),
            None => None,
        };
        assert!(rt; folder == archives);
    }
    Ok(())
}

#[test]
fn reads_which_file_to_upgrade(rt: HostRuntime) -> Result<(), Fail> {
    let alloc = rt.alloc();
    for (line, existing, journal) in [
        ("microloan upgrade --file desk.db", false, false),
        ("microloan upgrade --file desk.db --journal", false, true),
        ("microloan upgrade --existing --file desk.db", true, false),
        (
            "microloan upgrade --journal --existing --file=desk.db",
            true,
            true,
        ),
    ] {
        let words = words_of(alloc, line)?;
        let Ok(Command::Upgrade(asked)) = command(alloc, &words) else {
            return Err(Fail::from("a file to upgrade"));
        };
        assert_eq!(rt; asked.file.as_str(), "desk.db");
        assert_eq!(rt; asked.existing, existing);
        assert_eq!(rt; asked.journal, journal);
    }
    Ok(())
}

#[test]
fn reads_which_lines_to_archive(rt: HostRuntime) -> Result<(), Fail> {
    let alloc = rt.alloc();
    for (line, existing) in [
        (
            "microloan archive --file desk.db --to 2024-01-31 --into old.db",
            false,
        ),
        (
            "microloan archive --into=old.db --existing --to 2024-01-31 --file desk.db",
            true,
        ),
    ] {
        let words = words_of(alloc, line)?;
        let Ok(Command::Archive(asked)) = command(alloc, &words) else {
            return Err(Fail::from("lines to archive"));
        };
        assert_eq!(rt; asked.file.as_str(), "desk.db");
        assert_eq!(rt; asked.existing, existing);
        assert_eq!(rt; Some(asked.to), Day::parse(b"2024-01-31"));
        assert_eq!(rt; asked.into.as_str(), "old.db");
    }
    Ok(())
}

/// Words of `ledger`, and what they ask for: the form, whether by accrual, the names, the copy to begin from.
const LEDGER_WORDS: [(&str, LedgerForm, bool, Option<&str>, Option<&str>); 5] = [
    (
        "microloan ledger --file desk.db --from 2024-01-01 --to 2024-01-31",
        LedgerForm::Hledger,
        false,
        None,
        None,
    ),
    (
        "microloan ledger --csv --to 2024-01-31 --from 2024-01-01 --existing --file=desk.db",
        LedgerForm::Sheet,
        false,
        None,
        None,
    ),
    (
        "microloan ledger --accrual --file desk.db --from 2024-01-01 --to 2024-01-31",
        LedgerForm::Hledger,
        true,
        None,
        None,
    ),
    (
        "microloan ledger --file desk.db --from 2024-01-01 --to 2024-01-31 --beancount --names chart",
        LedgerForm::Beancount,
        false,
        Some("chart"),
        None,
    ),
    (
        "microloan ledger --file desk.db --from-copy old.db --from 2024-01-01 --to 2024-01-31",
        LedgerForm::Hledger,
        false,
        None,
        Some("old.db"),
    ),
];

#[test]
fn reads_which_books_to_write(rt: HostRuntime) -> Result<(), Fail> {
    let alloc = rt.alloc();
    for (line, form, accrual, names, copy) in LEDGER_WORDS {
        let words = words_of(alloc, line)?;
        let Ok(Command::Ledger(asked)) = command(alloc, &words) else {
            return Err(Fail::from("books"));
        };
        assert_eq!(rt; asked.file.as_str(), "desk.db");
        assert_eq!(rt; Some(asked.first), Day::parse(b"2024-01-01"));
        assert_eq!(rt; Some(asked.last), Day::parse(b"2024-01-31"));
        assert!(rt; asked.form == form);
        assert_eq!(rt; asked.accrual, accrual);
        assert_eq!(rt; asked.names.map(|names| names.as_str()), names);
        assert_eq!(rt; asked.copy.map(|copy| copy.as_str()), copy);
    }
    Ok(())
}

#[test]
fn reads_which_portions_to_add_up(rt: HostRuntime) -> Result<(), Fail> {
    let alloc = rt.alloc();
    for (line, existing, is_movement) in [
        ("microloan portions --file desk.db", false, false),
        (
            "microloan portions --to 2024-01-31 --existing --from 2024-01-01 --file=desk.db",
            true,
            true,
        ),
    ] {
        let words = words_of(alloc, line)?;
        let Ok(Command::Portions(asked)) = command(alloc, &words) else {
            return Err(Fail::from("portions"));
        };
        assert_eq!(rt; asked.file.as_str(), "desk.db");
        assert_eq!(rt; asked.existing, existing);
        assert_eq!(rt; asked.span.is_some(), is_movement);
        if let Some(span) = asked.span {
            assert_eq!(rt; Some(span.first), Day::parse(b"2024-01-01"));
            assert_eq!(rt; Some(span.last), Day::parse(b"2024-01-31"));
        }
    }
    Ok(())
}

/// Words that are wrong, and what is said of them.
const WRONG: [(&str, &str); 33] = [
    (
        "microloan",
        "microloan: name a command: batch, serve, collect, report, schedule, why, audit, upgrade, archive, \
         ledger or portions; see 'microloan --help'",
    ),
    (
        "microloan portions --file f --to 2024-01-31",
        "microloan: --from wants a day from 2000-01-01 to 2099-12-31, as 2024-01-01; see 'microloan portions --help'",
    ),
    (
        "microloan portions --file f --from 2024-02-01 --to 2024-01-31",
        "microloan: --from wants a day that isn't after that of --to; see 'microloan portions --help'",
    ),
    (
        "microloan ledger --file f --from 2024-02-01 --to 2024-01-31",
        "microloan: --from wants a day that isn't after that of --to; see 'microloan ledger --help'",
    ),
    (
        "microloan ledger --file f --from 2024-02-01 --to 2024-02-30",
        "microloan: --to wants a day from 2000-01-01 to 2099-12-31, as 2024-01-31; see 'microloan ledger --help'",
    ),
    (
        "microloan ledger --file f --from 2024-01-01 --to 2024-01-31 --csv --beancount",
        "microloan: --csv and --beancount are two forms; name one of them; see 'microloan ledger --help'",
    ),
    (
        "microloan audit --file f --from g --archives h",
        "microloan: --from and --archives are two beginnings; name one of them; see 'microloan audit --help'",
    ),
    (
        "microloan archive --file f --to 2024-02-30 --into g",
        "microloan: --to wants a day from 2000-01-01 to 2099-12-31, as 2024-01-31; see 'microloan archive --help'",
    ),
    (
        "microloan schedule --method flat --principal 0 --rate 1200 --periods 3 --day 2024-01-31",
        "microloan: --principal wants whole cents from 1 to 1000000000000; see 'microloan schedule --help'",
    ),
    (
        "microloan schedule --method flat --principal 1 --rate 1200 --periods 361 --day 2024-01-31",
        "microloan: --periods wants a number from 1 to 360; see 'microloan schedule --help'",
    ),
    (
        "microloan schedule --method flat --principal 1 --rate 1200 --periods 12 --day 2024-02-30",
        "microloan: --day wants a day from 2000-01-01 to 2099-12-31, as 2024-01-31; see 'microloan schedule --help'",
    ),
    (
        "microloan schedule --method flat --principal 1 --rate 1200 --periods 12 --day 2024-01-31 --every 13",
        "microloan: --every wants 1 to 52 weeks or 1 to 12 months; see 'microloan schedule --help'",
    ),
    (
        "microloan batch --day 2100-01-01",
        "microloan: --day wants a day from 2000-01-01 to 2099-12-31, as 2024-01-31; see 'microloan batch --help'",
    ),
    (
        "microloan batch --existing",
        "microloan: --existing wants the --file that holds the institution; see 'microloan batch --help'",
    ),
    (
        "microloan batch --journal",
        "microloan: --journal wants the --file that holds the institution; see 'microloan batch --help'",
    ),
    (
        "microloan batch --told",
        "microloan: --told wants --journal; see 'microloan batch --help'",
    ),
    (
        "microloan batch --file f --told",
        "microloan: --told wants --journal; see 'microloan batch --help'",
    ),
    (
        "microloan batch --lists",
        "microloan: --lists wants the --file that holds the institution; see 'microloan batch --help'",
    ),
    (
        "microloan batch --lists --told",
        "microloan: --told wants --journal; see 'microloan batch --help'",
    ),
    (
        "microloan collect --file f --staff 1/1 --told 09:12",
        "microloan: --told wants --journal; see 'microloan collect --help'",
    ),
    (
        "microloan collect --file f --staff 1/1 --journal --told=",
        "microloan: --told wants 1 to 100 printed characters of ASCII; see 'microloan collect --help'",
    ),
    (
        "microloan batch --journal --existing",
        "microloan: --existing wants the --file that holds the institution; see 'microloan batch --help'",
    ),
    (
        "microloan serve --file f --port 0",
        "microloan: --port wants a number from 1 to 65535; see 'microloan serve --help'",
    ),
    (
        "microloan serve --file f --port 65536",
        "microloan: --port wants a number from 1 to 65535; see 'microloan serve --help'",
    ),
    (
        "microloan serve --file f --port 80 --count all",
        "microloan: --count wants a number of connections, or 0 for no end; see 'microloan serve --help'",
    ),
    (
        "microloan serve --file f --port 80 --count 18446744073709551616",
        "microloan: --count wants a number of connections, or 0 for no end; see 'microloan serve --help'",
    ),
    (
        "microloan serve --file f --port 80 --patience 0",
        "microloan: --patience wants a number of seconds from 1 to 3600; see 'microloan serve --help'",
    ),
    (
        "microloan serve --file f --port 80 --patience 3601",
        "microloan: --patience wants a number of seconds from 1 to 3600; see 'microloan serve --help'",
    ),
    (
        "microloan serve --file f --port 80 --patience ten",
        "microloan: --patience wants a number of seconds from 1 to 3600; see 'microloan serve --help'",
    ),
    (
        "microloan serve --file f --port 80 --day 2024-02-30",
        "microloan: --day wants a day from 2000-01-01 to 2099-12-31, as 2024-01-31; see 'microloan serve --help'",
    ),
    (
        "microloan collect --file f --staff 1",
        "microloan: --staff wants an office and a member of its staff, as 2/1; see 'microloan collect --help'",
    ),
    (
        "microloan report --file f --staff 0/1",
        "microloan: --staff wants an office and a member of its staff, as 2/1; see 'microloan report --help'",
    ),
    (
        "microloan report --file f --staff 01/1",
        "microloan: --staff wants an office and a member of its staff, as 2/1; see 'microloan report --help'",
    ),
];

#[test]
fn says_what_is_wanted(rt: HostRuntime) -> Result<(), Fail> {
    for (line, wanted) in WRONG {
        let said = line_of(&rt, rt.alloc(), line)?;
        assert_eq!(rt; said.as_str(), wanted);
    }
    Ok(())
}

/// Words that are wrong, a part of what is said of them, and the command whose help it names.
const UNCLEAR: [(&str, &str, &str); 17] = [
    (
        "microloan ledger --file f --from 2024-01-01 --to 2024-01-31 --accrual=yes",
        "unexpected value 'yes' for '--accrual' found",
        "ledger ",
    ),
    ("microloan serve --port 80", "--file", "serve "),
    ("microloan serve --file f", "--port", "serve "),
    ("microloan collect --staff 1/1", "--file", "collect "),
    ("microloan collect --file f", "--staff", "collect "),
    ("microloan report --file f", "--staff", "report "),
    (
        "microloan report --file f --staff 1/1 --journal",
        "'--journal'",
        "report ",
    ),
    (
        "microloan collect --file f --staff 1/1 --lists",
        "'--lists'",
        "collect ",
    ),
    (
        "microloan upgrade --file f --lists",
        "'--lists'",
        "upgrade ",
    ),
    (
        "microloan schedule --method flat",
        "--principal",
        "schedule ",
    ),
    ("microloan upgrade", "--file", "upgrade "),
    (
        "microloan upgrade --file f --day 2024-01-31",
        "'--day'",
        "upgrade ",
    ),
    ("microloan upgrade --file f now", "'now'", "upgrade "),
    (
        "microloan archive --file f --to 2024-01-31",
        "--into",
        "archive ",
    ),
    ("microloan archive --file f --into g", "--to", "archive "),
    ("microloan batch now", "'now'", "batch "),
    ("microloan schedules", "schedules", ""),
];

#[test]
fn says_what_is_wrong_in_one_line(rt: HostRuntime) -> Result<(), Fail> {
    for (line, part, command) in UNCLEAR {
        let said = line_of(&rt, rt.alloc(), line)?;
        let end = format!(in rt.alloc(); "; see 'microloan {command}--help'")?;
        assert!(rt; said.as_str().find(part).is_some(), "{line}");
        assert!(rt; said.as_str().ends_with(end.as_str()), "{line}");
        assert!(rt; said.as_str().lines().count() == 1, "{line}");
    }
    Ok(())
}

/// The help that words ask for.
fn help_of(rt: &impl Abort, alloc: Global, line: &str) -> Result<String, AllocError> {
    let words = words_of(alloc, line)?;
    match command(alloc, &words) {
        Err(Words::Help(text)) => Ok(text),
        _ => {
            assert!(rt; false, "{line} gives no help");
            String::from_str(alloc, "")
        }
    }
}

#[test]
fn shows_help(rt: HostRuntime) -> Result<(), Fail> {
    let alloc = rt.alloc();
    let help = help_of(&rt, alloc, "microloan schedule --help")?;
    let text = help.as_str();
    assert!(rt; text.find("in whole cents").is_some());
    assert!(rt; text.find("Hundredths of a percent").is_some());
    assert!(rt; text.find("Example:").is_some());
    assert!(rt; text.lines().all(|line| line.len() <= 80));
    let help = help_of(&rt, alloc, "microloan --help")?;
    assert!(rt; help.as_str().find("schedule").is_some());
    assert!(rt; help.as_str().lines().all(|line| line.len() <= 80));
    for command in [
        "batch", "serve", "collect", "report", "why", "audit", "upgrade", "archive", "ledger",
        "portions",
    ] {
        let line = format!(in alloc; "microloan {command} --help")?;
        let help = help_of(&rt, alloc, line.as_str())?;
        assert!(rt; help.as_str().find("Example:").is_some());
        assert!(rt; help.as_str().lines().all(|line| line.len() <= 80));
    }
    Ok(())
}

#[test]
fn tells_the_version(rt: HostRuntime) -> Result<(), Fail> {
    let alloc = rt.alloc();
    for line in ["microloan --version", "microloan -V"] {
        let words = words_of(alloc, line)?;
        let Err(Words::Version(text)) = command(alloc, &words) else {
            return Err(Fail::from("a version"));
        };
        assert_eq!(rt; text.as_str(), "microloan 1.13.0 (schema 2)\n");
    }
    let said = line_of(&rt, alloc, "microloan report --version")?;
    assert!(rt; said.as_str().find("--version").is_some());
    Ok(())
}
