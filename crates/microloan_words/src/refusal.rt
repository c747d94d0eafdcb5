//! What is said of words that ask for nothing.

ghost use Rattle.std.specs.Prelude.{◌≡◌, ◌≢◌, ◌⊎◌, MatchOption};
ghost use Rattle.clap.specs.Words.{kind_of};
ghost use Rattle.microloan_words.specs.Asked.{IsHelp, IsVersion, IsBad};
ghost use Rattle.microloan_words.specs.Owed.{owed_of, IsToldAs};

use crate::asked::Words;
use crate::reading::Wrong;
use clap::Error;
use clap::error::ErrorKind;
use std::alloc::{AllocError, Global};

/// What an option wants, in one line.
fn wants(wrong: Wrong) -> &'static str {
    match wrong {
        Wrong::File => "--file wants the path of a file",
        Wrong::Existing => "--existing wants the --file that holds the institution",
        Wrong::Journal => "--journal wants the --file that holds the institution",
        Wrong::Told => "--told wants --journal",
        Wrong::ToldOfLines => "--told wants 1 to 100 printed characters of ASCII",
        Wrong::Lists => "--lists wants the --file that holds the institution",
        Wrong::All => "--all has no value",
        Wrong::Beginning => "--from and --archives are two beginnings; name one of them",
        Wrong::Port => "--port wants a number from 1 to 65535",
        Wrong::Count => "--count wants a number of connections, or 0 for no end",
        Wrong::Patience => "--patience wants a number of seconds from 1 to 3600",
        Wrong::Staff => "--staff wants an office and a member of its staff, as 2/1",
        Wrong::Method => {
            "--method wants flat, declining-equal-principal or declining-equal-instalments"
        }
        Wrong::Principal => "--principal wants whole cents from 1 to 1000000000000",
        Wrong::Rate => "--rate wants hundredths of a percent from 0 to 100000",
        Wrong::Periods => "--periods wants a number from 1 to 360",
        Wrong::From => "--from wants a day from 2000-01-01 to 2099-12-31, as 2024-01-01",
        Wrong::To => "--to wants a day from 2000-01-01 to 2099-12-31, as 2024-01-31",
        Wrong::Span => "--from wants a day that isn't after that of --to",
        Wrong::Csv => "--csv has no value",
        Wrong::Beancount => "--beancount has no value",
        Wrong::Form => "--csv and --beancount are two forms; name one of them",
        Wrong::Accrual => "--accrual has no value",
        Wrong::Day => "--day wants a day from 2000-01-01 to 2099-12-31, as 2024-01-31",
        Wrong::Frequency => "--frequency wants weeks or months",
        Wrong::Every => "--every wants 1 to 52 weeks or 1 to 12 months",
        Wrong::PrincipalGrace => "--principal-grace wants a number from 0 to 359",
        Wrong::InterestGrace => "--interest-grace wants a number from 0 to 359",
        Wrong::Into => "--into wants the path of a file that isn't there",
    }
}

/// Bad words, with the line that says so, or out of memory for that line.
fn bad(line: Result<String, AllocError>) -> Words
    ensures help { IsHelp result → ⊥ }
    ensures version { IsVersion result → ⊥ }
{
    match line {
        Ok(line) => Words::Bad(line),
        Err(_) => Words::Memory,
    }
}

/// An option of a command isn't what it should be.
pub(crate) fn wrong_option(alloc: Global, command: &str, wrong: Wrong) -> Words
    ensures help { IsHelp result → ⊥ }
    ensures version { IsVersion result → ⊥ }
{
    let wants = wants(wrong);
    bad(format!(in alloc; "microloan: {wants}; see 'microloan {command} --help'"))
}

/// No command of the program is named.
pub(crate) fn no_command(alloc: Global) -> Words
    ensures help { IsHelp result → ⊥ }
    ensures version { IsVersion result → ⊥ }
{
    bad(format!(in alloc; "microloan: no such command; see 'microloan --help'"))
}

/// What is owed to words that `clap` refused.
#[derive(Clone, Copy)]
enum Owed {
    /// They ask for help.
    Help,
    /// They ask for the version.
    Version,
    /// They name no command.
    NoCommand,
    /// Something is wrong with them.
    Wrong,
}

/// What is owed for an error of `clap`; None where `clap` was out of memory.
fn owed_for(error: &Error) -> Option<Owed>
    ensures { result ≡ owed_of (kind_of error.now) }
{
    match error.kind() {
        ErrorKind::OutOfMemory => None,
        ErrorKind::DisplayHelp => Some(Owed::Help),
        ErrorKind::DisplayVersion => Some(Owed::Version),
        ErrorKind::MissingSubcommand => Some(Owed::NoCommand),
        _ => Some(Owed::Wrong),
    }
}

/// A text as what is owed.
fn words_of(owed: Owed, text: String) -> Words
    ensures { IsToldAs owed result }
{
    match owed {
        Owed::Help => Words::Help(text),
        Owed::Version => Words::Version(text),
        Owed::NoCommand | Owed::Wrong => Words::Bad(text),
    }
}

/// The text that is owed, or out of memory for it.
fn owed_text(
    alloc: Global,
    words: &[String],
    error: &Error,
    owed: Owed,
) -> Result<String, AllocError> {
    match owed {
        Owed::Help | Owed::Version => format!(in alloc; "{error}"),
        Owed::NoCommand => format!(in alloc;
            "microloan: name a command: batch, serve, collect, report, schedule, why, audit, upgrade, archive, \
             ledger or portions; see 'microloan --help'"
        ),
        Owed::Wrong => one_line(alloc, words, error),
    }
}

/// What `clap` says of the words: help or the version where they ask for it, else what is wrong, in one line. It is out
/// of memory where `clap` was, and where there is none for that text.
pub(crate) fn refused_by_clap(alloc: Global, words: &[String], error: &Error) -> Words
    ensures memory { kind_of error.now ≡ ErrorKind.OutOfMemory → result ≡ Words.Memory }
    ensures help { IsHelp result → kind_of error.now ≡ ErrorKind.DisplayHelp }
    ensures version { IsVersion result → kind_of error.now ≡ ErrorKind.DisplayVersion }
    ensures bad { IsBad result → (kind_of error.now ≢ ErrorKind.DisplayHelp)
        × (kind_of error.now ≢ ErrorKind.DisplayVersion) }
    ensures owed { MatchOption (owed_of (kind_of error.now)) (result ≡ Words.Memory) (λ owed. (result ≡ Words.Memory)
        ⊎ IsToldAs owed result) }
{
    let Some(owed) = owed_for(error) else {
        return Words::Memory;
    };
    match owed_text(alloc, words, error, owed) {
        Ok(text) => words_of(owed, text),
        Err(_) => Words::Memory,
    }
}

/// The words that ask for help on what was asked, which the first word after the program's name says.
fn help_on(words: &[String]) -> &'static str {
    let command = words.get(1).map_or("", |word| word.as_str());
    match command {
        "batch" => "microloan batch --help",
        "serve" => "microloan serve --help",
        "collect" => "microloan collect --help",
        "report" => "microloan report --help",
        "schedule" => "microloan schedule --help",
        "why" => "microloan why --help",
        "audit" => "microloan audit --help",
        "upgrade" => "microloan upgrade --help",
        "archive" => "microloan archive --help",
        "ledger" => "microloan ledger --help",
        "portions" => "microloan portions --help",
        _ => "microloan --help",
    }
}

/// The first paragraph of an error's text, as one line.
fn one_line(alloc: Global, words: &[String], error: &Error) -> Result<String, AllocError> {
    let text = format!(in alloc; "{error}")?;
    let mut line = String::from_str(alloc, "microloan:")?;
    for part in text.as_str().lines().take_while(|part| !part.is_empty()) {
        line.push_str(" ")?;
        line.push_str(part.trim().trim_start_matches("error: "))?;
    }
    line.push_str("; see '")?;
    line.push_str(help_on(words))?;
    line.push_str("'")?;
    Ok(line)
}
