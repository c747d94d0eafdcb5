//! What the program says of its end, and the status that it ends with. Where standard error can't be written, the
//! status alone says it.

ghost use Rattle.std.specs.Prelude.{◌≡◌, IsErr};
ghost use Rattle.microloan.specs.Status.{IsStatusOf, IsPrintStatus, IsWordsStatus};

use mf_base::{Cause, Fault, StreamFault};
use mf_play::Stop;
use microloan_commands::SheetFault;
use microloan_words::Words;
use std::io::{IsTerminal, Write};
use std::{fmt, io};

/// Done, refused requests included.
pub const DONE: u8 = 0;
/// A fault, which standard error names.
pub const FAULT: u8 = 1;
/// The words ask for nothing that the program does.
const BAD_WORDS: u8 = 2;

/// Tells the person at a terminal what the program does. Where standard error is no terminal, nothing is said.
pub fn tell_person(rt: &HostRuntime, doing: impl fmt::Display + Drop) {
    if rt.stderr().is_terminal() {
        let _said = rt.eprintln(doing);
    }
}

/// Tells the person at a terminal that a file is checked.
pub fn tell_checking(rt: &HostRuntime, file: &str) {
    tell_person(rt, format_args!("checking {file}"));
}

/// Tells the person at a terminal that request lines are read from it.
pub fn tell_reading(rt: &HostRuntime) {
    if rt.stdin().is_terminal() {
        tell_person(rt, "reading request lines until Ctrl-D");
    }
}

/// Says which fault ended a run, if one did, and gives the program's status.
pub fn tell_end<R: Eprint>(rt: &R, ended: &Result<u64, StreamFault>) -> u8
    ensures of { IsStatusOf ended.now result }
    ensures status { IsPrintStatus result }
{
    match ended {
        Ok(_) => DONE,
        Err(fault) => tell_cause(rt, fault.cause),
    }
}

/// Says why a sheet was not collected to its end, if it wasn't, and gives the program's status.
pub fn tell_sheet<R: Eprint>(rt: &R, ended: &Result<(), SheetFault>) -> u8
    ensures of { IsStatusOf ended.now result }
    ensures status { IsPrintStatus result }
{
    match ended {
        Ok(()) => DONE,
        Err(SheetFault::TooLong) => tell_refusal(rt, Fault::F1),
        Err(SheetFault::Stream(fault)) => tell_cause(rt, fault.cause),
    }
}

/// Says what is wrong with words, or the help or the version that they ask for, and gives the program's status.
pub fn refuse_words<R: Print + Eprint>(rt: &R, words: Words) -> u8
    ensures { IsWordsStatus words result }
{
    match words {
        Words::Help(text) | Words::Version(text) => print_text(rt, text),
        Words::Bad(line) => {
            let _said = rt.eprintln(line);
            BAD_WORDS
        }
        Words::Memory => tell_cause(rt, Cause::Memory),
    }
}

/// Prints a text, and gives the program's status.
pub fn print_text<R: Print + Eprint>(rt: &R, text: String) -> u8
    ensures { IsPrintStatus result }
{
    tell_printed(rt, &rt.print(text))
}

/// Prints a line, and gives the program's status.
pub fn print_line<R: Print + Eprint>(rt: &R, line: impl fmt::Display + Drop) -> u8
    ensures { IsPrintStatus result }
{
    tell_printed(rt, &rt.println(line))
}

/// Prints bytes, and gives the program's status.
pub fn print_bytes<R: Print + Eprint>(rt: &R, bytes: &[u8]) -> u8
    ensures { IsPrintStatus result }
{
    tell_printed(rt, &io::writer(rt).write_all(bytes))
}

/// Prints a text, or says why there is none, and gives the program's status.
pub fn print_made<R: Print + Eprint>(rt: &R, made: Result<String, Fault>) -> u8
    ensures status { IsPrintStatus result }
    ensures refused { IsErr made → result ≡ 1 }
{
    match made {
        Ok(text) => print_text(rt, text),
        Err(fault) => tell_refusal(rt, fault),
    }
}

/// Says that a text was not printed, where it wasn't, and gives the program's status.
fn tell_printed<R: Eprint>(rt: &R, printed: &io::Result<()>) -> u8
    ensures { IsStatusOf printed.now result }
{
    match printed {
        Ok(()) => DONE,
        Err(_) => tell_cause(rt, Cause::Write),
    }
}

/// Says by its number why the work was refused, and gives the program's status.
pub fn tell_refusal<R: Eprint>(rt: &R, fault: Fault) -> u8
    ensures { result ≡ 1 }
{
    tell_fault(rt, format_args!("{fault:?}"))
}

/// Says that a file that is to hold an institution holds none, and gives the program's status.
pub fn tell_no_institution<R: Eprint>(rt: &R) -> u8
    ensures { result ≡ 1 }
{
    tell_fault(rt, "no institution")
}

/// Says that the institution in a file that is to keep a journal keeps none, and gives the program's status.
pub fn tell_no_journal<R: Eprint>(rt: &R) -> u8
    ensures { result ≡ 1 }
{
    tell_fault(rt, "no journal")
}

/// Says that a journal doesn't begin at the founding of an institution, and gives the program's status.
pub fn tell_no_founding<R: Eprint>(rt: &R) -> u8
    ensures { result ≡ 1 }
{
    tell_fault(rt, "the journal doesn't begin at a founding")
}

/// Says that the line of this number doesn't play, and why, and gives the program's status.
pub fn tell_stop<R: Eprint>(rt: &R, number: u64, why: Stop) -> u8
    ensures { result ≡ 1 }
{
    let why = words_of_stop(why);
    tell_fault(
        rt,
        format_args!("line {number} of the journal doesn't play: {why}"),
    )
}

/// Why a line of a journal doesn't play, in words.
fn words_of_stop(why: Stop) -> &'static str {
    match why {
        Stop::NoRequest => "it tells no request",
        Stop::OtherDay => "its day isn't the business day",
        Stop::Refused => "its request is refused",
        Stop::ChangesNothing => "its request changes nothing",
        Stop::NamesOther => "it names another office or loan than the reply",
    }
}

/// Says what failed, and gives the program's status.
pub fn tell_cause<R: Eprint>(rt: &R, cause: Cause) -> u8
    ensures { result ≡ 1 }
{
    tell_fault(rt, name_of(cause))
}

/// The name that standard error gives to a cause.
fn name_of(cause: Cause) -> &'static str {
    match cause {
        Cause::Read => "read",
        Cause::Write => "write",
        Cause::Memory => "memory",
    }
}

/// Says which fault it was, and gives the program's status.
pub fn tell_fault<R: Eprint>(rt: &R, fault: impl fmt::Display + Drop) -> u8
    ensures { result ≡ 1 }
{
    let _said = rt.eprintln(format_args!("microloan: {fault}"));
    FAULT
}
