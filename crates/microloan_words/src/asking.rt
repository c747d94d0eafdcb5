//! The program's words read as a command.

ghost use Rattle.std.specs.Prelude.{◌≡◌, ◌≢◌, ◌⊎◌, List, [], ◌∷◌, map, true, is_some, codes, Some, IfSome, IfOk, IfErr};
ghost use Rattle.std.specs.Prelude.{IsErrOf, string_bytes, Ok, Err};
ghost use Rattle.clap.specs.Words.{Row, found_of, rows_of, subcommand_of, subcommand_rows_of, takes, kind_of, HasKind};
ghost use Rattle.clap.specs.Words.{IsAmong};
ghost use Rattle.microloan_words.specs.Options.{microloan_app};
ghost use Rattle.microloan_words.specs.Asked.{HasLimits, IsAsked, IsHelp, IsVersion, IsBad, Reads, faults_of};
ghost use Rattle.microloan_words.specs.declared.asked.Command.{Command};

use crate::asked::{Command, Words};
use crate::options::microloan_command;
use crate::reading::{
    archive_words, audit_words, batch_words, collect_words, file_words, ledger_words,
    portions_words, schedule_words, serve_words, staff_words, upgrade_words,
};
use crate::refusal::{no_command, refused_by_clap, wrong_option};
use clap::error::ErrorKind;
use clap::{ArgMatches, Error};
use std::alloc::Global;

/// What `clap` reads from the words.
fn matches_of<'a>(alloc: Global, words: &'a [String]) -> Result<ArgMatches<'a>, Error>
    ensures ok { IfOk result (λ m. subcommand_rows_of m ≡ subcommand_of microloan_app
        (map string_bytes words.entry.now)) }
    ensures err { IfErr result (λ e. takes microloan_app (map string_bytes words.entry.now) ≡ true
        → kind_of e ≡ ErrorKind.OutOfMemory) }
    ensures sound { IfOk result (λ _. faults_of (map string_bytes words.entry.now) ≡ []) }
    ensures kinds { IfErr result (HasKind (faults_of (map string_bytes words.entry.now))) }
{
    let command = microloan_command(alloc)?;
    command.try_get_matches_from(words)
}

/// The options of a command, where it is the one that `clap` found.
fn options_of<'m, 'a>(matches: &'m ArgMatches<'a>, name: &str) -> Option<&'m ArgMatches<'a>>
    ensures found { IfSome result (λ m. subcommand_rows_of matches.now ≡ Some (name.now, rows_of (found_of m.now))) }
    ensures none { (rows : List Row) → subcommand_rows_of matches.now ≡ Some (name.now, rows) → is_some result ≡ true }
{
    matches.subcommand_matches(name)
}

fn batch_asked<'a>(alloc: Global, options: &ArgMatches<'a>) -> Result<Command<'a>, Words>
    ensures { Reads (Some (codes "batch", rows_of (found_of options.now))) result }
{
    match batch_words(options) {
        Ok(asked) => Ok(Command::Batch(asked)),
        Err(wrong) => Err(wrong_option(alloc, "batch", wrong)),
    }
}

fn serve_asked<'a>(alloc: Global, options: &ArgMatches<'a>) -> Result<Command<'a>, Words>
    ensures { Reads (Some (codes "serve", rows_of (found_of options.now))) result }
{
    match serve_words(options) {
        Ok(asked) => Ok(Command::Serve(asked)),
        Err(wrong) => Err(wrong_option(alloc, "serve", wrong)),
    }
}

fn collect_asked<'a>(alloc: Global, options: &ArgMatches<'a>) -> Result<Command<'a>, Words>
    ensures { Reads (Some (codes "collect", rows_of (found_of options.now))) result }
{
    match collect_words(options) {
        Ok(asked) => Ok(Command::Collect(asked)),
        Err(wrong) => Err(wrong_option(alloc, "collect", wrong)),
    }
}

fn report_asked<'a>(alloc: Global, options: &ArgMatches<'a>) -> Result<Command<'a>, Words>
    ensures { Reads (Some (codes "report", rows_of (found_of options.now))) result }
{
    match staff_words(options) {
        Ok(asked) => Ok(Command::Report(asked)),
        Err(wrong) => Err(wrong_option(alloc, "report", wrong)),
    }
}

fn schedule_asked<'a>(alloc: Global, options: &ArgMatches<'a>) -> Result<Command<'a>, Words>
    ensures { Reads (Some (codes "schedule", rows_of (found_of options.now))) result }
{
    match schedule_words(options) {
        Ok(asked) => Ok(Command::Schedule(asked)),
        Err(wrong) => Err(wrong_option(alloc, "schedule", wrong)),
    }
}

fn why_asked<'a>(alloc: Global, options: &ArgMatches<'a>) -> Result<Command<'a>, Words>
    ensures { Reads (Some (codes "why", rows_of (found_of options.now))) result }
{
    match file_words(options) {
        Ok(asked) => Ok(Command::Why(asked)),
        Err(wrong) => Err(wrong_option(alloc, "why", wrong)),
    }
}

fn audit_asked<'a>(alloc: Global, options: &ArgMatches<'a>) -> Result<Command<'a>, Words>
    ensures { Reads (Some (codes "audit", rows_of (found_of options.now))) result }
{
    match audit_words(options) {
        Ok(asked) => Ok(Command::Audit(asked)),
        Err(wrong) => Err(wrong_option(alloc, "audit", wrong)),
    }
}

fn upgrade_asked<'a>(alloc: Global, options: &ArgMatches<'a>) -> Result<Command<'a>, Words>
    ensures { Reads (Some (codes "upgrade", rows_of (found_of options.now))) result }
{
    match upgrade_words(options) {
        Ok(asked) => Ok(Command::Upgrade(asked)),
        Err(wrong) => Err(wrong_option(alloc, "upgrade", wrong)),
    }
}

fn archive_asked<'a>(alloc: Global, options: &ArgMatches<'a>) -> Result<Command<'a>, Words>
    ensures { Reads (Some (codes "archive", rows_of (found_of options.now))) result }
{
    match archive_words(options) {
        Ok(asked) => Ok(Command::Archive(asked)),
        Err(wrong) => Err(wrong_option(alloc, "archive", wrong)),
    }
}

fn ledger_asked<'a>(alloc: Global, options: &ArgMatches<'a>) -> Result<Command<'a>, Words>
    ensures { Reads (Some (codes "ledger", rows_of (found_of options.now))) result }
{
    match ledger_words(options) {
        Ok(asked) => Ok(Command::Ledger(asked)),
        Err(wrong) => Err(wrong_option(alloc, "ledger", wrong)),
    }
}

fn portions_asked<'a>(alloc: Global, options: &ArgMatches<'a>) -> Result<Command<'a>, Words>
    ensures { Reads (Some (codes "portions", rows_of (found_of options.now))) result }
{
    match portions_words(options) {
        Ok(asked) => Ok(Command::Portions(asked)),
        Err(wrong) => Err(wrong_option(alloc, "portions", wrong)),
    }
}

/// What the command asks for that `clap` found.
fn command_asked<'a>(alloc: Global, matches: &ArgMatches<'a>) -> Result<Command<'a>, Words>
    ensures { Reads (subcommand_rows_of matches.now) result }
{
    if let Some(options) = options_of(matches, "batch") {
        return batch_asked(alloc, options);
    }
    if let Some(options) = options_of(matches, "serve") {
        return serve_asked(alloc, options);
    }
    if let Some(options) = options_of(matches, "collect") {
        return collect_asked(alloc, options);
    }
    if let Some(options) = options_of(matches, "report") {
        return report_asked(alloc, options);
    }
    if let Some(options) = options_of(matches, "schedule") {
        return schedule_asked(alloc, options);
    }
    if let Some(options) = options_of(matches, "why") {
        return why_asked(alloc, options);
    }
    if let Some(options) = options_of(matches, "audit") {
        return audit_asked(alloc, options);
    }
    if let Some(options) = options_of(matches, "upgrade") {
        return upgrade_asked(alloc, options);
    }
    if let Some(options) = options_of(matches, "archive") {
        return archive_asked(alloc, options);
    }
    if let Some(options) = options_of(matches, "ledger") {
        return ledger_asked(alloc, options);
    }
    match options_of(matches, "portions") {
        Some(options) => portions_asked(alloc, options),
        None => Err(no_command(alloc)),
    }
}

/// What the words ask for; the first of them is the program's own name.
///
/// Words that `clap` takes, and whose options are as they should be, are refused only when out of memory. Help is told
/// only where `clap` finds that it is asked for, and so is the version; where either is all it finds, the words are not
/// told to be wrong.
pub fn command<'a>(alloc: Global, words: &'a [String]) -> Result<Command<'a>, Words>
    ensures asked { IfOk result (IsAsked (map string_bytes words.entry.now)) }
    ensures limits { IfOk result HasLimits }
    ensures every { (asked : Command) → takes microloan_app (map string_bytes words.entry.now) ≡ true →
        IsAsked (map string_bytes words.entry.now) asked → (result ≡ Ok asked) ⊎ (result ≡ Err Words.Memory) }
    ensures help { IfErr result (λ refusal. IsHelp refusal
        → IsAmong ErrorKind.DisplayHelp (faults_of (map string_bytes words.entry.now))) }
    ensures version { IfErr result (λ refusal. IsVersion refusal
        → IsAmong ErrorKind.DisplayVersion (faults_of (map string_bytes words.entry.now))) }
    ensures bad { IfErr result (λ refusal. IsBad refusal →
        (faults_of (map string_bytes words.entry.now) ≢ ErrorKind.DisplayHelp ∷ [])
        × (faults_of (map string_bytes words.entry.now) ≢ ErrorKind.DisplayVersion ∷ [])) }
{
    let matches = match matches_of(alloc, words) {
        Ok(matches) => matches,
        Err(error) => return Err(refused_by_clap(alloc, words, &error)),
    };
    command_asked(alloc, &matches)
}
