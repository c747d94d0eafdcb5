//! A command's options read from what clap found.

ghost use Rattle.std.specs.Prelude.{◌≡◌, ◌⊎◌, ◌↔◌, ◌≤◌, ℕ, IsTrue, IfOk, IfErr, Option, Ok, None};
ghost use Rattle.clap.specs.Words.{Text, found_of, rows_of};
ghost use Rattle.mf_base.specs.DayText.{last_entered_day};
ghost use Rattle.microloan_words.specs.Asked.{AreBatchWords, AreServeWords, AreCollectWords, AreStaffWords};
ghost use Rattle.microloan_words.specs.Asked.{AreFileWords, AreAuditWords, AreScheduleWords, IsWithinLimits};
ghost use Rattle.microloan_words.specs.Asked.{IsServeWithinLimits, AreUpgradeWords, IsToldAt};
ghost use Rattle.microloan_words.specs.Wrong.{IsFirstWrong, IsBatchWrong, IsCollectWrong, IsRight, serve_options};
ghost use Rattle.microloan_words.specs.Wrong.{staff_options, file_options, audit_options, schedule_options};
ghost use Rattle.microloan_words.specs.Wrong.{upgrade_options, archive_options, ledger_options, span_options};
ghost use Rattle.microloan_words.specs.Wrong.{form_options, IsSpanNamed, IsPortionsWrong};
ghost use Rattle.microloan_words.specs.Asked.{AreArchiveWords, AreLedgerWords, IsSpanAt, IsFormAt};
ghost use Rattle.microloan_words.specs.Asked.{ArePortionsWords, IsSpanIn};
ghost use Rattle.mf_office.specs.Texts.{IsCaller};
ghost use Rattle.microloan_words.specs.declared.asked.BatchWords.{BatchWords};
ghost use Rattle.microloan_words.specs.declared.asked.ServeWords.{ServeWords};
ghost use Rattle.microloan_words.specs.declared.asked.CollectWords.{CollectWords};
ghost use Rattle.microloan_words.specs.declared.asked.StaffWords.{StaffWords};
ghost use Rattle.microloan_words.specs.declared.asked.FileWords.{FileWords};
ghost use Rattle.microloan_words.specs.declared.asked.AuditWords.{AuditWords};
ghost use Rattle.microloan_words.specs.declared.asked.UpgradeWords.{UpgradeWords};
ghost use Rattle.microloan_words.specs.declared.asked.ArchiveWords.{ArchiveWords};
ghost use Rattle.microloan_words.specs.declared.asked.LedgerForm.{LedgerForm};
ghost use Rattle.microloan_words.specs.declared.asked.LedgerWords.{LedgerWords};
ghost use Rattle.microloan_words.specs.declared.asked.DaySpan.{DaySpan};
ghost use Rattle.microloan_words.specs.declared.asked.PortionsWords.{PortionsWords};
ghost use Rattle.microloan_words.specs.declared.asked.ScheduleWords.{ScheduleWords};

use crate::asked::{
    ArchiveWords, AuditWords, BatchWords, CollectWords, DaySpan, FilePath, FileWords, LedgerForm,
    LedgerWords, PortionsWords, ScheduleWords, ServeWords, StaffWords, ToldText, UpgradeWords,
};
use crate::values::{
    MOST_PATIENCE, connections_at, count_at, day_at, file_at, flag_at, frequency_at, method_at,
    number_at, path_at, port_at, staff_at, text_at,
};
use clap::ArgMatches;
use mf_base::Day;
use mf_catalog::{GREATEST_AMOUNT, GREATEST_RATE, MOST_GRACE, MOST_PERIODS, longest_step};
use mf_wire_lines::may_be_told;

/// An option whose text isn't what the option wants.
#[derive(Clone, Copy, PartialEq, Eq)]
pub(crate) enum Wrong {
    File,
    Existing,
    Journal,
    Told,
    ToldOfLines,
    Lists,
    All,
    /// A copy and a folder of archives are named.
    Beginning,
    From,
    To,
    /// The first day of a span is after the last.
    Span,
    Csv,
    Beancount,
    /// Two forms are named.
    Form,
    Accrual,
    Port,
    Count,
    Patience,
    Staff,
    Method,
    Principal,
    Rate,
    Periods,
    Day,
    Frequency,
    Every,
    PrincipalGrace,
    InterestGrace,
    Into,
}

/// The options of `batch`, or the first that isn't what it should be.
pub(crate) fn batch_words<'a>(options: &ArgMatches<'a>) -> Result<BatchWords<'a>, Wrong>
    ensures read { IfOk result (λ asked. AreBatchWords (rows_of (found_of options.now)) asked) }
    ensures limits { IfOk result (λ asked. asked.day ≤ last_entered_day) }
    ensures every { (asked : BatchWords) → AreBatchWords (rows_of (found_of options.now)) asked → result ≡ Ok asked }
    ensures wrong { IfErr result (IsBatchWrong (rows_of (found_of options.now))) }
{
    let file = file_at(options);
    let day = day_at(options, "day").ok_or(Wrong::Day)?;
    let existing = flag_at(options, "existing").ok_or(Wrong::Existing)?;
    let journal = flag_at(options, "journal").ok_or(Wrong::Journal)?;
    let told = flag_at(options, "told").ok_or(Wrong::Told)?;
    let lists = flag_at(options, "lists").ok_or(Wrong::Lists)?;
    if existing && file.is_none() {
        return Err(Wrong::Existing);
    }
    if journal && file.is_none() {
        return Err(Wrong::Journal);
    }
    if told && !journal {
        return Err(Wrong::Told);
    }
    if lists && file.is_none() {
        return Err(Wrong::Lists);
    }
    Ok(BatchWords {
        file,
        day,
        existing,
        journal,
        told,
        lists,
    })
}

/// The options of `serve`, or the first that isn't what it should be.
pub(crate) fn serve_words<'a>(options: &ArgMatches<'a>) -> Result<ServeWords<'a>, Wrong>
    ensures read { IfOk result (λ asked. AreServeWords (rows_of (found_of options.now)) asked) }
    ensures limits { IfOk result IsServeWithinLimits }
    ensures every { (asked : ServeWords) → AreServeWords (rows_of (found_of options.now)) asked → result ≡ Ok asked }
    ensures wrong { IfErr result (IsFirstWrong (rows_of (found_of options.now)) serve_options) }
{
    let file = file_at(options).ok_or(Wrong::File)?;
    let port = port_at(options).ok_or(Wrong::Port)?;
    let count = connections_at(options).ok_or(Wrong::Count)?;
    let patience = count_at(options, "patience", 1, MOST_PATIENCE).ok_or(Wrong::Patience)?;
    let day = day_at(options, "day").ok_or(Wrong::Day)?;
    let existing = flag_at(options, "existing").ok_or(Wrong::Existing)?;
    let journal = flag_at(options, "journal").ok_or(Wrong::Journal)?;
    let lists = flag_at(options, "lists").ok_or(Wrong::Lists)?;
    Ok(ServeWords {
        file,
        port,
        count,
        patience,
        day,
        existing,
        journal,
        lists,
    })
}

/// What is told of each line of a sheet, if anything is, where it may be told.
fn told_at<'a>(options: &ArgMatches<'a>) -> Result<Option<ToldText<'a>>, Wrong>
    ensures read { IfOk result (IsToldAt (rows_of (found_of options.now))) }
    ensures every { (told : Option Text) → IsToldAt (rows_of (found_of options.now)) told → result ≡ Ok told }
    ensures wrong { IfErr result (λ wrong. (wrong ≡ Wrong.ToldOfLines)
        × (IsRight (rows_of (found_of options.now)) Wrong.ToldOfLines → ⊥)) }
{
    let Some(text) = text_at(options, "told") else {
        return Ok(None);
    };
    if text.is_empty() || !may_be_told(text.as_bytes()) {
        return Err(Wrong::ToldOfLines);
    }
    Ok(Some(ToldText::new(text)))
}

/// The options of `collect`, or the first that isn't what it should be.
pub(crate) fn collect_words<'a>(options: &ArgMatches<'a>) -> Result<CollectWords<'a>, Wrong>
    ensures read { IfOk result (λ asked. AreCollectWords (rows_of (found_of options.now)) asked) }
    ensures limits { IfOk result (λ asked. IsCaller asked.staff) }
    ensures every { (asked : CollectWords) → AreCollectWords (rows_of (found_of options.now)) asked
        → result ≡ Ok asked }
    ensures wrong { IfErr result (IsCollectWrong (rows_of (found_of options.now))) }
{
    let StaffWords {
        file,
        staff,
        existing,
    } = match staff_words(options) {
        Ok(asked) => asked,
        Err(wrong) => return Err(wrong),
    };
    let journal = flag_at(options, "journal").ok_or(Wrong::Journal)?;
    let told = match told_at(options) {
        Ok(told) => told,
        Err(wrong) => return Err(wrong),
    };
    if told.is_some() && !journal {
        return Err(Wrong::Told);
    }
    Ok(CollectWords {
        file,
        staff,
        existing,
        journal,
        told,
    })
}

/// The options of `report`, or the first that isn't what it should be.
pub(crate) fn staff_words<'a>(options: &ArgMatches<'a>) -> Result<StaffWords<'a>, Wrong>
    ensures read { IfOk result (λ asked. AreStaffWords (rows_of (found_of options.now)) asked) }
    ensures limits { IfOk result (λ asked. IsCaller asked.staff) }
    ensures every { (asked : StaffWords) → AreStaffWords (rows_of (found_of options.now)) asked → result ≡ Ok asked }
    ensures wrong { IfErr result (IsFirstWrong (rows_of (found_of options.now)) staff_options) }
{
    let file = file_at(options).ok_or(Wrong::File)?;
    let staff = staff_at(options).ok_or(Wrong::Staff)?;
    let existing = flag_at(options, "existing").ok_or(Wrong::Existing)?;
    Ok(StaffWords {
        file,
        staff,
        existing,
    })
}

/// The options of a command over a file alone, or the first that isn't what it should be.
pub(crate) fn file_words<'a>(options: &ArgMatches<'a>) -> Result<FileWords<'a>, Wrong>
    ensures read { IfOk result (λ asked. AreFileWords (rows_of (found_of options.now)) asked) }
    ensures every { (asked : FileWords) → AreFileWords (rows_of (found_of options.now)) asked → result ≡ Ok asked }
    ensures wrong { IfErr result (IsFirstWrong (rows_of (found_of options.now)) file_options) }
{
    match file_at(options) {
        Some(file) => Ok(FileWords { file }),
        None => Err(Wrong::File),
    }
}

/// Whether no copy is named, or no folder of archives.
fn is_one_beginning(copy: &Option<FilePath<'_>>, archives: &Option<FilePath<'_>>) -> bool
    ensures { IsTrue result ↔ ((copy.now ≡ None) ⊎ (archives.now ≡ None)) }
{
    match (copy, archives) {
        (Some(_), Some(_)) => false,
        _ => true,
    }
}

/// The options of `audit`, or the first that isn't what it should be.
pub(crate) fn audit_words<'a>(options: &ArgMatches<'a>) -> Result<AuditWords<'a>, Wrong>
    ensures read { IfOk result (λ asked. AreAuditWords (rows_of (found_of options.now)) asked) }
    ensures every { (asked : AuditWords) → AreAuditWords (rows_of (found_of options.now)) asked → result ≡ Ok asked }
    ensures wrong { IfErr result (IsFirstWrong (rows_of (found_of options.now)) audit_options) }
{
    let file = file_at(options).ok_or(Wrong::File)?;
    let all = flag_at(options, "all").ok_or(Wrong::All)?;
    let from = path_at(options, "from");
    let archives = path_at(options, "archives");
    if !is_one_beginning(&from, &archives) {
        return Err(Wrong::Beginning);
    }
    Ok(AuditWords {
        file,
        all,
        from,
        archives,
    })
}

/// The options of `upgrade`, or the first that isn't what it should be.
pub(crate) fn upgrade_words<'a>(options: &ArgMatches<'a>) -> Result<UpgradeWords<'a>, Wrong>
    ensures read { IfOk result (λ asked. AreUpgradeWords (rows_of (found_of options.now)) asked) }
    ensures every { (asked : UpgradeWords) → AreUpgradeWords (rows_of (found_of options.now)) asked
        → result ≡ Ok asked }
    ensures wrong { IfErr result (IsFirstWrong (rows_of (found_of options.now)) upgrade_options) }
{
    let file = file_at(options).ok_or(Wrong::File)?;
    let existing = flag_at(options, "existing").ok_or(Wrong::Existing)?;
    let journal = flag_at(options, "journal").ok_or(Wrong::Journal)?;
    Ok(UpgradeWords {
        file,
        existing,
        journal,
    })
}

/// The options of `archive`, or the first that isn't what it should be.
pub(crate) fn archive_words<'a>(options: &ArgMatches<'a>) -> Result<ArchiveWords<'a>, Wrong>
    ensures read { IfOk result (λ asked. AreArchiveWords (rows_of (found_of options.now)) asked) }
    ensures limits { IfOk result (λ asked. asked.to ≤ last_entered_day) }
    ensures every { (asked : ArchiveWords) → AreArchiveWords (rows_of (found_of options.now)) asked
        → result ≡ Ok asked }
    ensures wrong { IfErr result (IsFirstWrong (rows_of (found_of options.now)) archive_options) }
{
    let file = file_at(options).ok_or(Wrong::File)?;
    let existing = flag_at(options, "existing").ok_or(Wrong::Existing)?;
    let to = day_at(options, "to").ok_or(Wrong::To)?;
    let into = path_at(options, "into").ok_or(Wrong::Into)?;
    Ok(ArchiveWords {
        file,
        existing,
        to,
        into,
    })
}

/// The span of days that is asked for, or the first option that isn't what it should be.
fn span_at(options: &ArgMatches<'_>) -> Result<(Day, Day), Wrong>
    ensures read { IfOk result (λ span. IsSpanAt (rows_of (found_of options.now)) span.0 span.1) }
    ensures every { (first last : ℕ) → IsSpanAt (rows_of (found_of options.now)) first last
        → result ≡ Ok (first, last) }
    ensures wrong { IfErr result (IsFirstWrong (rows_of (found_of options.now)) span_options) }
{
    let first = day_at(options, "from").ok_or(Wrong::From)?;
    let last = day_at(options, "to").ok_or(Wrong::To)?;
    if first > last {
        return Err(Wrong::Span);
    }
    Ok((first, last))
}

/// What is to read the books, or the first option that isn't what it should be.
fn form_at(options: &ArgMatches<'_>) -> Result<LedgerForm, Wrong>
    ensures read { IfOk result (λ form. IsFormAt (rows_of (found_of options.now)) form) }
    ensures every { (form : LedgerForm) → IsFormAt (rows_of (found_of options.now)) form → result ≡ Ok form }
    ensures wrong { IfErr result (IsFirstWrong (rows_of (found_of options.now)) form_options) }
{
    let csv = flag_at(options, "csv").ok_or(Wrong::Csv)?;
    let beancount = flag_at(options, "beancount").ok_or(Wrong::Beancount)?;
    match (csv, beancount) {
        (false, false) => Ok(LedgerForm::Hledger),
        (false, true) => Ok(LedgerForm::Beancount),
        (true, false) => Ok(LedgerForm::Sheet),
        (true, true) => Err(Wrong::Form),
    }
}

/// The span of days, where one is asked for, or the first of its options that isn't what it should be.
fn span_in(options: &ArgMatches<'_>) -> Result<Option<DaySpan>, Wrong>
    ensures read { IfOk result (IsSpanIn (rows_of (found_of options.now))) }
    ensures every { (span : Option DaySpan) → IsSpanIn (rows_of (found_of options.now)) span → result ≡ Ok span }
    ensures wrong { IfErr result (λ wrong. IsSpanNamed (rows_of (found_of options.now))
        × IsFirstWrong (rows_of (found_of options.now)) span_options wrong) }
{
    if text_at(options, "from").is_none() && text_at(options, "to").is_none() {
        return Ok(None);
    }
    match span_at(options) {
        Ok((first, last)) => Ok(Some(DaySpan { first, last })),
        Err(wrong) => Err(wrong),
    }
}

/// The options of `portions`, or the first that isn't what it should be.
pub(crate) fn portions_words<'a>(options: &ArgMatches<'a>) -> Result<PortionsWords<'a>, Wrong>
    ensures read { IfOk result (λ asked. ArePortionsWords (rows_of (found_of options.now)) asked) }
    ensures every { (asked : PortionsWords) → ArePortionsWords (rows_of (found_of options.now)) asked
        → result ≡ Ok asked }
    ensures wrong { IfErr result (IsPortionsWrong (rows_of (found_of options.now))) }
{
    let file = file_at(options).ok_or(Wrong::File)?;
    let existing = flag_at(options, "existing").ok_or(Wrong::Existing)?;
    let span = match span_in(options) {
        Ok(span) => span,
        Err(wrong) => return Err(wrong),
    };
    Ok(PortionsWords {
        file,
        existing,
        span,
    })
}

/// The options of `ledger`, or the first that isn't what it should be.
pub(crate) fn ledger_words<'a>(options: &ArgMatches<'a>) -> Result<LedgerWords<'a>, Wrong>
    ensures read { IfOk result (λ asked. AreLedgerWords (rows_of (found_of options.now)) asked) }
    ensures limits { IfOk result (λ asked. asked.first ≤ asked.last) }
    ensures every { (asked : LedgerWords) → AreLedgerWords (rows_of (found_of options.now)) asked
        → result ≡ Ok asked }
    ensures wrong { IfErr result (IsFirstWrong (rows_of (found_of options.now)) ledger_options) }
{
    let file = file_at(options).ok_or(Wrong::File)?;
    let existing = flag_at(options, "existing").ok_or(Wrong::Existing)?;
    let (first, last) = match span_at(options) {
        Ok(span) => span,
        Err(wrong) => return Err(wrong),
    };
    let form = match form_at(options) {
        Ok(form) => form,
        Err(wrong) => return Err(wrong),
    };
    let accrual = flag_at(options, "accrual").ok_or(Wrong::Accrual)?;
    let names = path_at(options, "names");
    let copy = path_at(options, "from-copy");
    Ok(LedgerWords {
        file,
        existing,
        first,
        last,
        form,
        accrual,
        names,
        copy,
    })
}

/// The options of `schedule`, or the first that isn't what it should be.
pub(crate) fn schedule_words(options: &ArgMatches<'_>) -> Result<ScheduleWords, Wrong>
    ensures read { IfOk result (λ asked. AreScheduleWords (rows_of (found_of options.now)) asked) }
    ensures limits { IfOk result IsWithinLimits }
    ensures every { (asked : ScheduleWords) → AreScheduleWords (rows_of (found_of options.now)) asked
        → result ≡ Ok asked }
    ensures wrong { IfErr result (IsFirstWrong (rows_of (found_of options.now)) schedule_options) }
{
    let method = method_at(options).ok_or(Wrong::Method)?;
    let principal = number_at(options, "principal", 1, GREATEST_AMOUNT).ok_or(Wrong::Principal)?;
    let rate = count_at(options, "rate", 0, GREATEST_RATE).ok_or(Wrong::Rate)?;
    let periods = count_at(options, "periods", 1, MOST_PERIODS).ok_or(Wrong::Periods)?;
    let day = day_at(options, "day").ok_or(Wrong::Day)?;
    let frequency = frequency_at(options).ok_or(Wrong::Frequency)?;
    let every = count_at(options, "every", 1, longest_step(frequency)).ok_or(Wrong::Every)?;
    let principal_grace = count_at(options, "principal-grace", 0, MOST_GRACE).ok_or(
        Wrong::PrincipalGrace,
    )?;
    let interest_grace = count_at(options, "interest-grace", 0, MOST_GRACE).ok_or(
        Wrong::InterestGrace,
    )?;
    Ok(ScheduleWords {
        method,
        principal,
        rate,
        periods,
        day,
        frequency,
        every,
        principal_grace,
        interest_grace,
    })
}
