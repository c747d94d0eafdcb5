//! The text of an audit, and of a verdict.

ghost use Rattle.std.specs.Prelude.{◌≡◌, ◌++◌, Some, string_bytes, IfOk, OnOk, IsOkUnless};
ghost use Rattle.microloan_audit.specs.Lines.{finding_line};
ghost use Rattle.microloan_audit.specs.Text as spec;
ghost use Rattle.microloan_audit.specs.Unread.{unread_line};

use crate::archives::gap_line;
use crate::journal::journal_line;
use crate::line::finding_line;
use crate::played::{difference_line, leads_line, other_copy_line, stop_line, unplayed_line};
use crate::sums::sums_text;
use crate::unread::unread_line;
use mf_base::Fault;
use mf_store_audit::{Audit, BrokenJournal, Finding, Unread};
use mf_store_played::Played;
use mf_store_sound::Tables;
use mf_store_verdict::Verdict;
use std::alloc::Global;

/// What an audit prints where no journal was played: of a sound institution its sums, the word `sound` and a line for
/// each suspect entry, else lines that begin with `audit:`. The error is F20: out of memory, or sums that are too great
/// in all.
pub fn audit_text(alloc: Global, audit: &Audit) -> Result<String, Fault>
    ensures text { IfOk result (λ text. string_bytes text ≡ spec.audit_text audit.now) }
    ensures only { IsOkUnless result Fault.F20 }
{
    text_ending(alloc, audit, "sound")
}

/// What a verdict prints: of a sound institution its sums, a line that says what the play of its journal says, and a
/// line for each suspect entry, else lines that begin with `audit:`. The error is F20: out of memory, or sums that are
/// too great in all.
pub fn verdict_text(alloc: Global, verdict: &Verdict) -> Result<String, Fault>
    ensures text { IfOk result (λ text. string_bytes text ≡ spec.verdict_text verdict.now) }
    ensures only { IsOkUnless result Fault.F20 }
{
    match &verdict.played {
        None => audit_text(alloc, &verdict.audit),
        Some(played) => text_played(alloc, &verdict.audit, played),
    }
}

/// The same by what the play of the journal says.
fn text_played(alloc: Global, audit: &Audit, played: &Played) -> Result<String, Fault>
    ensures text { IfOk result (λ text. string_bytes text ≡ spec.text_played audit.now (Some played.now)) }
    ensures only { IsOkUnless result Fault.F20 }
{
    match played {
        Played::Leads(head) => {
            let last = leads_line(alloc, *head)?;
            text_ending(alloc, audit, last.as_str())
        }
        Played::NoFounding(head) => {
            let last = unplayed_line(alloc, *head)?;
            text_ending(alloc, audit, last.as_str())
        }
        Played::Stops { number, why } => {
            let line = stop_line(alloc, *number, *why)?;
            audit_line(alloc, line.as_str())
        }
        Played::Differs(difference) => {
            let line = difference_line(alloc, difference)?;
            audit_line(alloc, line.as_str())
        }
        Played::OtherCopy(head) => {
            let line = other_copy_line(alloc, *head)?;
            audit_line(alloc, line.as_str())
        }
        Played::Lacks(gap) => {
            let line = gap_line(alloc, *gap)?;
            audit_line(alloc, line.as_str())
        }
    }
}

/// What an audit prints, where this is the last line of a sound institution's text.
fn text_ending(alloc: Global, audit: &Audit, last: &str) -> Result<String, Fault>
    ensures text { IfOk result (λ text. string_bytes text ≡ spec.text_ending last.now audit.now) }
    ensures only { IsOkUnless result Fault.F20 }
{
    match audit {
        Audit::NoTables => audit_line(alloc, "the database has no tables"),
        Audit::OtherTables => audit_line(
            alloc,
            "the database has other tables than this program makes",
        ),
        Audit::Sound {
            version,
            tables,
            sums,
            suspects,
        } => {
            let mut text = sums_text(alloc, version.number(), sums, last)?;
            push_suspects(alloc, &mut text, tables, suspects)?;
            Ok(text)
        }
        Audit::Unsound {
            tables,
            findings,
            ..
        } => findings_text(alloc, tables, findings),
        Audit::Unreadable { unread, .. } => unread_text(alloc, unread),
        Audit::BrokenJournal(broken) => journal_text(alloc, *broken),
    }
}

/// A line of an audit.
#[tactic(auto, unfolding(crate::specs::Text::audit_line))]
fn audit_line(alloc: Global, words: &str) -> Result<String, Fault>
    ensures text { IfOk result (λ text. string_bytes text ≡ spec.audit_line words.now) }
    ensures only { IsOkUnless result Fault.F20 }
{
    Ok(format!(in alloc; "audit: {words}\n")?)
}

/// A line of a suspect entry.
#[tactic(auto, unfolding(crate::specs::Text::suspect_line))]
fn suspect_line(alloc: Global, words: &str) -> Result<String, Fault>
    ensures text { IfOk result (λ text. string_bytes text ≡ spec.suspect_line words.now) }
    ensures only { IsOkUnless result Fault.F20 }
{
    Ok(format!(in alloc; "suspect: {words}\n")?)
}

/// Writes a line for each suspect entry.
fn push_suspects(
    alloc: Global,
    text: &mut String,
    tables: &Tables,
    suspects: &[Finding],
) -> Result<(), Fault>
    ensures text { OnOk result (string_bytes text.new
        ≡ string_bytes text.old ++ spec.suspects_text tables.now suspects.now) }
    ensures only { IsOkUnless result Fault.F20 }
{
    for suspect in suspects {
        let line = finding_line(alloc, tables, *suspect)?;
        text.push_str(suspect_line(alloc, line.as_str())?.as_str())?;
    }
    Ok(())
}

/// A line for each row that no record can hold; or that there is one, where none is named.
fn unread_text(alloc: Global, unread: &[Unread]) -> Result<String, Fault>
    ensures text { IfOk result (λ text. string_bytes text ≡ spec.unread_text unread.now) }
    ensures only { IsOkUnless result Fault.F20 }
{
    if unread.is_empty() {
        return audit_line(alloc, "a row that can't be read");
    }
    unread_lines(alloc, unread)
}

/// A line for each row that no record can hold.
fn unread_lines(alloc: Global, unread: &[Unread]) -> Result<String, Fault>
    ensures text { IfOk result (λ text. string_bytes text ≡ spec.unread_lines unread.now) }
    ensures only { IsOkUnless result Fault.F20 }
{
    let mut text = String::new(alloc);
    for row in unread {
        push_unread(alloc, &mut text, row)?;
    }
    Ok(text)
}

/// Writes the line of a row that no record can hold.
fn push_unread(alloc: Global, text: &mut String, row: &Unread) -> Result<(), Fault>
    ensures text { OnOk result (string_bytes text.new
        ≡ string_bytes text.old ++ spec.audit_line (unread_line row.now)) }
    ensures only { IsOkUnless result Fault.F20 }
{
    let line = unread_line(alloc, row)?;
    text.push_str(audit_line(alloc, line.as_str())?.as_str())?;
    Ok(())
}

/// The line of a journal that the program cannot have written.
fn journal_text(alloc: Global, broken: BrokenJournal) -> Result<String, Fault>
    ensures text { IfOk result (λ text. string_bytes text ≡ spec.journal_text broken) }
    ensures only { IsOkUnless result Fault.F20 }
{
    audit_line(alloc, journal_line(alloc, broken)?.as_str())
}

/// A line for each finding.
fn findings_text(alloc: Global, tables: &Tables, findings: &[Finding]) -> Result<String, Fault>
    ensures text { IfOk result (λ text. string_bytes text ≡ spec.findings_text tables.now findings.now) }
    ensures only { IsOkUnless result Fault.F20 }
{
    let mut text = String::new(alloc);
    for finding in findings {
        push_finding(alloc, &mut text, tables, *finding)?;
    }
    Ok(text)
}

/// Writes the line of a finding.
fn push_finding(
    alloc: Global,
    text: &mut String,
    tables: &Tables,
    finding: Finding,
) -> Result<(), Fault>
    ensures text { OnOk result (string_bytes text.new
        ≡ string_bytes text.old ++ spec.audit_line (finding_line tables.now finding)) }
    ensures only { IsOkUnless result Fault.F20 }
{
    let line = finding_line(alloc, tables, finding)?;
    text.push_str(audit_line(alloc, line.as_str())?.as_str())?;
    Ok(())
}
