//! The findings: which rows of the tables break which conditions.

ghost use Rattle.std.specs.Prelude.{◌≡◌, ◌≤◌, ◌↔◌, ℕ, ◌∷◌, List, IsTrue, true, false, [], length, OnOk, IfOk, IfErr};
ghost use Rattle.mf_base.specs.DayText.{last_entered_day};
ghost use Rattle.mf_base.specs.declared.fault.Fault.TheVariants.{F20};
ghost use Rattle.mf_store_schema.specs.Versions.{number_of};
ghost use Rattle.mf_store_schema.specs.declared.versions.Version.{Version};
ghost use Rattle.mf_store_sound.specs.Sound.{AreOfSoundAt};
ghost use Rattle.mf_store_audit.specs.Findings.{Adds, AllBreak, AreFindings, IsToday};
ghost use Rattle.mf_store_audit.specs.Findings.{found_in_catalogue, found_in_loans, found_in_offices};
ghost use Rattle.mf_store_audit.specs.Findings.{found_in_rows};
ghost use Rattle.mf_store_audit.specs.Findings.{told_of_head, told_of_meta};

use crate::accounts::add_accounts;
use crate::entries::EntrySetting;
use crate::finding::Finding;
use crate::loans::LoanSetting;
use crate::offices::{OfficeSetting, is_office};
use crate::places::add_found;
use mf_base::{Day, Fault};
use mf_store_schema::Version;
use mf_store_sound::{Tables, business_day, is_sound};
use std::alloc::Global;

/// The number of the head office.
const HEAD: u32 = 1;

/// The business day that the tables tell; where they tell none, the last that can be entered, so that no day is after
/// it.
fn today_of(version: Version, tables: &Tables) -> Day
    ensures today { IsToday (number_of version) tables.now.meta result }
    ensures only { (today : ℕ) → IsToday (number_of version) tables.now.meta today → today ≡ result }
    ensures entered { result ≤ last_entered_day }
{
    match business_day(version.number(), &tables.meta) {
        Some(today) => today,
        None => Day::last_entered(),
    }
}

/// Tells where there is not one row of meta. Nothing was found before.
fn add_meta_rows(tables: &Tables, findings: &mut Vec<Finding>) -> Result<(), Fault>
    requires { findings.old.items ≡ [] }
    ensures told { OnOk result (findings.new.items ≡ told_of_meta tables.now.meta) }
    ensures gives_up { IfErr result (λ fault. fault ≡ F20) }
{
    if tables.meta.len() != 1 {
        findings.push(Finding::MetaRows)?;
    }
    Ok(())
}

/// Adds what is found of meta and of the catalogue. Nothing was found before.
fn add_catalogue(
    version: Version,
    tables: &Tables,
    all: bool,
    findings: &mut Vec<Finding>,
) -> Result<(), Fault>
    requires { findings.old.items ≡ [] }
    ensures added { OnOk result ((today : ℕ) → Adds version today tables.now all
        (found_in_catalogue version tables.now) findings.old.items findings.new.items) }
    ensures one { OnOk result (all ≡ false → length findings.new.items ≤ 1) }
    ensures gives_up { IfErr result (λ fault. fault ≡ F20) }
{
    add_meta_rows(tables, findings)?;
    add_found(version.number(), tables.meta.as_slice(), all, findings)?;
    let charges = tables.charges.as_slice();
    add_found((), charges, all, findings)?;
    add_found(charges, tables.products.as_slice(), all, findings)
}

/// Tells where the head office isn't there; nothing where something was found before and not all is wanted.
fn add_head(tables: &Tables, all: bool, findings: &mut Vec<Finding>) -> Result<(), Fault>
    ensures added { OnOk result ((version : Version) (today : ℕ) → Adds version today tables.now all
        ((λ found. found ≡ told_of_head tables.now.offices) ∷ []) findings.old.items findings.new.items) }
    ensures one { OnOk result (all ≡ false → length findings.old.items ≤ 1 → length findings.new.items ≤ 1) }
    ensures gives_up { IfErr result (λ fault. fault ≡ F20) }
{
    if !all && !findings.is_empty() {
        return Ok(());
    }
    if !is_office(tables.offices.as_slice(), HEAD) {
        findings.push(Finding::NoHead)?;
    }
    Ok(())
}

/// Adds what is found of offices, their staff and their clients.
fn add_offices(
    alloc: Global,
    tables: &Tables,
    all: bool,
    findings: &mut Vec<Finding>,
) -> Result<(), Fault>
    ensures added { OnOk result ((version : Version) (today : ℕ) → Adds version today tables.now all
        (found_in_offices tables.now) findings.old.items findings.new.items) }
    ensures one { OnOk result (all ≡ false → length findings.old.items ≤ 1 → length findings.new.items ≤ 1) }
    ensures gives_up { IfErr result (λ fault. fault ≡ F20) }
{
    let offices = tables.offices.as_slice();
    add_head(tables, all, findings)?;
    add_found(&OfficeSetting { alloc, offices }, offices, all, findings)?;
    add_found(offices, tables.staff.as_slice(), all, findings)?;
    add_found(offices, tables.clients.as_slice(), all, findings)
}

/// Adds what is found of loans, entries and receipts, on a business day.
fn add_loans(
    today: Day,
    tables: &Tables,
    all: bool,
    findings: &mut Vec<Finding>,
) -> Result<(), Fault>
    requires { today ≤ last_entered_day }
    ensures added { OnOk result ((version : Version) → Adds version today tables.now all
        (found_in_loans today tables.now) findings.old.items findings.new.items) }
    ensures one { OnOk result (all ≡ false → length findings.old.items ≤ 1 → length findings.new.items ≤ 1) }
    ensures gives_up { IfErr result (λ fault. fault ≡ F20) }
{
    let loans = tables.loans.as_slice();
    let entries = tables.entries.as_slice();
    let receipts = tables.receipts.as_slice();
    let lent = LoanSetting {
        today,
        offices: tables.offices.as_slice(),
        clients: tables.clients.as_slice(),
        products: tables.products.as_slice(),
    };
    let entered = EntrySetting {
        today,
        loans,
        staff: tables.staff.as_slice(),
        receipts,
        entries,
    };
    add_found(&lent, loans, all, findings)?;
    add_found(&entered, entries, all, findings)?;
    add_found(entries, receipts, all, findings)
}

/// Adds what is found of all tables but those of accounts: of each row that breaks a condition, in order; or of the
/// first alone, where not all is wanted. Nothing was found before.
fn add_rows(
    alloc: Global,
    version: Version,
    tables: &Tables,
    all: bool,
    findings: &mut Vec<Finding>,
) -> Result<(), Fault>
    requires { findings.old.items ≡ [] }
    ensures added { OnOk result ((today : ℕ) → IsToday (number_of version) tables.now.meta today
        → Adds version today tables.now all (found_in_rows version today tables.now) findings.old.items
        findings.new.items) }
    ensures one { OnOk result (all ≡ false → length findings.new.items ≤ 1) }
    ensures gives_up { IfErr result (λ fault. fault ≡ F20) }
{
    add_catalogue(version, tables, all, findings)?;
    add_offices(alloc, tables, all, findings)?;
    add_loans(today_of(version, tables), tables, all, findings)
}

/// Whether there are no findings.
pub(crate) fn are_none(findings: &[Finding]) -> bool
    ensures { IsTrue result ↔ (findings.now ≡ []) }
{
    findings.is_empty()
}

/// What is wrong with tables that no sound institution has.
fn findings_of_unsound(
    alloc: Global,
    version: Version,
    tables: &Tables,
    all: bool,
) -> Result<Vec<Finding>, Fault>
    requires { ¬ AreOfSoundAt version tables.now }
    ensures each { IfOk result (λ found. AllBreak version tables.now found.items) }
    ensures every { IfOk result (λ found. all ≡ true → AreFindings version tables.now found.items) }
    ensures some { IfOk result (λ found. ¬ (found.items ≡ [])) }
    ensures first { IfOk result (λ found. all ≡ false → length found.items ≤ 1) }
    ensures gives_up { IfErr result (λ fault. fault ≡ F20) }
{
    let mut findings = Vec::new(alloc);
    add_rows(alloc, version, tables, all, &mut findings)?;
    if !are_none(&findings) {
        return Ok(findings);
    }
    add_accounts(alloc, version, tables, all, &mut findings)?;
    if !are_none(&findings) {
        return Ok(findings);
    }
    findings.push(Finding::Unsound)?;
    Ok(findings)
}

/// Which rows of the tables break which condition of a sound institution, by the tables of a version. Where all are
/// wanted and the rows rise by their keys, as those of a table do, it is each that breaks one, with the first
/// condition that it breaks, table by table and row by row; or, where none does, each row of accounts that isn't what
/// replaying gives. Else it is the first alone. There are none exactly where the rows are those of a sound
/// institution. Where the business day can't be read, no day counts as later. The error is F20, out of memory.
pub fn findings(
    alloc: Global,
    version: Version,
    tables: &Tables,
    all: bool,
) -> Result<Vec<Finding>, Fault>
    ensures each { IfOk result (λ found. AllBreak version tables.now found.items) }
    ensures every { IfOk result (λ found. all ≡ true → ¬ AreOfSoundAt version tables.now
        → AreFindings version tables.now found.items) }
    ensures none { IfOk result (λ found. (found.items ≡ []) ↔ AreOfSoundAt version tables.now) }
    ensures first { IfOk result (λ found. all ≡ false → length found.items ≤ 1) }
    ensures gives_up { IfErr result (λ fault. fault ≡ F20) }
{
    if is_sound(alloc, version, tables)? {
        return Ok(Vec::new(alloc));
    }
    findings_of_unsound(alloc, version, tables, all)
}
