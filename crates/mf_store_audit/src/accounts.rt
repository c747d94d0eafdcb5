//! Where the rows of accounts differ from those that replaying the loans' entries gives.

ghost use Rattle.std.specs.Prelude.{◌≡◌, ◌++◌, ◌≤◌, ℕ, List, [], IsTrue, true, false, length, map, IfOk, IfErr, OnOk};
ghost use Rattle.std.specs.Cmp.{IsTotalOrder};
ghost use Rattle.std.specs.List.{AllByRecursion, Contains};
ghost use Rattle.std.specs.declared.cmp.Ordering.{Ordering};
ghost use Rattle.mf_base.specs.declared.fault.Fault.TheVariants.{F20};
ghost use Rattle.mf_store_schema.specs.Rows.{by_instalment, by_share};
ghost use Rattle.mf_store_sound.specs.Held.{Rises};
ghost use Rattle.mf_store_audit.specs.Differences.{AreDifferences, Lacks, row_key};
ghost use Rattle.mf_store_audit.specs.Findings.{AreOfAccounts, Breaks, account_told};
ghost use Rattle.mf_store_audit.specs.declared.finding.Finding.{Finding};
ghost use Rattle.mf_store_audit.specs.declared.finding.RowKey.{RowKey};

use crate::finding::{Finding, RowKey};
use crate::keys::Keyed;
use mf_base::Fault;
use mf_store_schema::{InstalmentRow, ShareRow, Version};
use mf_store_sound::{Tables, account_rows};
use mf_store_values::Same;
use std::alloc::Global;
use std::cmp::Ordering;

/// A row of an account, which has a place among the others of its table.
trait Ranked: Keyed + Same {
    /// The order of the table's key.
    ghost by: { Self → Self → Ordering };

    /// Where the row stands to another one of its table.
    fn compare(&self, other: &Self) -> Ordering
        ensures { result ≡ by self.now other.now };
}

impl Ranked for InstalmentRow {
    ghost by = { by_instalment };

    fn compare(&self, other: &InstalmentRow) -> Ordering {
        self.office.cmp(&other.office).then(
            self.loan
                .cmp(&other.loan)
                .then(self.number.cmp(&other.number)),
        )
    }
}

impl Ranked for ShareRow {
    ghost by = { by_share };

    fn compare(&self, other: &ShareRow) -> Ordering {
        let in_loan = self.seq.cmp(&other.seq).then(self.place.cmp(&other.place));
        self.office
            .cmp(&other.office)
            .then(self.loan.cmp(&other.loan).then(in_loan))
    }
}

/// The loan and the number in a row's key.
fn row_key<T: Keyed>(row: &T) -> RowKey
    ensures { result ≡ row_key (T.key row.now) }
{
    let (office, loan, number) = row.key();
    RowKey {
        office,
        loan,
        number,
    }
}

/// Whether a row is among others, which rise by their key.
fn is_among<T: Ranked>(rows: &[T], row: &T) -> bool
    ensures some { IsTrue result → Contains rows.now row.now }
    ensures every { IsTotalOrder T.by → Rises T.by rows.now → Contains rows.now row.now → IsTrue result }
{
    let searched = rows.binary_search_by(
        |other: &T| -> Ordering
            ensures { result ≡ T.by other.now row.entry.now }
        { other.compare(row) },
    );
    match searched {
        Ok(place) => rows[place].is_same(row),
        Err(_) => false,
    }
}

/// Adds the keys of the rows that others lack, which rise by their key.
fn add_lacking<T: Ranked>(rows: &[T], others: &[T], keys: &mut Vec<RowKey>) -> Result<(), Fault>
    ensures added { OnOk result ((added : List RowKey) × (keys.new.items ≡ keys.old.items ++ added)
        × (IsTotalOrder T.by → Rises T.by others.now → AllByRecursion (Lacks T.key rows.now others.now) added)
        × ((at : RowKey) → Lacks T.key rows.now others.now at → Contains added at)) }
    ensures gives_up { IfErr result (λ fault. fault ≡ F20) }
{
    for row in rows {
        if !is_among(others, row) {
            keys.push(row_key(row))?;
        }
    }
    Ok(())
}

/// The keys of the rows in which two lists differ, which rise by their key: in order, each once. The error is F20, out
/// of memory.
fn differing_keys<T: Ranked>(alloc: Global, made: &[T], stored: &[T]) -> Result<Vec<RowKey>, Fault>
    ensures exact { IfOk result (λ keys. IsTotalOrder T.by → Rises T.by made.now → Rises T.by stored.now
        → AreDifferences T.key made.now stored.now keys.items) }
    ensures gives_up { IfErr result (λ fault. fault ≡ F20) }
{
    let mut keys = Vec::new(alloc);
    add_lacking(made, stored, &mut keys)?;
    add_lacking(stored, made, &mut keys)?;
    keys.sort_unstable();
    keys.dedup();
    Ok(keys)
}

/// A table of accounts.
#[derive(Clone, Copy)]
enum AccountTable {
    Instalments,
    Shares,
}

impl AccountTable {
    /// What is told of a row of the table, by its key.
    fn told(self, key: RowKey) -> Finding
        ensures { result ≡ account_told self key }
    {
        match self {
            AccountTable::Instalments => Finding::Instalment { key },
            AccountTable::Shares => Finding::Share { key },
        }
    }
}

/// Adds what is told of rows by their keys. Where not all is wanted, it adds that of the first, and nothing where
/// something was found before.
fn add_told(
    table: AccountTable,
    keys: &[RowKey],
    all: bool,
    findings: &mut Vec<Finding>,
) -> Result<(), Fault>
    ensures all { OnOk result (all ≡ true
        → findings.new.items ≡ findings.old.items ++ map (account_told table) keys.now) }
    ensures each { OnOk result ((found : List Finding) × (findings.new.items ≡ findings.old.items ++ found)
        × AllByRecursion (λ f. (key : RowKey) × Contains keys.now key × (f ≡ account_told table key)) found) }
    ensures one { OnOk result (all ≡ false → length findings.old.items ≤ 1 → length findings.new.items ≤ 1) }
    ensures gives_up { IfErr result (λ fault. fault ≡ F20) }
{
    for key in keys {
        if !all && !findings.is_empty() {
            return Ok(());
        }
        findings.push(table.told(*key))?;
    }
    Ok(())
}

/// Adds each instalment, and then the shares of each entry, that are not what replaying the entries gives; or the first
/// of these alone, where not all is wanted. It is asked only where no row of the other tables breaks a condition. The
/// error is F20, out of memory.
pub(crate) fn add_accounts(
    alloc: Global,
    version: Version,
    tables: &Tables,
    all: bool,
    findings: &mut Vec<Finding>,
) -> Result<(), Fault>
    requires { findings.old.items ≡ [] }
    ensures each { OnOk result ((today : ℕ) → AllByRecursion (Breaks version today tables.now) findings.new.items) }
    ensures every { OnOk result (all ≡ true → AreOfAccounts version tables.now findings.new.items) }
    ensures one { OnOk result (all ≡ false → length findings.new.items ≤ 1) }
    ensures gives_up { IfErr result (λ fault. fault ≡ F20) }
{
    if version == Version::First {
        return Ok(());
    }
    let (instalments, shares) = account_rows(alloc, tables)?;
    let keys = differing_keys(alloc, &instalments, &tables.instalments)?;
    add_told(AccountTable::Instalments, &keys, all, findings)?;
    let keys = differing_keys(alloc, &shares, &tables.shares)?;
    add_told(AccountTable::Shares, &keys, all, findings)
}
