//! What is read of one loan of an office.

ghost use Rattle.std.specs.Prelude.{◌≡◌, ◌+◌, ◌==◌, Some, sum_by, IfOk, IfErr};
ghost use Rattle.mf_base.specs.declared.fault.Fault.TheVariants.{F20};
ghost use Rattle.mf_alloc.specs.Sums.{row_outstanding};
ghost use Rattle.mf_arrears.specs.Ageing.{days_overdue};
ghost use Rattle.mf_lists.specs.Lists.{name_of_client, rows_in};
ghost use Rattle.mf_model.specs.Accounts.{status_in};
ghost use Rattle.mf_model.specs.Institution.{Institution, Ledger};
ghost use Rattle.mf_model.specs.Store.{ledger_at, rows_at};
ghost use Rattle.mf_store.specs.Stands.{StandsFor, IsClean, AsksTables, MayAskTables};
ghost use Rattle.mf_store_lists.specs.Told.{is_of_disbursed};

use mf_alloc::{Instalment, Portion};
use mf_arrears::arrears;
use mf_base::{Day, Fault, Name};
use mf_model::Loan;
use mf_office::{Account, AccountNo, OfficeNo};
use mf_store::Store;
use sqlite::Alter;
use std::alloc::Global;

/// The number of a client or a loan that a row keeps. F20 where it is none, which no number in the tables is.
pub(crate) fn account_number(number: u32) -> Result<AccountNo, Fault>
    ensures number { IfOk result (λ n. n ≡ number) }
    ensures gives_up { IfErr result (λ fault. fault ≡ F20) }
{
    match AccountNo::new(number) {
        Some(number) => Ok(number),
        None => Err(Fault::F20),
    }
}

/// The name of a client; empty where there is none.
pub(crate) fn name_of<S: Alter>(
    alloc: Global,
    store: &mut Store<S>,
    office: OfficeNo,
    client: AccountNo,
) -> Result<Name, Fault>
    ensures asks { AsksTables S.Store store.old store.new result }
    ensures value { IsClean S.Store store.new → (i : Institution) → StandsFor S.Store store.old i
        → IfOk result (λ name. name ≡ name_of_client (rows_at office i) client) }
{
    let found = store.client(Account {
        office,
        number: client,
    })?;
    match found {
        Some(name) => Ok(name),
        None => Ok(Name::new(String::new(alloc))),
    }
}

/// The instalments of a loan that is there, as they stand; none before it is disbursed.
pub(crate) fn instalments_of<S: Alter>(
    alloc: Global,
    store: &mut Store<S>,
    account: Account,
    loan: &Loan,
) -> Result<Vec<Instalment>, Fault>
    ensures asks { MayAskTables S.Store store.old store.new result }
    ensures value { IsClean S.Store store.new → (i : Institution) → StandsFor S.Store store.old i → (l : Ledger)
        → ledger_at account i ≡ Some l → l.loan ≡ loan.now
        → IfOk result (λ rows. rows.items ≡ rows_in i.catalogue l) }
{
    if loan.disbursal_day().is_none() {
        return Ok(Vec::new(alloc));
    }
    store.instalments_at(alloc, account)
}

/// Whether a loan that was disbursed can have a status.
fn is_of_disbursed(status: u32) -> bool
    ensures { result ≡ is_of_disbursed status }
{
    status == 300 || status == 600 || status == 601 || status == 700
}

/// Whether a loan that is there has a status. No more of it is read where its stage tells that.
pub(crate) fn has_status<S: Alter>(
    alloc: Global,
    store: &mut Store<S>,
    account: Account,
    loan: &Loan,
    status: u32,
) -> Result<bool, Fault>
    ensures asks { MayAskTables S.Store store.old store.new result }
    ensures value { IsClean S.Store store.new → (i : Institution) → StandsFor S.Store store.old i → (l : Ledger)
        → ledger_at account i ≡ Some l → l.loan ≡ loan.now
        → IfOk result (λ has. has ≡ (status_in i.catalogue l == status)) }
{
    if loan.disbursal_day().is_some() && !is_of_disbursed(status) {
        return Ok(false);
    }
    let found = store.status_of(alloc, account, loan)?;
    Ok(u32::from(found) == status)
}

/// The sum of two amounts in cents; F20 where 64 bits don't hold it.
pub(crate) fn sum_of(one: u64, other: u64) -> Result<u64, Fault>
    ensures sum { IfOk result (λ sum. sum ≡ one + other) }
    ensures gives_up { IfErr result (λ fault. fault ≡ F20) }
{
    match one.checked_add(other) {
        Some(sum) => Ok(sum),
        None => Err(Fault::F20),
    }
}

/// What is outstanding of an instalment, in all portions.
fn left_of_row(row: &Instalment) -> Result<u64, Fault>
    ensures left { IfOk result (λ left. left ≡ row_outstanding row.now) }
    ensures gives_up { IfErr result (λ fault. fault ≡ F20) }
{
    let charges = sum_of(
        row.outstanding(Portion::Penalty),
        row.outstanding(Portion::Fee),
    )?;
    let rest = sum_of(charges, row.outstanding(Portion::Interest))?;
    sum_of(rest, row.outstanding(Portion::Principal))
}

/// What is outstanding of instalments, in all portions.
pub(crate) fn left_of(rows: &[Instalment]) -> Result<u64, Fault>
    ensures left { IfOk result (λ left. left ≡ sum_by row_outstanding rows.now) }
    ensures gives_up { IfErr result (λ fault. fault ≡ F20) }
{
    let mut left = 0;
    for row in rows {
        left = sum_of(left, left_of_row(row)?)?;
    }
    Ok(left)
}

/// How many days overdue instalments are on a day.
pub(crate) fn overdue_of(rows: &[Instalment], today: Day) -> Result<u32, Fault>
    ensures days { IfOk result (λ days. days ≡ days_overdue rows.now today) }
    ensures gives_up { IfErr result (λ fault. fault ≡ F20) }
{
    match u32::try_from(arrears(rows, today)) {
        Ok(days) => Ok(days),
        Err(_) => Err(Fault::F20),
    }
}
