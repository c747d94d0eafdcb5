//! Whether anything is outstanding of an instalment's principal, by a query that shows no more of it.

ghost use Rattle.std.specs.Prelude.{◌≡◌, false, IsTrue, OnOk, IfOk, IfErr};
ghost use Rattle.mf_base.specs.declared.fault.Fault.TheVariants.{F20};
ghost use Rattle.sqlite.specs.Held.{state};
ghost use Rattle.sqlite.specs.State.{HasCleanDisk};
ghost use Rattle.mf_store_schema.specs.Calls.{IsAsBefore, IsKeeping};
ghost use Rattle.mf_store_schema.specs.Rows.{Lists, is_row_of_instalment};
ghost use Rattle.mf_store_schema.specs.declared.instalments.InstalmentRow.{InstalmentRow};
ghost use Rattle.mf_store_values.specs.Principal.{principal_row, IsOpenRow, IsFirstOpen};

use crate::instalments::amounts_from;
use mf_base::Fault;
use mf_store_schema::{PortionSums, ask};
use sqlite::{Alter, Connection, Row, params};

/// Whether anything is outstanding of the principal that a row shows.
fn is_left_in(row: &Row) -> Result<bool, Fault>
    ensures left { IfOk result (λ left. IsTrue left → (r : InstalmentRow) → row.now ≡ principal_row r → IsOpenRow r) }
    ensures gives_up { IfErr result (λ fault. fault ≡ F20) }
{
    let Ok(sums) = PortionSums::read(row, 0) else {
        return Err(Fault::F20);
    };
    let principal = amounts_from(sums)?;
    Ok(principal.paid + principal.waived + principal.written_off < principal.owed)
}

/// Whether anything is outstanding of the principal of a loan's instalment; not where there is no such instalment.
pub fn is_principal_open<S: Alter>(
    connection: &mut Connection<S>,
    office: u32,
    loan: u32,
    number: u32,
) -> Result<bool, Fault>
    requires alone { connection.old.in_transaction ≡ false }
    ensures kept { IsAsBefore (state S.Store connection.old) (state S.Store connection.new) }
    ensures gives_up { IfErr result (λ fault. fault ≡ F20) }
    ensures open { HasCleanDisk (state S.Store connection.new)
        → OnOk result (IsTrue (state S.Store connection.new).is_open) }
    ensures left { HasCleanDisk (state S.Store connection.new) → (lists : Lists)
        → IsKeeping (state S.Store connection.old) lists
        → IfOk result (λ left. IsTrue left → IsFirstOpen (is_row_of_instalment office loan number) lists.instalments) }
    ensures mode { connection.new.in_transaction ≡ false }
{
    let rows = ask(
        connection,
        "SELECT owed_principal, paid_principal, waived_principal, \
         written_off_principal FROM instalments WHERE office = ?1 AND loan = ?2 AND number = ?3 ORDER BY office, \
         loan, number",
        params![office, loan, number],
    )?;
    match rows.first() {
        None => Ok(false),
        Some(row) => is_left_in(row),
    }
}
