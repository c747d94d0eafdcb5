//! The staff of an office.

ghost use Rattle.std.specs.Prelude.{◌≡◌, ℕ, List, map, IfOk, IfErr};
ghost use Rattle.mf_base.specs.declared.fault.Fault.TheVariants.{F20};
ghost use Rattle.mf_lists.specs.Lists.{staff_line, staff_of};
ghost use Rattle.mf_model.specs.Institution.{Institution, Staff};
ghost use Rattle.mf_model.specs.Store.{rows_at};
ghost use Rattle.mf_store.specs.Stands.{StandsFor, IsClean, AsksTables};
ghost use Rattle.mf_store_schema.specs.Rows.{staff_row};
ghost use Rattle.mf_store_values.specs.Flat.{staff_in};

use mf_base::{Choice, Fault};
use mf_lists::StaffLine;
use mf_office::{OfficeNo, Role, StaffNo};
use mf_statement::Listing;
use mf_store::Store;
use mf_store_schema::{StaffRow, read_row};
use mf_store_values::or_give_up;
use sqlite::{Alter, Row};
use std::alloc::Global;

/// The number of a member of staff that a row keeps. F20 where it is none, which no number in the tables is.
fn staff_number(number: u32) -> Result<StaffNo, Fault>
    ensures number { IfOk result (λ n. n ≡ number) }
    ensures gives_up { IfErr result (λ fault. fault ≡ F20) }
{
    match StaffNo::new(number) {
        Some(number) => Ok(number),
        None => Err(Fault::F20),
    }
}

/// The line of a row of staff.
fn line_of(row: &Row) -> Result<StaffLine, Fault>
    ensures line { IfOk result (λ line. (office : ℕ) (s : ℕ × Staff) → row.now ≡ staff_row (staff_in office s.0 s.1)
        → line ≡ staff_line s) }
    ensures gives_up { IfErr result (λ fault. fault ≡ F20) }
{
    let found = read_row::<StaffRow>(row)?;
    let number = staff_number(found.number)?;
    let role = or_give_up(Role::from_number(found.role))?;
    Ok(StaffLine {
        number,
        name: found.name.into_name(),
        role,
    })
}

/// The lines of rows of staff, in order.
fn lines_of(alloc: Global, rows: &[Row]) -> Result<Listing<StaffLine>, Fault>
    ensures lines { IfOk result (λ list. (office : ℕ) (staff : List (ℕ × Staff))
        → rows.now ≡ map (λ s. staff_row (staff_in office s.0 s.1)) staff → list ≡ map staff_line staff) }
    ensures gives_up { IfErr result (λ fault. fault ≡ F20) }
{
    let mut lines = Vec::new(alloc);
    for row in rows {
        lines.push(line_of(row)?)?;
    }
    Ok(Listing::new(lines))
}

/// The staff of an office, by number; nobody where it isn't there.
pub fn staff_of<S: Alter>(
    alloc: Global,
    store: &mut Store<S>,
    office: OfficeNo,
) -> Result<Listing<StaffLine>, Fault>
    ensures asks { AsksTables S.Store store.old store.new result }
    ensures value { IsClean S.Store store.new → (i : Institution) → StandsFor S.Store store.old i
        → IfOk result (λ list. list ≡ staff_of (rows_at office i)) }
{
    let rows = store.list::<StaffRow>(office.get())?;
    lines_of(alloc, &rows)
}
