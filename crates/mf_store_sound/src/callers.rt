//! Whether the members of staff who entered the entries exist.

ghost use Rattle.std.specs.Prelude.{◌≡◌, List};
ghost use Rattle.std.specs.List.{list_all};
ghost use Rattle.mf_model.specs.Institution.{Office};
ghost use Rattle.mf_model.specs.Sound.{is_staff};
ghost use Rattle.mf_model.specs.Tree.{Ascending};
ghost use Rattle.mf_store_sound.specs.Callers.{is_by_staff};
ghost use Rattle.mf_store_values.specs.Flat.{all_rows, staff_in};

use mf_office::Caller;
use mf_store_schema::{EntryRow, StaffRow};

/// Whether this member of staff exists. The rows are in the order of office and number.
fn is_there(staff: &[StaffRow], office: u32, number: u32) -> bool
    ensures { (fs : List Office) → Ascending fs → all_rows staff_in (λ own. own.staff) fs ≡ staff.now →
        result ≡ is_staff fs (record { office = office; staff = number }) }
{
    match staff.binary_search_by_key(&(office, number), |row| (row.office, row.number)) {
        Ok(_) => true,
        Err(_) => false,
    }
}

/// Whether the entry of a row was entered by a member of staff who exists.
fn is_by_staff(staff: &[StaffRow], row: &EntryRow) -> bool
    ensures { (fs : List Office) → Ascending fs → all_rows staff_in (λ own. own.staff) fs ≡ staff.now →
        result ≡ is_by_staff fs row.now }
{
    match Caller::parse(row.staff.as_str().as_bytes()) {
        Some(caller) => is_there(staff, caller.office.get(), caller.staff.get()),
        None => false,
    }
}

/// Whether the entry of each row was entered by a member of staff who exists.
pub(crate) fn are_by_staff(staff: &[StaffRow], rows: &[EntryRow]) -> bool
    ensures { (fs : List Office) → Ascending fs → all_rows staff_in (λ own. own.staff) fs ≡ staff.now →
        result ≡ list_all (is_by_staff fs) rows.now }
{
    for row in rows {
        if !is_by_staff(staff, row) {
            return false;
        }
    }
    true
}
