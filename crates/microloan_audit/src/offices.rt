//! What is said of rows of offices, of staff and of clients.

ghost use Rattle.std.specs.Prelude.{◌≡◌, string_bytes, IfOk, IsOkUnless};
ghost use Rattle.std.specs.Prelude.{Some, find, option_copied, ◌==◌};
ghost use Rattle.mf_office.specs.Keys.{child_key};
ghost use Rattle.microloan_audit.specs.Quoted.{quoted};
ghost use Rattle.microloan_audit.specs.Words as spec;

use crate::catalogue::{NO_NAME, NOT_NEXT, OUT_OF_ORDER};
use crate::quoted::quoted;
use mf_base::Fault;
use mf_office::child_text;
use mf_store_audit::{ClientFlaw, OfficeFlaw, StaffFlaw};
use mf_store_schema::OfficeRow;
use std::alloc::Global;

/// What is said of a row whose office is not there.
pub(crate) const NO_OFFICE: &str = "its office is not there";

/// What is said of a row of an office, among all of them.
pub(crate) fn words_of_office(
    alloc: Global,
    offices: &[OfficeRow],
    row: &OfficeRow,
    flaw: OfficeFlaw,
) -> Result<String, Fault>
    ensures text { IfOk result (λ text. string_bytes text ≡ spec.office_words offices.now flaw row.now) }
    ensures only { IsOkUnless result Fault.F20 }
{
    let words = match flaw {
        OfficeFlaw::Order => OUT_OF_ORDER,
        OfficeFlaw::Number => "its number is not 1 to 9999",
        OfficeFlaw::Name => NO_NAME,
        OfficeFlaw::Depth => "it lies more than five steps below the head office",
        OfficeFlaw::Parent => return words_of_parent(alloc, row),
        OfficeFlaw::Text => return words_of_hierarchy(alloc, offices, row),
    };
    Ok(String::from_str(alloc, words)?)
}

/// What is said of a row whose parent is not as it should be.
fn words_of_parent(alloc: Global, row: &OfficeRow) -> Result<String, Fault>
    ensures text { IfOk result (λ text. string_bytes text ≡ spec.parent_words row.now row.now.parent) }
    ensures only { IsOkUnless result Fault.F20 }
{
    let words = match row.parent {
        None => format!(in alloc; "it has no parent, and the head office is 1")?,
        Some(parent) if row.number == 1 => format!(in alloc;
            "the head office has a parent, {parent}"
        )?,
        Some(parent) => format!(in alloc; "its parent {parent} is not there")?,
    };
    Ok(words)
}

/// What is said of a row whose hierarchy text is not the one that its parent gives.
fn words_of_hierarchy(
    alloc: Global,
    offices: &[OfficeRow],
    row: &OfficeRow,
) -> Result<String, Fault>
    ensures text { IfOk result (λ text. string_bytes text ≡ spec.hierarchy_words offices.now row.now row.now.parent) }
    ensures only { IsOkUnless result Fault.F20 }
{
    let Some(parent) = row.parent else {
        let own = quoted(alloc, row.hkey.as_str())?;
        let own = own.as_str();
        return Ok(format!(in alloc; "hierarchy text {own}, that of the head office is \".\"")?);
    };
    match office_numbered(offices, parent) {
        Some(above) => words_of_given(alloc, row, above),
        None => words_of_parent(alloc, row),
    }
}

/// What is said of a row whose hierarchy text is not the one that this parent gives.
fn words_of_given(alloc: Global, row: &OfficeRow, above: &OfficeRow) -> Result<String, Fault>
    ensures text { IfOk result (λ text. string_bytes text ≡ spec.given_words row.now (Some above.now)) }
    ensures only { IsOkUnless result Fault.F20 }
{
    let own = quoted(alloc, row.hkey.as_str())?;
    let given = text_given(alloc, above, row.number)?;
    let (own, given) = (own.as_str(), given.as_str());
    Ok(format!(in alloc; "hierarchy text {own}, its parent gives {given}")?)
}

/// The hierarchy text, in quotes, that an office gives one below it with this number.
fn text_given(alloc: Global, above: &OfficeRow, number: u32) -> Result<String, Fault>
    ensures text { IfOk result (λ text. string_bytes text ≡ quoted (child_key above.now.hkey number)) }
    ensures only { IsOkUnless result Fault.F20 }
{
    let given = child_text(alloc, above.hkey.as_str(), number)?;
    quoted(alloc, given.as_str())
}

/// The first row of an office with this number.
fn office_numbered(offices: &[OfficeRow], number: u32) -> Option<&OfficeRow>
    ensures { option_copied result ≡ find (λ (row : OfficeRow). row.number == number) offices.now }
{
    offices.iter().find(|row| row.number == number)
}

/// What is said of a row of a member of staff.
pub(crate) fn words_of_staff(flaw: StaffFlaw) -> &'static str
    ensures { result.now ≡ spec.staff_words flaw }
{
    match flaw {
        StaffFlaw::Order => OUT_OF_ORDER,
        StaffFlaw::Office => NO_OFFICE,
        StaffFlaw::Number => NOT_NEXT,
        StaffFlaw::Limit => "its number is above 9999",
        StaffFlaw::Name => NO_NAME,
        StaffFlaw::Role => "its role is not 1 to 3",
    }
}

/// What is said of a row of a client.
pub(crate) fn words_of_client(flaw: ClientFlaw) -> &'static str
    ensures { result.now ≡ spec.client_words flaw }
{
    match flaw {
        ClientFlaw::Order => OUT_OF_ORDER,
        ClientFlaw::Office => NO_OFFICE,
        ClientFlaw::Number => NOT_NEXT,
        ClientFlaw::Limit => "its number is above 999999",
        ClientFlaw::Name => NO_NAME,
    }
}
