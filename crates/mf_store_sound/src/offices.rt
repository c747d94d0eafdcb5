//! The rows of offices: whether they are one tree, with the hierarchy texts that their parents give.

ghost use Rattle.std.specs.Prelude.{◌≡◌, ◌≢◌, ◌≤◌, ◌↔◌, List, IsTrue, IfOk, IfErr, map, option_copied};
ghost use Rattle.std.specs.List.{AllByRecursion};
ghost use Rattle.mf_base.specs.declared.fault.Fault.TheVariants.{F20};
ghost use Rattle.mf_model.specs.Tree.{Ascending};
ghost use Rattle.mf_office.specs.Keys.{child_key, head_key, key_depth};
ghost use Rattle.mf_store_sound.specs.Offices.{IsNumberedAndNamed, AscendFrom, office_row_in, parent_row};
ghost use Rattle.mf_store_sound.specs.Offices.{HasParentsText, IsOfficeRow, AreOfficeRows, AreOffices};
ghost use Rattle.mf_store_values.specs.Parts.{office_of};

use mf_base::Fault;
use mf_model::is_name;
use mf_office::{OfficeNo, child_text, count_dots, laws};
use mf_store_schema::OfficeRow;
use std::alloc::Global;

/// How many dots the deepest hierarchy text has.
const MOST_DOTS: usize = 6;

/// Whether the numbers of the offices ascend, so that none comes twice.
fn is_ascending(offices: &[OfficeRow]) -> bool
    ensures { IsTrue result ↔ AscendFrom 0 offices.now }
{
    let mut last = 0;
    for office in offices {
        if office.number <= last {
            return false;
        }
        last = office.number;
    }
    true
}

/// The row of the office with this number. The rows are in the order of their numbers.
fn find_office(offices: &[OfficeRow], number: u32) -> Option<&OfficeRow>
    ensures { AscendFrom 0 offices.now → option_copied result ≡ office_row_in number offices.now }
{
    match offices.binary_search_by_key(&number, |office| office.number) {
        Ok(place) => Some(&offices[place]),
        Err(_) => None,
    }
}

/// Whether a row's number and name are those of an office.
fn is_numbered_and_named(office: &OfficeRow) -> bool
    ensures { IsTrue result ↔ IsNumberedAndNamed office.now }
{
    office.number >= 1 && office.number <= OfficeNo::MAX && is_name(office.name.as_str())
}

/// Whether a row is that of the head office.
fn is_head(office: &OfficeRow) -> bool
    ensures { IsTrue result ↔ ((office.now.number ≡ 1) × (office.now.hkey ≡ head_key)) }
{
    office.number == 1 && office.hkey.as_str() == "."
}

/// Whether a row's hierarchy text is that of a child of the office of another row.
fn is_child(alloc: Global, above: &OfficeRow, office: &OfficeRow) -> Result<bool, Fault>
    ensures child { IfOk result (λ yes. IsTrue yes ↔
        ((office.now.number ≢ 1) × (office.now.hkey ≡ child_key above.now.hkey office.now.number))) }
    ensures gives_up { IfErr result (λ fault. fault ≡ F20) }
{
    let text = child_text(alloc, above.hkey.as_str(), office.number)?;
    Ok(office.number != 1 && office.hkey.as_str() == text.as_str())
}

/// Whether a row's hierarchy text is the one that its parent gives, by the parent's row, if one is named and there.
pub fn has_parents_text(
    alloc: Global,
    above: Option<&OfficeRow>,
    office: &OfficeRow,
) -> Result<bool, Fault>
    ensures text { (rows : List OfficeRow) → option_copied above.entry ≡ parent_row rows office.now.parent →
        IfOk result (λ yes. IsTrue yes ↔ HasParentsText rows office.now.parent office.now) }
    ensures gives_up { IfErr result (λ fault. fault ≡ F20) }
{
    match (office.parent, above) {
        (None, _) => Ok(is_head(office)),
        (Some(_), Some(above)) => is_child(alloc, above, office),
        (Some(_), None) => Ok(false),
    }
}

/// Whether an office lies at most five steps below the head office, by its hierarchy text.
pub fn is_within_depth(office: &OfficeRow) -> bool
    ensures { IsTrue result ↔ (key_depth office.now.hkey ≤ 6) }
{
    count_dots(office.hkey.as_str()) <= MOST_DOTS
}

/// The row of an office's parent, if one is named and there. The rows are in the order of their numbers.
fn find_parent<'a>(offices: &'a [OfficeRow], office: &OfficeRow) -> Option<&'a OfficeRow>
    ensures { AscendFrom 0 offices.now → option_copied result ≡ parent_row offices.now office.now.parent }
{
    find_office(offices, office.parent?)
}

/// Whether a row is that of an office, with the hierarchy text that its parent gives.
fn is_office_row(alloc: Global, offices: &[OfficeRow], office: &OfficeRow) -> Result<bool, Fault>
    ensures row { AscendFrom 0 offices.now → IfOk result (λ yes. IsTrue yes ↔ IsOfficeRow offices.now office.now) }
    ensures gives_up { IfErr result (λ fault. fault ≡ F20) }
{
    let above = find_parent(offices, office);
    let has_text = has_parents_text(alloc, above, office)?;
    Ok(has_text && is_numbered_and_named(office) && is_within_depth(office))
}

/// Whether each row is that of an office, with the hierarchy text that its parent gives.
fn are_all_office_rows(alloc: Global, offices: &[OfficeRow]) -> Result<bool, Fault>
    ensures rows { AscendFrom 0 offices.now → IfOk result (λ yes. IsTrue yes ↔
        AllByRecursion (IsOfficeRow offices.now) offices.now) }
    ensures gives_up { IfErr result (λ fault. fault ≡ F20) }
{
    for office in offices {
        if !is_office_row(alloc, offices, office)? {
            return Ok(false);
        }
    }
    Ok(true)
}

/// Whether the numbers ascend, the head office exists, and each row is that of an office, with the hierarchy text that
/// its parent gives.
fn are_office_rows(alloc: Global, offices: &[OfficeRow]) -> Result<bool, Fault>
    ensures rows { IfOk result (λ yes. IsTrue yes ↔ AreOfficeRows offices.now) }
    ensures gives_up { IfErr result (λ fault. fault ≡ F20) }
{
    if !is_ascending(offices) {
        return Ok(false);
    }
    if find_office(offices, 1).is_none() {
        return Ok(false);
    }
    are_all_office_rows(alloc, offices)
}

/// Whether the rows are those of offices that are one tree, with the hierarchy texts that their parents give.
pub(crate) fn are_offices(alloc: Global, offices: &[OfficeRow]) -> Result<bool, Fault>
    ensures offices { IfOk result (λ yes. IsTrue yes ↔ AreOffices offices.now) }
    ensures gives_up { IfErr result (λ fault. fault ≡ F20) }
{
    laws::tree_by_its_keys();
    are_office_rows(alloc, offices)
}
