//! Rows of offices: what is wrong with them, and which offices are there.

ghost use Rattle.std.specs.Prelude.{◌≡◌, ◌↔◌, IsTrue, option_copied};
ghost use Rattle.mf_store_sound.specs.Offices.{office_row_in, parent_row};
ghost use Rattle.mf_store_audit.specs.Offices.{BreaksOffice, HasParent, is_office};

use crate::charges::is_no_name;
use crate::finding::OfficeFlaw;
use crate::keys::{is_after, row_at};
use crate::places::Row;
use mf_base::Fault;
use mf_office::OfficeNo;
use mf_store_schema::OfficeRow;
use mf_store_sound::{has_parents_text, is_within_depth};
use std::alloc::Global;

/// Whether an office of this number is there.
pub(crate) fn is_office(offices: &[OfficeRow], number: u32) -> bool
    ensures { result ≡ is_office offices.now number }
{
    row_at(offices, (0, 0, number)).is_some()
}

/// Whether a row has no parent and is not the head office, or is the head office and has one, or its parent is not
/// there.
fn has_no_parent(offices: &[OfficeRow], office: &OfficeRow) -> bool
    ensures { IsTrue result ↔ ¬ HasParent offices.now office.now.parent office.now }
{
    match office.parent {
        Some(parent) => office.number == 1 || !is_office(offices, parent),
        None => office.number != 1,
    }
}

/// The first row of an office of this number.
pub(crate) fn first_of(offices: &[OfficeRow], number: u32) -> Option<&OfficeRow>
    ensures { option_copied result ≡ office_row_in number offices.now }
{
    offices.iter().find(|office| office.number == number)
}

/// The first row of an office's parent, if one is named and there.
fn parent_of<'a>(offices: &'a [OfficeRow], office: &OfficeRow) -> Option<&'a OfficeRow>
    ensures { option_copied result ≡ parent_row offices.now office.now.parent }
{
    first_of(offices, office.parent?)
}

/// The rows of offices, and the memory that a hierarchy text is made in.
#[derive(Clone, Copy)]
pub(crate) struct OfficeSetting<'a> {
    pub(crate) alloc: Global,
    pub(crate) offices: &'a [OfficeRow],
}

/// A row of an office among all of them.
impl<'a> Row<&'a OfficeSetting<'a>> for OfficeRow {
    type Flaw = OfficeFlaw;

    ghost Breaks = { λ setting flaw before row. BreaksOffice setting.now.offices.now flaw before row };

    fn breaks(
        &self,
        setting: &'a OfficeSetting<'a>,
        before: Option<&Self>,
        flaw: OfficeFlaw,
    ) -> Result<bool, Fault> {
        let offices = setting.offices;
        match flaw {
            OfficeFlaw::Order => Ok(!is_after(before, self)),
            OfficeFlaw::Number => Ok(self.number < 1 || self.number > OfficeNo::MAX),
            OfficeFlaw::Name => Ok(is_no_name(&self.name)),
            OfficeFlaw::Parent => Ok(has_no_parent(offices, self)),
            OfficeFlaw::Text => {
                let parent = parent_of(offices, self);
                Ok(!has_parents_text(setting.alloc, parent, self)?)
            }
            OfficeFlaw::Depth => Ok(!is_within_depth(self)),
        }
    }
}
