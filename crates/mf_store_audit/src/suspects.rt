//! Entries that are suspect, though the rows are sound: by staff who can't see the loan, or may not enter that kind.

ghost use Rattle.std.specs.Prelude.{◌≡◌, ◌↔◌, Some, true, false, option_copied};
ghost use Rattle.std.specs.Prelude.{IsTrue, IfSome, IfOk, IfErr};
ghost use Rattle.std.specs.List.{Contains};
ghost use Rattle.mf_base.specs.declared.fault.Fault.TheVariants.{F20};
ghost use Rattle.mf_office.specs.Texts.{caller_of};
ghost use Rattle.mf_office.specs.Tree.{is_at_or_below};
ghost use Rattle.mf_store_schema.specs.Rows.{by_staff};
ghost use Rattle.mf_store_schema.specs.declared.staff.StaffRow.{StaffRow};
ghost use Rattle.mf_store_sound.specs.Held.{Rises};
ghost use Rattle.mf_store_audit.specs.Suspects.{AreSuspects, IsBeyondRole, IsSuspect, is_named, may_enter};
ghost use Rattle.mf_store_audit.specs.Suspects.{parent_in};

use crate::finding::{Doubt, Finding};
use crate::keys::row_at;
use crate::offices::first_of;
use crate::places::{Row, add_found};
use mf_account::Kind;
use mf_base::{Choice, Fault};
use mf_office::{Caller, Role};
use mf_store_schema::{EntryRow, OfficeRow, StaffRow};
use mf_store_sound::Tables;
use std::alloc::Global;

/// The most steps from an office up to the head.
const MOST_STEPS: usize = 5;

/// The number of an office's parent, if the office is there and has one.
fn parent_in(offices: &[OfficeRow], number: u32) -> Option<u32>
    ensures { result ≡ parent_in offices.now number }
{
    first_of(offices, number)?.parent
}

/// Whether an office is this one, or lies below it.
fn is_at_or_below(offices: &[OfficeRow], office: u32, above: u32) -> bool
    ensures { result ≡ is_at_or_below (parent_in offices.now) office above }
{
    let mut at = office;
    for _ in 0..MOST_STEPS {
        if at == above {
            return true;
        }
        match parent_in(offices, at) {
            Some(parent) => at = parent,
            None => return false,
        }
    }
    at == above
}

/// The row of the member of staff who entered a row's entry, if they are there.
fn member_of<'a>(staff: &'a [StaffRow], row: &EntryRow) -> Option<&'a StaffRow>
    ensures found { IfSome result (λ member. Contains staff.now member.now
        × (is_named (caller_of row.now.staff) member.now ≡ true)) }
    ensures only { Rises by_staff staff.now → (member : StaffRow) → Contains staff.now member
        → is_named (caller_of row.now.staff) member ≡ true → option_copied result ≡ Some member }
{
    let caller = Caller::parse(row.staff.as_str().as_bytes())?;
    row_at(staff, (caller.office.get(), 0, caller.staff.get()))
}

/// Whether somebody with this role may send requests that make entries of this kind.
fn may_enter(kind: Kind, role: Role) -> bool
    ensures { result ≡ may_enter kind role }
{
    match kind {
        Kind::Repay => true,
        Kind::Fee => role != Role::Teller,
        Kind::Penalty => role != Role::Teller,
        Kind::Waive => role == Role::Manager,
        Kind::WriteOff => role == Role::Manager,
        Kind::Refund => role == Role::Manager,
    }
}

/// Whether a member of staff may not enter an entry of a row's kind.
fn is_beyond_role(row: &EntryRow, member: &StaffRow) -> bool
    ensures { IsTrue result ↔ IsBeyondRole row.now member.now }
{
    match (Kind::from_number(row.kind), Role::from_number(member.role)) {
        (Some(kind), Some(role)) => !may_enter(kind, role),
        _ => false,
    }
}

/// The rows of offices and of their staff.
#[derive(Clone, Copy)]
pub(crate) struct DoubtSetting<'a> {
    pub(crate) offices: &'a [OfficeRow],
    pub(crate) staff: &'a [StaffRow],
}

/// A row of an entry of sound rows.
impl<'a> Row<&'a DoubtSetting<'a>> for EntryRow {
    type Flaw = Doubt;

    ghost Breaks = { λ setting doubt before row. IsSuspect setting.now.offices.now setting.now.staff.now doubt row };

    ghost IsInOrder = { λ setting. Rises by_staff setting.now.staff.now };

    fn breaks(
        &self,
        setting: &'a DoubtSetting<'a>,
        _before: Option<&Self>,
        doubt: Doubt,
    ) -> Result<bool, Fault> {
        let Some(member) = member_of(setting.staff, self) else {
            return Ok(false);
        };
        match doubt {
            Doubt::Office => Ok(!is_at_or_below(setting.offices, self.office, member.office)),
            Doubt::Role => Ok(is_beyond_role(self, member)),
        }
    }
}

/// The entries of sound rows that are suspect: all, in order, each with the first that makes it so. The error is F20,
/// out of memory.
pub(crate) fn suspects(alloc: Global, tables: &Tables) -> Result<Vec<Finding>, Fault>
    ensures every { Rises by_staff tables.now.staff → IfOk result (λ found. AreSuspects tables.now found.items) }
    ensures gives_up { IfErr result (λ fault. fault ≡ F20) }
{
    let mut found = Vec::new(alloc);
    let setting = DoubtSetting {
        offices: tables.offices.as_slice(),
        staff: tables.staff.as_slice(),
    };
    add_found(&setting, tables.entries.as_slice(), true, &mut found)?;
    Ok(found)
}
