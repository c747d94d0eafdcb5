//! What belongs to one office, and what its rows stand for.

ghost use Rattle.std.specs.Prelude.{◌≡◌, ℕ, List, IfOk, IfErr};
ghost use Rattle.mf_base.specs.declared.fault.Fault.TheVariants.{F20};
ghost use Rattle.mf_model.specs.Institution.{Institution, Staff};
ghost use Rattle.mf_store_schema.specs.Rows.{staff_row, client_row};
ghost use Rattle.mf_store_values.specs.Flat.{staff_in, client_in, numbered_from};

use crate::values::or_give_up;
use mf_account::Entry;
use mf_base::{Choice, Fault};
use mf_model::Loan;
use mf_office::{Name, Role};
use mf_store_schema::{ClientRow, StaffRow, read_row};
use sqlite::Row;
use std::alloc::Global;
use std::marker::Model;

/// A member of staff.
#[derive(Drop)]
pub struct StaffMember {
    pub name: Name,
    pub role: Role,
}

impl Model for StaffMember {
    ghost use Rattle.mf_model.specs.Institution.{Staff};

    ghost Value = { Staff };

    ghost view = { λ member. record { name = member.name; role = member.role } };
}

/// A loan, and what was entered of it, in the order of the entries' numbers.
#[derive(Drop)]
pub struct Ledger {
    pub loan: Loan,
    pub entries: Vec<Entry>,
}

impl Model for Ledger {
    ghost use Rattle.mf_model.specs.Institution.{Ledger};

    ghost Value = { Ledger };

    ghost view = { λ ledger. record { loan = ledger.loan; entries = ledger.entries.items } };
}

/// What belongs to one office: its staff, its clients' names and its loans, each by number from 1.
#[derive(Drop)]
pub struct OfficeRows {
    staff: Vec<StaffMember>,
    clients: Vec<Name>,
    loans: Vec<Ledger>,
}

impl Model for OfficeRows {
    ghost use Rattle.mf_model.specs.Institution.{Rows};

    ghost Value = { Rows };

    ghost view = { λ rows. record {
      staff = rows.staff.items;
      clients = rows.clients.items;
      loans = rows.loans.items;
    } };
}

impl OfficeRows {
    /// The rows of an office: of each kind all, by number from 1.
    pub fn new(staff: Vec<StaffMember>, clients: Vec<Name>, loans: Vec<Ledger>) -> OfficeRows
        ensures { result ≡ record { staff = staff.items; clients = clients.items; loans = loans.items } }
    {
        OfficeRows {
            staff,
            clients,
            loans,
        }
    }

    /// The staff: number 1 first.
    pub fn staff(&self) -> &[StaffMember]
        ensures { result.now ≡ self.now.staff }
    {
        self.staff.as_slice()
    }

    /// The clients' names: number 1 first.
    pub fn clients(&self) -> &[Name]
        ensures { result.now ≡ self.now.clients }
    {
        self.clients.as_slice()
    }

    /// The loans: number 1 first.
    pub fn loans(&self) -> &[Ledger]
        ensures { result.now ≡ self.now.loans }
    {
        self.loans.as_slice()
    }
}

/// The member of staff of a row.
fn member_from(row: &Row) -> Result<StaffMember, Fault>
    ensures member { IfOk result (λ member. (office number : ℕ) (s : Staff)
        → row.now ≡ staff_row (staff_in office number s) → member ≡ s) }
    ensures gives_up { IfErr result (λ fault. fault ≡ F20) }
{
    let found = read_row::<StaffRow>(row)?;
    let role = or_give_up(Role::from_number(found.role))?;
    Ok(StaffMember {
        name: found.name.into_name(),
        role,
    })
}

/// The staff of the rows, in order.
pub fn staff_from(alloc: Global, rows: &[Row]) -> Result<Vec<StaffMember>, Fault>
    ensures staff { IfOk result (λ list. (office : ℕ) (staff : List Staff)
        → rows.now ≡ numbered_from (λ number s. staff_row (staff_in office number s)) 1 staff → list.items ≡ staff) }
    ensures gives_up { IfErr result (λ fault. fault ≡ F20) }
{
    let mut staff = Vec::new(alloc);
    for row in rows {
        staff.push(member_from(row)?)?;
    }
    Ok(staff)
}

/// The name of a client's row.
fn name_from(row: &Row) -> Result<Name, Fault>
    ensures name { IfOk result (λ found. (office number : ℕ) (name : List ℕ)
        → row.now ≡ client_row (client_in office number name) → found ≡ name) }
    ensures gives_up { IfErr result (λ fault. fault ≡ F20) }
{
    let found = read_row::<ClientRow>(row)?;
    Ok(found.name.into_name())
}

/// The names of the rows, in order.
pub fn names_from(alloc: Global, rows: &[Row]) -> Result<Vec<Name>, Fault>
    ensures names { IfOk result (λ list. (office : ℕ) (names : List (List ℕ)) → rows.now ≡ numbered_from (λ number name.
        client_row (client_in office number name)) 1 names → list.items ≡ names) }
    ensures gives_up { IfErr result (λ fault. fault ≡ F20) }
{
    let mut names = Vec::new(alloc);
    for row in rows {
        names.push(name_from(row)?)?;
    }
    Ok(names)
}
