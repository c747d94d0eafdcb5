//! Clients, the loans of one, and staff, as JSON.

ghost use Rattle.std.specs.Prelude.{◌≡◌, true, IfOk, IfErr, string_bytes};
ghost use Rattle.json.specs.Print.{quoted};
ghost use Rattle.serde_json.specs.Written.{compact_text, members_text};
ghost use Rattle.mf_office.specs.Roles.{role_name};
ghost use Rattle.mf_lists_replies.specs.Lines.{client_data, client_loan_data, client_loan_end, staff_data};
ghost use Rattle.mf_lists_replies.specs.Lines.{clients_data, client_loans_data, staff_list_data};

use crate::lines::{ListLine, named_text};
use crate::texts::quoted_account;
use mf_base::Fault;
use mf_lists::{ClientLine, ClientLoan, StaffLine};
use mf_office::{Caller, OfficeNo, Role};
use mf_wire_replies::{day_text, quoted_text, text_in};
use std::alloc::{AllocError, Global};

impl ListLine for ClientLine {
    type Place = OfficeNo;

    ghost json = { client_data };

    fn put(&self, alloc: Global, place: OfficeNo, text: &mut String) -> Result<(), Fault> {
        let active = self.active;
        let client = quoted_account(alloc, place, self.number)?;
        let name = quoted_text(alloc, self.name.as_str())?;
        let overdue = self.overdue;
        let waiting = self.waiting;
        text.write(format_args!(
            r#"{{"active":{active},"client":{client},"name":{name},"overdue":{overdue},"waiting":{waiting}}}"#
        ))?;
        Ok(())
    }
}

/// A loan's members from `overdue` on, and the closing bracket.
fn client_loan_end(alloc: Global, line: &ClientLoan) -> Result<String, AllocError>
    ensures { IfOk result (λ s. string_bytes s ≡ members_text true (client_loan_end line.now)) }
{
    let overdue = line.overdue;
    let principal = line.principal;
    let product = line.product;
    let status = line.status;
    let shown = format_args!(
        r#","overdue":{overdue},"principal":{principal},"product":{product},"status":{status}}}"#
    );
    text_in(alloc, 96, shown)
}

impl ListLine for ClientLoan {
    type Place = OfficeNo;

    ghost json = { client_loan_data };

    fn put(&self, alloc: Global, place: OfficeNo, text: &mut String) -> Result<(), Fault> {
        let approved = day_text(alloc, self.approved)?;
        let disbursed = day_text(alloc, self.disbursed)?;
        let left = self.left;
        let loan = quoted_account(alloc, place, self.loan)?;
        let end = client_loan_end(alloc, self)?;
        text.write(format_args!(
            r#"{{"approved":{approved},"disbursed":{disbursed},"left":{left},"loan":{loan}{end}"#
        ))?;
        Ok(())
    }
}

/// The name of a role, as JSON.
fn quoted_role(role: Role) -> &'static str
    ensures { result.now ≡ quoted (role_name role) }
{
    match role {
        Role::Teller => "\"teller\"",
        Role::Officer => "\"officer\"",
        Role::Manager => "\"manager\"",
    }
}

impl ListLine for StaffLine {
    type Place = OfficeNo;

    ghost json = { staff_data };

    fn put(&self, alloc: Global, place: OfficeNo, text: &mut String) -> Result<(), Fault> {
        let name = quoted_text(alloc, self.name.as_str())?;
        let role = quoted_role(self.role);
        let staff = Caller {
            office: place,
            staff: self.number,
        };
        let staff = quoted_text(alloc, staff.text(alloc)?.as_str())?;
        text.write(format_args!(r#"{{"name":{name},"role":{role},"staff":{staff}}}"#))?;
        Ok(())
    }
}

/// The body that lists clients of an office.
pub fn clients_text(alloc: Global, office: OfficeNo, lines: &[ClientLine]) -> Result<String, Fault>
    ensures ok { IfOk result (λ s. string_bytes s ≡ compact_text (clients_data office lines.now)) }
    ensures err { IfErr result (λ f. f ≡ Fault.F20) }
{
    named_text(alloc, office, r#"{"clients":["#, lines)
}

/// The body that lists the loans of a client.
pub fn client_loans_text(
    alloc: Global,
    office: OfficeNo,
    lines: &[ClientLoan],
) -> Result<String, Fault>
    ensures ok { IfOk result (λ s. string_bytes s ≡ compact_text (client_loans_data office lines.now)) }
    ensures err { IfErr result (λ f. f ≡ Fault.F20) }
{
    named_text(alloc, office, r#"{"loans":["#, lines)
}

/// The body that lists the staff of an office.
pub fn staff_text(alloc: Global, office: OfficeNo, lines: &[StaffLine]) -> Result<String, Fault>
    ensures ok { IfOk result (λ s. string_bytes s ≡ compact_text (staff_list_data office lines.now)) }
    ensures err { IfErr result (λ f. f ≡ Fault.F20) }
{
    named_text(alloc, office, r#"{"staff":["#, lines)
}
