//! What is wrong with the rows of loans.

ghost use Rattle.std.specs.Prelude.{◌≡◌, ◌≤◌, ◌==◌, ◌||◌, ◌↔◌, IsTrue};
ghost use Rattle.mf_base.specs.DayText.{last_entered_day};
ghost use Rattle.mf_model.specs.Stages.{stage_number};
ghost use Rattle.mf_store_values.specs.Flat.{approval_text, disbursal_text};
ghost use Rattle.mf_store_audit.specs.Catalogue.{IsNoNumber};
ghost use Rattle.mf_store_audit.specs.Loans.{IsDayIf, IsNoStageText, BreaksLoanIn};

use crate::finding::LoanFlaw;
use crate::keys::{is_after, is_next, row_at};
use crate::meta::is_day;
use crate::offices::is_office;
use crate::places::Row;
use mf_base::{Day, Fault};
use mf_office::AccountNo;
use mf_store_schema::{ClientRow, LoanRow, OfficeRow, ProductRow, Text};
use mf_store_sound::{are_periods_allowed, is_principal_allowed, is_stage};
use mf_store_values::row_numbered;

/// What rows of loans are checked against.
#[derive(Clone, Copy)]
pub(crate) struct LoanSetting<'a> {
    /// The business day.
    pub(crate) today: Day,
    pub(crate) offices: &'a [OfficeRow],
    pub(crate) clients: &'a [ClientRow],
    pub(crate) products: &'a [ProductRow],
}

/// Whether a status is none that a loan's row has.
fn is_no_status(number: u32) -> bool
    ensures { IsTrue result ↔ IsNoNumber stage_number number }
{
    match number {
        100 | 200 | 300 | 400 | 500 => false,
        _ => true,
    }
}

/// Whether a text is that of a day where one is needed, and is missing where none is.
fn is_day_if(needed: bool, text: &Option<Text>) -> bool
    ensures { IsTrue result ↔ IsDayIf needed text.now }
{
    if !needed {
        return text.is_none();
    }
    match text {
        Some(text) => is_day(text),
        None => false,
    }
}

/// Whether loans with this status have a day of approval.
fn has_approval(status: u32) -> bool
    ensures { result ≡ ((status == 200) || (status == 300)) }
{
    status == 200 || status == 300
}

/// Whether no loan with the row's status has the row's day of approval.
fn is_approval_wrong(row: &LoanRow) -> bool
    ensures { IsTrue result ↔ IsNoStageText approval_text row.now.stage row.now.approved }
{
    if is_no_status(row.stage) {
        return true;
    }
    !is_day_if(has_approval(row.stage), &row.approved)
}

/// Whether no loan with the row's status has the row's day of disbursement.
fn is_disbursal_wrong(row: &LoanRow) -> bool
    ensures { IsTrue result ↔ IsNoStageText disbursal_text row.now.stage row.now.disbursed }
{
    if is_no_status(row.stage) {
        return true;
    }
    !is_day_if(row.stage == 300, &row.disbursed)
}

/// A row of a loan, of a business day that can be entered.
impl<'a> Row<&'a LoanSetting<'a>> for LoanRow {
    type Flaw = LoanFlaw;

    ghost IsSetting = { λ setting. setting.now.today ≤ last_entered_day };

    ghost Breaks = { λ setting flaw before row. BreaksLoanIn setting.now flaw before row };

    fn breaks(
        &self,
        setting: &'a LoanSetting<'a>,
        before: Option<&Self>,
        flaw: LoanFlaw,
    ) -> Result<bool, Fault> {
        let product = row_numbered(setting.products, self.product);
        match flaw {
            LoanFlaw::Order => Ok(!is_after(before, self)),
            LoanFlaw::Office => Ok(!is_office(setting.offices, self.office)),
            LoanFlaw::Number => Ok(!is_next(before, self)),
            LoanFlaw::Limit => Ok(self.number > AccountNo::MAX),
            LoanFlaw::Client => {
                let key = (self.office, 0, self.client);
                Ok(row_at(setting.clients, key).is_none())
            }
            LoanFlaw::Product => Ok(product.is_none()),
            LoanFlaw::Principal => Ok(match product {
                Some(product) => !is_principal_allowed(product, self),
                None => true,
            }),
            LoanFlaw::Periods => Ok(match product {
                Some(product) => !are_periods_allowed(product, self),
                None => true,
            }),
            LoanFlaw::Stage => Ok(is_no_status(self.stage)),
            LoanFlaw::Approved => Ok(is_approval_wrong(self)),
            LoanFlaw::Disbursed => Ok(is_disbursal_wrong(self)),
            LoanFlaw::Days => Ok(!is_stage(setting.today, self)),
        }
    }
}
