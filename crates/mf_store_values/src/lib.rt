//! What the rows of the tables stand for: charges, products, loans, entries, instalments, offices. A row that can be
//! none of these is F20. And which rows of instalments and of shares an institution has, made and checked by the rows
//! of loans and of their entries.
#![tactic(auto)]

mod account_rows;
mod accounts;
mod catalogue;
mod entries;
mod fold;
mod instalment_rows;
mod instalments;
mod kept_entries;
mod loans;
mod numbers;
mod office_line;
mod office_rows;
mod offices;
mod parts;
mod principal;
mod receipts;
mod row_numbers;
mod same;
mod shares;
mod shut;
mod terms;
mod values;

pub use account_rows::{are_accounts, rows_of_accounts};
pub use accounts::account_of;
pub use catalogue::{
    ChargeColumns, ProductColumns, charge_columns, charge_from, product_columns, product_from,
};
pub use entries::entries_from;
pub use fold::{NoLine, fold_loans};
pub use instalment_rows::instalment_row;
pub use instalments::{instalment_from, instalments_from, is_active};
pub use kept_entries::{EntryColumns, entry_columns};
pub use loans::{disbursal_day, loan_from, loan_in_row, stage_of};
pub use numbers::{amount_from, flag_from, to_signed};
pub use office_line::line_of_office;
pub use office_rows::{Ledger, OfficeRows, StaffMember, names_from, staff_from};
pub use offices::offices_from;
pub use parts::parts_from;
pub use principal::is_principal_open;
pub use receipts::use_from;
pub use row_numbers::row_numbered;
pub use same::{Same, are_same};
pub use shares::share_row;
pub use shut::see_open;
pub use values::or_give_up;
