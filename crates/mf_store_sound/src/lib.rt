//! Whether rows, the tables of a connection, or a file hold a sound institution, told without changing them.
#![tactic(auto)]

mod amounts;
mod callers;
mod charges;
mod clients;
mod connecting;
mod entered;
mod entries;
mod judged;
mod judging;
mod loan_parts;
mod loans;
mod looking;
mod meta;
mod migrating;
mod numbered;
mod office_parts;
mod offices;
mod owners;
mod products;
mod receipts;
mod seals;
mod sound;
mod staff;
mod tables;

pub use amounts::is_amount;
pub use charges::is_value;
pub use connecting::connect;
pub use entries::{has_columns, has_right_receipt, is_readable};
pub use judged::{PARTS, SoundTables, read_sound, read_tables};
pub use judging::{Contents, judge};
pub use loans::{are_periods_allowed, is_principal_allowed, is_stage};
pub use looking::{Finding, look, look_with, reach};
pub use meta::business_day;
pub use migrating::with_accounts;
pub use offices::{has_parents_text, is_within_depth};
pub use owners::split_by_owner;
pub use products::{are_periods, is_of_kind, is_step};
pub use receipts::compare_receipts;
pub use seals::{is_past, is_reversed, is_seal};
pub use sound::{account_rows, is_sound};
pub use tables::Tables;
