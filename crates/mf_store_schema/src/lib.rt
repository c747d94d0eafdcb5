//! The program's tables: their rows and the texts that read and write them, over any store that `sqlite` can change.
//!
//! A file may hold the tables of any version of the schema, of which the first has none of instalments and of shares,
//! or whatever a stranger wrote there. Each table is read whole, the first version is brought to the second in one
//! commit, and a schema that is found is compared with the one that words describe. Contracts speak of the lists of
//! rows that the tables keep. What institution these are is left to the crates above.
#![tactic(auto)]

mod charges;
mod clients;
mod column_words;
mod described;
mod entries;
mod groups;
mod instalments;
mod journal;
pub mod laws;
mod loans;
mod logs;
mod meta;
mod offices;
mod opened;
mod products;
mod progress;
mod receipts;
mod rows;
mod rule_words;
mod shares;
mod shown;
mod staff;
mod table;
mod tables;
mod text;
mod upgrade_writes;
mod upgrading;
mod versions;
mod whole;
mod words;
mod writes;

pub use charges::ChargeRow;
pub use clients::ClientRow;
pub use entries::EntryRow;
pub use groups::{Group, Last};
pub use instalments::{InstalmentRow, PortionSums};
pub use loans::{LoanRow, loans_above};
pub use logs::{has_log, remove_bare_log};
pub use meta::{MetaRow, SCHEMA};
pub use offices::{OfficeRow, offices_within};
pub use opened::open_file;
pub use products::ProductRow;
pub use progress::{Progress, Unfollowed};
pub use receipts::{ReceiptRow, find_receipt};
pub use rows::read_any;
pub use shares::{EntryKey, ShareRow};
pub use staff::StaffRow;
pub use table::{Listed, Table, Values, ask, find_row, list_rows, read_row};
pub use tables::{has_no_tables, version_of};
pub use text::Text;
pub use upgrade_writes::UpgradeWrite;
pub use upgrading::upgrade;
pub use versions::Version;
pub use whole::{every, whole_text};
pub use writes::StoreWrite;
