//! The rows of all tables, as they were read.

ghost use Rattle.std.specs.Prelude.{◌↔◌, IsTrue};
ghost use Rattle.mf_store_sound.specs.Schemas.{HasAccounts};

use mf_store_schema::{
    ChargeRow, ClientRow, EntryRow, InstalmentRow, LoanRow, MetaRow, OfficeRow, ProductRow,
    ReceiptRow, ShareRow, StaffRow, Version,
};
use std::marker::Model;

/// The rows of the tables, each table's in the order of its key.
#[derive(Drop)]
pub struct Tables {
    /// The schema's number and the business day.
    pub meta: Vec<MetaRow>,
    /// The offices.
    pub offices: Vec<OfficeRow>,
    /// The members of staff, by office.
    pub staff: Vec<StaffRow>,
    /// The clients, by office.
    pub clients: Vec<ClientRow>,
    /// The charges of the catalogue.
    pub charges: Vec<ChargeRow>,
    /// The products of the catalogue.
    pub products: Vec<ProductRow>,
    /// The loans, by office.
    pub loans: Vec<LoanRow>,
    /// The entries, by loan.
    pub entries: Vec<EntryRow>,
    /// The receipts that entries carry, by office.
    pub receipts: Vec<ReceiptRow>,
    /// The instalments of accounts, by loan; none by the first version.
    pub instalments: Vec<InstalmentRow>,
    /// The shares of entries in instalments, by loan; none by the first version.
    pub shares: Vec<ShareRow>,
}

impl Model for Tables {
    ghost use Rattle.std.specs.Prelude.{[]};
    ghost use Rattle.mf_store_schema.specs.Rows.{Lists};

    ghost Value = { Lists };

    ghost view = { λ t. record {
      meta = t.meta.items;
      offices = t.offices.items;
      staff = t.staff.items;
      clients = t.clients.items;
      charges = t.charges.items;
      products = t.products.items;
      loans = t.loans.items;
      entries = t.entries.items;
      receipts = t.receipts.items;
      instalments = t.instalments.items;
      shares = t.shares.items;
      journal = [];
    } };
}

impl Tables {
    ghost use Rattle.std.specs.Prelude.{◌≡◌, ◌↔◌, IsTrue, []};

    /// Whether there are no rows of accounts.
    pub(crate) fn has_no_accounts(&self) -> bool
        ensures none { IsTrue result ↔ ((self.now.instalments ≡ []) × (self.now.shares ≡ [])) }
        ensures journal { self.now.journal ≡ [] }
    {
        self.instalments.is_empty() && self.shares.is_empty()
    }
}

/// Whether a version has tables of accounts.
pub(crate) fn has_accounts(version: Version) -> bool
    ensures { IsTrue result ↔ HasAccounts version }
{
    match version {
        Version::First => false,
        Version::Second => true,
        Version::Third => true,
    }
}
