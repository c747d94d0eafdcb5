//! What a commit is made of: tables made, rows put, shares removed.

ghost use Rattle.std.specs.Prelude.{◌≡◌, IsTrue, OnOk, None};
ghost use Rattle.sqlite.specs.State.{HasCleanDisk, KeepsCommit, Survives};
ghost use Rattle.sqlite.specs.Held.{state};
ghost use Rattle.mf_store_sql.specs.Tables.{no_schema};
ghost use Rattle.mf_store_sql.specs.Writes.{Serves, Steps};
ghost use Rattle.mf_store_schema.specs.Tables.{schema};
ghost use Rattle.mf_store_schema.specs.Writes.{schema_of, Holds, Making};

use crate::charges::ChargeRow;
use crate::clients::ClientRow;
use crate::entries::EntryRow;
use crate::instalments::InstalmentRow;
use crate::loans::LoanRow;
use crate::meta::MetaRow;
use crate::offices::OfficeRow;
use crate::products::ProductRow;
use crate::receipts::ReceiptRow;
use crate::shares::{EntryKey, ShareRow};
use crate::staff::StaffRow;
use crate::table::{add_row, put_row};
use crate::{
    charges, clients, entries, instalments, loans, meta, offices, products, receipts, shares, staff,
};
use mf_store_sql::{Write, make};
use sqlite::{Alter, Error, Transaction};

/// What a commit is made of: the tables made, one row put by its key, or the shares of an entry removed. An office, a
/// member of staff, a client and a charge are written once, when they are new; a product and a loan are added when they
/// are new, and put when they change; an entry is added when it is new, and changed when it is reversed; a receipt is
/// added when it is new; an instalment and a share are put, whether they are new or change.
#[derive(Drop)]
pub enum StoreWrite {
    MakeTables,
    PutMeta(MetaRow),
    PutOffice(OfficeRow),
    PutStaff(StaffRow),
    PutClient(ClientRow),
    PutCharge(ChargeRow),
    AddProduct(ProductRow),
    PutProduct(ProductRow),
    AddLoan(LoanRow),
    PutLoan(LoanRow),
    AddEntry(EntryRow),
    ChangeEntry(EntryRow),
    AddReceipt(ReceiptRow),
    PutInstalment(InstalmentRow),
    PutShare(ShareRow),
    /// All shares of the entry go.
    RemoveShares(EntryKey),
}

/// The texts that make the tables, in the order of the schema.
const CREATE_TEXTS: [&str; 11] = [
    meta::CREATE_TEXT,
    offices::CREATE_TEXT,
    staff::CREATE_TEXT,
    clients::CREATE_TEXT,
    charges::CREATE_TEXT,
    products::CREATE_TEXT,
    loans::CREATE_TEXT,
    entries::CREATE_TEXT,
    receipts::CREATE_TEXT,
    instalments::CREATE_TEXT,
    shares::CREATE_TEXT,
];

fn make_tables<S: Alter>(tx: &mut Transaction<'_, S>) -> Result<(), Error>
    ensures same_reference { tx.new.conn.ghost_name ≡ tx.old.conn.ghost_name }
    ensures ok { HasCleanDisk (state S.Store tx.new.conn.now) → IsTrue (state S.Store tx.old.conn.now).in_transaction
        → OnOk result (Making (state S.Store tx.old.conn.now) (state S.Store tx.new.conn.now)) }
    ensures kept { HasCleanDisk (state S.Store tx.new.conn.now) → KeepsCommit (state S.Store tx.old.conn.now)
        (state S.Store tx.new.conn.now) }
    ensures survives { Survives (state S.Store tx.old.conn.now) (state S.Store tx.new.conn.now) (λ _. ⊥) }
{
    make(tx, &CREATE_TEXTS)
}

impl Write for StoreWrite {
    ghost use Rattle.std.specs.Prelude.{◌≡◌, Option, IsTrue, OnOk, IfErr};
    ghost use Rattle.mf_store_schema.specs.Rows.{Lists};
    ghost use Rattle.sqlite.specs.State.{HasCleanDisk, KeepsCommit, Survives};
    ghost use Rattle.sqlite.specs.Held.{state};
    ghost use Rattle.mf_store_sql.specs.Writes.{Ran, Serves, Steps};
    ghost use Rattle.mf_store_schema.specs.Writes.{schema_of, Holds, after_write, FitsLists, Failed, ByItsText};

    ghost Lists = { Option Lists };

    ghost schema = { schema_of };

    ghost Holds = { Holds };

    ghost Fits = { FitsLists };

    ghost after = { after_write };

    fn write<S: Alter>(&self, tx: &mut Transaction<'_, S>) -> Result<(), Error>
        ensures same_reference { tx.new.conn.ghost_name ≡ tx.old.conn.ghost_name }
        ensures ok { HasCleanDisk (state S.Store tx.new.conn.now)
            → IsTrue (state S.Store tx.old.conn.now).in_transaction
            → OnOk result (Steps (Serves schema_of Holds) (FitsLists self.now) (after_write self.now)
            (state S.Store tx.old.conn.now) (state S.Store tx.new.conn.now)) }
        ensures kept { HasCleanDisk (state S.Store tx.new.conn.now) → KeepsCommit (state S.Store tx.old.conn.now)
            (state S.Store tx.new.conn.now) }
        ensures survives { Survives (state S.Store tx.old.conn.now) (state S.Store tx.new.conn.now) (λ _. ⊥) }
        ensures ran { HasCleanDisk (state S.Store tx.new.conn.now)
            → IsTrue (state S.Store tx.old.conn.now).in_transaction
            → OnOk result (ByItsText self.now (λ sql row. Ran sql row (state S.Store tx.old.conn.now)
            (state S.Store tx.new.conn.now))) }
        ensures failed { HasCleanDisk (state S.Store tx.new.conn.now)
            → IsTrue (state S.Store tx.old.conn.now).in_transaction
            → IfErr result (λ e. ByItsText self.now (λ sql row. Failed sql row (state S.Store tx.old.conn.now)
            (state S.Store tx.new.conn.now) e)) }
    {
        match self {
            StoreWrite::MakeTables => make_tables(tx),
            StoreWrite::PutMeta(meta) => put_row(meta, tx),
            StoreWrite::PutOffice(office) => add_row(office, tx),
            StoreWrite::PutStaff(staff) => add_row(staff, tx),
            StoreWrite::PutClient(client) => add_row(client, tx),
            StoreWrite::PutCharge(charge) => add_row(charge, tx),
            StoreWrite::AddProduct(product) => add_row(product, tx),
            StoreWrite::PutProduct(product) => put_row(product, tx),
            StoreWrite::AddLoan(loan) => add_row(loan, tx),
            StoreWrite::PutLoan(loan) => put_row(loan, tx),
            StoreWrite::AddEntry(entry) => add_row(entry, tx),
            StoreWrite::ChangeEntry(entry) => put_row(entry, tx),
            StoreWrite::AddReceipt(receipt) => add_row(receipt, tx),
            StoreWrite::PutInstalment(instalment) => put_row(instalment, tx),
            StoreWrite::PutShare(share) => put_row(share, tx),
            StoreWrite::RemoveShares(entry) => entry.remove_shares(tx),
        }
    }
}
