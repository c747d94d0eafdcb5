//! Several tables searched for rows that no record can hold, one after the other.

ghost use Rattle.std.specs.Prelude.{◌≡◌, ◌⊎◌, ◌≤◌, ◌++◌, ◌∷◌, [], true, false, List, length, IsTrue, OnOk, IfOk, IfErr};
ghost use Rattle.mf_base.specs.declared.fault.Fault.TheVariants.{F20};
ghost use Rattle.sqlite.specs.Held.{state};
ghost use Rattle.sqlite.specs.Schema.{Schema};
ghost use Rattle.sqlite.specs.State.{HasCleanDisk};
ghost use Rattle.mf_store_schema.specs.Schemas.{IsKnown, IsUnchangedUnder};
ghost use Rattle.mf_store_schema.specs.Tables.{IsPresent};
ghost use Rattle.mf_store_schema.specs.Versions.{IsOfVersion};
ghost use Rattle.mf_store_audit.specs.Unread.{AddUnread, AreToldOfAll, AreUnread, tables_searched};
ghost use Rattle.mf_store_audit.specs.declared.unread.TableName.TheVariants.{Meta, Offices, Staff, Clients, Charges};
ghost use Rattle.mf_store_audit.specs.declared.unread.TableName.TheVariants.{Products, Loans, Entries, Receipts};
ghost use Rattle.mf_store_audit.specs.declared.unread.TableName.TheVariants.{Instalments, Shares};

use crate::unread::{Unread, add_unread_in, are_enough};
use mf_base::Fault;
use mf_store_schema::{
    ChargeRow, ClientRow, EntryRow, InstalmentRow, LoanRow, MetaRow, OfficeRow, ProductRow,
    ReceiptRow, ShareRow, StaffRow, Version,
};
use sqlite::{Alter, Connection};
use std::alloc::Global;

/// The tables of offices and their people, and those of the catalogue.
type Frame = (
    (OfficeRow, (StaffRow, ClientRow)),
    (MetaRow, (ChargeRow, ProductRow)),
);

/// The tables of loans and of what was entered for them.
type Entered = (LoanRow, (EntryRow, ReceiptRow));

/// The tables that every version has.
type Common = (Frame, Entered);

/// Those of accounts, which the first version lacks.
type Accounts = (InstalmentRow, ShareRow);

/// A table, by its rows' type, or a pair of such.
trait Searched: Sized {
    ghost use Rattle.mf_store_audit.specs.declared.unread.TableName.{TableName};

    /// The schemas that have the tables.
    ghost IsUnder: { Schema → Type 0 } = { IsKnown };

    /// Their names, in the order of the search.
    ghost names: { List TableName };

    /// Adds each row that no record can hold, or the first alone. Where that is enough, none was found before. The
    /// error is F20.
    ///
    /// The clause on what is added speaks of a connection whose tables are those of a schema with these, whatever rows
    /// stand there.
    fn add_unread<S: Alter>(
        alloc: Global,
        connection: &mut Connection<S>,
        all: bool,
        unread: &mut Vec<Unread>,
    ) -> Result<(), Fault>
        requires alone { connection.old.in_transaction ≡ false }
        ensures kept { IsUnchangedUnder IsUnder (state S.Store connection.old) (state S.Store connection.new) }
        ensures gives_up { IfErr result (λ fault. fault ≡ F20) }
        ensures open { HasCleanDisk (state S.Store connection.new)
            → OnOk result (IsTrue (state S.Store connection.new).is_open) }
        ensures added { HasCleanDisk (state S.Store connection.new) → IsUnder (state S.Store connection.old).now.schema
            → OnOk result (AddUnread (state S.Store connection.old).now names all unread.old.items unread.new.items) }
        ensures one { OnOk result (all ≡ false → unread.old.items ≡ [] → length unread.new.items ≤ 1) }
        ensures mode { connection.new.in_transaction ≡ false };
}

/// Adds each row of the tables of a version that no record can hold, or the first alone; none was found before.
fn add_unread_at<S: Alter>(
    alloc: Global,
    connection: &mut Connection<S>,
    version: Version,
    all: bool,
    unread: &mut Vec<Unread>,
) -> Result<(), Fault>
    requires alone { connection.old.in_transaction ≡ false }
    ensures kept { IsUnchangedUnder (IsOfVersion version) (state S.Store connection.old)
        (state S.Store connection.new) }
    ensures gives_up { IfErr result (λ fault. fault ≡ F20) }
    ensures added { HasCleanDisk (state S.Store connection.new)
        → IsOfVersion version (state S.Store connection.old).now.schema
        → OnOk result (AddUnread (state S.Store connection.old).now (tables_searched version) all unread.old.items
        unread.new.items) }
    ensures one { OnOk result (all ≡ false → unread.old.items ≡ [] → length unread.new.items ≤ 1) }
    ensures mode { connection.new.in_transaction ≡ false }
{
    match version {
        Version::First => Common::add_unread(alloc, connection, all, unread),
        Version::Second | Version::Third => {
            <(Common, Accounts) as Searched>::add_unread(alloc, connection, all, unread)
        }
    }
}

/// The rows that no record can hold, in the tables of a version: each of them, table by table and row by row; or the
/// first alone, where not all are wanted. The error is F20.
///
/// The clauses on what is found speak of a connection whose tables are those of the version, whatever rows stand there.
pub(crate) fn unread_at<S: Alter>(
    alloc: Global,
    connection: &mut Connection<S>,
    version: Version,
    all: bool,
) -> Result<Vec<Unread>, Fault>
    requires alone { connection.old.in_transaction ≡ false }
    ensures kept { IsUnchangedUnder (IsOfVersion version) (state S.Store connection.old)
        (state S.Store connection.new) }
    ensures gives_up { IfErr result (λ fault. fault ≡ F20) }
    ensures found { HasCleanDisk (state S.Store connection.new)
        → IsOfVersion version (state S.Store connection.old).now.schema
        → IfOk result (λ unread. AreUnread version (state S.Store connection.old).now unread.items) }
    ensures every { HasCleanDisk (state S.Store connection.new)
        → IsOfVersion version (state S.Store connection.old).now.schema
        → IfOk result (λ unread. all ≡ true
        → AreToldOfAll (state S.Store connection.old).now (tables_searched version) unread.items) }
    ensures first { IfOk result (λ unread. all ≡ false → length unread.items ≤ 1) }
    ensures mode { connection.new.in_transaction ≡ false }
{
    let mut unread = Vec::new(alloc);
    add_unread_at(alloc, connection, version, all, &mut unread)?;
    Ok(unread)
}

impl<A: Searched, B: Searched> Searched for (A, B) {
    ghost IsUnder = { λ k. A.Searched.IsUnder k × B.Searched.IsUnder k };

    ghost names = { A.Searched.names ++ B.Searched.names };

    fn add_unread<S: Alter>(
        alloc: Global,
        connection: &mut Connection<S>,
        all: bool,
        unread: &mut Vec<Unread>,
    ) -> Result<(), Fault> {
        A::add_unread(alloc, connection, all, unread)?;
        if are_enough(all, unread) {
            return Ok(());
        }
        B::add_unread(alloc, connection, all, unread)
    }
}

impl Searched for MetaRow {
    ghost names = { Meta ∷ [] };

    fn add_unread<S: Alter>(
        alloc: Global,
        connection: &mut Connection<S>,
        all: bool,
        unread: &mut Vec<Unread>,
    ) -> Result<(), Fault> {
        add_unread_in::<MetaRow, S>(alloc, connection, all, unread)
    }
}

impl Searched for OfficeRow {
    ghost names = { Offices ∷ [] };

    fn add_unread<S: Alter>(
        alloc: Global,
        connection: &mut Connection<S>,
        all: bool,
        unread: &mut Vec<Unread>,
    ) -> Result<(), Fault> {
        add_unread_in::<OfficeRow, S>(alloc, connection, all, unread)
    }
}

impl Searched for StaffRow {
    ghost names = { Staff ∷ [] };

    fn add_unread<S: Alter>(
        alloc: Global,
        connection: &mut Connection<S>,
        all: bool,
        unread: &mut Vec<Unread>,
    ) -> Result<(), Fault> {
        add_unread_in::<StaffRow, S>(alloc, connection, all, unread)
    }
}

impl Searched for ClientRow {
    ghost names = { Clients ∷ [] };

    fn add_unread<S: Alter>(
        alloc: Global,
        connection: &mut Connection<S>,
        all: bool,
        unread: &mut Vec<Unread>,
    ) -> Result<(), Fault> {
        add_unread_in::<ClientRow, S>(alloc, connection, all, unread)
    }
}

impl Searched for ChargeRow {
    ghost names = { Charges ∷ [] };

    fn add_unread<S: Alter>(
        alloc: Global,
        connection: &mut Connection<S>,
        all: bool,
        unread: &mut Vec<Unread>,
    ) -> Result<(), Fault> {
        add_unread_in::<ChargeRow, S>(alloc, connection, all, unread)
    }
}

impl Searched for ProductRow {
    ghost names = { Products ∷ [] };

    fn add_unread<S: Alter>(
        alloc: Global,
        connection: &mut Connection<S>,
        all: bool,
        unread: &mut Vec<Unread>,
    ) -> Result<(), Fault> {
        add_unread_in::<ProductRow, S>(alloc, connection, all, unread)
    }
}

impl Searched for LoanRow {
    ghost names = { Loans ∷ [] };

    fn add_unread<S: Alter>(
        alloc: Global,
        connection: &mut Connection<S>,
        all: bool,
        unread: &mut Vec<Unread>,
    ) -> Result<(), Fault> {
        add_unread_in::<LoanRow, S>(alloc, connection, all, unread)
    }
}

impl Searched for EntryRow {
    ghost names = { Entries ∷ [] };

    fn add_unread<S: Alter>(
        alloc: Global,
        connection: &mut Connection<S>,
        all: bool,
        unread: &mut Vec<Unread>,
    ) -> Result<(), Fault> {
        add_unread_in::<EntryRow, S>(alloc, connection, all, unread)
    }
}

impl Searched for ReceiptRow {
    ghost names = { Receipts ∷ [] };

    fn add_unread<S: Alter>(
        alloc: Global,
        connection: &mut Connection<S>,
        all: bool,
        unread: &mut Vec<Unread>,
    ) -> Result<(), Fault> {
        add_unread_in::<ReceiptRow, S>(alloc, connection, all, unread)
    }
}

impl Searched for InstalmentRow {
    ghost IsUnder = { IsPresent };

    ghost names = { Instalments ∷ [] };

    fn add_unread<S: Alter>(
        alloc: Global,
        connection: &mut Connection<S>,
        all: bool,
        unread: &mut Vec<Unread>,
    ) -> Result<(), Fault> {
        add_unread_in::<InstalmentRow, S>(alloc, connection, all, unread)
    }
}

impl Searched for ShareRow {
    ghost IsUnder = { IsPresent };

    ghost names = { Shares ∷ [] };

    fn add_unread<S: Alter>(
        alloc: Global,
        connection: &mut Connection<S>,
        all: bool,
        unread: &mut Vec<Unread>,
    ) -> Result<(), Fault> {
        add_unread_in::<ShareRow, S>(alloc, connection, all, unread)
    }
}
