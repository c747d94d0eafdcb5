//! The tables by their names.

ghost use Rattle.std.specs.Prelude.{◌≡◌};
ghost use Rattle.mf_store_audit.specs.Unread.{kept_as, KeepsSo, keeps_so};
ghost use Rattle.mf_store_audit.specs.declared.unread.TableName.TheVariants.{Meta, Offices, Staff, Clients, Charges};
ghost use Rattle.mf_store_audit.specs.declared.unread.TableName.TheVariants.{Products, Loans, Entries, Receipts};
ghost use Rattle.mf_store_audit.specs.declared.unread.TableName.TheVariants.{Instalments, Shares};

use crate::unread::TableName;
use mf_store_schema::{
    ChargeRow, ClientRow, EntryRow, InstalmentRow, LoanRow, MetaRow, OfficeRow, ProductRow,
    ReceiptRow, ShareRow, StaffRow, Table,
};

/// A table with its name.
pub(crate) trait NamedTable: Table + Drop {
    ghost use Rattle.mf_store_audit.specs.declared.unread.TableName.{TableName};

    ghost name: { TableName };

    /// Its name.
    fn name() -> TableName
        ensures { result ≡ name };

    // The table of this name keeps records as this one does.
    ghost keeps: { KeepsSo (kept_as name) Self.columns Self.stored Self.by Self.tree };
}

impl NamedTable for MetaRow {
    ghost name = { Meta };

    fn name() -> TableName {
        TableName::Meta
    }

    ghost keeps = { keeps_so (kept_as Meta) };
}

impl NamedTable for OfficeRow {
    ghost name = { Offices };

    fn name() -> TableName {
        TableName::Offices
    }

    ghost keeps = { keeps_so (kept_as Offices) };
}

impl NamedTable for StaffRow {
    ghost name = { Staff };

    fn name() -> TableName {
        TableName::Staff
    }

    ghost keeps = { keeps_so (kept_as Staff) };
}

impl NamedTable for ClientRow {
    ghost name = { Clients };

    fn name() -> TableName {
        TableName::Clients
    }

    ghost keeps = { keeps_so (kept_as Clients) };
}

impl NamedTable for ChargeRow {
    ghost name = { Charges };

    fn name() -> TableName {
        TableName::Charges
    }

    ghost keeps = { keeps_so (kept_as Charges) };
}

impl NamedTable for ProductRow {
    ghost name = { Products };

    fn name() -> TableName {
        TableName::Products
    }

    ghost keeps = { keeps_so (kept_as Products) };
}

impl NamedTable for LoanRow {
    ghost name = { Loans };

    fn name() -> TableName {
        TableName::Loans
    }

    ghost keeps = { keeps_so (kept_as Loans) };
}

impl NamedTable for EntryRow {
    ghost name = { Entries };

    fn name() -> TableName {
        TableName::Entries
    }

    ghost keeps = { keeps_so (kept_as Entries) };
}

impl NamedTable for ReceiptRow {
    ghost name = { Receipts };

    fn name() -> TableName {
        TableName::Receipts
    }

    ghost keeps = { keeps_so (kept_as Receipts) };
}

impl NamedTable for InstalmentRow {
    ghost name = { Instalments };

    fn name() -> TableName {
        TableName::Instalments
    }

    ghost keeps = { keeps_so (kept_as Instalments) };
}

impl NamedTable for ShareRow {
    ghost name = { Shares };

    fn name() -> TableName {
        TableName::Shares
    }

    ghost keeps = { keeps_so (kept_as Shares) };
}
