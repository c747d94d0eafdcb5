//! Whether the tables of a connection, whatever rows stand there, are those of a sound institution.

ghost use Rattle.std.specs.Prelude.{◌≡◌, [], List, Option, IsTrue, OnOk, IfOk, IfErr, IfSome, IfNone, false};
ghost use Rattle.mf_base.specs.declared.fault.Fault.TheVariants.{F20};
ghost use Rattle.sqlite.specs.Held.{state};
ghost use Rattle.sqlite.specs.State.{HasCleanDisk};
ghost use Rattle.mf_store_schema.specs.Rows.{Lists};
ghost use Rattle.mf_store_schema.specs.Versions.{IsOfVersion};
ghost use Rattle.mf_store_schema.specs.Writes.{HoldsAt};
ghost use Rattle.mf_store_schema.specs.Schemas.{IsUnchangedUnder};
ghost use Rattle.mf_store_schema.specs.Whole.{HaveRowids};
ghost use Rattle.mf_store_sound.specs.Schemas.{lists_at, tables_at};
ghost use Rattle.mf_model.specs.Institution.{JournalLine};
ghost use Rattle.mf_store_schema.specs.declared.versions.Version.TheVariants.{Third};
ghost use Rattle.mf_store_told.specs.Told.{TellsRequests};
ghost use Rattle.mf_store_sound.specs.Held.{CanBeHeld, CanBeOpened, DoRise, HoldsSoundAt, IsFoundIn, KeepsJournalAt};

use crate::sound::is_sound;
use crate::tables::{Tables, has_accounts};
use mf_base::Fault;
use mf_store_journal::Journal;
use mf_store_schema::{
    ChargeRow, ClientRow, EntryRow, Group, InstalmentRow, Last, LoanRow, MetaRow, OfficeRow,
    ProductRow, Progress, ReceiptRow, ShareRow, StaffRow, Version,
};
use mf_store_told::read_told_journal;
use sqlite::{Alter, Connection};
use std::alloc::Global;

/// How many parts are told at most while a file is checked: its tables, each read whole.
pub const PARTS: u32 = 11;

/// The tables of loans, of what was entered for them, and of the receipts of that.
type Books = (Vec<LoanRow>, (Vec<EntryRow>, Last<ReceiptRow>));

/// The tables that every version has, in the order of the schema.
type Common = (
    Vec<MetaRow>,
    (
        Vec<OfficeRow>,
        (
            Vec<StaffRow>,
            (Vec<ClientRow>, (Vec<ChargeRow>, (Vec<ProductRow>, Books))),
        ),
    ),
);

/// Those of accounts, which the first version lacks.
type Accounts = (Vec<InstalmentRow>, Last<ShareRow>);

/// The rows of all tables.
fn all_of(common: Common, instalments: Vec<InstalmentRow>, shares: Vec<ShareRow>) -> Tables
    ensures { result ≡ record {
      meta = common.0.items;
      offices = common.1.0.items;
      staff = common.1.1.0.items;
      clients = common.1.1.1.0.items;
      charges = common.1.1.1.1.0.items;
      products = common.1.1.1.1.1.0.items;
      loans = common.1.1.1.1.1.1.0.items;
      entries = common.1.1.1.1.1.1.1.0.items;
      receipts = common.1.1.1.1.1.1.1.1.rows.items;
      instalments = instalments.items;
      shares = shares.items;
      journal = [];
    } }
{
    let (meta, (offices, (staff, (clients, (charges, (products, books)))))) = common;
    let (loans, (entries, receipts)) = books;
    Tables {
        meta,
        offices,
        staff,
        clients,
        charges,
        products,
        loans,
        entries,
        receipts: receipts.rows,
        instalments,
        shares,
    }
}

/// What the tables of a version hold, with no rows where it has no such table, and none where they hold nothing that
/// records can hold. The error is F20.
///
/// The clauses on what is read speak of a connection whose tables are those of the version, whatever rows stand there.
pub fn read_tables<S: Alter, P: Progress>(
    alloc: Global,
    connection: &mut Connection<S>,
    version: Version,
    progress: &mut P,
) -> Result<Option<Tables>, Fault>
    requires alone { connection.old.in_transaction ≡ false }
    ensures kept { IsUnchangedUnder (IsOfVersion version) (state S.Store connection.old)
        (state S.Store connection.new) }
    ensures gives_up { IfErr result (λ fault. fault ≡ F20) }
    ensures open { HasCleanDisk (state S.Store connection.new)
        → OnOk result (IsTrue (state S.Store connection.new).is_open) }
    ensures only { HasCleanDisk (state S.Store connection.new)
        → IsOfVersion version (state S.Store connection.old).now.schema
        → IfOk result (λ x. IfSome x (λ tables. (lists : Lists)
        → HoldsAt version (state S.Store connection.old).now.trees lists → tables ≡ lists_at version lists)) }
    ensures keeps { HasCleanDisk (state S.Store connection.new)
        → IsOfVersion version (state S.Store connection.old).now.schema
        → HaveRowids version (state S.Store connection.old).now.trees
        → IfOk result (λ x. IfSome x (λ tables. DoRise tables
        → HoldsAt version (state S.Store connection.old).now.trees tables)) }
    ensures none { HasCleanDisk (state S.Store connection.new)
        → IsOfVersion version (state S.Store connection.old).now.schema
        → IfOk result (λ x. IfNone x ((lists : Lists) → CanBeHeld lists
        → ¬ HoldsAt version (state S.Store connection.old).now.trees lists)) }
    ensures mode { connection.new.in_transaction ≡ false }
{
    let _schema = connection.schema();
    let found = Common::read_group(alloc, connection, progress)?;
    let Some(common) = found else {
        return Ok(None);
    };
    if !has_accounts(version) {
        return Ok(Some(all_of(common, Vec::new(alloc), Vec::new(alloc))));
    }
    let more = Accounts::read_group(alloc, connection, progress)?;
    let Some((instalments, shares)) = more else {
        return Ok(None);
    };
    Ok(Some(all_of(common, instalments, shares.rows)))
}

/// What sound tables hold: their rows, and where the journal begins and stands, where the version has one.
#[derive(Drop)]
pub struct SoundTables {
    pub tables: Tables,
    pub journal: Option<Journal>,
}

/// The rows with the journal beside them, in tables of the third version, and none where no journal is kept there that
/// the program can have written, or a line of it tells no request.
///
/// The clauses on the journal speak of a connection whose tables are those of the version, whatever rows stand there.
fn with_journal<S: Alter>(
    alloc: Global,
    connection: &mut Connection<S>,
    tables: Tables,
) -> Result<Option<SoundTables>, Fault>
    requires alone { connection.old.in_transaction ≡ false }
    ensures kept { IsUnchangedUnder (IsOfVersion Third) (state S.Store connection.old)
        (state S.Store connection.new) }
    ensures gives_up { IfErr result (λ fault. fault ≡ F20) }
    ensures open { HasCleanDisk (state S.Store connection.new)
        → OnOk result (IsTrue (state S.Store connection.new).is_open) }
    ensures rows { IfOk result (λ x. IfSome x (λ found. found.tables ≡ tables)) }
    ensures some { HasCleanDisk (state S.Store connection.new)
        → IsOfVersion Third (state S.Store connection.old).now.schema
        → HaveRowids Third (state S.Store connection.old).now.trees
        → IfOk result (λ x. IfSome x (λ found. (journal : Option (List JournalLine))
        × KeepsJournalAt Third (state S.Store connection.old).now.trees journal × TellsRequests journal)) }
    ensures only { HasCleanDisk (state S.Store connection.new)
        → IsOfVersion Third (state S.Store connection.old).now.schema
        → IfOk result (λ x. IfSome x (λ found. (journal : Option (List JournalLine))
        → KeepsJournalAt Third (state S.Store connection.old).now.trees journal
        → IsFoundIn (state S.Store connection.old).now.trees found.journal journal)) }
    ensures none { HasCleanDisk (state S.Store connection.new)
        → IsOfVersion Third (state S.Store connection.old).now.schema
        → IfOk result (λ x. IfNone x ((journal : Option (List JournalLine))
        → KeepsJournalAt Third (state S.Store connection.old).now.trees journal → ¬ TellsRequests journal)) }
    ensures mode { connection.new.in_transaction ≡ false }
{
    match read_told_journal(alloc, connection) {
        Ok(Some(journal)) => Ok(Some(SoundTables {
            tables,
            journal: Some(journal),
        })),
        Ok(None) => Ok(None),
        Err(fault) => Err(fault),
    }
}

/// The rows of the tables of a version where they are those of a sound institution, with the journal where the version
/// has one. None where no sound one has them, where no journal is kept that the program can have written, and where a
/// line of it tells no request. It changes nothing. The error is F20.
///
/// The answer speaks of a connection whose tables are those of the version, whatever rows stand there.
pub fn read_sound<S: Alter, P: Progress>(
    alloc: Global,
    connection: &mut Connection<S>,
    version: Version,
    progress: &mut P,
) -> Result<Option<SoundTables>, Fault>
    requires alone { connection.old.in_transaction ≡ false }
    ensures kept { IsUnchangedUnder (IsOfVersion version) (state S.Store connection.old)
        (state S.Store connection.new) }
    ensures gives_up { IfErr result (λ fault. fault ≡ F20) }
    ensures open { HasCleanDisk (state S.Store connection.new)
        → OnOk result (IsTrue (state S.Store connection.new).is_open) }
    ensures sound { HasCleanDisk (state S.Store connection.new)
        → IsOfVersion version (state S.Store connection.old).now.schema
        → HaveRowids version (state S.Store connection.old).now.trees
        → IfOk result (λ x. IfSome x (λ found. CanBeOpened version (state S.Store connection.old).now.trees)) }
    ensures rows { HasCleanDisk (state S.Store connection.new)
        → IsOfVersion version (state S.Store connection.old).now.schema
        → IfOk result (λ x. IfSome x
        (λ found. (held : HoldsSoundAt version (state S.Store connection.old).now.trees)
        → tables_at version held.institution ≡ found.tables)) }
    ensures journal { HasCleanDisk (state S.Store connection.new)
        → IsOfVersion version (state S.Store connection.old).now.schema
        → IfOk result (λ x. IfSome x
        (λ found. (held : HoldsSoundAt version (state S.Store connection.old).now.trees)
        → IsFoundIn (state S.Store connection.old).now.trees found.journal held.institution.journal)) }
    ensures none { HasCleanDisk (state S.Store connection.new)
        → IsOfVersion version (state S.Store connection.old).now.schema
        → IfOk result (λ x. IfNone x (¬ CanBeOpened version (state S.Store connection.old).now.trees)) }
    ensures mode { connection.new.in_transaction ≡ false }
{
    let Some(tables) = read_tables(alloc, connection, version, progress)? else {
        return Ok(None);
    };
    let sound = is_sound(alloc, version, &tables)?;
    if !sound {
        return Ok(None);
    }
    match version {
        Version::First | Version::Second => Ok(Some(SoundTables {
            tables,
            journal: None,
        })),
        Version::Third => with_journal(alloc, connection, tables),
    }
}
