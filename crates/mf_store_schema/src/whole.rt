//! Tables that are read whole.

ghost use Rattle.std.specs.Prelude.{◌≡◌, List, [], false, map, IsTrue, OnOk, IfOk, IfErr, IfSome, IfNone};
ghost use Rattle.std.specs.List.{AllByRecursion};
ghost use Rattle.std.specs.declared.cmp.Ordering.TheVariants.{Less};
ghost use Rattle.mf_base.specs.declared.fault.Fault.TheVariants.{F20};
ghost use Rattle.sqlite.specs.Order.{Row};
ghost use Rattle.sqlite.specs.Effect.{Database};
ghost use Rattle.sqlite.specs.Given.{IsPlain};
ghost use Rattle.sqlite.specs.Held.{state};
ghost use Rattle.sqlite.specs.Schema.{Schema};
ghost use Rattle.sqlite.specs.Listing.{understood};
ghost use Rattle.sqlite.specs.State.{HasCleanDisk};
ghost use Rattle.sqlite_catalog.specs.Listing.{IsSound};
ghost use Rattle.sqlite_trees.specs.Tree.{IsAscending};
ghost use Rattle.mf_store_sql.specs.Keep.{Keeps};
ghost use Rattle.mf_store_sql.specs.Queries.{Answers};
ghost use Rattle.mf_store_schema.specs.Fields.{HasFields};
ghost use Rattle.mf_store_schema.specs.Schemas.{IsUnchangedUnder};
ghost use Rattle.mf_store_schema.specs.Whole.{HasRowids, ShowsTable};

use crate::shown::read_shown;
use crate::table::Table;
use mf_base::Fault;
use sqlite::{Alter, Connection};
use std::alloc::Global;

/// The text that shows a whole table, and what it means under each schema that has the table.
pub fn whole_text<T: Table>() -> &'static str
    ensures plain { (k : Schema) → T.IsUnder k → IsPlain (understood k result.now) }
    ensures shows { (db : Database) (rows : List Row) → T.IsUnder db.schema → IsSound db.schema db.trees
        → Answers result.now [] db rows → ShowsTable T.stored T.by (db.trees T.tree) rows }
{
    T::every_text()
}

/// What the table keeps, and none where it keeps nothing that records can hold.
///
/// The clauses on what is read speak of a connection whose tables are those of a schema with this table, whatever rows
/// stand there.
pub fn every<T: Table + Drop, S: Alter>(
    alloc: Global,
    connection: &mut Connection<S>,
) -> Result<Option<Vec<T>>, Fault>
    requires alone { connection.old.in_transaction ≡ false }
    ensures kept { IsUnchangedUnder T.IsUnder (state S.Store connection.old) (state S.Store connection.new) }
    ensures gives_up { IfErr result (λ fault. fault ≡ F20) }
    ensures open { HasCleanDisk (state S.Store connection.new)
        → OnOk result (IsTrue (state S.Store connection.new).is_open) }

    // What the table keeps is this; and a table whose rowids are in order keeps this, if it rises by key.
    ensures only { HasCleanDisk (state S.Store connection.new) → T.IsUnder (state S.Store connection.old).now.schema
        → IfOk result (λ x. IfSome x (λ rs. (items : List T)
        → Keeps T.stored T.by ((state S.Store connection.old).now.trees T.tree) items
        → rs.items ≡ items)) }
    ensures keeps { HasCleanDisk (state S.Store connection.new) → T.IsUnder (state S.Store connection.old).now.schema
        → HasRowids ((state S.Store connection.old).now.trees T.tree)
        → IfOk result (λ x. IfSome x (λ rs. IsAscending (λ a b. T.by a b ≡ Less) rs.items
        → Keeps T.stored T.by ((state S.Store connection.old).now.trees T.tree) rs.items)) }
    ensures none { HasCleanDisk (state S.Store connection.new) → T.IsUnder (state S.Store connection.old).now.schema
        → IfOk result (λ x. IfNone x ((items : List T) → AllByRecursion (HasFields (T.columns).columns)
        (map T.stored items)
        → ¬ Keeps T.stored T.by ((state S.Store connection.old).now.trees T.tree) items)) }
    ensures mode { connection.new.in_transaction ≡ false }
{
    let _schema = connection.schema();
    read_shown(alloc, connection, whole_text::<T>())
}
