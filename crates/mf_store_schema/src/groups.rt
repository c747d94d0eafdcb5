//! Several tables read whole, one after the other.

ghost use Rattle.std.specs.Prelude.{◌≡◌, IsTrue, OnOk, IfOk, IfErr, IfSome, IfNone, false};
ghost use Rattle.mf_base.specs.declared.fault.Fault.TheVariants.{F20};
ghost use Rattle.sqlite.specs.Held.{state};
ghost use Rattle.sqlite.specs.Schema.{Schema};
ghost use Rattle.sqlite.specs.State.{HasCleanDisk};
ghost use Rattle.sqlite.specs.Tree.{Trees};
ghost use Rattle.mf_store_schema.specs.Schemas.{IsUnchangedUnder};

use crate::progress::Progress;
use crate::table::Table;
use crate::whole::every;
use mf_base::Fault;
use sqlite::{Alter, Connection};
use std::alloc::Global;

/// Rows of one table or of several: a `Vec` of records, the last of several, or a pair of groups.
pub trait Group: Sized {
    /// The records.
    ghost Rows: { Type 0 };

    ghost rows: { Self → Rows };

    /// The trees keep them.
    ghost Keeps: { Trees → Rows → Type 0 };

    /// Fields of the records' kinds can hold their rows.
    ghost CanBeHeld: { Rows → Type 0 };

    /// They rise by the key of their table.
    ghost DoRise: { Rows → Type 0 };

    /// The schemas that have their tables.
    ghost IsUnder: { Schema → Type 0 };

    /// The rowids of their tables are in order.
    ghost HaveRowids: { Trees → Type 0 };

    /// What the tables keep, and none where they keep nothing that records can hold. Each table that is read is told.
    ///
    /// The clauses on what is read speak of a connection whose tables are those of a schema with these tables, whatever
    /// rows stand there.
    fn read_group<S: Alter, P: Progress>(
        alloc: Global,
        connection: &mut Connection<S>,
        progress: &mut P,
    ) -> Result<Option<Self>, Fault>
        requires alone { connection.old.in_transaction ≡ false }
        ensures kept { IsUnchangedUnder IsUnder (state S.Store connection.old) (state S.Store connection.new) }
        ensures gives_up { IfErr result (λ fault. fault ≡ F20) }
        ensures open { HasCleanDisk (state S.Store connection.new)
            → OnOk result (IsTrue (state S.Store connection.new).is_open) }
        ensures only { HasCleanDisk (state S.Store connection.new) → IsUnder (state S.Store connection.old).now.schema
            → IfOk result (λ x. IfSome x (λ group. (kept : Rows) → Keeps (state S.Store connection.old).now.trees kept
            → rows group ≡ kept)) }
        ensures keeps { HasCleanDisk (state S.Store connection.new) → IsUnder (state S.Store connection.old).now.schema
            → HaveRowids (state S.Store connection.old).now.trees
            → IfOk result (λ x. IfSome x (λ group. DoRise (rows group) → Keeps (state S.Store connection.old).now.trees
            (rows group))) }
        ensures none { HasCleanDisk (state S.Store connection.new) → IsUnder (state S.Store connection.old).now.schema
            → IfOk result (λ x. IfNone x ((kept : Rows) → CanBeHeld kept
            → ¬ Keeps (state S.Store connection.old).now.trees kept)) }
        ensures mode { connection.new.in_transaction ≡ false };
}

impl<T: Table + Drop> Group for Vec<T> {
    ghost use Rattle.std.specs.Prelude.{List, map};
    ghost use Rattle.std.specs.List.{AllByRecursion};
    ghost use Rattle.std.specs.declared.cmp.Ordering.TheVariants.{Less};
    ghost use Rattle.sqlite_trees.specs.Tree.{IsAscending};
    ghost use Rattle.mf_store_sql.specs.Keep.{Keeps as KeepsItems};
    ghost use Rattle.mf_store_schema.specs.Fields.{HasFields};
    ghost use Rattle.mf_store_schema.specs.Whole.{HasRowids};

    ghost Rows = { List T };

    ghost rows = { λ group. group.items };

    ghost Keeps = { λ trees items. KeepsItems T.Table.stored T.Table.by (trees T.Table.tree) items };

    ghost CanBeHeld = { λ items. AllByRecursion (HasFields (T.Table.columns).columns) (map T.Table.stored items) };

    ghost DoRise = { IsAscending (λ a b. T.Table.by a b ≡ Less) };

    ghost IsUnder = { T.Table.IsUnder };

    ghost HaveRowids = { λ trees. HasRowids (trees T.Table.tree) };

    fn read_group<S: Alter, P: Progress>(
        alloc: Global,
        connection: &mut Connection<S>,
        progress: &mut P,
    ) -> Result<Option<Vec<T>>, Fault> {
        let found = every(alloc, connection);
        progress.pass();
        found
    }
}

/// The rows of the last table of several: what the trees keep of these is then the list of conditions that
/// `specs/Writes` has.
#[derive(Drop)]
pub struct Last<T> {
    pub rows: Vec<T>,
}

impl<T: Table + Drop> Group for Last<T> {
    ghost use Rattle.std.specs.Prelude.{List, map};
    ghost use Rattle.std.specs.List.{AllByRecursion};
    ghost use Rattle.std.specs.declared.cmp.Ordering.TheVariants.{Less};
    ghost use Rattle.sqlite_trees.specs.Tree.{IsAscending};
    ghost use Rattle.mf_store_sql.specs.Keep.{Keeps as KeepsItems};
    ghost use Rattle.mf_store_schema.specs.Fields.{HasFields};
    ghost use Rattle.mf_store_schema.specs.Whole.{HasRowids};

    ghost Rows = { List T × Unit {0} };

    ghost rows = { λ group. (group.rows.items, tt) };

    ghost Keeps = { λ trees kept. KeepsItems T.Table.stored T.Table.by (trees T.Table.tree) kept.0 × Unit {0} };

    ghost CanBeHeld = { λ kept. AllByRecursion (HasFields (T.Table.columns).columns) (map T.Table.stored kept.0)
        × Unit {0} };

    ghost DoRise = { λ kept. IsAscending (λ a b. T.Table.by a b ≡ Less) kept.0 × Unit {0} };

    ghost IsUnder = { λ k. T.Table.IsUnder k × Unit {0} };

    ghost HaveRowids = { λ trees. HasRowids (trees T.Table.tree) × Unit {0} };

    fn read_group<S: Alter, P: Progress>(
        alloc: Global,
        connection: &mut Connection<S>,
        progress: &mut P,
    ) -> Result<Option<Last<T>>, Fault> {
        let found = every(alloc, connection)?;
        progress.pass();
        let Some(rows) = found else {
            return Ok(None);
        };
        Ok(Some(Last { rows }))
    }
}

impl<A: Group + Drop, B: Group + Drop> Group for (A, B) {
    ghost Rows = { A.Group.Rows × B.Group.Rows };

    ghost rows = { λ group. (A.Group.rows group.0, B.Group.rows group.1) };

    ghost Keeps = { λ trees kept. A.Group.Keeps trees kept.0 × B.Group.Keeps trees kept.1 };

    ghost CanBeHeld = { λ kept. A.Group.CanBeHeld kept.0 × B.Group.CanBeHeld kept.1 };

    ghost DoRise = { λ kept. A.Group.DoRise kept.0 × B.Group.DoRise kept.1 };

    ghost IsUnder = { λ k. A.Group.IsUnder k × B.Group.IsUnder k };

    ghost HaveRowids = { λ trees. A.Group.HaveRowids trees × B.Group.HaveRowids trees };

    fn read_group<S: Alter, P: Progress>(
        alloc: Global,
        connection: &mut Connection<S>,
        progress: &mut P,
    ) -> Result<Option<(A, B)>, Fault> {
        let found: Option<A> = A::read_group(alloc, connection, progress)?;
        let Some(first) = found else {
            return Ok(None);
        };
        let more: Option<B> = B::read_group(alloc, connection, progress)?;
        let Some(second) = more else {
            return Ok(None);
        };
        Ok(Some((first, second)))
    }
}
