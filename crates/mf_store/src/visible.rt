//! What an office sees, by the range of its hierarchy text.

ghost use Rattle.std.specs.Prelude.{◌≡◌, Option, map, is_some, IfOk, IfErr};
ghost use Rattle.mf_base.specs.declared.fault.Fault.TheVariants.{F20};
ghost use Rattle.mf_office.specs.Tree.{is_within};
ghost use Rattle.mf_model.specs.Institution.{Institution};
ghost use Rattle.mf_model.specs.Tree.{parent_of, seen_by, seen_office};
ghost use Rattle.mf_model.specs.Desk.{office_shown};
ghost use Rattle.mf_store_values.specs.Flat.{key_at, sees, has_room};

use crate::store::Store;
use mf_base::Fault;
use mf_model::{OfficeList, laws};
use mf_office::{Key, OfficeNo, in_range};
use mf_store_schema::OfficeRow;
use mf_store_values::offices_from;
use sqlite::Alter;
use std::alloc::Global;

/// Whether a key lies in the range of another.
fn is_below(alloc: Global, above: Option<Key>, key: Option<Key>) -> Result<bool, Fault>
    ensures value { IfOk result (λ below. below ≡ sees above key) }
    ensures gives_up { IfErr result (λ fault. fault ≡ F20) }
{
    let Some(above) = above else {
        return Ok(false);
    };
    let Some(key) = key else {
        return Ok(false);
    };
    let (low, high) = above.range(alloc)?;
    Ok(in_range(low.as_str(), high.as_str(), key.as_str()))
}

/// Whether an office with this key has room below it: at most five dots, one for each office on the way.
fn has_room_below(key: &Option<Key>) -> bool
    ensures { result ≡ has_room key.now }
{
    match key {
        None => false,
        Some(key) => key.depth() <= 5,
    }
}

impl<S: Alter> Store<S> {
    ghost use Rattle.mf_store.specs.Stands.{StandsFor, IsClean, AsksTables, MayAskTables};

    /// The key of an office that is there.
    pub(crate) fn key(&mut self, number: u32) -> Result<Option<Key>, Fault>
        ensures asks { AsksTables S.Store self.old self.new result }
        ensures value { IsClean S.Store self.new → (i : Institution) → StandsFor S.Store self.old i
            → IfOk result (λ key. key ≡ key_at number i) }
    {
        let Some(office) = self.find::<OfficeRow>(number)? else {
            return Ok(None);
        };
        match Key::from_text(office.hkey.into_string()) {
            Some(key) => Ok(Some(key)),
            None => Err(Fault::F20),
        }
    }

    /// The same, where the tables are asked at most once.
    fn kept_key(&mut self, alloc: Global, number: u32) -> Result<Option<Key>, Fault>
        ensures asks { MayAskTables S.Store self.old self.new result }
        ensures value { IsClean S.Store self.new → (i : Institution) → StandsFor S.Store self.old i
            → IfOk result (λ key. key ≡ key_at number i) }
    {
        if let Some(key) = self.known().key(alloc, number) {
            self.learn_key(alloc, number, &key);
            return Ok(Some(key));
        }
        match self.key(number)? {
            None => Ok(None),
            Some(key) => {
                self.learn_key(alloc, number, &key);
                Ok(Some(key))
            }
        }
    }

    /// Whether an office is there and at or below another, by the range of the other's key.
    pub fn visible(&mut self, alloc: Global, to: OfficeNo, office: OfficeNo) -> Result<bool, Fault>
        ensures asks { MayAskTables S.Store self.old self.new result }
        ensures value { IsClean S.Store self.new → (i : Institution) → StandsFor S.Store self.old i
            → IfOk result (λ seen. seen ≡ is_some (seen_office to office i)) }
    {
        laws::tree_of_offices();
        let above = self.kept_key(alloc, to.get())?;
        let below = self.kept_key(alloc, office.get())?;
        is_below(alloc, above, below)
    }

    /// Whether an office has room below it: it is there and less than six deep, the head being one.
    pub fn has_room_below(&mut self, office: OfficeNo) -> Result<bool, Fault>
        ensures asks { AsksTables S.Store self.old self.new result }
        ensures value { IsClean S.Store self.new → (i : Institution) → StandsFor S.Store self.old i
            → IfOk result (λ room. room ≡ is_within 4 (parent_of i.offices) office 1) }
    {
        laws::tree_of_offices();
        mf_office::laws::depth_by_key();
        let key = self.key(office.get())?;
        Ok(has_room_below(&key))
    }

    /// The offices at or below one, by number: one query over the range of its key.
    pub fn offices(&mut self, alloc: Global, to: OfficeNo) -> Result<OfficeList, Fault>
        ensures asks { MayAskTables S.Store self.old self.new result }
        ensures value { IsClean S.Store self.new → (i : Institution) → StandsFor S.Store self.old i
            → IfOk result (λ list. list ≡ map office_shown (seen_by to i.offices)) }
    {
        laws::tree_of_offices();
        let found = self.kept_key(alloc, to.get())?;
        let Some(above) = found else {
            return Ok(OfficeList::new(Vec::new(alloc)));
        };
        let (low, high) = above.range(alloc)?;
        let rows = self.rows_within(low.as_str(), high.as_str())?;
        offices_from(alloc, &rows)
    }
}
