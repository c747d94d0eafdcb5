//! Things by number, as statements and replies list them.

use mf_base::Fault;
use std::marker::Model;

/// Things by number, which contracts see as a list.
#[derive(Drop)]
pub struct Listing<T> {
    items: Vec<T>,
}

impl<T> Model for Listing<T> {
    ghost use Rattle.std.specs.Prelude.{List};

    ghost Value = { List T };

    ghost view = { λ listing. listing.items.items };
}

impl<T> Listing<T> {
    ghost use Rattle.std.specs.Prelude.{◌≡◌, ◌++◌, ◌∷◌, [], OnOk, IsOkUnless};

    /// The list of these items. It takes no memory.
    pub fn new(items: Vec<T>) -> Listing<T>
        ensures { result ≡ items.items }
    {
        Listing { items }
    }

    /// The items, in their order.
    pub fn as_slice(&self) -> &[T]
        ensures { result.now ≡ self.now }
    {
        self.items.as_slice()
    }

    /// Adds one at the end. The only error is F20, out of memory.
    pub(crate) fn push(&mut self, item: T) -> Result<(), Fault>
    where
        T: Drop,
        ensures added { OnOk result (self.new ≡ self.old ++ item ∷ []) }
        ensures only { IsOkUnless result Fault.F20 }
    {
        self.items.push(item)?;
        Ok(())
    }

    /// Gives them back. It takes no memory.
    pub fn into_items(self) -> Vec<T>
        ensures { result.items ≡ self }
    {
        let Listing { items } = self;
        items
    }
}
