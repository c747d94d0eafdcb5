//! The catalogue: its charges and products by number, and the commits that change it.

ghost use Rattle.std.specs.Prelude.{◌≡◌, ◌+◌, ◌∷◌, [], length, IfOk, IfErr};
ghost use Rattle.mf_base.specs.declared.fault.Fault.TheVariants.{F20};
ghost use Rattle.mf_model.specs.Institution.{Institution, charge_in, product_in};
ghost use Rattle.mf_model.specs.Notes.{noted_now};
ghost use Rattle.mf_model.specs.Sound.{IsSound};
ghost use Rattle.mf_model.specs.Store.{catalogue_counts, IsAdmitted};
ghost use Rattle.mf_model.specs.declared.commit.Commit.TheVariants.{SetDay, AddCharge, AddProduct, RetireProduct};
ghost use Rattle.mf_store_commits.specs.Suiting.{Carries};

use crate::counts::{Kind, MOST};
use crate::known::News;
use crate::store::Store;
use mf_base::{Day, Fault, Name};
use mf_catalog::{Calc, ChargeDef, ChargeKind, Product, ProductMembers};
use mf_model::{CatalogueCounts, Note};
use mf_store_commits::{charge_row, product_row, retire};
use mf_store_schema::{ChargeRow, MetaRow, ProductRow, StoreWrite, Text};
use mf_store_values::{charge_from, product_from};
use sqlite::Alter;
use std::alloc::Global;

/// The write that adds a product, where this is the number of the next.
fn new_product(number: u32, members: ProductMembers) -> Result<StoreWrite, Fault>
    ensures carries { IfOk result (λ write. (i : Institution) → IsSound i → IsAdmitted (AddProduct members) i
        → number ≡ length i.catalogue.products + 1 → Carries (AddProduct members) (write ∷ []) i) }
    ensures gives_up { IfErr result (λ fault. fault ≡ F20) }
{
    let row = product_row(number, members)?;
    Ok(StoreWrite::AddProduct(row))
}

impl<S: Alter> Store<S> {
    ghost use Rattle.mf_store.specs.Stands.{StandsFor, IsClean, AsksTables, MayAskTables, MakesCommit};

    /// How many charges and products the catalogue has: one less than their next numbers.
    pub fn catalogue_counts(&mut self) -> Result<CatalogueCounts, Fault>
        ensures asks { MayAskTables S.Store self.old self.new result }
        ensures value { IsClean S.Store self.new → (i : Institution) → StandsFor S.Store self.old i
            → IfOk result (λ counts. counts ≡ catalogue_counts i) }
    {
        if let Some(counts) = self.known().catalogue() {
            return Ok(counts);
        }
        let charges = self.last_number(Kind::Charges)?;
        let products = self.last_number(Kind::Products)?;
        let counts = CatalogueCounts { charges, products };
        self.learn(News::Catalogue(counts));
        Ok(counts)
    }

    /// A charge, or None where there is none with this number.
    pub fn charge(&mut self, number: u32) -> Result<Option<ChargeDef>, Fault>
        ensures asks { AsksTables S.Store self.old self.new result }
        ensures value { IsClean S.Store self.new → (i : Institution) → StandsFor S.Store self.old i
            → IfOk result (λ charge. charge ≡ charge_in i.catalogue number) }
    {
        let Some(row) = self.find::<ChargeRow>(number)? else {
            return Ok(None);
        };
        let charge = charge_from(row)?;
        Ok(Some(charge))
    }

    /// A product, or None where there is none with this number.
    pub fn product(&mut self, number: u32) -> Result<Option<Product>, Fault>
        ensures asks { MayAskTables S.Store self.old self.new result }
        ensures value { IsClean S.Store self.new → (i : Institution) → StandsFor S.Store self.old i
            → IfOk result (λ product. product ≡ product_in i.catalogue number) }
    {
        if let Some(product) = self.known().product(number) {
            return Ok(Some(product));
        }
        let Some(row) = self.find::<ProductRow>(number)? else {
            return Ok(None);
        };
        let product = product_from(row)?;
        self.learn_product(number, &product);
        Ok(Some(product))
    }

    /// Makes this the business day.
    pub(crate) fn set_day(&mut self, alloc: Global, day: Day, note: &Note<'_>) -> Result<(), Fault>
        ensures { MakesCommit S.Store (SetDay day) (noted_now note.now) self.old self.new result }
    {
        let text = day.text(alloc)?;
        let meta = MetaRow {
            one: 1,
            schema: self.schema_number(),
            day: Text::new(text),
        };
        self.make(
            alloc,
            &[StoreWrite::PutMeta(meta)],
            News::BusinessDay(day),
            note,
        )
    }

    /// Adds a charge, under the next number.
    pub(crate) fn add_charge(
        &mut self,
        alloc: Global,
        name: Name,
        kind: ChargeKind,
        calc: Calc,
        value: u64,
        note: &Note<'_>,
    ) -> Result<(), Fault>
        ensures { MakesCommit S.Store (AddCharge name kind calc value) (noted_now note.now) self.old self.new
            result }
    {
        let counts = self.catalogue_counts()?;
        if counts.charges > MOST {
            return Err(Fault::F20);
        }
        let number = counts.charges + 1;
        let row = charge_row(number, name, kind, calc, value)?;
        let now = CatalogueCounts {
            charges: number,
            ..counts
        };
        self.make(
            alloc,
            &[StoreWrite::PutCharge(row)],
            News::Catalogue(now),
            note,
        )
    }

    /// Adds a product, under the next number.
    pub(crate) fn add_product(
        &mut self,
        alloc: Global,
        members: ProductMembers,
        note: &Note<'_>,
    ) -> Result<(), Fault>
        ensures { MakesCommit S.Store (AddProduct members) (noted_now note.now) self.old self.new result }
    {
        let counts = self.catalogue_counts()?;
        if counts.products > MOST {
            return Err(Fault::F20);
        }
        let number = counts.products + 1;
        let write = new_product(number, members)?;
        let now = CatalogueCounts {
            products: number,
            ..counts
        };
        self.make(alloc, &[write], News::Catalogue(now), note)
    }

    /// The write that retires a product that is there.
    fn retirement(&mut self, product: u32) -> Result<StoreWrite, Fault>
        ensures asks { AsksTables S.Store self.old self.new result }
        ensures carries { IsClean S.Store self.new → (i : Institution) → StandsFor S.Store self.old i
            → IsAdmitted (RetireProduct product) i → IfOk result (λ write. Carries (RetireProduct product)
            (write ∷ []) i) }
    {
        let Some(found) = self.find::<ProductRow>(product)? else {
            return Err(Fault::F20);
        };
        let row = retire(found);
        Ok(StoreWrite::PutProduct(row))
    }

    /// Retires a product that is there.
    pub(crate) fn retire_product(
        &mut self,
        alloc: Global,
        product: u32,
        note: &Note<'_>,
    ) -> Result<(), Fault>
        ensures { MakesCommit S.Store (RetireProduct product) (noted_now note.now) self.old self.new result }
    {
        let write = self.retirement(product)?;
        self.make(alloc, &[write], News::Retirement, note)
    }
}
