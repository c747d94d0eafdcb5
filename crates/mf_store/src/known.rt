//! What a store knows beside its tables, so that it need not ask them again. A fact for which there is no memory isn't
//! kept.

ghost use Rattle.std.specs.Prelude.{◌≡◌, ◌++◌, ◌∷◌, true, false, Some, None, [], map, IfOk, IfErr, IfSome, IsTrue};
ghost use Rattle.std.specs.Prelude.{OnOk, OnErr};
ghost use Rattle.std.specs.Map.{lookup};
ghost use Rattle.mf_base.specs.declared.fault.Fault.TheVariants.{F20};
ghost use Rattle.mf_journal.specs.Chain.{line_of_row};
ghost use Rattle.mf_model.specs.Institution.{Institution, product_in};
ghost use Rattle.mf_account.specs.Change.{no_change};
ghost use Rattle.mf_model.specs.Store.{counts_at, catalogue_counts, role_of, account_at};
ghost use Rattle.mf_model.specs.Tree.{is_there};
ghost use Rattle.mf_store.specs.Facts.{AreTrueOf, caller_key, account_key, same_key, nothing_known};
ghost use Rattle.mf_store.specs.declared.known.News.TheVariants as news;
ghost use Rattle.mf_store_journal.specs.Index.{AreOfFirst, index_entry};
ghost use Rattle.mf_store_values.specs.Flat.{key_at};
ghost use Rattle.mf_store.specs.Learning.{Tells};

use lru::LruCache;
use mf_account::LoanAccount;
use mf_base::{Day, Fault};
use mf_catalog::Product;
use mf_journal::JournalRow;
use mf_model::{CatalogueCounts, Counts, MOST_IN_CATALOGUE};
use mf_office::{Account, Caller, Key, Role};
use mf_store_journal::{IndexEntry, index_entry};
use std::alloc::Global;
use std::hash::Hash;
use std::marker::Model;
use std::num::NonZeroUsize;

/// What a store learns as a read or a commit goes well.
#[derive(Clone, Copy)]
pub(crate) enum News {
    Nothing,
    OfficeCounts(u32, Counts),
    Catalogue(CatalogueCounts),
    BusinessDay(Day),
    /// A product lends no more.
    Retirement,
    /// Of the accounts of loans, this loan's alone may be another.
    Account(Account),
}

/// What a store knows of its institution, in bounded memory but for the index of its journal.
#[derive(Drop)]
pub struct Known {
    counts: LruCache<u32, Counts>,
    catalogue: Option<CatalogueCounts>,
    day: Option<Day>,
    roles: LruCache<(u32, u32), Role>,
    keys: LruCache<u32, Key>,
    products: LruCache<u32, Product>,
    accounts: LruCache<(u32, u32), LoanAccount>,
    /// How many entries and instalments the accounts have together.
    rows: u32,
    /// What the first lines of the journal name: none until the journal is listed, and then of each line 12 bytes.
    index: Vec<IndexEntry>,
}

impl Model for Known {
    ghost use Rattle.mf_store.specs.Facts.{Facts, facts_code};

    ghost Value = { Facts };

    ghost coded = { facts_code };

    ghost view = { λ k. record {
      counts = k.counts.entries;
      catalogue = k.catalogue;
      day = k.day;
      roles = k.roles.entries;
      keys = k.keys.entries;
      products = k.products.entries;
      accounts = k.accounts.entries;
      index = k.index.items;
    } };
}

/// So many offices' counts and keys are kept at most.
const MOST_OFFICES: usize = 1024;

/// So many callers' roles are kept at most.
const MOST_CALLERS: usize = 4096;

/// So many loans' accounts are kept at most.
const MOST_ACCOUNTS: usize = 1024;

/// So many entries and instalments are kept at most in all accounts together. One account has at most 9,999 entries and
/// 360 instalments.
const MOST_ROWS: u32 = 100_000;

/// An empty cache that keeps at most `most` values, and room for them. The error is F20.
fn nothing_of<K: Hash + Eq, V>(alloc: Global, most: usize) -> Result<LruCache<K, V>, Fault>
    ensures nothing { IfOk result (λ kept. kept.entries ≡ []) }
    ensures gives_up { IfErr result (λ fault. fault ≡ F20) }
{
    let Some(most) = NonZeroUsize::new(most) else {
        return Err(Fault::F20);
    };
    match LruCache::sparse(alloc, most) {
        Ok(kept) => Ok(kept),
        Err(_) => Err(Fault::F20),
    }
}

/// A caller's office, and the staff number in it.
fn key_of(caller: Caller) -> (u32, u32)
    ensures { result ≡ caller_key caller }
{
    (caller.office.get(), caller.staff.get())
}

/// A loan's office, and the loan's number in it.
fn key_of_loan(loan: Account) -> (u32, u32)
    ensures { result ≡ account_key loan }
{
    (loan.office.get(), loan.number.get())
}

/// How many entries and instalments an account has.
fn size_of(account: &LoanAccount) -> u32 {
    account.entry_count() + account.rows().len() as u32
}

/// The same key, where there is memory for it.
fn copy_key(alloc: Global, key: &Key) -> Option<Key>
    ensures { IfSome result (λ copy. copy ≡ key.now) }
{
    match String::from_str(alloc, key.as_str()) {
        Ok(text) => Key::from_text(text),
        Err(_) => None,
    }
}

/// The same product, where there is memory for it.
fn copied_product(product: &Product) -> Option<Product>
    ensures { IfSome result (λ copy. copy ≡ product.now) }
{
    product.clone().ok()
}

/// The same account, with no change told of it.
fn without_change(alloc: Global, mut account: LoanAccount) -> LoanAccount
    ensures { result ≡ record account { change = no_change } }
{
    account.forget_change(alloc);
    account
}

impl Known {
    /// Nothing is known, and there is room for what comes to be. The error is F20.
    pub fn nothing(alloc: Global) -> Result<Known, Fault>
        ensures nothing { IfOk result (λ known. known ≡ nothing_known) }
        ensures gives_up { IfErr result (λ fault. fault ≡ F20) }
    {
        let counts = nothing_of(alloc, MOST_OFFICES)?;
        let roles = nothing_of(alloc, MOST_CALLERS)?;
        let keys = nothing_of(alloc, MOST_OFFICES)?;
        let products = nothing_of(alloc, MOST_IN_CATALOGUE as usize)?;
        let accounts = nothing_of(alloc, MOST_ACCOUNTS)?;
        Ok(Known {
            counts,
            catalogue: None,
            day: None,
            roles,
            keys,
            products,
            accounts,
            rows: 0,
            index: Vec::new(alloc),
        })
    }

    /// How many rows an office has.
    pub(crate) fn counts(&self, office: u32) -> Option<Counts>
        ensures { (i : Institution) → AreTrueOf self.now i → IfSome result (λ counts. counts ≡ counts_at office i) }
    {
        self.counts.peek(&office).copied()
    }

    /// How many charges and products there are.
    pub(crate) fn catalogue(&self) -> Option<CatalogueCounts>
        ensures { (i : Institution) → AreTrueOf self.now i → IfSome result (λ counts. counts ≡ catalogue_counts i) }
    {
        self.catalogue
    }

    /// The business day.
    pub(crate) fn day(&self) -> Option<Day>
        ensures { (i : Institution) → AreTrueOf self.now i → IfSome result (λ day. day ≡ i.catalogue.day) }
    {
        self.day
    }

    /// The role of a caller.
    pub(crate) fn role(&self, caller: Caller) -> Option<Role>
        ensures { (i : Institution) → AreTrueOf self.now i → IfSome result (λ role. role_of caller i ≡ Some role) }
    {
        self.roles.peek(&key_of(caller)).copied()
    }

    /// Whether an office's key is known, and so the office is there.
    pub(crate) fn has_key(&self, office: u32) -> bool
        ensures { (i : Institution) → AreTrueOf self.now i → IsTrue result → is_there i.offices office ≡ true }
    {
        self.keys.contains(&office)
    }

    /// The key of an office, where there is memory for it.
    pub(crate) fn key(&self, alloc: Global, office: u32) -> Option<Key>
        ensures { (i : Institution) → AreTrueOf self.now i → IfSome result (λ key. key_at office i ≡ Some key) }
    {
        match self.keys.peek(&office) {
            None => None,
            Some(key) => copy_key(alloc, key),
        }
    }

    /// A product, where there is memory for it.
    pub(crate) fn product(&self, number: u32) -> Option<Product>
        ensures { (i : Institution) → AreTrueOf self.now i
            → IfSome result (λ product. product_in i.catalogue number ≡ Some product) }
    {
        match self.products.peek(&number) {
            None => None,
            Some(product) => copied_product(product),
        }
    }

    /// The account of a loan.
    pub(crate) fn account(&self, loan: Account) -> Option<&LoanAccount>
        ensures { (i : Institution) → AreTrueOf self.now i
            → IfSome result (λ account. account_at loan i ≡ Some account.now) }
    {
        self.accounts.peek(&key_of_loan(loan))
    }

    /// Takes out the account of a loan, where it is known. All else stays.
    pub(crate) fn take_account(&mut self, loan: Account) -> Option<LoanAccount>
        ensures value { (i : Institution) → AreTrueOf self.old i
            → IfSome result (λ account. account_at loan i ≡ Some account) }
        ensures gone { lookup (same_key (account_key loan)) self.new.accounts ≡ None }
        ensures same { (i : Institution) → AreTrueOf self.old i → AreTrueOf self.new i }
    {
        // No key is in a cache twice; the call brings that into the proof.
        let _kept = self.accounts.len();
        let account = self.accounts.pop(&key_of_loan(loan))?;
        self.rows = self.rows.saturating_sub(size_of(&account));
        Some(account)
    }

    /// Takes in a caller's role.
    pub(crate) fn learn_role(&mut self, caller: Caller, role: Role)
        ensures { (i : Institution) → AreTrueOf self.old i → role_of caller i ≡ Some role → AreTrueOf self.new i }
    {
        let _kept = self.roles.put(key_of(caller), role);
    }

    /// Takes in an office's key.
    pub(crate) fn learn_key(&mut self, alloc: Global, office: u32, key: &Key)
        ensures { (i : Institution) → AreTrueOf self.old i → key_at office i ≡ Some key.now → AreTrueOf self.new i }
    {
        let Some(copy) = copy_key(alloc, key) else {
            return;
        };
        let _kept = self.keys.put(office, copy);
    }

    /// Takes in a product.
    pub(crate) fn learn_product(&mut self, number: u32, product: &Product)
        ensures { (i : Institution) → AreTrueOf self.old i → product_in i.catalogue number ≡ Some product.now
            → AreTrueOf self.new i }
    {
        let Some(copy) = copied_product(product) else {
            return;
        };
        let _kept = self.products.put(number, copy);
    }

    /// Forgets all accounts where they would have too many entries and instalments with so many more.
    fn make_room(&mut self, more: u32)
        ensures { (i : Institution) → AreTrueOf self.old i → AreTrueOf self.new i }
    {
        if self.rows.saturating_add(more) > MOST_ROWS {
            self.accounts.clear();
            self.rows = 0;
        }
    }

    /// Takes in the account of a loan, where there is memory for it.
    pub(crate) fn learn_account(&mut self, loan: Account, account: LoanAccount)
        ensures { (i : Institution) → AreTrueOf self.old i → account_at loan i ≡ Some account → AreTrueOf self.new i }
    {
        let more = size_of(&account);
        self.make_room(more);
        let Ok(pushed_out) = self.accounts.push(key_of_loan(loan), account) else {
            return;
        };
        self.rows = self.rows.saturating_add(more);
        if let Some((_, other)) = pushed_out {
            self.rows = self.rows.saturating_sub(size_of(&other));
        }
    }

    /// Takes in what a commit made of a loan's account; where it was not made, nothing is known of it then.
    pub(crate) fn learn_commit(
        &mut self,
        alloc: Global,
        loan: Account,
        account: LoanAccount,
        made: bool,
    )
        ensures same { (i j : Institution) → AreTrueOf self.old i → Tells (news.Account loan) i j
            → (IsTrue made → account_at loan j ≡ Some (record account { change = no_change })) → AreTrueOf self.new j }
        ensures gone { made ≡ false → lookup (same_key (account_key loan)) self.new.accounts ≡ None }
    {
        let Account { office, number } = loan;
        let _was = self.take_account(Account { office, number });
        if made {
            let now = without_change(alloc, account);
            self.learn_account(Account { office, number }, now);
        }
    }

    /// What the first lines of the journal name.
    pub(crate) fn index(&self) -> &[IndexEntry]
        ensures { result.now ≡ self.now.index }
    {
        &self.index
    }

    /// Takes a line into the index, behind those that it has.
    fn learn_line(&mut self, row: JournalRow<'_>) -> Result<(), Fault>
        ensures learnt { OnOk result (self.new ≡ record self.old {
          index = self.old.index ++ index_entry (line_of_row row.entry) ∷ [];
        }) }
        ensures same { OnErr result (self.new ≡ self.old) }
        ensures gives_up { IfErr result (λ fault. fault ≡ F20) }
    {
        let Some(entry) = index_entry(row) else {
            return Err(Fault::F20);
        };
        self.index.push(entry)?;
        Ok(())
    }

    /// Takes lines into the index, behind those that it has, as far as there is memory for them.
    pub(crate) fn learn_lines(&mut self, rows: &[JournalRow<'_>]) -> Result<(), Fault>
        ensures same { (i : Institution) → AreTrueOf self.old i → AreOfFirst (self.old.index
            ++ map index_entry (map line_of_row rows.now)) i.journal → AreTrueOf self.new i }
        ensures gives_up { IfErr result (λ fault. fault ≡ F20) }
    {
        for at in 0..rows.len() {
            self.learn_line(rows[at])?;
        }
        Ok(())
    }

    /// Takes in what is new.
    pub(crate) fn learn(&mut self, news: News)
        ensures { (i j : Institution) → AreTrueOf self.old i → Tells news i j → AreTrueOf self.new j }
    {
        match news {
            News::Nothing => {}
            News::OfficeCounts(office, counts) => {
                let _kept = self.counts.put(office, counts);
            }
            News::Catalogue(counts) => self.catalogue = Some(counts),
            News::BusinessDay(day) => self.day = Some(day),
            News::Retirement => self.products.clear(),
            News::Account(loan) => {
                let _was = self.take_account(loan);
            }
        }
    }
}
