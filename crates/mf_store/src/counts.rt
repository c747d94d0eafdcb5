//! The last number of an office's staff, clients or loans, or of the catalogue's charges or products. Numbers run from
//! 1 without gaps, so look-ups by key find it: the cost is a logarithm of how many there are, and nothing else is read.

ghost use Rattle.std.specs.Prelude.{◌≡◌, ◌<◌, ◌≤◌, ◌↔◌, true, IsTrue, IfOk};
ghost use Rattle.mf_model.specs.Institution.{Institution};
ghost use Rattle.mf_model.specs.Store.{counts_at};
ghost use Rattle.mf_model.specs.Tree.{is_there};
ghost use Rattle.mf_store.specs.Counts.{count_of};

use crate::known::News;
use crate::store::Store;
use mf_base::Fault;
use mf_model::Counts;
use mf_office::AccountNo;
use mf_store_schema::{ChargeRow, ClientRow, LoanRow, ProductRow, StaffRow};
use sqlite::Alter;

/// What is numbered from 1: rows of one office, or of the catalogue.
#[derive(Clone, Copy)]
pub enum Kind {
    Staff(u32),
    Clients(u32),
    Loans(u32),
    Charges,
    Products,
}

/// The greatest number of a kind that is looked for: an office has at most so many clients, and as many loans.
pub(crate) const MOST: u32 = AccountNo::MAX;

impl<S: Alter> Store<S> {
    ghost use Rattle.mf_store.specs.Stands.{StandsFor, IsClean, AsksTables, MayAskTables};

    /// Whether there is one of the kind with this number.
    fn has(&mut self, kind: Kind, number: u32) -> Result<bool, Fault>
        ensures asks { AsksTables S.Store self.old self.new result }
        ensures value { IsClean S.Store self.new → (i : Institution) → StandsFor S.Store self.old i
            → IfOk result (λ there. IsTrue there ↔ ((1 ≤ number) × (number ≤ count_of kind i))) }
    {
        match kind {
            Kind::Staff(office) => self.has_row::<StaffRow>((office, number)),
            Kind::Clients(office) => self.has_row::<ClientRow>((office, number)),
            Kind::Loans(office) => self.has_row::<LoanRow>((office, number)),
            Kind::Charges => self.has_row::<ChargeRow>(number),
            Kind::Products => self.has_row::<ProductRow>(number),
        }
    }

    /// A number above the last, at most twice it.
    fn above_last(&mut self, kind: Kind) -> Result<u32, Fault>
        ensures asks { MayAskTables S.Store self.old self.new result }
        ensures bound { IfOk result (λ high. (0 < high) × (high ≤ 2_000_000)) }
        ensures value { IsClean S.Store self.new → (i : Institution) → StandsFor S.Store self.old i
            → IfOk result (λ high. count_of kind i < high) }
    {
        let mut high = 1u32;
        while high <= MOST {
            if !self.has(kind, high)? {
                return Ok(high);
            }
            high *= 2;
        }
        Ok(high)
    }

    /// The last number, which lies below `bound`.
    fn last_below(&mut self, kind: Kind, bound: u32) -> Result<u32, Fault>
        requires { 0 < bound }
        ensures asks { MayAskTables S.Store self.old self.new result }
        ensures below { IfOk result (λ last. last < bound) }
        ensures value { IsClean S.Store self.new → (i : Institution) → StandsFor S.Store self.old i → count_of kind i
            < bound → IfOk result (λ last. last ≡ count_of kind i) }
    {
        let mut low = 0u32;
        let mut high = bound;
        while high - low > 1 {
            let middle = low + (high - low) / 2;
            let there = self.has(kind, middle)?;
            if there {
                low = middle;
            } else {
                high = middle;
            }
        }
        Ok(low)
    }

    /// How many of the kind there are.
    pub(crate) fn last_number(&mut self, kind: Kind) -> Result<u32, Fault>
        ensures asks { MayAskTables S.Store self.old self.new result }
        ensures bound { IfOk result (λ last. last < 2_000_000) }
        ensures value { IsClean S.Store self.new → (i : Institution) → StandsFor S.Store self.old i
            → IfOk result (λ last. last ≡ count_of kind i) }
    {
        let bound = self.above_last(kind)?;
        self.last_below(kind, bound)
    }

    /// How many rows an office has, as the tables tell.
    fn search_counts(&mut self, office: u32) -> Result<Counts, Fault>
        ensures asks { MayAskTables S.Store self.old self.new result }
        ensures value { IsClean S.Store self.new → (i : Institution) → StandsFor S.Store self.old i
            → IfOk result (λ counts. counts ≡ counts_at office i) }
    {
        let staff = self.last_number(Kind::Staff(office))?;
        let clients = self.last_number(Kind::Clients(office))?;
        let loans = self.last_number(Kind::Loans(office))?;
        Ok(Counts {
            staff,
            clients,
            loans,
        })
    }

    /// How many rows an office has: the tables are asked at most once.
    pub(crate) fn counts_of(&mut self, office: u32) -> Result<Counts, Fault>
        ensures asks { MayAskTables S.Store self.old self.new result }
        ensures value { IsClean S.Store self.new → (i : Institution) → StandsFor S.Store self.old i
            → IfOk result (λ counts. counts ≡ counts_at office i) }
    {
        if let Some(counts) = self.known().counts(office) {
            self.learn(News::OfficeCounts(office, counts));
            return Ok(counts);
        }
        let counts = self.search_counts(office)?;
        self.learn(News::OfficeCounts(office, counts));
        Ok(counts)
    }

    /// How many rows an office has that is there; where it isn't, the call gives up.
    pub(crate) fn counts_there(&mut self, office: u32) -> Result<Counts, Fault>
        ensures asks { MayAskTables S.Store self.old self.new result }
        ensures value { IsClean S.Store self.new → (i : Institution) → StandsFor S.Store self.old i
            → IfOk result (λ counts. (is_there i.offices office ≡ true) × (counts ≡ counts_at office i)) }
    {
        let there = self.has_office(office)?;
        if !there {
            return Err(Fault::F20);
        }
        self.counts_of(office)
    }
}
