//! Rows of the journal that are read by its index.

ghost use Rattle.std.specs.Prelude.{◌≡◌, ◌+◌, ◌++◌, ◌≤◌, List, length, Some, IfOk, IfErr};
ghost use Rattle.mf_base.specs.declared.fault.Fault.TheVariants.{F20};
ghost use Rattle.mf_journal.specs.declared.following.Head.{Head};
ghost use Rattle.mf_model.specs.Institution.{Institution, JournalLine};
ghost use Rattle.mf_store_journal.specs.Index.{IsNext};
ghost use Rattle.mf_store_noted.specs.Kept.{begins_of};
ghost use Rattle.mf_store.specs.Sought.{AreNextRows};
ghost use Rattle.mf_store.specs.Stands.{StandsFor, IsClean, AsksTables, MayAskTables};

use crate::store::Store;
use mf_base::Fault;
use mf_store_journal::{Sought, lines_told, next_sought, number_after, sought_together};
use sqlite::{Alter, Row};
use std::alloc::Global;

/// Rows of the journal that are read at once, and the number of the line before them.
#[derive(Drop)]
pub struct NextRows {
    pub after: u32,
    pub rows: Vec<Row>,
}

/// Behind which number rows are read, and how many of them at most.
#[derive(Clone, Copy)]
struct Stretch {
    after: u32,
    most: u32,
}

/// The number of the line so many behind where a journal begins. The error is F20.
fn number_of(begins: u64, count: usize) -> Result<u32, Fault>
    ensures number { IfOk result (λ number. number ≡ begins + count) }
    ensures gives_up { IfErr result (λ fault. fault ≡ F20) }
{
    let Ok(begins) = u32::try_from(begins) else {
        return Err(Fault::F20);
    };
    number_after(begins, count)
}

/// How many lines of a journal that begins here have no greater number. The error is F20.
fn count_to(begins: u64, number: u32) -> Result<usize, Fault>
    ensures count { IfOk result (λ count. begins + count ≡ number) }
    ensures gives_up { IfErr result (λ fault. fault ≡ F20) }
{
    let Some(count) = u64::from(number).checked_sub(begins) else {
        return Err(Fault::F20);
    };
    match usize::try_from(count) {
        Ok(count) => Ok(count),
        Err(_) => Err(Fault::F20),
    }
}

impl<S: Alter> Store<S> {
    /// Takes lines that the index lacks into it, 1,000 at most. Whether it may lack more of them.
    fn index_page(&mut self, alloc: Global) -> Result<bool, Fault>
        ensures { MayAskTables S.Store self.old self.new result }
    {
        let Some(journal) = self.journal() else {
            return Ok(false);
        };
        let number = number_of(journal.begins.number, self.index().len())?;
        if u64::from(number) >= journal.head.number {
            return Ok(false);
        }
        let rows = self.journal_rows(number)?;
        let lines = lines_told(alloc, &rows)?;
        self.learn_lines(&lines)?;
        Ok(!rows.is_empty())
    }

    /// Takes all lines that the index lacks into it.
    fn index_journal(&mut self, alloc: Global) -> Result<(), Fault>
        ensures { MayAskTables S.Store self.old self.new result }
    {
        'pages: for _ in 0..u64::MAX {
            let more = self.index_page(alloc)?;
            if !more {
                return Ok(());
            }
        }
        Err(Fault::F20)
    }

    /// Where rows are read of the lines behind a number that may be sought: the index passes over those that aren't.
    fn next_stretch(&self, begins: u64, sought: &Sought, number: u32) -> Result<Stretch, Fault>
        ensures next { (i : Institution) (done rest : List JournalLine) → StandsFor S.Store self.now i
            → i.journal ≡ Some (done ++ rest) → begins + length done ≡ number
            → IfOk result (λ stretch. IsNext sought.now rest number stretch.after) }
        ensures some { IfOk result (λ stretch. 1 ≤ stretch.most) }
        ensures gives_up { IfErr result (λ fault. fault ≡ F20) }
    {
        let from = count_to(begins, number)?;
        let next = next_sought(self.index(), from, sought);
        let after = number_of(begins, next)?;
        let most = sought_together(self.index(), next, sought);
        Ok(Stretch { after, most })
    }

    /// The next rows of the journal behind a number whose lines may be sought, and no row where there is none. It reads
    /// no others but those that the index lacks. F20 where no journal is kept.
    pub fn next_rows(
        &mut self,
        alloc: Global,
        sought: &Sought,
        number: u32,
    ) -> Result<NextRows, Fault>
        ensures asks { AsksTables S.Store self.old self.new result }
        ensures rows { IsClean S.Store self.new → (i : Institution) (begins : Head) (done rest : List JournalLine)
            → StandsFor S.Store self.old i → begins_of self.old.journal ≡ Some begins
            → i.journal ≡ Some (done ++ rest) → begins.number + length done ≡ number
            → IfOk result (λ next. AreNextRows sought.now rest number next.after next.rows.items) }
    {
        let Some(begins) = self.journal_begins() else {
            return Err(Fault::F20);
        };
        self.index_journal(alloc)?;
        let stretch = self.next_stretch(begins.number, sought, number)?;
        let rows = self.first_journal_rows(stretch.after, stretch.most)?;
        let after = stretch.after;
        Ok(NextRows { after, rows })
    }
}
