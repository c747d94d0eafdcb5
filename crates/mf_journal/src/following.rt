//! Rows of a journal that follow on one another, as its table keeps them.

ghost use Rattle.std.specs.Prelude.{◌≡◌, ◌⊎◌, ◌<◌, ◌^◌, suc, IfOk, IfErr, IfSome, IsNone};
ghost use Rattle.mf_journal.specs.Following.{Follows, BreaksFirst, FollowOn, IsBroken, head_of, head_after, kept_at};
ghost use Rattle.mf_journal.specs.Founding.{founding};

use crate::chain::{JournalRow, founding_chain, link};

/// Where a journal stands: the number of its last line, that line's business day, and the chain after it. Before the
/// first line the number is 0.
#[derive(Clone, Copy)]
pub struct Head {
    pub number: u64,
    /// The number of the day; 1 January 2000 is 0.
    pub day: u64,
    pub chain: [u8; 32],
}

/// A row of the journal, with its number and the chain after it.
#[derive(Clone, Copy)]
pub struct KeptRow<'a> {
    pub number: u64,
    pub row: JournalRow<'a>,
    pub chain: [u8; 32],
}

/// The first condition by which a row doesn't follow on those before it.
#[derive(Clone, Copy, Debug, PartialEq, Eq)]
pub enum Break {
    /// Its number isn't the next one.
    Number,
    /// Its business day is earlier than that of the line before it.
    Day,
    /// Its chain isn't that over all lines before it and itself.
    Chain,
}

impl Head {
    /// Where the journal of a new institution begins, by the number of the schema and the number of the first business
    /// day; 1 January 2000 is 0.
    pub fn founding(schema: u64, day: u64) -> Head
        ensures { result ≡ founding schema day }
    {
        Head {
            number: 0,
            day,
            chain: founding_chain(schema, day),
        }
    }

    /// Where the journal stands after a row, if it follows on; else the first condition that the row breaks.
    pub fn follow(self, kept: KeptRow<'_>) -> Result<Head, Break>
        ensures follows { IfOk result (λ head. Follows self kept.entry × (head ≡ head_of kept.entry)) }
        ensures breaks { IfErr result (λ flaw. BreaksFirst self kept.entry flaw) }
    {
        if self.number.checked_add(1) != Some(kept.number) {
            return Err(Break::Number);
        }
        if kept.row.day < self.day {
            return Err(Break::Day);
        }
        if link(&self.chain, kept.row) != kept.chain {
            return Err(Break::Chain);
        }
        Ok(Head {
            number: kept.number,
            day: kept.row.day,
            chain: kept.chain,
        })
    }

    /// Where the journal stands once a line is added to it. None where its day is earlier than that of the last line,
    /// or 2^64 - 1 lines stand there.
    pub fn add(self, row: JournalRow<'_>) -> Option<Head>
        ensures added { IfSome result (λ head. Follows self (kept_at head row.entry) × (head.day ≡ row.entry.day)) }
        ensures none { IsNone result → (suc self.number ≡ 2 ^ 64) ⊎ (row.entry.day < self.day) }
    {
        if row.day < self.day {
            return None;
        }
        Some(Head {
            number: self.number.checked_add(1)?,
            day: row.day,
            chain: link(&self.chain, row),
        })
    }

    /// Where the journal stands after rows that follow on one another; else the place of the first that doesn't, and
    /// the first condition that it breaks.
    pub fn follow_all(self, rows: &[KeptRow<'_>]) -> Result<Head, (usize, Break)>
        ensures whole { IfOk result (λ head. FollowOn self rows.now × (head ≡ head_after self rows.now)) }
        ensures broken { IfErr result (λ found. IsBroken self rows.now found.0 found.1) }
    {
        let mut head = self;
        for place in 0..rows.len() {
            let kept = rows[place];
            match head.follow(kept) {
                Ok(next) => head = next,
                Err(flaw) => return Err((place, flaw)),
            }
        }
        Ok(head)
    }
}
