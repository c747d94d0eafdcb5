//! Laws of the table. Each function does nothing: its contract is the law.

ghost use Rattle.std.specs.Prelude.{◌≡◌, ℕ, List, ◌∷◌, [], ◌++◌, map, Option, Some, None, IsSome};
ghost use Rattle.std.specs.List.{AllByRecursion};
ghost use Rattle.sqlite_keyed.specs.Keyed.{IsKeyedBy};
ghost use Rattle.mf_store_sql.specs.Numbered.{id_of, values_in};
ghost use Rattle.mf_store_sql.specs.Rows.{AreKeepable};
ghost use Rattle.mf_model.specs.Institution.{JournalLine};
ghost use Rattle.mf_journal.specs.Following.{FollowOn, head_after, line_of};
ghost use Rattle.mf_journal.specs.declared.following.Head.{Head};
ghost use Rattle.mf_journal.specs.declared.following.KeptRow.{KeptRow};
ghost use Rattle.mf_store_schema.specs.Tables.{journal};
ghost use Rattle.mf_store_journal.specs.Rows.{journal_rows_in, filed_at, filed_after, filed_kept, head_with};
ghost use Rattle.mf_store_journal.specs.Rows.{head_with_all};
ghost use Rattle.mf_store_journal.specs.Reading.{IsStanding};
ghost use Rattle.mf_store_journal.specs.declared.reading.Standing.TheVariants.{At};
ghost use Rattle.mf_store_journal.specs.Texts.{HasTexts, IsJournal};
ghost use Rattle.mf_store_journal.specs.WorkedRows.{IsWorked};

/// The rows tell which journal an institution keeps, and where a journal begins; no row stands just where none is kept.
pub fn rows_tell_the_journal()
    ensures { (h g : Head) (a b : Option (List JournalLine)) → journal_rows_in h a ≡ journal_rows_in g b
        → (a ≡ b) × (IsSome a → h ≡ g) }
{}

/// A line more is a row more, at the end.
pub fn a_line_is_a_row()
    ensures { (h : Head) (ls : List JournalLine) (l : JournalLine) → journal_rows_in h (Some (ls ++ l ∷ []))
        ≡ journal_rows_in h (Some ls) ++ filed_at (head_with (head_with_all h ls) l) l ∷ [] }
{}

/// Rows that follow on are those of a journal's lines, which stands then where they lead.
pub fn following_rows_are_a_journal()
    ensures rows { (h : Head) (ks : List KeptRow) → FollowOn h ks → map filed_kept ks
        ≡ filed_after h (map line_of ks) }
    ensures head { (h : Head) (ks : List KeptRow) → FollowOn h ks → head_after h ks
        ≡ head_with_all h (map line_of ks) }
{}

/// The table can keep the rows of any journal: their numbers rise, and its columns have room for their values.
pub fn rows_can_be_kept()
    ensures rise { (h : Head) (j : Option (List JournalLine)) → IsKeyedBy id_of (journal_rows_in h j) }
    ensures fit { (h : Head) (j : Option (List JournalLine)) → AllByRecursion (λ f. AreKeepable journal.columns
        (values_in f)) (journal_rows_in h j) }
{}

/// Where the table of a journal says by its last row that the journal stands is where its lines lead.
pub fn the_head_is_read()
    ensures { (h : Head) (ls : List JournalLine) (head : Head) → IsStanding (journal_rows_in h (Some ls)) (At head)
        → head ≡ head_with_all h ls }
{}

/// The texts make the table beside today's, put a row at its end, and show the first row, the last one, and those
/// above a number.
pub fn texts_of_the_journal()
    ensures texts { HasTexts }
    ensures meaning { IsJournal }
{}

/// Two lines after an archived beginning, row by row.
pub fn worked_rows()
    ensures { (chain : List ℕ) → IsWorked chain }
{}
