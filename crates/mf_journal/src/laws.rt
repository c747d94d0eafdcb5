//! Laws of journals. Each function does nothing: its contract is the law.

ghost use Rattle.std.specs.Prelude.{◌≡◌, ◌⊎◌, ◌≤◌, ◌<◌, ◌+◌, ◌^◌, ℕ, List, [], ◌∷◌, length, map, Option, None};
ghost use Rattle.mf_model.specs.Institution.{Institution, JournalLine, newly_made};
ghost use Rattle.mf_model.specs.Run.{Line, answers, last};
ghost use Rattle.mf_journal.specs.Chain.{IsJournalLine, AreJournalLines, IsCollision};
ghost use Rattle.mf_journal.specs.Chain.{text_of_line, chain_after};
ghost use Rattle.mf_journal.specs.Following.{FollowOn, head_after, line_of};
ghost use Rattle.mf_journal.specs.Founding.{founding, founding_text};
ghost use Rattle.mf_journal.specs.Journal.{writes_of, line_of_write, with_lines, with_other_journal, IsPlayOf};
ghost use Rattle.mf_journal.specs.declared.following.Head.{Head};
ghost use Rattle.mf_journal.specs.declared.following.KeptRow.{KeptRow};
ghost use Rattle.mf_journal.specs.WorkedJournal.{morning, of_morning, lines_of_morning};

/// No two lines of a journal have one text.
pub fn one_text_one_line()
    ensures { (a b : JournalLine) → IsJournalLine a → IsJournalLine b → text_of_line a ≡ text_of_line b → a ≡ b }
{}

/// Journals that begin at one founding are of one schema and one first business day, or two different texts with one
/// SHA-256 are found.
pub fn one_founding()
    ensures { (schema day number today : ℕ) → schema < 2 ^ 64 → day < 2 ^ 64 → number < 2 ^ 64 → today < 2 ^ 64
        → (founding schema day).chain ≡ (founding number today).chain →
        ((schema ≡ number) × (day ≡ today)) ⊎ ((s : List ℕ) × (t : List ℕ) × IsCollision s t) }
{}

/// Two journals with the same chain after equally many lines began alike and have the same lines, or two different
/// texts with one SHA-256 are found. So a chain that was noted down tells all lines up to it.
pub fn one_chain_one_journal()
    ensures { (f g : List ℕ) (xs ys : List JournalLine) → length f ≡ length g → AreJournalLines xs
        → AreJournalLines ys → length xs ≡ length ys → chain_after f xs ≡ chain_after g ys →
        ((f ≡ g) × (xs ≡ ys)) ⊎ ((s : List ℕ) × (t : List ℕ) × IsCollision s t) }
{}

/// Rows that follow on have the chain over all their lines, a number for each line, and days that never go back.
pub fn following_rows_tell_their_lines()
    ensures { (h : Head) (rows : List KeptRow) → FollowOn h rows → ((head_after h rows).chain ≡ chain_after h.chain
        (map line_of rows)) × ((head_after h rows).number ≡ h.number + length rows)
        × (h.day ≤ (head_after h rows).day) }
{}

/// Two journals that stand at one head, and began at one number, have the same lines, or two different texts with one
/// SHA-256 are found. So a head that was noted down tells all lines up to it.
pub fn one_head_one_journal()
    ensures { (h g : Head) (xs ys : List KeptRow) → length h.chain ≡ length g.chain
        → AreJournalLines (map line_of xs) → AreJournalLines (map line_of ys) → FollowOn h xs → FollowOn g ys
        → h.number ≡ g.number → head_after h xs ≡ head_after g ys →
        ((h.chain ≡ g.chain) × (map line_of xs ≡ map line_of ys)) ⊎ ((s : List ℕ) × (t : List ℕ) × IsCollision s t) }
{}

/// After any run the journal has what it had, and then one line for each request that was accepted and changed
/// something, in order: its business day, who sent it, its text, and what its reply names.
pub fn a_run_is_noted()
    ensures { (i : Institution) (run : List Line) → (last run i).journal
        ≡ with_lines (map line_of_write (writes_of run i)) i.journal }
{}

/// Nothing that is answered, and no row, depends on the journal: with another one, or with none, any run is answered
/// alike and leaves the same institution but for the journal.
pub fn no_answer_depends_on_the_journal()
    ensures answers { (i : Institution) (run : List Line) (journal : Option (List JournalLine)) →
        answers run (with_other_journal journal i) ≡ answers run i }
    ensures rows { (i : Institution) (run : List Line) (journal : Option (List JournalLine)) →
        with_other_journal None (last run (with_other_journal journal i)) ≡ with_other_journal None (last run i) }
{}

/// What any run leaves of an institution is the play of the run's accepted writes alone: again accepted, on the same
/// days and with the same replies.
pub fn writes_replay()
    ensures { (i : Institution) (run : List Line) → IsPlayOf (writes_of run i) i (last run i) }
{}

/// Worked out: what is read, refused or given up is no accepted write, and the lines of those that are.
pub fn worked_journal()
    ensures writes { (day : ℕ) → writes_of morning (newly_made day) ≡ of_morning day }
    ensures lines { (day : ℕ) → map line_of_write (of_morning day) ≡ lines_of_morning day }
{}

/// The text of a founding by schema 3 on 1 January 2026, byte by byte.
pub fn worked_founding()
    ensures { founding_text 3 9497 ≡ 109 ∷ 105 ∷ 99 ∷ 114 ∷ 111 ∷ 108 ∷ 111 ∷ 97 ∷ 110 ∷ 0 ∷ 0 ∷ 0 ∷ 0 ∷ 0 ∷ 0 ∷ 0 ∷ 3
        ∷ 0 ∷ 0 ∷ 0 ∷ 0 ∷ 0 ∷ 0 ∷ 37 ∷ 25 ∷ [] }
{}
