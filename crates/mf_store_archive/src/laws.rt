//! Laws of archives. Each function does nothing: its contract is the law.

ghost use Rattle.std.specs.Prelude.{◌≡◌, ◌++◌, [], ◌∷◌, ℕ, List, Some};
ghost use Rattle.mf_model.specs.Institution.{JournalLine};
ghost use Rattle.mf_journal.specs.declared.following.Head.{Head};
ghost use Rattle.mf_store_journal.specs.Rows.{head_with_all, journal_rows_in};
ghost use Rattle.mf_store_journal.specs.Written.{CanBeLines, DaysRise};
ghost use Rattle.mf_store_journal.specs.WorkedRows.{client_line, loan_line};
ghost use Rattle.mf_store_archive.specs.Archived.{archived, staying};
ghost use Rattle.mf_store_archive.specs.Removing.{rows_from};
ghost use Rattle.mf_store_archive.specs.Texts.{TextsMean};

/// The texts take out the rows up to a number, put the row of where a journal begins, and make the table of an archive.
pub fn texts_of_an_archive()
    ensures { TextsMean }
{}

/// Where days don't go back, the lines that are archived and those that stay are all lines, in their order.
pub fn lines_are_parted()
    ensures { (day first : ℕ) (lines : List JournalLine) → DaysRise first lines
        → lines ≡ archived day lines ++ staying day lines }
{}

/// A journal stands after all lines where the one that begins at the end of the archive stands after those that stay.
/// So a chain that was noted tells the archived lines too.
pub fn heads_compose()
    ensures { (begins : Head) (first rest : List JournalLine) → head_with_all begins (first ++ rest)
        ≡ head_with_all (head_with_all begins first) rest }
{}

/// Both parts of a journal that the program can have written are such journals.
pub fn both_can_be_journals()
    ensures first { (begins : Head) (first rest : List JournalLine) → CanBeLines begins (first ++ rest)
        → CanBeLines begins first }
    ensures rest { (begins : Head) (first rest : List JournalLine) → CanBeLines begins (first ++ rest)
        → CanBeLines (head_with_all begins first) rest }
{}

/// What is left of a journal's rows once those up to a head are gone is the journal that begins there.
pub fn rows_left_are_a_journal()
    ensures { (begins : Head) (first rest : List JournalLine)
        → rows_from (head_with_all begins first) (journal_rows_in begins (Some (first ++ rest)))
        ≡ journal_rows_in (head_with_all begins first) (Some rest) }
{}

/// A client of one day and a loan of the next: before the first, between both, and after the second.
pub fn worked_days()
    ensures none { archived 9827 (client_line ∷ loan_line ∷ []) ≡ [] }
    ensures one { archived 9828 (client_line ∷ loan_line ∷ []) ≡ client_line ∷ [] }
    ensures other { staying 9828 (client_line ∷ loan_line ∷ []) ≡ loan_line ∷ [] }
    ensures both { staying 9829 (client_line ∷ loan_line ∷ []) ≡ [] }
{}
