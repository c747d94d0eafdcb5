//! What the books of a journal come to. Each function does nothing: its contract is the law.

ghost use Rattle.std.specs.Prelude.{◌≡◌, ◌<◌, ◌∷◌, ◌++◌, ℕ, List};
ghost use Rattle.std.specs.List.{flat_map};
ghost use Rattle.mf_ledger.specs.Runs.{between};
ghost use Rattle.mf_ledger.specs.Sheet.{columns, sheet_text, transaction_rows};
ghost use Rattle.mf_ledger_play.specs.declared.form.BooksAsked.{BooksAsked};
ghost use Rattle.mf_ledger_play.specs.declared.form.BooksForm.TheVariants.{Sheet};
ghost use Rattle.mf_model.specs.Institution.{Institution, JournalLine};
ghost use Rattle.mf_model.specs.Sound.{IsSound};
ghost use Rattle.mf_play.specs.Play.{PlaysTo};
ghost use Rattle.mf_store_noted.specs.Kept.{journaled};
ghost use Rattle.mf_store_played.specs.Played.{founded};
ghost use Rattle.mf_store_ledger.specs.Copied.{copied_books_text, copied_transactions, rows_opened};
ghost use Rattle.mf_store_ledger.specs.Journal.{books_text, journal_transactions};

/// The text of a sheet is that of its rows, the columns first.
pub fn books_as_a_sheet()
    ensures { (asked : BooksAsked) (day : ℕ) (lines : List JournalLine) → asked.form ≡ Sheet
        → books_text asked day lines ≡ sheet_text (columns ∷ flat_map (transaction_rows asked.names)
        (between asked.first asked.last (journal_transactions asked.basis day lines))) }
{}

/// The same of books that begin with a copy's balances: their rows come before those of the transactions.
pub fn books_from_a_copy_as_a_sheet()
    ensures { (asked : BooksAsked) (copied : Institution) (lines : List JournalLine) → asked.form ≡ Sheet
        → copied_books_text asked copied lines ≡ sheet_text (columns ∷ (rows_opened asked copied
        ++ flat_map (transaction_rows asked.names)
        (between asked.first asked.last (copied_transactions asked.basis copied lines)))) }
{}

/// The books of closed days never move: once the business day is later than the last that is asked for, whatever lines
/// are added to the journal leave their text as it was, on either basis.
pub fn closed_books_never_move()
    ensures { (asked : BooksAsked) (day : ℕ) (lines more : List JournalLine) (i : Institution)
        → PlaysTo (founded day) lines i → asked.last < i.catalogue.day
        → books_text asked day (lines ++ more) ≡ books_text asked day lines }
{}

/// Nor do those of books that begin with a copy's balances: once the business day is later than the last that is asked
/// for, whatever lines are added to the journal leave their text as it was, on either basis.
pub fn closed_books_never_move_from_a_copy()
    ensures { (asked : BooksAsked) (copied : Institution) (lines more : List JournalLine) (i : Institution)
        → IsSound copied → PlaysTo (journaled copied) lines i → asked.last < i.catalogue.day
        → copied_books_text asked copied (lines ++ more) ≡ copied_books_text asked copied lines }
{}
