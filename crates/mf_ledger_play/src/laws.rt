//! What the books of lines come to. Each function does nothing: its contract is the law.

ghost use Rattle.std.specs.Prelude.{◌≡◌, ◌<◌, ◌++◌, ℕ, List};
ghost use Rattle.mf_ledger.specs.Basis.{booked};
ghost use Rattle.mf_model.specs.Institution.{Institution, JournalLine};
ghost use Rattle.mf_model.specs.Run.{last};
ghost use Rattle.mf_model.specs.Tree.{IsTree};
ghost use Rattle.mf_play.specs.Play.{PlaysTo};
ghost use Rattle.mf_ledger_play.specs.Told.{run_told, span_text};
ghost use Rattle.mf_ledger_play.specs.declared.form.BooksAsked.{BooksAsked};

/// The run of the requests that lines tell leads where the lines play to. So what is proved of the transactions of runs
/// is so of theirs.
pub fn run_told_is_the_play()
    ensures { (i j : Institution) (lines : List JournalLine) → PlaysTo i lines j → last (run_told lines) i ≡ j }
{}

/// The text of days that are closed never moves: lines that come once the business day is later add nothing to it,
/// whichever day they name and whatever they take back, on either basis.
pub fn closed_text_never_moves()
    ensures { (asked : BooksAsked) (n : ℕ) (i j : Institution) (lines more : List JournalLine) → IsTree j.offices
        → PlaysTo i lines j → asked.last < j.catalogue.day
        → span_text asked (booked asked.basis n (run_told (lines ++ more)) i)
        ≡ span_text asked (booked asked.basis n (run_told lines) i) }
{}
