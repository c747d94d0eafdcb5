//! Laws of the answers. Each function does nothing: its contract is the law.

ghost use Rattle.std.specs.Prelude.{◌≡◌, ℕ, List};
ghost use Rattle.mf_journal.specs.declared.following.Head.{Head};
ghost use Rattle.mf_model.specs.Institution.{Institution, JournalLine};
ghost use Rattle.mf_store_archived.specs.declared.archive.Archive.{Archive};
ghost use Rattle.mf_store_played.specs.Answer.{IsAnswer, IsCopyAnswer};
ghost use Rattle.mf_store_played.specs.Archived.{IsArchivedAnswer};
ghost use Rattle.mf_store_played.specs.declared.played.Played.{Played};

/// One answer alone is right for a journal and an institution. So a right answer is that the lines lead to just these
/// rows if and only if they do, that they stop at a line if and only if they stop there, and so of the others.
pub fn one_answer_alone()
    ensures { (begins : Head) (lines : List JournalLine) (i : Institution) (one other : Played) →
        IsAnswer begins lines i one → IsAnswer begins lines i other → one ≡ other }
{}

/// The same of a journal that is to be played from a copy of what stood there before it was begun.
pub fn one_answer_from_a_copy()
    ensures { (copied : Institution) (begins : Head) (lines : List JournalLine) (i : Institution) (one other : Played) →
        IsCopyAnswer copied begins lines i one → IsCopyAnswer copied begins lines i other → one ≡ other }
{}

/// The same of a journal whose first lines were moved to archives. So archives lead back to one head alone, with one
/// list of lines.
pub fn one_answer_over_archives()
    ensures { (archives : List Archive) (begins : Head) (lines : List JournalLine) (i : Institution)
        (one other : Played) → IsArchivedAnswer archives begins lines i one
        → IsArchivedAnswer archives begins lines i other → one ≡ other }
{}
