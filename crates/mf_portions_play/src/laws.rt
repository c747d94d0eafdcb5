//! Laws of lines that are played up to a business day. Each function does nothing: its contract is the law.

ghost use Rattle.std.specs.Prelude.{◌≡◌, ◌+◌, ℕ, List};
ghost use Rattle.mf_ledger.specs.Runs.{at_end_of};
ghost use Rattle.mf_model.specs.Institution.{Institution, JournalLine};
ghost use Rattle.mf_model.specs.Run.{Line};
ghost use Rattle.mf_play.specs.Play.{PlaysTo, StopsAt};
ghost use Rattle.mf_play.specs.declared.stop.Stop.{Stop};
ghost use Rattle.mf_portions_play.specs.Ends.{PlayBefore, StopsBefore, before_day};

/// Before a day an institution is what it is at the end of the day before: the one of which the laws of the books
/// speak.
pub fn before_a_day_is_the_end_of_another()
    ensures { (day : ℕ) (lines : List Line) (i : Institution) → before_day (day + 1) lines i ≡ at_end_of day lines i }
{}

/// Lines that play to their end play before any day, and a line that doesn't play before a day is the first of all
/// lines that doesn't play.
pub fn what_plays_before_a_day_is_part_of_the_play()
    ensures plays { (until : ℕ) (lines : List JournalLine) (i j : Institution) → PlaysTo i lines j
        → PlayBefore until i lines }
    ensures stops { (until : ℕ) (lines : List JournalLine) (i : Institution) (place : ℕ) (why : Stop)
        → StopsBefore until i lines place why → StopsAt i lines place why }
{}
