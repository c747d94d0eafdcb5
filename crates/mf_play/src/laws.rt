//! Laws of the play. Each function does nothing: its contract is the law.

ghost use Rattle.std.specs.Prelude.{◌≡◌, ◌⊎◌, ℕ, Bool, List, ◌++◌, map, Option};
ghost use Rattle.std.specs.List.{AllByRecursion};
ghost use Rattle.mf_model.specs.Institution.{Institution, JournalLine};
ghost use Rattle.mf_model.specs.Run.{Line, last};
ghost use Rattle.mf_journal.specs.Journal.{line_of_write, with_lines, writes_of};
ghost use Rattle.mf_wire_requests.specs.RequestLine.{Parts};
ghost use Rattle.mf_wire_requests.specs.Requests.{call_in, call_by_parts, call_of_parts};
ghost use Rattle.mf_play.specs.Play.{PlaysTo, StopsAt, IsAsReceived, AreAsReceived, AllTellRequests};
ghost use Rattle.mf_play.specs.WorkedPlay.{opened, morning, after_morning, stopping, morning_with};
ghost use Rattle.mf_play.specs.declared.stop.Stop.{Stop};

/// Lines that play lead to one institution, those that stop do so at one place and for one thing, and none do both.
pub fn play_is_one()
    ensures played { (i j k : Institution) (lines : List JournalLine) → PlaysTo i lines j → PlaysTo i lines k → j ≡ k }
    ensures stopped { (i : Institution) (lines : List JournalLine) (place other : ℕ) (why because : Stop) →
        StopsAt i lines place why → StopsAt i lines other because → (place ≡ other) × (why ≡ because) }
    ensures apart { (i j : Institution) (lines : List JournalLine) (place : ℕ) (why : Stop) → PlaysTo i lines j →
        StopsAt i lines place why → ⊥ }
{}

/// Any lines play or stop.
pub fn lines_play_or_stop()
    ensures { (i : Institution) (lines : List JournalLine) → ((j : Institution) × PlaysTo i lines j)
        ⊎ ((place : ℕ) × (why : Stop) × StopsAt i lines place why) }
{}

/// Lines play in two parts as they play at once.
pub fn play_splits()
    ensures at_once { (i j k : Institution) (lines more : List JournalLine) → PlaysTo i lines j → PlaysTo j more k →
        PlaysTo i (lines ++ more) k }
    ensures in_parts { (i k : Institution) (lines more : List JournalLine) → PlaysTo i (lines ++ more) k →
        (j : Institution) × PlaysTo i lines j × PlaysTo j more k }
{}

/// The journal of an institution to which lines play is that of the first one, and then these lines.
pub fn played_lines_are_noted()
    ensures { (i j : Institution) (lines : List JournalLine) → PlaysTo i lines j →
        j.journal ≡ with_lines lines i.journal }
{}

/// What a run notes plays again: the lines that it adds to the journal play from the institution before it to the one
/// after it, where each call of the run is what its text asks.
pub fn what_a_run_notes_plays()
    ensures plays { (i : Institution) (run : List Line) → AreAsReceived run →
        PlaysTo i (map line_of_write (writes_of run i)) (last run i) }
    ensures noted { (i : Institution) (run : List Line) → (last run i).journal
        ≡ with_lines (map line_of_write (writes_of run i)) i.journal }
{}

/// Lines that play tell requests. So does each line that a run notes, where each call of the run is what its text asks.
pub fn what_plays_tells_requests()
    ensures plays { (i j : Institution) (lines : List JournalLine) → PlaysTo i lines j → AllTellRequests lines }
    ensures noted { (i : Institution) (run : List Line) → AreAsReceived run →
        AllTellRequests (map line_of_write (writes_of run i)) }
{}

/// And what plays is what some run of received requests notes: it leaves the institution to which the lines play.
pub fn what_plays_a_run_notes()
    ensures { (i j : Institution) (lines : List JournalLine) → PlaysTo i lines j → (run : List Line)
        × AreAsReceived run × (map line_of_write (writes_of run i) ≡ lines) × (last run i ≡ j) }
{}

/// Each request that comes as text is what its text asks, whatever is told of it: one in its parts, as that of a
/// message, that of a line, and those of a run over lines.
pub fn texts_are_as_received()
    ensures parts { (parts : Parts) → IsAsReceived (call_of_parts parts) }
    ensures messages { (caller : List ℕ) (parts : Option Parts) → IsAsReceived (call_by_parts caller parts) }
    ensures lines { (told : Bool) (line : List ℕ) → IsAsReceived (call_in told line) }
    ensures runs { (told : Bool) (run : List Line) (lines : List (List ℕ)) → map (λ l. l.call) run
        ≡ map (call_in told) lines → AreAsReceived run }
{}

/// Worked out: a morning as its journal tells it, from bytes, and lines that would stop as its second, for each reason.
pub fn worked_play()
    ensures plays { (day : ℕ) → PlaysTo (opened day) (morning day) (after_morning day) }
    ensures stops { (day : ℕ) → AllByRecursion (λ row. StopsAt (opened day) (morning_with day row.0) 1 row.1)
        (stopping day) }
{}
