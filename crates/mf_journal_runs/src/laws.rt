//! Laws of the journal that the program's calls keep. Each function does nothing: its contract is the law.

ghost use Rattle.std.specs.Prelude.{◌≡◌, ◌≢◌, ℕ, Bool, List, [], Option, None, Some, codes};
ghost use Rattle.mf_office.specs.Texts.{IsCaller};
ghost use Rattle.mf_model.specs.Institution.{Institution, JournalLine};
ghost use Rattle.mf_model.specs.Notes.{repayment_received};
ghost use Rattle.mf_model.specs.Run.{last};
ghost use Rattle.mf_model.specs.WorkedRows.{account};
ghost use Rattle.mf_journal.specs.Journal.{with_other_journal};
ghost use Rattle.mf_play.specs.Play.{asked_by_text, IsAsReceived};
ghost use Rattle.mf_play.specs.WorkedPlay.{morning, after_morning};
ghost use Rattle.mf_wire.specs.Exchanges.{Exchange, ServesOn};
ghost use Rattle.mf_wire.specs.Runs.{RunsOn};
ghost use Rattle.mf_wire.specs.Senders.{NoTextIsF20};
ghost use Rattle.mf_wire.specs.Serving.{AnswersMessage};
ghost use Rattle.mf_wire_messages.specs.Responses.{refusal};
ghost use Rattle.mf_sheet.specs.Lines.{call_by, request_of_line};
ghost use Rattle.mf_sheet.specs.Runs as sheets;
ghost use Rattle.mf_sheet_lines.specs.declared.results.SheetResult.{SheetResult};
ghost use Rattle.mf_sheet_lines.specs.Lines.{IsRepaymentInRange};
ghost use Rattle.mf_sheet_lines.specs.declared.line.SheetRepayment.{SheetRepayment};
ghost use Rattle.mf_journal_runs.specs.Journals.{lines_of_run, GrewBy, IsPlayOfItsJournal, founded};
ghost use Rattle.mf_journal_runs.specs.Works.{Work, AreDone, StandsGrown};

use mf_base::Fault;
use mf_model::InstitutionStore;
use mf_office::Caller;
use mf_sheet_lines::SheetLine;

/// The text by which a repayment of a sheet's line is noted reads as that repayment, whatever the loan, the amount, the
/// day and the receipt are that a line may have. So each call of a sheet is what its text asks.
pub fn a_line_of_a_sheet_reads_back()
    ensures repayment { (told : List ℕ) (r : SheetRepayment) → IsRepaymentInRange r →
        asked_by_text (repayment_received told r.loan r.amount r.day r.receipt)
        ≡ Some (request_of_line (SheetLine.Repay r)) }
    ensures line { (told : List ℕ) (c : Caller) (fields : List (List ℕ)) → IsCaller c →
        IsAsReceived (call_by told c fields) }
{}

/// Worked out: the text of a repayment of 200.00 on 29 February 2024, whose receipt has a quote.
pub fn worked_text_of_a_line()
    ensures { repayment_received [] (account 1 1) 20000 8825 (codes "R-\"1") ≡ record {
      told = [];
      method = codes "POST";
      path = codes "/loans/0001-000001/repayments";
      body = codes "{\"amount\":20000,\"day\":\"2024-02-29\",\"receipt\":\"R-\\\"1\"}";
    } }
{}

/// Take what `mf_wire::run` says of request lines over a store that stands for an institution; what
/// `mf_lists_runs::run` says has that in it (`ran`), with lists and without. The journal of the institution afterwards
/// is that of before, and then one line for each accepted request of the run that changed something, in order. These
/// lines play from the institution before to the one after, and each reads as a request.
pub fn a_run_is_journaled<S: InstitutionStore>()
    ensures { (told : Bool) (i : Institution) (lines texts : List (List ℕ)) (old new : S) →
        (ran : RunsOn S.InstitutionStore told i lines old texts new) →
        GrewBy (lines_of_run ran.run i) i (last ran.run i) }
{}

/// The same of messages that were answered one after another, which what is said of `mf_lists_runs::serve_one` has in
/// it (`served`).
pub fn served_messages_are_journaled<S: InstitutionStore>()
    ensures { (told : Bool) (i : Institution) (exchanges : List Exchange) (old new : S) →
        (served : ServesOn S.InstitutionStore told i exchanges old new) →
        GrewBy (lines_of_run served.run i) i (last served.run i) }
{}

/// The same of a sheet that `mf_sheet::collect` collected for somebody.
pub fn a_sheet_is_journaled<S: InstitutionStore>(caller: Caller)
    ensures { (told : List ℕ) (i : Institution) (rows : List (List (List ℕ))) (old : S) (results : List SheetResult)
        (new : S) → (ran : sheets.RunsOn S.InstitutionStore told caller i rows old results new) →
        GrewBy (lines_of_run ran.run i) i (last ran.run i) }
{}

/// Whoever is handed to `mf_sheet::collect` has numbers that a member of staff may have.
pub fn a_caller_has_numbers_of_staff(caller: Caller)
    ensures { IsCaller caller }
{}

/// Whatever runs, messages and sheets a store answers one after another, and however each call ended: the journal only
/// grew, by lines that play and that read as requests. An institution that was the play of its journal is so
/// afterwards, of the longer one. One whose journal has no line yet is so, as one that was just founded: so each is the
/// play of its journal from its founding, or from where the journal was begun.
pub fn every_institution_is_the_play_of_its_journal<S: InstitutionStore>()
    ensures grew { (i : Institution) (works : List Work) (old new : S) → AreDone S.InstitutionStore works old new →
        S.clean new → S.stands old i → StandsGrown S.InstitutionStore i new }
    ensures still { (first i : Institution) (works : List Work) (old new : S) → AreDone S.InstitutionStore works old new
        → S.clean new → S.stands old i → IsPlayOfItsJournal first i → (j : Institution) × S.stands new j
        × IsPlayOfItsJournal first j }
    ensures begun { (i : Institution) → i.journal ≡ Some [] → IsPlayOfItsJournal i i }
    ensures founding { (day : ℕ) → IsPlayOfItsJournal (founded day) (founded day) }
{}

/// So the journal tells the institution: two that are the play of theirs from one first institution, and whose journals
/// are the same, are the same.
pub fn one_journal_one_institution()
    ensures { (first i j : Institution) → IsPlayOfItsJournal first i → IsPlayOfItsJournal first j →
        i.journal ≡ j.journal → i ≡ j }
{}

/// Worked out: a new institution after two clients were entered is the play of its journal, which has their two lines.
pub fn worked_morning()
    ensures { (day : ℕ) → (played : IsPlayOfItsJournal (founded day) (after_morning day))
        × (played.lines ≡ morning day) }
{}

/// No byte that is written depends on the journal. Take what `mf_wire::run` says of the same lines over two stores, of
/// any two types, whose institutions differ in the journal alone, or of which one keeps none. Where both had memory for
/// each line, they write the same bytes, and the institutions afterwards differ in the journal alone. So they do where
/// both gave up the same lines. The response to a message is the same in both, and so are the results of a sheet, where
/// there was memory.
pub fn no_byte_depends_on_the_journal<S: InstitutionStore, T: InstitutionStore>()
    ensures with_memory { (i : Institution) (journal : Option (List JournalLine)) (told : Bool)
        (lines texts others : List (List ℕ)) (old new : S) (before after : T) →
        (one : RunsOn S.InstitutionStore told i lines old texts new) →
        (other : RunsOn T.InstitutionStore told (with_other_journal journal i) lines before others after) →
        NoTextIsF20 texts → NoTextIsF20 others → (texts ≡ others)
        × (with_other_journal None (last other.run (with_other_journal journal i))
        ≡ with_other_journal None (last one.run i)) }
    ensures same_run { (i : Institution) (journal : Option (List JournalLine)) (told : Bool)
        (lines texts others : List (List ℕ)) (old new : S) (before after : T) →
        (one : RunsOn S.InstitutionStore told i lines old texts new) →
        (other : RunsOn T.InstitutionStore told (with_other_journal journal i) lines before others after) →
        one.run ≡ other.run → (texts ≡ others)
        × (with_other_journal None (last other.run (with_other_journal journal i))
        ≡ with_other_journal None (last one.run i)) }
    ensures message { (i : Institution) (journal : Option (List JournalLine)) (told : Bool)
        (bytes text other : List ℕ) (old new : S) (before after : T) →
        (one : AnswersMessage S.InstitutionStore told bytes old text new) →
        AnswersMessage T.InstitutionStore told bytes before other after → S.clean new → S.stands old i → T.clean after →
        T.stands before (with_other_journal journal i) → text ≢ refusal Fault.F20 one.to_head →
        other ≢ refusal Fault.F20 one.to_head → text ≡ other }
    ensures sheet { (told : List ℕ) (c : Caller) (i : Institution) (journal : Option (List JournalLine))
        (rows : List (List (List ℕ))) (results others : List SheetResult) (old new : S) (before after : T) →
        sheets.RunsOn S.InstitutionStore told c i rows old results new →
        sheets.RunsOn T.InstitutionStore told c (with_other_journal journal i) rows before others after →
        sheets.NoResultIsF20 results → sheets.NoResultIsF20 others → results ≡ others }
{}
