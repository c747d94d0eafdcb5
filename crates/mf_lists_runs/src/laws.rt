//! Laws of runs and messages where lists may be asked for. Each function does nothing: its contract is the law.

ghost use Rattle.std.specs.Prelude.{◌≡◌, ℕ, Bool, true, false, List, None, Some, map, slice_get};
ghost use Rattle.std.proofs.Common.{inl};
ghost use Rattle.mf_model.specs.Institution.{Institution};
ghost use Rattle.mf_model.specs.Run.{Line, answers, from_office};
ghost use Rattle.mf_model.specs.Tree.{IsTree};
ghost use Rattle.mf_lists.specs.Changes.{view_with_lines};
ghost use Rattle.mf_wire.specs.Exchanges.{Exchange};
ghost use Rattle.mf_wire_requests.specs.Requests.{call_in};
ghost use Rattle.mf_lists_runs.specs.Choice.{Choice, all_told, asks_list, told_of};
ghost use Rattle.mf_lists_runs.specs.Exchanges.{ListsAnswerAll, ListsServeOn};
ghost use Rattle.mf_lists_runs.specs.Runs.{ListsRunsOn};

use mf_model::InstitutionStore;

/// Without lists each line is told what the desk replies, so a run writes what `mf_wire::run` writes.
pub fn without_lists_nothing_differs<S: InstitutionStore>()
    ensures told { (run : List Line) (i : Institution) → all_told None run i ≡ map inl (answers run i) }
    ensures texts { (told : Bool) (i : Institution) (lines texts : List (List ℕ)) (old new : S) →
        (ran : ListsRunsOn S.InstitutionStore None told i lines old texts new) → texts ≡ ran.without }
{}

/// A line that asks for no list is answered as it would be without lists.
pub fn what_asks_for_no_list_is_told_by_the_desk<S: InstitutionStore>()
    ensures { (choice : Choice) (told : Bool) (i : Institution) (lines texts : List (List ℕ)) (old new : S) →
        (ran : ListsRunsOn S.InstitutionStore choice told i lines old texts new) →
        (place : ℕ) (line : List ℕ) → slice_get lines place ≡ Some line → asks_list (call_in told line) ≡ false →
        slice_get texts place ≡ slice_get ran.without place }
{}

/// What a line is told, by the desk or by the lists, is read off what its sender's office sees, and the lines of the
/// journal that name that.
pub fn what_is_told_is_read_off_the_view()
    ensures { (choice : Choice) (o : ℕ) (l : Line) (i : Institution) → IsTree i.offices
        → from_office o l.call ≡ true → told_of choice l (view_with_lines o i) ≡ told_of choice l i }
{}

/// Messages that are answered one after another, as a server answers them, are a run: what each office sees in the end
/// is its touching list played on what it saw first, and its callers are told by their responses what these views
/// answer, lists too.
pub fn served_messages_are_isolated<S: InstitutionStore>()
    ensures { (choice : Choice) (i : Institution) (told : Bool) (exchanges : List Exchange) (old new : S) →
        ListsAnswerAll S.InstitutionStore choice told old exchanges new → S.clean new → S.stands old i
        → ListsServeOn S.InstitutionStore choice told i exchanges old new }
{}
