//! Laws of whole runs. Each function does nothing: its contract is the law.

ghost use Rattle.std.specs.Prelude.{◌≡◌, ◌≢◌, ◌≤◌, ◌^◌, ℕ, List, [], ◌∷◌, ◌++◌, Option, Some, Ok, Err, map, true};
ghost use Rattle.std.specs.Prelude.{sum_by};
ghost use Rattle.mf_arrears.specs.Line.{OfficeLine};
ghost use Rattle.mf_model.specs.Arrears.{arrears_seen};
ghost use Rattle.mf_office.specs.declared.account.Account.{Account};
ghost use Rattle.mf_office.specs.declared.caller.Caller.{Caller};
ghost use Rattle.mf_model.specs.Institution.{Institution, Catalogue, Rows, Staff, Ledger, Change, Catalogue_becomes};
ghost use Rattle.mf_model.specs.Institution.{Rows_become, Office_added, after, office_at, newly_made};
ghost use Rattle.mf_model.specs.Tree.{IsTree, view, is_there, parent_of};
ghost use Rattle.mf_model.specs.Desk.{effect, outcome, change_in, meets, need, reply, staff_at};
ghost use Rattle.mf_model.specs.Unseen.{Asked, IsUnseen, asked_of, call_from};
ghost use Rattle.mf_model.specs.Sound.{IsSound, IsInRange, AreInRange};
ghost use Rattle.mf_model.specs.WorkedRows.{first_day, branches, chain, lending_lines, first_of_2024, catalogue_day};
ghost use Rattle.mf_model.specs.WorkedRows.{deciding};
ghost use Rattle.mf_model.specs.WorkedAccounts.{january, repaying, schedule_shown, back_dated, overpaying};
ghost use Rattle.mf_model.specs.WorkedAccounts.{principal_first, out_of_order, disbursing, receipt_lines};
ghost use Rattle.mf_model.specs.WorkedEntries.{fee_paid_before, fees_by_day, waiving, penalties_first};
ghost use Rattle.mf_model.specs.WorkedEntries.{principal_before, interest_before, penalty_taken_back, reversing};
ghost use Rattle.mf_model.specs.WorkedEntries.{refunding, writing_off, receipt_of_a_reversed_entry};
ghost use Rattle.mf_model.specs.WorkedArrears.{thirty_days, interest_left};
ghost use Rattle.mf_base.specs.DayText.{last_entered_day};
ghost use Rattle.mf_office.specs.Tree.{IsTreeOf};
ghost use Rattle.mf_model.specs.Calls.{Call, Received};
ghost use Rattle.mf_model.specs.Run.{Line, ViewIsPlay, RepliesArePlay, OwnRepliesArePlay, Alike, NoneGivenUp};
ghost use Rattle.mf_model.specs.Run.{from_office, from_caller, given_up, replies_to, answer, answers, last, next};
ghost use Rattle.mf_model.specs.Run.{noted_of};
ghost use Rattle.mf_model.specs.Run.{touching_list, play_replies};
ghost use Rattle.mf_model.specs.Store.{left_by, left_after, ledger_at, account_of, use_at};
ghost use Rattle.mf_model.specs.declared.request.Repayment.{Repayment};
ghost use Rattle.mf_model.specs.declared.request.LoanRequest.TheVariants.{Repay};
ghost use Rattle.mf_model.specs.declared.request.Request.TheVariants.{SeenArrears};
ghost use Rattle.mf_model.specs.declared.reply.Reply.TheVariants.{ArrearsShown};
ghost use Rattle.mf_model.specs.Receipts.{Use, first_use, uses_from, repeated_seq};
ghost use Rattle.mf_model.specs.Loans.{on_loan, repeat_of};
ghost use Rattle.mf_catalog.specs.declared.terms.Terms.{Terms};
ghost use Rattle.mf_account.specs.Loan.{DisbursedLoan, IsSoundDisbursed};
ghost use Rattle.mf_model.specs.Stages.{disbursed_on};
ghost use Rattle.mf_model.specs.Accounts.{terms_in, account_in, status_in};

use mf_base::Fault;

/// What a caller is answered, and what the request changes, is read off what the caller's office sees.
pub fn answered_by_view()
    ensures office { (o : ℕ) (call : Call) (i : Institution) → IsTree i.offices → from_office o call ≡ true →
        outcome call (view o i) ≡ outcome call i }
    ensures caller { (c : Caller) (call : Call) (i : Institution) → IsTree i.offices → from_caller c call ≡ true →
        outcome call (view c.office i) ≡ outcome call i }
{}

/// A run with one line more: one more reply, and one more step.
pub fn longer_run()
    ensures answers { (lines : List Line) (line : Line) (i : Institution) →
        answers (lines ++ line ∷ []) i ≡ answers lines i ++ answer line (last lines i) ∷ [] }
    ensures last { (lines : List Line) (line : Line) (i : Institution) → last (lines ++ line ∷ []) i
        ≡ next line (last lines i) }
    ensures left { (lines : List Line) (line : Line) (i : Institution) (is : List Institution) →
        left_after (lines ++ line ∷ []) i is ≡ left_by (noted_of line.call (last lines i))
        (change_in (outcome line.call (last lines i))) line.given_up (last lines i) (left_after lines i is) }
{}

/// Whatever lines come, the view of every office is its touching list played on its first view, and what its
/// callers are told, each member of staff for themselves too, is what that play answers, but where a line was given up.
pub fn isolation()
    ensures views { (i : Institution) (lines : List Line) → IsTree i.offices → ViewIsPlay i lines }
    ensures replies { (i : Institution) (lines : List Line) → IsTree i.offices → RepliesArePlay i lines }
    ensures own_replies { (i : Institution) (lines : List Line) → IsTree i.offices → OwnRepliesArePlay i lines }
{}

/// The same where no line was given up: these are all the replies.
pub fn isolation_with_memory()
    ensures replies { (i : Institution) (lines : List Line) → IsTree i.offices → NoneGivenUp lines →
        (o : ℕ) → replies_to (from_office o) lines (answers lines i) ≡ play_replies (from_office o)
        (touching_list o lines i) (view o i) }
    ensures own_replies { (i : Institution) (lines : List Line) → IsTree i.offices → NoneGivenUp lines →
        (c : Caller) → replies_to (from_caller c) lines (answers lines i) ≡ play_replies (from_caller c)
        (touching_list c.office lines i) (view c.office i) }
{}

/// Two institutions that agree on what all share and on the rows of the offices at or below one, and whose runs
/// touch that office alike, tell its callers the same and agree on these rows afterwards, whatever else differs.
pub fn alike()
    ensures views { (o : ℕ) (i j : Institution) (lines others : List Line) → IsTree i.offices → IsTree j.offices →
        Alike o i j lines others → view o (last lines i) ≡ view o (last others j) }
    ensures replies { (o : ℕ) (i j : Institution) (lines others : List Line) → IsTree i.offices → IsTree j.offices →
        Alike o i j lines others → NoneGivenUp lines → NoneGivenUp others →
        replies_to (from_office o) lines (answers lines i) ≡ replies_to (from_office o) others (answers others j) }
    ensures own_replies { (c : Caller) (i j : Institution) (lines others : List Line) → IsTree i.offices
        → IsTree j.offices →
        Alike c.office i j lines others → NoneGivenUp lines → NoneGivenUp others →
        replies_to (from_caller c) lines (answers lines i) ≡ replies_to (from_caller c) others (answers others j) }
{}

/// The same where lines are given up, if the same ones of the office's, or of the caller's, are.
pub fn alike_but_given_up()
    ensures replies { (o : ℕ) (i j : Institution) (lines others : List Line) → IsTree i.offices → IsTree j.offices →
        Alike o i j lines others → given_up (from_office o) lines ≡ given_up (from_office o) others →
        replies_to (from_office o) lines (answers lines i) ≡ replies_to (from_office o) others (answers others j) }
    ensures own_replies { (c : Caller) (i j : Institution) (lines others : List Line) → IsTree i.offices
        → IsTree j.offices →
        Alike c.office i j lines others → given_up (from_caller c) lines ≡ given_up (from_caller c) others →
        replies_to (from_caller c) lines (answers lines i) ≡ replies_to (from_caller c) others (answers others j) }
{}

/// A client or a loan that the caller may not see, and one that isn't there, are answered alike, whatever their
/// accounts are: with F4, where the caller is known and its role may ask.
pub fn hidden_is_missing()
    ensures same { (asked : Asked) (a b : Account) (c : Caller) (r s : Received) (i : Institution)
        → IsUnseen c asked a i → IsUnseen c asked b i →
        reply (call_from c (asked_of asked a) r) i ≡ reply (call_from c (asked_of asked b) s) i }
    ensures refusal { (asked : Asked) (a : Account) (c : Caller) (r : Received) (s : Staff) (i : Institution)
        → IsUnseen c asked a i → staff_at i c ≡ Some s → meets (need (asked_of asked a)) s.role c.office ≡ true
        → reply (call_from c (asked_of asked a) r) i ≡ Err Fault.F4 }
{}

/// No call is answered F20 by the definitions: a line is told it only where it is given up.
pub fn no_reply_is_given_up()
    ensures { (call : Call) (i : Institution) → reply call i ≢ Err Fault.F20 }
{}

/// What an accepted request changes is worked out without the caller's row, from the request, the catalogue and the
/// request's target alone.
pub fn effects()
    ensures accepted { (call : Call) (i : Institution) (change : Change) → IsTree i.offices →
        change_in (outcome call i) ≡ Some change → effect call i ≡ Some change }
    ensures of_catalogue { (call : Call) (i j : Institution) (catalogue : Catalogue) → effect call i
        ≡ Some (Catalogue_becomes catalogue) →
        i.catalogue ≡ j.catalogue → effect call j ≡ Some (Catalogue_becomes catalogue) }
    ensures of_office { (call : Call) (i j : Institution) (x : ℕ) (rows : Rows) → effect call i
        ≡ Some (Rows_become x rows) →
        i.catalogue ≡ j.catalogue → office_at x i.offices ≡ office_at x j.offices → effect call j
        ≡ Some (Rows_become x rows) }
    ensures of_new_office { (call : Call) (i j : Institution) (number parent : ℕ) (name : List ℕ) →
        effect call i ≡ Some (Office_added number parent name) → effect call j
        ≡ Some (Office_added number parent name) }
{}

/// A change of an office leaves the catalogue and every other office as they were, and so does a new office.
pub fn confinement()
    ensures rows { (i : Institution) (x y : ℕ) (rows : Rows) → y ≢ x →
        office_at y (after (Rows_become x rows) i).offices ≡ office_at y i.offices }
    ensures new_office { (i : Institution) (number parent y : ℕ) (name : List ℕ) → y ≢ number →
        office_at y (after (Office_added number parent name) i).offices ≡ office_at y i.offices }
    ensures offices { (i : Institution) (catalogue : Catalogue) → (after (Catalogue_becomes catalogue) i).offices
        ≡ i.offices }
    ensures catalogue { (i : Institution) (x number parent : ℕ) (name : List ℕ) (rows : Rows) →
        ((after (Rows_become x rows) i).catalogue ≡ i.catalogue)
        × ((after (Office_added number parent name) i).catalogue ≡ i.catalogue) }
{}

/// A new institution is sound, and an accepted request whose members lie in their ranges leaves a sound one. The
/// offices stay one tree whatever the members are.
pub fn soundness()
    ensures first { (day : ℕ) → day ≤ last_entered_day → IsSound (newly_made day) }
    ensures accepted { (call : Call) (i : Institution) (change : Change) → IsSound i → IsInRange call.request →
        change_in (outcome call i) ≡ Some change → IsSound (after change i) }
    ensures run { (i : Institution) (lines : List Line) → IsSound i → AreInRange lines → IsSound (last lines i) }
    ensures tree { (i : Institution) (lines : List Line) → IsTree i.offices → IsTree (last lines i).offices }
{}

/// Over whole runs a product gives the terms that it gave, retired or not, and a loan with its entries has the account
/// that it had.
pub fn what_was_lent_stands()
    ensures terms { (i : Institution) (lines : List Line) → IsSound i → AreInRange lines → (product : ℕ) (terms : Terms)
        →
        terms_in i.catalogue product ≡ Some terms → terms_in (last lines i).catalogue product ≡ Some terms }
    ensures account { (i : Institution) (lines : List Line) → IsSound i → AreInRange lines → (ledger : Ledger)
        (account : DisbursedLoan) →
        account_in i.catalogue ledger ≡ Some account → account_in (last lines i).catalogue ledger ≡ Some account }
{}

/// In a sound institution each loan that is disbursed has an account, with what its replay asks for. It begins at
/// status 300.
pub fn accounts_can_be_replayed()
    ensures there { (i : Institution) (loan : Account) (ledger : Ledger) (day : ℕ) → IsSound i → ledger_at loan i
        ≡ Some ledger →
        disbursed_on ledger.loan.stage ≡ Some day → (account : DisbursedLoan)
        × (account_of i.catalogue (ledger_at loan i)
        ≡ Some account) }
    ensures sound { (i : Institution) (loan : Account) (account : DisbursedLoan) → IsSound i
        → account_of i.catalogue (ledger_at loan i) ≡ Some account → IsSoundDisbursed account }
    ensures first { (i : Institution) (loan : Account) (ledger : Ledger) (day : ℕ) → IsSound i → ledger_at loan i
        ≡ Some ledger →
        disbursed_on ledger.loan.stage ≡ Some day → ledger.entries ≡ [] → status_in i.catalogue ledger ≡ 300 }
{}

/// A receipt that an office knows stands for the same entry ever after. A repayment that is sent with it again is
/// answered with that entry's number, or refused with F15, and changes nothing.
pub fn receipts_stay_known()
    ensures known { (i : Institution) (lines : List Line) → IsSound i → AreInRange lines
        → (office : ℕ) (receipt : List ℕ) (u : Use) →
        use_at office receipt i ≡ Some u → use_at office receipt (last lines i) ≡ Some u }
    ensures again { (asked : Repayment) (caller : Caller) (k : Catalogue) (rows : Rows) (n : ℕ) (ledger : Ledger)
        (receipt : List ℕ) (u : Use) →
        asked.receipt ≡ Some receipt → first_use receipt (uses_from 1 rows.loans) ≡ Some u →
        on_loan (Repay asked) caller k rows n ledger ≡ repeat_of (repeated_seq n asked.amount asked.day u.by) }
{}

/// What a new institution answers, worked out line by line.
pub fn worked_rows()
    ensures first_day { (day : ℕ) → answers (map (λ row. row.0) first_day) (newly_made day)
        ≡ map (λ row. row.1) first_day }
    ensures branches { (day : ℕ) → answers (map (λ row. row.0) branches) (newly_made day)
        ≡ map (λ row. row.1) branches }
    ensures chain { (day : ℕ) → answers (map (λ row. row.0) chain) (newly_made day) ≡ map (λ row. row.1) chain }
    ensures lending { (day : ℕ) → answers (map (λ row. row.0) lending_lines) (newly_made day)
        ≡ map (λ row. row.1) lending_lines }
    ensures catalogue_day { answers (map (λ row. row.0) catalogue_day) (newly_made first_of_2024)
        ≡ map (λ row. row.1) catalogue_day }
    ensures deciding { answers (map (λ row. row.0) deciding) (newly_made first_of_2024) ≡ map (λ row. row.1) deciding }
{}

/// What is told of a disbursed loan, worked out line by line.
pub fn worked_accounts()
    ensures repaying { answers (map (λ row. row.0) repaying) (newly_made january) ≡ map (λ row. row.1) repaying }
    ensures scheduled { answers (map (λ row. row.0) schedule_shown) (newly_made january)
        ≡ map (λ row. row.1) schedule_shown }
    ensures back_dated { answers (map (λ row. row.0) back_dated) (newly_made january) ≡ map (λ row. row.1) back_dated }
    ensures overpaying { answers (map (λ row. row.0) overpaying) (newly_made january) ≡ map (λ row. row.1) overpaying }
    ensures principal_first { answers (map (λ row. row.0) principal_first) (newly_made january)
        ≡ map (λ row. row.1) principal_first }
    ensures out_of_order { answers (map (λ row. row.0) out_of_order) (newly_made january)
        ≡ map (λ row. row.1) out_of_order }
    ensures disbursing { answers (map (λ row. row.0) disbursing) (newly_made january) ≡ map (λ row. row.1) disbursing }
    ensures receipts { answers (map (λ row. row.0) receipt_lines) (newly_made january)
        ≡ map (λ row. row.1) receipt_lines }
{}

/// What is answered of loans with fees, penalties, waivers, write-offs, refunds and reversals, worked out line by line.
pub fn worked_entries()
    ensures fee_paid_before { answers (map (λ row. row.0) fee_paid_before) (newly_made january)
        ≡ map (λ row. row.1) fee_paid_before }
    ensures fees_by_day { answers (map (λ row. row.0) fees_by_day) (newly_made january)
        ≡ map (λ row. row.1) fees_by_day }
    ensures waiving { answers (map (λ row. row.0) waiving) (newly_made january) ≡ map (λ row. row.1) waiving }
    ensures penalties_first { answers (map (λ row. row.0) penalties_first) (newly_made january)
        ≡ map (λ row. row.1) penalties_first }
    ensures principal_before { answers (map (λ row. row.0) principal_before) (newly_made january)
        ≡ map (λ row. row.1) principal_before }
    ensures interest_before { answers (map (λ row. row.0) interest_before) (newly_made january)
        ≡ map (λ row. row.1) interest_before }
    ensures penalty_taken_back { answers (map (λ row. row.0) penalty_taken_back) (newly_made january)
        ≡ map (λ row. row.1) penalty_taken_back }
    ensures reversing { answers (map (λ row. row.0) reversing) (newly_made january) ≡ map (λ row. row.1) reversing }
    ensures refunding { answers (map (λ row. row.0) refunding) (newly_made january) ≡ map (λ row. row.1) refunding }
    ensures writing_off { answers (map (λ row. row.0) writing_off) (newly_made january)
        ≡ map (λ row. row.1) writing_off }
    ensures receipt_of_a_reversed_entry { answers (map (λ row. row.0) receipt_of_a_reversed_entry) (newly_made january)
        ≡ map (λ row. row.1) receipt_of_a_reversed_entry }
{}

/// What the report of arrears says, worked out line by line.
pub fn worked_arrears()
    ensures thirty_days { answers (map (λ row. row.0) thirty_days) (newly_made january)
        ≡ map (λ row. row.1) thirty_days }
    ensures interest_left { answers (map (λ row. row.0) interest_left) (newly_made january)
        ≡ map (λ row. row.1) interest_left }
{}

/// The lines of arrears that an office sees of a sound institution, and that a caller is told, have at most 10^10 loans
/// in all, so that a report can sum them.
pub fn arrears_can_be_summed()
    ensures seen { (o : ℕ) (i : Institution) → IsSound i → sum_by (λ (line : OfficeLine). line.loans)
        (arrears_seen o i) ≤ 10 ^ 10 }
    ensures told { (caller : Option Caller) (received : Received) (i : Institution) (lines : List OfficeLine)
        → IsSound i →
        reply (record { caller = caller; request = SeenArrears; received = received }) i ≡ Ok (ArrearsShown lines)
        → sum_by (λ (line : OfficeLine). line.loans) lines ≤ 10 ^ 10 }
{}

/// The offices of a sound institution are a tree as the keys of offices know it.
pub fn tree_of_offices()
    ensures { (i : Institution) → IsSound i → IsTreeOf (is_there i.offices) (parent_of i.offices) }
{}
