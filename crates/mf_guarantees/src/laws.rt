//! Guarantees in plain words. Each function does nothing: its contract is the law that the sentence above it tells.

ghost use Rattle.std.specs.Prelude.{◌≡◌, ◌≢◌, ◌≤◌, ◌<◌, ◌+◌, ◌-◌, ◌++◌, ℕ, List, [], ◌∷◌, Some, None, true, false, pos};
ghost use Rattle.std.specs.Prelude.{length, map, option_map, slice_get, sum};
ghost use Rattle.std.specs.List.{AllZip, Contains, flat_map};
ghost use Rattle.mf_office.specs.declared.account.Account.{Account};
ghost use Rattle.mf_account.specs.Balance.{balances_of};
ghost use Rattle.mf_account.specs.Loan.{DisbursedLoan, IsSoundDisbursed, schedule_of, state_of_loan};
ghost use Rattle.mf_account.specs.Kinds.{money_in};
ghost use Rattle.mf_account.specs.Standing.{entry_at, with_mark};
ghost use Rattle.mf_account.specs.declared.entry.Entry.{Entry};
ghost use Rattle.mf_account.specs.declared.entry.Kind.TheVariants as kind;
ghost use Rattle.mf_office.specs.Tree.{is_at_or_below};
ghost use Rattle.mf_office.specs.declared.caller.Caller.{Caller};
ghost use Rattle.mf_office.specs.declared.staff.Role.TheVariants.{Teller, Manager};
ghost use Rattle.mf_catalog.specs.declared.terms.Terms.{Terms};
ghost use Rattle.mf_catalog.specs.Limits.{AreTermsWithinLimits};
ghost use Rattle.mf_catalog.specs.declared.terms.Method.TheVariants.{Flat, Fixed};
ghost use Rattle.mf_schedule.specs.Fresh.{IsLoanWithinLimits, due_day_of, fresh_schedule, instalment_of};
ghost use Rattle.mf_schedule.specs.Fresh.{total_principal};
ghost use Rattle.mf_schedule.specs.Plan.{fixed_amount_of};
ghost use Rattle.mf_alloc.specs.declared.row.Cell.{Cell};
ghost use Rattle.mf_alloc.specs.Payment.{amount_of_shares};
ghost use Rattle.mf_alloc.specs.Rows.{IsCell, outstanding};
ghost use Rattle.mf_alloc.specs.Sums.{Instalment, AreWithin};
ghost use Rattle.mf_statement.specs.Lines.{entries_of};
ghost use Rattle.mf_statement.specs.declared.lines.EntryLine.{EntryLine};
ghost use Rattle.mf_statement.specs.WorkedRows.{january, little, overpayment, loan as worked_loan};
ghost use Rattle.mf_statement.specs.WorkedRows.{penalty as worked_penalty};
ghost use Rattle.mf_arrears.specs.Ageing.{days_overdue};
ghost use Rattle.mf_arrears.specs.Line.{AgedLoan, class_of, line_of_loans, par30_of};
ghost use Rattle.mf_model.specs.Calls.{Call};
ghost use Rattle.mf_arrears.specs.Report.{total_of};
ghost use Rattle.mf_model.specs.Arrears.{active_in, arrears_line};
ghost use Rattle.mf_model.specs.Institution.{Institution, Catalogue, Change, Catalogue_becomes, Office, Staff};
ghost use Rattle.mf_model.specs.Institution.{Ledger, after, newly_made, office_at};
ghost use Rattle.mf_model.specs.Tree.{IsTree, is_there, parent_of, seen_by};
ghost use Rattle.mf_guarantees.specs.Agreed.{agreed_by, agreed_in};
ghost use Rattle.mf_guarantees.specs.Branch.{children, line_of_all, worked_offices};
ghost use Rattle.mf_guarantees.specs.Reach.{AreFrom};
ghost use Rattle.mf_guarantees.specs.Kept.{AllRemains};
ghost use Rattle.mf_model.specs.Desk.{change_in, outcome, staff_at};
ghost use Rattle.mf_model.specs.Run.{Line, last};
ghost use Rattle.mf_model.specs.Sound.{IsSound, AreInRange};
ghost use Rattle.mf_model.specs.Store.{ledger_at, account_of, statement_at, instalments_at};
ghost use Rattle.mf_guarantees.specs.Money.{IsAccountedFor};
ghost use Rattle.mf_guarantees.specs.Entered.{AtSomeLine, IsEntered, IsTakenBack, entry_at_place, is_reversed};
ghost use Rattle.mf_guarantees.specs.Moves.{Rises, repaid, paid_out};
ghost use Rattle.mf_guarantees.specs.More.{PaysNoLess};
ghost use Rattle.mf_account.specs.Told.{AreNumbered};
ghost use Rattle.mf_guarantees.specs.Parts.{BearsItsOwnInterest, ComesAfter, DifferByACentAtMost};
ghost use Rattle.mf_guarantees.specs.Parts.{principal_and_interest};
ghost use Rattle.mf_guarantees.specs.Penalties.{NoneBearsTwo, standing_penalties};
ghost use Rattle.mf_guarantees.specs.Reorder.{AreInAnyOrder, AreReordered, IsCutInTwo};
ghost use Rattle.mf_guarantees.specs.Shares.{SettlesAtMostItsAmount};
ghost use Rattle.mf_guarantees.specs.Sheets.{AreTheSame, OnlyReceipts, taken_in, first_receipt, second_receipt};
ghost use Rattle.mf_guarantees.specs.Sheets.{times_entered, worked_desk, worked_sheets};
ghost use Rattle.mf_guarantees.specs.Sources.{HasSources};
ghost use Rattle.mf_guarantees.specs.Sums.{paid_out_in, all_paid_out, AreAccountedFor};
ghost use Rattle.mf_guarantees.specs.Roles.{is_repayment, is_concession};
ghost use Rattle.mf_guarantees.specs.Ageing.{lateness, on_time, worked_loans};
ghost use Rattle.mf_model.specs.declared.request.LoanRequest.TheVariants.{Repay, Post, Reverse, Take};
ghost use Rattle.mf_model.specs.declared.request.LoanStep.TheVariants.{Disburse};
ghost use Rattle.mf_model.specs.declared.request.Posting.TheVariants.{WriteOff};
ghost use Rattle.mf_model.specs.declared.request.Repayment.{Repayment};
ghost use Rattle.mf_model.specs.declared.request.Request.TheVariants.{Loan};

/// Whatever requests come, nothing is gone afterwards: every charge, product, office, member of staff, client, loan and
/// entry stands where it stood. And nothing is rewritten, but for the business day, which never goes back, the stage of
/// a loan, a product that is retired, and an entry that is reversed; the last two stay so.
pub fn nothing_is_removed()
    ensures { (i : Institution) (lines : List Line) → IsTree i.offices → AllRemains i (last lines i) }
{}

/// Whatever requests come, the business day never goes back.
pub fn business_day_never_goes_back()
    ensures { (i : Institution) (lines : List Line) → IsTree i.offices →
        i.catalogue.day ≤ (last lines i).catalogue.day }
{}

/// Whatever requests come, no cent of a loan that was paid out is made or lost: what was lent is repaid, written off or
/// outstanding; what was owed of interest, fees and penalties is paid, waived, written off or outstanding; and what was
/// repaid has paid something, is overpaid or was refunded. Money is overpaid only where nothing is outstanding.
pub fn no_cent_is_made_or_lost()
    ensures accounted { (i : Institution) (lines : List Line) (loan : Account) (account : DisbursedLoan) →
        IsSound i → AreInRange lines →
        account_of (last lines i).catalogue (ledger_at loan (last lines i)) ≡ Some account →
        IsAccountedFor account }
    ensures overpaid { (i : Institution) (lines : List Line) (loan : Account) (account : DisbursedLoan) →
        IsSound i → AreInRange lines →
        account_of (last lines i).catalogue (ledger_at loan (last lines i)) ≡ Some account →
        0 < (balances_of account).overpaid → sum (balances_of account).outstanding ≡ 0 }
{}

/// Nor of an office or of all offices: the same holds of the sums over the loans that an office paid out, and over
/// those of all offices.
pub fn no_office_makes_or_loses_a_cent()
    ensures office { (i : Institution) (lines : List Line) (x : ℕ) (office : Office) → IsSound i → AreInRange lines →
        office_at x (last lines i).offices ≡ Some office →
        AreAccountedFor (paid_out_in (last lines i).catalogue office) }
    ensures all { (i : Institution) (lines : List Line) → IsSound i → AreInRange lines →
        AreAccountedFor (all_paid_out (last lines i)) }
{}

/// An accepted repayment raises what has been repaid of its loan, of its office and of all by exactly its amount, and
/// an accepted reversal lowers it by what the entry repaid; a loan that is paid out raises what was paid out by its
/// principal. Nothing is moved of any other loan or office.
pub fn a_request_moves_exactly_its_amount()
    ensures repayment { (call : Call) (i : Institution) (change : Change) (loan : Account) (asked : Repayment) →
        IsTree i.offices → call.request ≡ Loan loan (Repay asked) → change_in (outcome call i) ≡ Some change →
        Rises repaid loan asked.amount i (after change i) }
    ensures reversal { (call : Call) (i : Institution) (change : Change) (loan : Account) (seq : ℕ) (ledger : Ledger) →
        IsTree i.offices → call.request ≡ Loan loan (Reverse seq) → ledger_at loan i ≡ Some ledger →
        change_in (outcome call i) ≡ Some change →
        let entry : Entry = entry_at ledger.entries (seq - 1) in
        Rises repaid loan (money_in entry.kind entry.amount) (after change i) i }
    ensures paying_out { (call : Call) (i : Institution) (change : Change) (loan : Account) (day : ℕ)
        (ledger : Ledger) → IsTree i.offices → call.request ≡ Loan loan (Take (Disburse day)) →
        ledger_at loan i ≡ Some ledger →
        change_in (outcome call i) ≡ Some change → Rises paid_out loan ledger.loan.principal i (after change i) }
{}

/// What a teller sends changes something only where it is a repayment.
pub fn tellers_only_enter_repayments()
    ensures { (caller : Caller) (teller : Staff) (call : Call) (i : Institution) (change : Change) →
        call.caller ≡ Some caller → staff_at i caller ≡ Some teller → teller.role ≡ Teller →
        change_in (outcome call i) ≡ Some change → is_repayment call.request ≡ true }
{}

/// Only a manager gives money up, hands it back or takes an entry back: a waiver, a write-off, a refund or a reversal
/// is accepted from nobody else.
pub fn only_managers_concede()
    ensures { (caller : Caller) (sender : Staff) (call : Call) (i : Institution) (change : Change) →
        call.caller ≡ Some caller → staff_at i caller ≡ Some sender → is_concession call.request ≡ true →
        change_in (outcome call i) ≡ Some change → sender.role ≡ Manager }
{}

/// Whatever requests come, each entry that they add to a loan was asked for by the member of staff whose name stands
/// in it, and their role allowed it at that moment: a fee or a penalty to an officer or a manager, a waiver, a
/// write-off or a refund to a manager. And each entry that they take back was taken back by somebody who was a manager
/// at that moment.
pub fn every_entry_was_allowed_when_it_was_made()
    ensures made { (i : Institution) (lines : List Line) (loan : Account) (place : ℕ) (entry : Entry) →
        IsTree i.offices → entry_at_place loan place i ≡ None → entry_at_place loan place (last lines i) ≡ Some entry →
        AtSomeLine (IsEntered loan entry.kind entry.staff) lines i }
    ensures taken_back { (i : Institution) (lines : List Line) (loan : Account) (place : ℕ) → IsTree i.offices →
        is_reversed (entry_at_place loan place i) ≡ false → is_reversed (entry_at_place loan place (last lines i))
        ≡ true →
        AtSomeLine (IsTakenBack loan place) lines i }
{}

/// Only a manager of the head office changes what all share: the business day, the charges and the products.
pub fn only_the_head_changes_the_catalogue()
    ensures role { (caller : Caller) (sender : Staff) (call : Call) (i : Institution) (catalogue : Catalogue) →
        call.caller ≡ Some caller → staff_at i caller ≡ Some sender →
        change_in (outcome call i) ≡ Some (Catalogue_becomes catalogue) → sender.role ≡ Manager }
    ensures office { (caller : Caller) (sender : Staff) (call : Call) (i : Institution) (catalogue : Catalogue) →
        call.caller ≡ Some caller → staff_at i caller ≡ Some sender →
        change_in (outcome call i) ≡ Some (Catalogue_becomes catalogue) → caller.office ≡ 1 }
{}

/// Nobody unknown changes anything.
pub fn strangers_change_nothing()
    ensures nobody { (call : Call) (i : Institution) → call.caller ≡ None → change_in (outcome call i) ≡ None }
    ensures unknown { (caller : Caller) (call : Call) (i : Institution) →
        call.caller ≡ Some caller → staff_at i caller ≡ None → change_in (outcome call i) ≡ None }
{}

/// Whatever the people of an office send, every office that isn't at or below theirs stays as it was, with all its
/// rows.
pub fn offices_change_only_what_lies_below()
    ensures { (o y : ℕ) (i : Institution) (lines : List Line) → IsTree i.offices → AreFrom o lines →
        is_there i.offices y ≡ true → is_at_or_below (parent_of i.offices) y o ≡ false →
        office_at y (last lines i).offices ≡ office_at y i.offices }
{}

/// Whatever requests come, no portion of an instalment is paid, waived and written off beyond what is owed of it.
pub fn nobody_pays_more_than_is_owed()
    ensures { (i : Institution) (lines : List Line) (loan : Account) (account : DisbursedLoan) →
        IsSound i → AreInRange lines →
        account_of (last lines i).catalogue (ledger_at loan (last lines i)) ≡ Some account →
        AreWithin (state_of_loan account).rows }
{}

/// Whatever requests come, every cent that a loan owes has a source: the schedule by which it was paid out, or a fee or
/// a penalty that stands. So no request changes the principal or the interest of a loan that was paid out.
pub fn every_cent_owed_has_a_source()
    ensures { (i : Institution) (lines : List Line) (loan : Account) (account : DisbursedLoan) →
        IsSound i → AreInRange lines →
        account_of (last lines i).catalogue (ledger_at loan (last lines i)) ≡ Some account →
        HasSources account }
{}

/// Whatever requests come, no entry settles more than its amount: the shares that are told of an entry come to at most
/// the amount that is told of it.
pub fn no_entry_settles_more_than_its_amount()
    ensures { (i : Institution) (lines : List Line) (loan : Account) (account : DisbursedLoan) (place : ℕ)
        (told : EntryLine) → IsSound i → AreInRange lines →
        account_of (last lines i).catalogue (ledger_at loan (last lines i)) ≡ Some account →
        slice_get (entries_of account) place ≡ Some told → SettlesAtMostItsAmount told }
{}

/// Once a loan is paid out, no request changes what was agreed: each instalment falls due when it did, and owes the
/// interest and the principal that the schedule gives it.
pub fn what_was_agreed_stands()
    ensures schedule { (loan : DisbursedLoan) →
        map agreed_in (state_of_loan loan).rows ≡ map agreed_by (schedule_of loan) }
    ensures kept { (i : Institution) (lines : List Line) (loan : Account) (account : DisbursedLoan) →
        IsSound i → AreInRange lines → account_of i.catalogue (ledger_at loan i) ≡ Some account →
        (later : DisbursedLoan) × (account_of (last lines i).catalogue (ledger_at loan (last lines i)) ≡ Some later)
        × (map agreed_in (state_of_loan later).rows ≡ map agreed_in (state_of_loan account).rows) }
{}

/// Whatever requests come, at most one penalty stands on an instalment: so it is from the founding on, and so it stays
/// wherever it is so.
pub fn no_instalment_bears_two_penalties()
    ensures founded { (day : ℕ) (lines : List Line) → NoneBearsTwo (last lines (newly_made day)) }
    ensures kept { (i : Institution) (lines : List Line) → IsTree i.offices → NoneBearsTwo i →
        NoneBearsTwo (last lines i) }
{}

/// An entry that is entered and then reversed leaves the sums of a loan as if it had never been entered.
pub fn a_reversal_is_as_never_entered()
    ensures { (loan : DisbursedLoan) (entry : Entry) →
        let reversed : DisbursedLoan = record loan {
          entries = with_mark (loan.entries ++ entry ∷ []) (length loan.entries) true;
        } in
        balances_of reversed ≡ balances_of loan }
{}

/// Entries of different days may be entered in any order, by anybody and with any receipts: the instalments and the
/// sums of the loan are the same, since it is the days that count. Repayments of one day may change places too, where
/// no other entry of that day stands between them. And a repayment comes to the same as two of the same day that follow
/// each other and come to its amount.
pub fn the_order_of_entering_counts_nothing()
    ensures instalments { (loan : DisbursedLoan) (entries : List Entry) → AreNumbered loan.entries →
        AreNumbered entries → AreReordered loan.entries entries →
        (state_of_loan (record loan { entries = entries })).rows ≡ (state_of_loan loan).rows }
    ensures sums { (loan : DisbursedLoan) (entries : List Entry) → AreNumbered loan.entries →
        AreNumbered entries → AreReordered loan.entries entries →
        balances_of (record loan { entries = entries }) ≡ balances_of loan }
    ensures repayments_instalments { (loan : DisbursedLoan) (entries : List Entry) → IsSoundDisbursed loan →
        AreNumbered entries → AreInAnyOrder loan.entries entries →
        (state_of_loan (record loan { entries = entries })).rows ≡ (state_of_loan loan).rows }
    ensures repayments_sums { (loan : DisbursedLoan) (entries : List Entry) → IsSoundDisbursed loan →
        AreNumbered entries → AreInAnyOrder loan.entries entries →
        balances_of (record loan { entries = entries }) ≡ balances_of loan }
    ensures cut_instalments { (loan : DisbursedLoan) (entries : List Entry) → IsSoundDisbursed loan →
        AreNumbered entries → IsCutInTwo loan.entries entries →
        (state_of_loan (record loan { entries = entries })).rows ≡ (state_of_loan loan).rows }
    ensures cut_sums { (loan : DisbursedLoan) (entries : List Entry) → IsSoundDisbursed loan →
        AreNumbered entries → IsCutInTwo loan.entries entries →
        balances_of (record loan { entries = entries }) ≡ balances_of loan }
{}

/// A receipt counts once, whoever of those who see the loan sends it, and on however many collection sheets. The sheets
/// may be merged in any order. Where two runs take the same repayments with receipts, in any order and each once or
/// more often, every loan is shown alike after both: its status, its sums and its instalments. The condition is that no
/// other line of the two runs changes anything. In any run at all, a receipt with which a repayment was taken stands on
/// just one entry of its office afterwards.
pub fn sheets_merge_in_any_order()
    ensures sums { (i : Institution) (lines others : List Line) (loan : Account) → IsSound i → AreInRange lines →
        AreInRange others → OnlyReceipts lines i → OnlyReceipts others i →
        AreTheSame (taken_in lines i) (taken_in others i) →
        statement_at loan (last lines i) ≡ statement_at loan (last others i) }
    ensures instalments { (i : Institution) (lines others : List Line) (loan : Account) → IsSound i → AreInRange lines →
        AreInRange others → OnlyReceipts lines i → OnlyReceipts others i →
        AreTheSame (taken_in lines i) (taken_in others i) →
        instalments_at loan (last lines i) ≡ instalments_at loan (last others i) }
    ensures once { (i : Institution) (lines : List Line) (loan : Account) (asked : Repayment) (receipt : List ℕ) →
        IsSound i → AreInRange lines → Contains (taken_in lines i) (Loan loan (Repay asked)) →
        asked.receipt ≡ Some receipt → times_entered loan.office receipt (last lines i) ≡ 1 }
{}

/// Who pays more never has more left to pay: where some repayments of a loan are of more, and all else that was entered
/// is the same, no cell of an instalment has more outstanding.
pub fn who_pays_more_has_no_more_left()
    ensures { (loan : DisbursedLoan) (entries : List Entry) (cell : Cell) → IsSoundDisbursed loan →
        IsSoundDisbursed (record loan { entries = entries }) → AllZip PaysNoLess loan.entries entries →
        IsCell loan.periods cell →
        outstanding (state_of_loan (record loan { entries = entries })).rows cell
        ≤ outstanding (state_of_loan loan).rows cell }
{}

/// Of an office's loans, what is outstanding is what is on time and what is overdue in each class, and no cent else;
/// and the portfolio at risk is at most 100 per cent.
pub fn arrears_add_up()
    ensures classes { (office : ℕ) (loans : List AgedLoan) →
        let line = line_of_loans office loans in
        line.outstanding ≡ on_time loans + line.c1_30 + line.c31_60 + line.c61_90 + line.over_90 }
    ensures at_most_all { (office : ℕ) (loans : List AgedLoan) → par30_of (line_of_loans office loans) ≤ 10000 }
{}

/// The report of arrears says of all that an office sees: its own line, and what the reports of the offices right below
/// it say of all, each loan once and no other.
pub fn a_parents_arrears_are_its_own_and_its_childrens()
    ensures parts { (i : Institution) (x : ℕ) (own : Office) → IsTree i.offices → office_at x i.offices ≡ Some own →
        line_of_all i x ≡ total_of (arrears_line i.catalogue own
        ∷ map (λ (child : Office). line_of_all i child.number) (children x i.offices)) }
    ensures loans { (i : Institution) (x : ℕ) →
        line_of_all i x ≡ line_of_loans 0 (flat_map (λ (office : Office). active_in i.catalogue office.rows.loans)
        (seen_by x i.offices)) }
{}

/// A loan into which nothing is entered is no less overdue on a later day, and in no lower class.
pub fn arrears_grow_with_time()
    ensures days { (rows : List Instalment) (day more : ℕ) → days_overdue rows day ≤ days_overdue rows (day + more) }
    ensures class { (rows : List Instalment) (day more : ℕ) →
        lateness (class_of (pos (days_overdue rows day)))
        ≤ lateness (class_of (pos (days_overdue rows (day + more)))) }
{}

/// The schedule that a loan is paid out by comes to what was lent, to the cent, and its due days ascend.
pub fn schedules_come_to_what_was_lent()
    ensures principal { (terms : Terms) (principal periods day : ℕ) → IsLoanWithinLimits terms principal periods →
        total_principal (fresh_schedule terms principal periods day) ≡ principal }
    ensures due_days { (terms : Terms) (day earlier later : ℕ) → AreTermsWithinLimits terms → earlier < later →
        due_day_of terms day earlier < due_day_of terms day later }
{}

/// Where a loan is repaid in equal parts, no two parts of its principal after the grace differ by more than a cent; nor
/// do the parts of a flat interest, but for those of a grace of interest, which the first instalment after it bears.
pub fn equal_parts_differ_by_at_most_a_cent()
    ensures principal { (terms : Terms) (principal n day i j : ℕ) → terms.method ≢ Fixed →
        ComesAfter terms.principal_grace n i → ComesAfter terms.principal_grace n j →
        DifferByACentAtMost (instalment_of terms principal n day i).principal
        (instalment_of terms principal n day j).principal }
    ensures flat_interest { (terms : Terms) (principal n day i j : ℕ) → terms.method ≡ Flat →
        ComesAfter 0 n i → ComesAfter 0 n j → BearsItsOwnInterest terms i → BearsItsOwnInterest terms j →
        DifferByACentAtMost (instalment_of terms principal n day i).interest
        (instalment_of terms principal n day j).interest }
{}

/// Where a loan is repaid in fixed instalments, each after the graces is of the fixed amount, but for the last that
/// repays something; and none is of more. Left out is the first after a grace of interest, which bears that of the
/// grace too.
pub fn all_but_the_last_instalment_are_the_fixed_one()
    ensures fixed { (terms : Terms) (principal n day i j : ℕ) → IsLoanWithinLimits terms principal n →
        terms.method ≡ Fixed → ComesAfter terms.principal_grace n i → BearsItsOwnInterest terms i →
        i < j → j ≤ n → 0 < (instalment_of terms principal n day j).principal →
        principal_and_interest terms principal n day i ≡ fixed_amount_of terms principal n }
    ensures no_more { (terms : Terms) (principal n day i : ℕ) → IsLoanWithinLimits terms principal n →
        terms.method ≡ Fixed → ComesAfter terms.principal_grace n i → BearsItsOwnInterest terms i →
        principal_and_interest terms principal n day i ≤ fixed_amount_of terms principal n }
{}

/// Worked out: of 100.00 that is 31 days overdue and 200.00 that is on time a third is at risk; a repayment is no
/// concession, and a write-off is one; offices 2 and 20 are right below office 1, and office 5 is not. Two entries of
/// different days may be entered the other way round, so may two repayments, and 1.00 that is repaid may be cut into
/// 0.60 and 0.40.
///
/// 1000.00 over three months is repaid in parts of 333.33, 333.33 and 333.34, or at 12 per cent in instalments of
/// 340.03, 340.03 and 340.01. Of 0.04 at no interest the second instalment is the last that repays something. Of two
/// penalties on an instalment, one of them reversed, one stands; a penalty and a repayment leave what was agreed; and
/// of 1100.00 that is repaid where 1020.00 is owed, the shares come to 1020.00.
///
/// Of two sheets with the same two receipts, 200.00 and 500.00, all four lines are taken, and 700.00 is repaid: 20.00
/// of interest and 680.00 of principal.
pub fn worked_rows()
    ensures at_risk { par30_of (line_of_loans 1 worked_loans) ≡ 3333 }
    ensures on_time { on_time worked_loans ≡ 20000 }
    ensures children { map (λ (office : Office). office.number) (children 1 worked_offices) ≡ 2 ∷ 20 ∷ [] }
    ensures reordered { (a b : Entry) → a.day ≢ b.day →
        AreReordered (a ∷ b ∷ []) (record b { seq = a.seq } ∷ record a { seq = b.seq } ∷ []) }
    ensures any_order { (a b : Entry) → a.kind ≡ kind.Repay → b.kind ≡ kind.Repay →
        AreInAnyOrder (a ∷ b ∷ []) (record b { seq = a.seq } ∷ record a { seq = b.seq } ∷ []) }
    ensures cut { (payment : Entry) → payment.kind ≡ kind.Repay → payment.amount ≡ 100 →
        IsCutInTwo (payment ∷ []) (record payment { amount = 60 }
        ∷ record payment { seq = payment.seq + 1; amount = 40; receipt = None } ∷ []) }
    ensures equal_parts { map (λ i. (instalment_of (worked_loan []).terms 100000 3 january i).principal)
        (1 ∷ 2 ∷ 3 ∷ []) ≡ 33333 ∷ 33333 ∷ 33334 ∷ [] }
    ensures fixed { let terms : Terms = record (worked_loan []).terms { method = Fixed } in
        map (principal_and_interest terms 100000 3 january) (1 ∷ 2 ∷ 3 ∷ []) ≡ 34003 ∷ 34003 ∷ 34001 ∷ [] }
    ensures few_cents { let terms : Terms = record (worked_loan []).terms { method = Fixed; rate = 0 } in
        map (principal_and_interest terms 4 3 january) (1 ∷ 2 ∷ 3 ∷ []) ≡ 2 ∷ 2 ∷ 0 ∷ [] }
    ensures penalties { standing_penalties 1 (worked_penalty ∷ record worked_penalty { reversed = true }
        ∷ record worked_penalty { instalment = 2 } ∷ []) ≡ 1 }
    ensures agreed { map agreed_in (state_of_loan (worked_loan (worked_penalty ∷ little ∷ []))).rows
        ≡ map agreed_by (schedule_of (worked_loan [])) }
    ensures shares { map (λ told. amount_of_shares told.shares) (entries_of (worked_loan (overpayment ∷ [])))
        ≡ 102000 ∷ [] }
    ensures taken { taken_in worked_sheets worked_desk
        ≡ second_receipt ∷ first_receipt ∷ first_receipt ∷ second_receipt ∷ [] }
    ensures merged { option_map (λ told. told.balances.paid) (statement_at (record { office = 1; number = 1 })
        (last worked_sheets worked_desk)) ≡ Some (0 ∷ 0 ∷ 2000 ∷ 68000 ∷ []) }
    ensures repayment { (loan : Account) (asked : Repayment) →
        (is_repayment (Loan loan (Repay asked)) ≡ true) × (is_concession (Loan loan (Repay asked)) ≡ false) }
    ensures write_off { (loan : Account) →
        (is_repayment (Loan loan (Post WriteOff)) ≡ false) × (is_concession (Loan loan (Post WriteOff)) ≡ true) }
{}
