//! What holds of lists and of rates. Each function does nothing: its contract is the law that the sentence above it
//! tells.

ghost use Rattle.std.specs.Prelude.{◌≡◌, ◌≤◌, ◌-◌, ◌*◌, ◌++◌, ◌∷◌, ℕ, Bool, List, [], map, filter, true, false, codes};
ghost use Rattle.std.specs.Prelude.{length, sum, sum_by, Some, None, MatchOption, IfSome, Ok, Err};
ghost use Rattle.std.specs.List.{AllByRecursion, count_by};
ghost use Rattle.mf_base.specs.declared.fault.Fault.{Fault};
ghost use Rattle.mf_base.specs.declared.fault.Fault.TheVariants.{F2, F4, F7, F8};
ghost use Rattle.mf_catalog.specs.declared.charge.ChargeDef.{ChargeDef};
ghost use Rattle.mf_catalog.specs.declared.product.Product.{Product};
ghost use Rattle.mf_catalog.specs.Product.{charge_at, charge_of};
ghost use Rattle.mf_office.specs.declared.caller.Caller.{Caller};
ghost use Rattle.mf_office.specs.Tree.{is_at_or_below};
ghost use Rattle.mf_account.specs.Account.{row_of};
ghost use Rattle.mf_statement.specs.Lines.{instalments_from};
ghost use Rattle.mf_model.specs.declared.loan.Stage.TheVariants.{Disbursed};
ghost use Rattle.mf_model.specs.declared.request.Application.{Application};
ghost use Rattle.mf_model.specs.Accounts.{balances_in, instalments_in};
ghost use Rattle.mf_model.specs.Desk.{staff_at};
ghost use Rattle.mf_model.specs.Institution.{Catalogue, Institution, Ledger, Rows, Staff, charge_in, item_numbered};
ghost use Rattle.mf_model.specs.Institution.{product_in};
ghost use Rattle.mf_model.specs.Loans.{make_loan, submit};
ghost use Rattle.mf_schedule.specs.Fresh.{total_owed};
ghost use Rattle.mf_schedule.specs.declared.instalment.FreshInstalment.{FreshInstalment};
ghost use Rattle.mf_model.specs.Sound.{IsSoundRows};
ghost use Rattle.mf_model.specs.Tree.{parent_of};
ghost use Rattle.mf_lists.specs.Changes.{view_with_lines};
ghost use Rattle.mf_lists.specs.declared.lines.ClientLine.{ClientLine};
ghost use Rattle.mf_lists.specs.declared.lines.DueLine.{DueLine};
ghost use Rattle.mf_lists.specs.declared.lines.StageLine.{StageLine};
ghost use Rattle.mf_lists.specs.declared.preview.LoanPreview.{LoanPreview};
ghost use Rattle.mf_lists.specs.Lists.{clients_of, clients_after, due_lines, due_after, stage_lines, stages_after};
ghost use Rattle.mf_lists.specs.Lists.{is_waiting, is_active, is_overdue, has_part};
ghost use Rattle.mf_lists.specs.declared.answer.ListAnswer.TheVariants.{Listed, Previewed};
ghost use Rattle.mf_lists.specs.declared.answer.ListTold.TheVariants.{ClientLines, ClientLoans, DueLines, StageLines};
ghost use Rattle.mf_lists.specs.declared.answer.ListTold.TheVariants.{StaffLines, ChangeLines, TakingLines};
ghost use Rattle.mf_lists.specs.declared.request.ListAsked.{ListAsked};
ghost use Rattle.mf_lists.specs.declared.request.ListAsked.TheVariants.{Clients, LoansOf, DueBy, AtStatus, StaffOf};
ghost use Rattle.mf_lists.specs.declared.request.ListAsked.TheVariants.{Find, ChangesOf, Changes, TakingsOn};
ghost use Rattle.mf_lists.specs.WorkedChanges.{approved_at, entered, noted, submitted};
ghost use Rattle.mf_lists.specs.declared.request.ListRequest.{ListRequest};
ghost use Rattle.mf_lists.specs.declared.request.ListRequest.TheVariants.{OfOffice, Preview};
ghost use Rattle.mf_lists.specs.Readings.{list_seen, list_reply, pages};
ghost use Rattle.mf_lists.specs.WorkedLists.{small, worked_day, first_due, second_due, amina, binta, chidi};
ghost use Rattle.mf_lists.specs.WorkedLists.{teller, nobody, loans_of_amina, due_of_amina, later_of_amina};
ghost use Rattle.mf_lists.specs.WorkedLists.{later_of_binta, stage_of, zola_and_yemi};
ghost use Rattle.mf_lists.specs.Preview.{preview_in, preview_of};
ghost use Rattle.mf_lists.specs.Takings.{given_back, handed_over, is_of_day, movement_on, refund_reversed};
ghost use Rattle.mf_lists.specs.Takings.{takings_of};
ghost use Rattle.mf_lists.specs.declared.takings.Way.TheVariants.{PaidIn, PaidOut, InReversed, OutReversed};
ghost use Rattle.mf_model.specs.declared.request.LoanRequest.TheVariants.{Post, Repay, Reverse, Take};
ghost use Rattle.mf_model.specs.declared.request.LoanStep.TheVariants.{Disburse as PayOut};
ghost use Rattle.mf_model.specs.declared.request.Posting.TheVariants.{Penalty};
ghost use Rattle.mf_model.specs.declared.request.Request.TheVariants.{Loan};
ghost use Rattle.mf_wire_requests.specs.Requests.{request_of};
ghost use Rattle.mf_lists.specs.Rate.{is_borne, least_daily_rate, most_daily_rate, yearly_rate};
ghost use Rattle.mf_lists.specs.WorkedPreview.{worked_catalogue, worked_loan};
ghost use Rattle.mf_lists.specs.WorkedTakings.{first_repayment, lines_of_the_day, lines_taken, loan_of_branch};
ghost use Rattle.mf_lists.specs.WorkedTakings.{loan_with, moved_way, movements_of_the_day, repaying, taken};
ghost use Rattle.mf_lists.specs.WorkedTakings.{takings_of_head, takings_of_manager, takings_of_teller};
ghost use Rattle.mf_lists.specs.WorkedRates.{pay_out_day, quarter, year_of_twelve, in_a_year, one_cent};

/// What was handed over bears the instalments at the daily rate that is found, and at no lower one.
pub fn the_daily_rate_is_the_least_that_bears()
    ensures bears { (handed day : ℕ) (rows : List FreshInstalment) → is_borne handed day rows most_daily_rate ≡ true →
        is_borne handed day rows (least_daily_rate handed day rows) ≡ true }
    ensures least { (handed day : ℕ) (rows : List FreshInstalment) (rate : ℕ) → is_borne handed day rows rate ≡ true →
        least_daily_rate handed day rows ≤ rate }
{}

/// A higher fee, by which less is handed over, never lowers the yearly rate.
pub fn a_higher_fee_never_lowers_the_rate()
    ensures { (more less day : ℕ) (rows : List FreshInstalment) → less ≤ more →
        MatchOption (yearly_rate more day rows) (yearly_rate less day rows ≡ None)
        (λ low. IfSome (yearly_rate less day rows) (λ high. low ≤ high)) }
{}

/// Where there is neither interest nor a fee, so that no more is asked than was handed over, the rate is 0.
pub fn without_interest_and_fees_the_rate_is_nothing()
    ensures { (handed day : ℕ) (rows : List FreshInstalment) → total_owed rows ≤ handed →
        yearly_rate handed day rows ≡ Some 0 }
{}

/// Where nothing is handed over and something is asked, there is no rate.
pub fn for_nothing_there_is_no_rate()
    ensures { (day : ℕ) (rows : List FreshInstalment) → 1 ≤ total_owed rows → yearly_rate 0 day rows ≡ None }
{}

/// Rates that a second program worked out, by the definition and by the formula of the directive: 1,000.00 by equal
/// principal at 12 percent over three months, without a fee and with 15.00 kept; 1,200.00 flat at 12 percent over
/// twelve months, without a fee and with 24.00 kept; 1,000.00 for which 1,100.00 is paid after a year; and a cent for a
/// cent.
pub fn worked_rates()
    ensures quarter { yearly_rate 100000 pay_out_day quarter ≡ Some 1295 }
    ensures quarter_with_fee { yearly_rate 98500 pay_out_day quarter ≡ Some 2398 }
    ensures year { yearly_rate 120000 pay_out_day year_of_twelve ≡ Some 2376 }
    ensures year_with_fee { yearly_rate 117600 pay_out_day year_of_twelve ≡ Some 2865 }
    ensures in_a_year { yearly_rate 100000 pay_out_day in_a_year ≡ Some 1000 }
    ensures one_cent { yearly_rate 1 pay_out_day one_cent ≡ Some 0 }
{}

/// A preview is refused exactly as submitting is, for a client that is there: with the same refusal, and where it is
/// shown, submitting makes the loan or has no room for it.
pub fn a_preview_is_refused_as_submitting_is()
    ensures refused { (k : Catalogue) (rows : Rows) (office day : ℕ) (asked : Application) (name : List ℕ)
        (fault : Fault) → item_numbered rows.clients asked.client ≡ Some name →
        preview_in k asked.product asked.principal asked.periods day ≡ Err fault →
        submit office asked k rows ≡ Err fault }
    ensures shown { (k : Catalogue) (rows : Rows) (office day : ℕ) (asked : Application) (name : List ℕ)
        (shown : LoanPreview) → item_numbered rows.clients asked.client ≡ Some name →
        preview_in k asked.product asked.principal asked.periods day ≡ Ok shown →
        submit office asked k rows ≡ make_loan office asked rows }
{}

/// Whoever holds the charges that a product names, as the catalogue has them, shows the catalogue's preview.
pub fn named_charges_are_enough_for_a_preview()
    ensures { (k : Catalogue) (charges : List ChargeDef) (number principal n day : ℕ) (p : Product) →
        product_in k number ≡ Some p →
        charge_of (charge_at charges) p.members.disbursement_charge
        ≡ charge_of (charge_in k) p.members.disbursement_charge →
        charge_of (charge_at charges) p.members.instalment_charge
        ≡ charge_of (charge_in k) p.members.instalment_charge →
        charge_of (charge_at charges) p.members.overdue_charge ≡ charge_of (charge_in k) p.members.overdue_charge →
        preview_of (charge_at charges) p principal n day ≡ preview_in k number principal n day }
{}

/// A loan that is paid out on a day, before anything is entered, has the instalments and the fee that its preview
/// showed.
pub fn paying_out_gives_what_was_shown()
    ensures instalments { (k : Catalogue) (l : Ledger) (approved day : ℕ) (shown : LoanPreview) →
        l.loan.stage ≡ Disbursed approved day → l.entries ≡ [] →
        preview_in k l.loan.product l.loan.principal l.loan.periods day ≡ Ok shown →
        instalments_in k l ≡ instalments_from 1 (map row_of shown.instalments) }
    ensures kept { (k : Catalogue) (l : Ledger) (approved day : ℕ) (shown : LoanPreview) →
        l.loan.stage ≡ Disbursed approved day → l.entries ≡ [] →
        preview_in k l.loan.product l.loan.principal l.loan.periods day ≡ Ok shown →
        (balances_in k l).disbursement_fee ≡ shown.kept }
{}

/// A preview that a second program worked out, and each refusal.
pub fn worked_preview()
    ensures shown { preview_in worked_catalogue 1 100000 3 pay_out_day ≡ Ok worked_loan }
    ensures missing { preview_in worked_catalogue 3 100000 3 pay_out_day ≡ Err F4 }
    ensures none { preview_in worked_catalogue 0 100000 3 pay_out_day ≡ Err F4 }
    ensures retired { preview_in worked_catalogue 2 9999 3 pay_out_day ≡ Err F7 }
    ensures little { preview_in worked_catalogue 1 9999 3 pay_out_day ≡ Err F8 }
    ensures long { preview_in worked_catalogue 1 100000 25 pay_out_day ≡ Err F8 }
{}

/// A list is read off what the office of whoever asks sees, and the lines of the journal that name an office there:
/// what lies elsewhere changes nothing, and an office that isn't seen is missing.
pub fn lists_are_read_off_the_view()
    ensures view { (folded : List ℕ → List ℕ) (asked : ListAsked) (o x : ℕ) (i : Institution) →
        list_seen folded asked o x (view_with_lines o i) ≡ list_seen folded asked o x i }
    ensures alike { (folded : List ℕ → List ℕ) (asked : ListAsked) (o x : ℕ) (i j : Institution) →
        view_with_lines o i ≡ view_with_lines o j → list_seen folded asked o x i ≡ list_seen folded asked o x j }
    ensures unseen { (folded : List ℕ → List ℕ) (asked : ListAsked) (o x : ℕ) (i : Institution) →
        is_at_or_below (parent_of i.offices) x o ≡ false → list_seen folded asked o x i ≡ Err F4 }
{}

/// What a caller is told is read off what their office sees, and the lines that name what it sees. A caller who isn't
/// there is F2. To one who is, an office that isn't seen is F4, whether it is there or not.
pub fn an_answer_is_read_off_the_view()
    ensures view { (folded : List ℕ → List ℕ) (c : Caller) (request : ListRequest) (i : Institution) →
        list_reply folded c request (view_with_lines c.office i) ≡ list_reply folded c request i }
    ensures alike { (folded : List ℕ → List ℕ) (c : Caller) (request : ListRequest) (i j : Institution) →
        view_with_lines c.office i ≡ view_with_lines c.office j →
        list_reply folded c request i ≡ list_reply folded c request j }
    ensures nobody { (folded : List ℕ → List ℕ) (c : Caller) (request : ListRequest) (i : Institution) →
        staff_at i c ≡ None → list_reply folded c request i ≡ Err F2 }
    ensures unseen { (folded : List ℕ → List ℕ) (c : Caller) (s : Staff) (x : ℕ) (asked : ListAsked)
        (i : Institution) → staff_at i c ≡ Some s → is_at_or_below (parent_of i.offices) x c.office ≡ false →
        list_reply folded c (OfOffice x asked) i ≡ Err F4 }
{}

/// Pages that follow one another, each after the last number of the one before it, give the whole list, each line once
/// and in order: so many pages of 500 or 200 lines give up to so many times 500 or 200 lines.
pub fn pages_give_the_whole()
    ensures clients { (k : Catalogue) (rows : Rows) (turns : ℕ) → length (clients_of k rows) ≤ 500 * turns →
        pages (λ (c : ClientLine). c.number) (λ after. clients_after after k rows) turns 0 ≡ clients_of k rows }
    ensures due { (k : Catalogue) (rows : Rows) (day turns : ℕ) → length (due_lines day k rows) ≤ 200 * turns →
        pages (λ (d : DueLine). d.loan) (λ after. due_after day after k rows) turns 0 ≡ due_lines day k rows }
    ensures stages { (k : Catalogue) (rows : Rows) (status turns : ℕ) →
        length (stage_lines status k rows) ≤ 200 * turns →
        pages (λ (s : StageLine). s.loan) (λ after. stages_after status after k rows) turns 0
        ≡ stage_lines status k rows }
{}

/// What is told to be due of a loan fell due by the day, and is no more than what is left to pay.
pub fn what_is_due_is_due_by_the_day()
    ensures { (k : Catalogue) (rows : Rows) (day : ℕ) →
        AllByRecursion (λ (d : DueLine). (d.oldest ≤ day) × (sum d.due ≤ d.left)) (due_lines day k rows) }
{}

/// The counts of a sound office's clients come to those of its loans.
pub fn counts_by_client_add_up()
    ensures waiting { (k : Catalogue) (staffed : Caller → Bool) (rows : Rows) → IsSoundRows k staffed rows →
        sum_by (λ (c : ClientLine). c.waiting) (clients_of k rows) ≡ count_by (is_waiting k) rows.loans }
    ensures active { (k : Catalogue) (staffed : Caller → Bool) (rows : Rows) → IsSoundRows k staffed rows →
        sum_by (λ (c : ClientLine). c.active) (clients_of k rows) ≡ count_by (is_active k) rows.loans }
    ensures overdue { (k : Catalogue) (staffed : Caller → Bool) (rows : Rows) → IsSoundRows k staffed rows →
        sum_by (λ (c : ClientLine). c.overdue) (clients_of k rows) ≡ count_by (is_overdue k) rows.loans }
{}

/// A text has a part exactly where the part stands somewhere in it.
pub fn a_part_stands_where_it_is_found()
    ensures found { (before part rest : List ℕ) → has_part part (before ++ (part ++ rest)) ≡ true }
    ensures stands { (part text : List ℕ) → has_part part text ≡ true →
        (before : List ℕ) × ((rest : List ℕ) × (text ≡ before ++ (part ++ rest))) }
{}

/// What callers are told who ask the small institution: its teller the list of the staff, and what a loan would be; F4
/// of an office above theirs and of one that isn't there; F2 where there is no such member of staff.
pub fn worked_answers()
    ensures staff { list_reply (λ text. text) teller (OfOffice 2 StaffOf) small
        ≡ Ok (Listed 2 (StaffLines zola_and_yemi)) }
    ensures above { list_reply (λ text. text) teller (OfOffice 1 StaffOf) small ≡ Err F4 }
    ensures beside { list_reply (λ text. text) teller (OfOffice 3 StaffOf) small ≡ Err F4 }
    ensures missing { list_reply (λ text. text) teller (OfOffice 4 StaffOf) small ≡ Err F4 }
    ensures nobody { list_reply (λ text. text) nobody (OfOffice 2 StaffOf) small ≡ Err F2 }
    ensures preview { list_reply (λ text. text) teller (Preview 1 100000 3 pay_out_day) small
        ≡ Ok (Previewed worked_loan) }
    ensures retired { list_reply (λ text. text) teller (Preview 2 9999 3 pay_out_day) small ≡ Err F7 }
    ensures nobody_asks { list_reply (λ text. text) nobody (Preview 1 100000 3 pay_out_day) small ≡ Err F2 }
{}

/// Each list of a small institution, worked out by hand; names are folded by nothing.
pub fn worked_lists()
    ensures clients { list_seen (λ text. text) (Clients 0) 1 2 small ≡ Ok (ClientLines (amina ∷ binta ∷ chidi ∷ [])) }
    ensures after { list_seen (λ text. text) (Clients 1) 2 2 small ≡ Ok (ClientLines (binta ∷ chidi ∷ [])) }
    ensures beside { list_seen (λ text. text) (Clients 0) 3 2 small ≡ Err F4 }
    ensures empty { list_seen (λ text. text) (Clients 0) 1 3 small ≡ Ok (ClientLines []) }
    ensures loans { list_seen (λ text. text) (LoansOf 1) 1 2 small ≡ Ok (ClientLoans loans_of_amina) }
    ensures nobody { list_seen (λ text. text) (LoansOf 4) 1 2 small ≡ Err F4 }
    ensures due { list_seen (λ text. text) (DueBy worked_day 0) 1 2 small ≡ Ok (DueLines (due_of_amina ∷ [])) }
    ensures early { list_seen (λ text. text) (DueBy (first_due - 1) 0) 1 2 small ≡ Ok (DueLines []) }
    ensures later { list_seen (λ text. text) (DueBy second_due 0) 1 2 small
        ≡ Ok (DueLines (later_of_amina ∷ later_of_binta ∷ [])) }
    ensures later_after { list_seen (λ text. text) (DueBy second_due 2) 1 2 small
        ≡ Ok (DueLines (later_of_binta ∷ [])) }
    ensures active { list_seen (λ text. text) (AtStatus 300 0) 1 2 small ≡ Ok (StageLines
        (stage_of 2 1 (codes "Amina") (Some pay_out_day) ∷ stage_of 3 2 (codes "Binta") (Some pay_out_day) ∷ [])) }
    ensures submitted { list_seen (λ text. text) (AtStatus 100 0) 1 2 small ≡ Ok (StageLines
        (stage_of 1 1 (codes "Amina") None ∷ [])) }
    ensures approved { list_seen (λ text. text) (AtStatus 200 4) 1 2 small ≡ Ok (StageLines
        (stage_of 5 3 (codes "Chidi") (Some worked_day) ∷ [])) }
    ensures staff { list_seen (λ text. text) StaffOf 1 2 small ≡ Ok (StaffLines zola_and_yemi) }
    ensures find { list_seen (λ text. text) (Find (codes "in")) 1 2 small ≡ Ok (ClientLines (amina ∷ binta ∷ [])) }
    ensures find_number { list_seen (λ text. text) (Find (codes "0002-000003")) 1 2 small
        ≡ Ok (ClientLines (binta ∷ chidi ∷ [])) }
    ensures find_loan { list_seen (λ text. text) (Find (codes "0002-000005")) 1 2 small
        ≡ Ok (ClientLines (chidi ∷ [])) }
{}

/// What the small institution's journal tells, worked out by hand: of Amina's loan and of office 2, to somebody there
/// and to the head, after a place, and of an office that it doesn't name. F4 to somebody beside, of a loan that isn't
/// there, and where no journal is kept.
pub fn worked_changes()
    ensures loan { list_seen (λ text. text) (ChangesOf 1) 2 2 noted
        ≡ Ok (ChangeLines (submitted ∷ approved_at 2 ∷ [])) }
    ensures office { list_seen (λ text. text) (Changes 0) 1 2 noted
        ≡ Ok (ChangeLines (submitted ∷ entered ∷ approved_at 3 ∷ [])) }
    ensures after { list_seen (λ text. text) (Changes 2) 2 2 noted ≡ Ok (ChangeLines (approved_at 3 ∷ [])) }
    ensures none { list_seen (λ text. text) (Changes 0) 1 1 noted ≡ Ok (ChangeLines []) }
    ensures beside { list_seen (λ text. text) (Changes 0) 3 2 noted ≡ Err F4 }
    ensures missing { list_seen (λ text. text) (ChangesOf 6) 2 2 noted ≡ Err F4 }
    ensures no_journal { list_seen (λ text. text) (Changes 0) 2 2 small ≡ Err F4 }
{}

/// Takings, worked out by hand: which lines of the small institution's journal are of office 2 and of a day; what a
/// line's text asks; what requests on its loans move, and what nothing moves; a fee above the principal, which comes
/// in, and a refund; and what is told of movements by who sent them, in the order of their first. F4 to somebody
/// beside, and where no journal is kept.
pub fn worked_takings()
    ensures of_day { filter (is_of_day 2 worked_day) lines_taken ≡ lines_of_the_day }
    ensures asked { request_of (codes "POST") (repaying worked_day).path (repaying worked_day).body
        ≡ Loan (record { office = 2; number = 3 }) (Repay first_repayment) }
    ensures repaid { movement_on (Repay first_repayment) small.catalogue None ≡ Some (moved_way PaidIn 34505) }
    ensures paid_out { movement_on (Take (PayOut pay_out_day)) small.catalogue (loan_of_branch 2)
        ≡ Some (moved_way PaidOut 98500) }
    ensures reversed { movement_on (Reverse 2) small.catalogue (loan_of_branch 3) ≡ Some (moved_way InReversed 34505) }
    ensures no_entry { movement_on (Reverse 3) small.catalogue (loan_of_branch 3) ≡ None }
    ensures penalty { movement_on (Post (Penalty 1)) small.catalogue (loan_of_branch 3) ≡ None }
    ensures all_kept { handed_over (loan_with 1000 1500 0 0) ≡ moved_way PaidIn 500 }
    ensures refunded { given_back (loan_with 100000 0 0 2500) ≡ moved_way PaidOut 2500 }
    ensures overpaid_again { refund_reversed (loan_with 100000 0 2500 0) ≡ moved_way OutReversed 2500 }
    ensures by_person { takings_of movements_of_the_day
        ≡ takings_of_teller ∷ takings_of_manager ∷ takings_of_head ∷ [] }
    ensures none { list_seen (λ text. text) (TakingsOn 8842) 2 2 taken ≡ Ok (TakingLines []) }
    ensures beside { list_seen (λ text. text) (TakingsOn worked_day) 3 2 taken ≡ Err F4 }
    ensures no_journal { list_seen (λ text. text) (TakingsOn worked_day) 2 2 small ≡ Err F4 }
{}
