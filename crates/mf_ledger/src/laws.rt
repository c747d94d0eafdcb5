//! What holds of the books, whatever is asked. Each function does nothing: its contract is the law that the sentence
//! above it tells.

ghost use Rattle.std.specs.Prelude.{◌≡◌, ◌≤◌, ◌<◌, ◌+◌, ◌++◌, ◌∷◌, ℕ, pos, ◌+ℤ◌, ◌-ℤ◌, neg_ℤ, List, [], codes};
ghost use Rattle.std.specs.Prelude.{length, map, filter, sum, sum_by, slice_index};
ghost use Rattle.std.specs.List.{AllByRecursion, flat_map};
ghost use Rattle.csv.specs.Reading.{default_config, records};
ghost use Rattle.mf_alloc.specs.Sums.{Instalment};
ghost use Rattle.mf_account.specs.Balance.{sum_repaid, open_in};
ghost use Rattle.mf_model.specs.Accounts.{balances_in};
ghost use Rattle.mf_model.specs.Institution.{Institution, Catalogue, Ledger, Office, newly_made};
ghost use Rattle.mf_model.specs.Run.{Line, answers, last};
ghost use Rattle.mf_model.specs.Sound.{IsSound, AreInRange};
ghost use Rattle.mf_model.specs.Tree.{IsTree};
ghost use Rattle.mf_statement.specs.WorkedRows.{january, march};
ghost use Rattle.mf_journal.specs.Journal.{writes_of};
ghost use Rattle.mf_ledger.specs.declared.basis.Basis.{Basis};
ghost use Rattle.mf_ledger.specs.declared.basis.Basis.TheVariants as basis;
ghost use Rattle.mf_ledger.specs.declared.books.Posting.{Posting};
ghost use Rattle.mf_ledger.specs.declared.books.Title.{Title};
ghost use Rattle.mf_ledger.specs.declared.books.Title.TheVariants.{Cash, Principal, Interest, Fees, Penalties};
ghost use Rattle.mf_ledger.specs.declared.books.Title.TheVariants.{DisbursementFees, Overpaid, WrittenOff};
ghost use Rattle.mf_ledger.specs.declared.books.Transaction.{Transaction};
ghost use Rattle.mf_ledger.specs.declared.names.GivenName.{GivenName};
ghost use Rattle.mf_ledger.specs.declared.names.Program.TheVariants.{Hledger, Beancount};
ghost use Rattle.mf_ledger.specs.declared.occasion.Occasion.{Occasion};
ghost use Rattle.mf_ledger.specs.Accrual.{accrued, accrued_in, office_accrued, due_open, adjustments};
ghost use Rattle.mf_ledger.specs.Accrual.{receivable_of, waived_of, written_off_of, income_of};
ghost use Rattle.mf_ledger.specs.Adjusting.{opened, openings, standing};
ghost use Rattle.mf_ledger.specs.Basis.{booked};
ghost use Rattle.mf_ledger.specs.Books.{signed_sum, some_moves, titles, lent_on};
ghost use Rattle.mf_ledger.specs.Runs.{Selection, everything, balance, office_balance, transactions, posted};
ghost use Rattle.mf_ledger.specs.Runs.{posted_in_all, posted_by, between, at_end_of};
ghost use Rattle.mf_ledger.specs.Names.{name_of};
ghost use Rattle.mf_ledger.specs.Opening.{opening_postings};
ghost use Rattle.mf_ledger.specs.Sheet.{columns, sheet_text, transaction_rows, opening_rows, fields_of};
ghost use Rattle.mf_ledger.specs.Sheet.{IsOccasion, IsWritten};
ghost use Rattle.mf_ledger.specs.Text.{preamble, transaction_text, opening_text};
ghost use Rattle.mf_ledger.specs.WorkedBooks.{worked_days, worked_transactions, worked_opening, worked_adjustments};
ghost use Rattle.mf_ledger.specs.WorkedOpenings.{worked_until_waived, worked_waived_openings};
ghost use Rattle.mf_ledger.specs.WorkedOpenings.{worked_repaid_openings, accrual_opening_lines};
ghost use Rattle.mf_ledger.specs.WorkedTexts.{journal_of, sheet_of, till_names, chart_names, hledger_lines};
ghost use Rattle.mf_ledger.specs.WorkedTexts.{beancount_lines, csv_lines, opening_lines};

/// Whatever requests come, the postings of each transaction come to 0: what is debited is credited.
pub fn each_transaction_comes_to_nothing()
    ensures { (i : Institution) (lines : List Line) (n : ℕ) → IsSound i → AreInRange lines →
        AllByRecursion (λ (t : Transaction). posted_in_all t ≡ pos 0) (transactions n lines i) }
{}

/// Of any offices and products, what stands on all accounts of a sound institution comes to 0.
pub fn all_accounts_come_to_nothing()
    ensures { (i : Institution) (meant : Selection) → IsSound i →
        signed_sum (λ title. balance title meant i) titles ≡ pos 0 }
{}

/// Whatever requests come, what an institution has on an account of the books is what it had there, and all that was
/// posted there since: for each title, and for any offices and products. A new institution has nothing on any account,
/// so the postings from the founding on come to its balances.
pub fn postings_come_to_the_balances()
    ensures since { (i : Institution) (lines : List Line) (n : ℕ) (title : Title) (meant : Selection) →
        IsSound i → AreInRange lines →
        balance title meant (last lines i) ≡ balance title meant i +ℤ posted title meant (transactions n lines i) }
    ensures founding { (day : ℕ) (title : Title) (meant : Selection) → balance title meant (newly_made day) ≡ pos 0 }
{}

/// The postings of all business days up to one come to what the institution had on each account at the end of that day.
pub fn postings_up_to_a_day_come_to_its_balances()
    ensures { (i : Institution) (lines : List Line) (n day : ℕ) (title : Title) (meant : Selection) →
        IsSound i → AreInRange lines →
        balance title meant (at_end_of day lines i)
        ≡ balance title meant i +ℤ posted title meant (between 0 day (transactions n lines i)) }
{}

/// The opening postings of a sound institution have what stands on each account, and come to 0. With the postings of
/// all business days up to one they come to what the institution had on each account at the end of that day. So books
/// that begin with an opening go on as if they had been there from the founding on.
pub fn books_begin_with_an_opening()
    ensures opening { (i : Institution) (title : Title) (meant : Selection) → IsSound i →
        signed_sum (posted_by title meant) (opening_postings i) ≡ balance title meant i }
    ensures nothing { (i : Institution) → IsSound i →
        signed_sum (λ (p : Posting). p.amount) (opening_postings i) ≡ pos 0 }
    ensures day_end { (i : Institution) (lines : List Line) (n day : ℕ) (title : Title) (meant : Selection) →
        IsSound i → AreInRange lines →
        balance title meant (at_end_of day lines i)
        ≡ signed_sum (posted_by title meant) (opening_postings i)
        +ℤ posted title meant (between 0 day (transactions n lines i)) }
{}

/// Two spans of days that meet come to the whole.
pub fn spans_that_meet_come_to_the_whole()
    ensures { (transactions : List Transaction) (first middle last : ℕ) (title : Title) (meant : Selection) →
        first ≤ middle → middle ≤ last →
        posted title meant (between first last transactions)
        ≡ posted title meant (between first middle transactions)
        +ℤ posted title meant (between (middle + 1) last transactions) }
{}

/// A closed day never moves: whatever requests come later, whichever day they name and whatever they take back, each
/// transaction stays as it was, and those that are added are dated no earlier than the business day on which they come.
pub fn closed_days_never_move()
    ensures kept { (i : Institution) (lines more : List Line) (n : ℕ) →
        transactions n (lines ++ more) i
        ≡ transactions n lines i ++ transactions (n + length (writes_of lines i)) more (last lines i) }
    ensures dated { (i : Institution) (lines : List Line) (n : ℕ) → IsTree i.offices →
        AllByRecursion (λ (t : Transaction). i.catalogue.day ≤ t.day) (transactions n lines i) }
{}

/// What an office has on its accounts is what an audit adds up of its loans: principal outstanding, principal written
/// off and what is overpaid. What was paid besides principal is income. And cash with the fees that were kept at
/// disbursement is what was repaid, less what was lent and refunded.
pub fn books_tie_to_an_audit()
    ensures outstanding { (k : Catalogue) (office : Office) →
        office_balance Principal everything k office
        ≡ pos (sum_by (λ (l : Ledger). slice_index (balances_in k l).outstanding 3) office.rows.loans) }
    ensures written_off { (k : Catalogue) (office : Office) →
        office_balance WrittenOff everything k office
        ≡ pos (sum_by (λ (l : Ledger). slice_index (balances_in k l).written_off 3) office.rows.loans) }
    ensures overpaid { (k : Catalogue) (office : Office) →
        office_balance Overpaid everything k office
        ≡ neg_ℤ (pos (sum_by (λ (l : Ledger). (balances_in k l).overpaid) office.rows.loans)) }
    ensures paid { (k : Catalogue) (office : Office) →
        (office_balance Interest everything k office +ℤ office_balance Fees everything k office)
        +ℤ office_balance Penalties everything k office
        ≡ pos (sum_by (λ (l : Ledger). slice_index (balances_in k l).paid 3) office.rows.loans)
        -ℤ pos (sum_by (λ (l : Ledger). sum (balances_in k l).paid) office.rows.loans) }
    ensures cash { (k : Catalogue) (office : Office) →
        office_balance Cash everything k office +ℤ office_balance DisbursementFees everything k office
        ≡ pos (sum_by (λ (l : Ledger). sum_repaid l.entries) office.rows.loans)
        -ℤ (pos (sum_by (lent_on k) office.rows.loans)
        +ℤ pos (sum_by (λ (l : Ledger). (balances_in k l).refunded) office.rows.loans)) }
{}

/// On an accrual basis: each adjusting transaction comes to 0, and what accrual adds to an account, over any offices
/// and products, is exactly what it added there and all that was adjusted since, by requests and by the days that
/// passed. A new institution has nothing adjusted. Later requests leave each adjusting transaction as it was, and those
/// that they add are dated no earlier than the business day on which they come. That spans which meet come to the whole
/// is said of any transactions.
pub fn adjustments_come_to_the_accruals()
    ensures nothing { (i : Institution) (lines : List Line) (n : ℕ) →
        AllByRecursion (λ (t : Transaction). posted_in_all t ≡ pos 0) (adjustments n lines i) }
    ensures since { (i : Institution) (lines : List Line) (n : ℕ) (title : Title) (meant : Selection) →
        IsSound i → AreInRange lines →
        accrued title meant (last lines i).catalogue.day (last lines i)
        ≡ accrued title meant i.catalogue.day i +ℤ posted title meant (adjustments n lines i) }
    ensures founding { (day : ℕ) (title : Title) (meant : Selection) →
        accrued title meant day (newly_made day) ≡ pos 0 }
    ensures kept { (i : Institution) (lines more : List Line) (n : ℕ) →
        adjustments n (lines ++ more) i
        ≡ adjustments n lines i ++ adjustments (n + length (writes_of lines i)) more (last lines i) }
    ensures dated { (i : Institution) (lines : List Line) (n : ℕ) → IsTree i.offices →
        AllByRecursion (λ (t : Transaction). i.catalogue.day ≤ t.day) (adjustments n lines i) }
{}

/// Books on a cash basis have the transactions of a run alone. On an accrual basis they have the adjusting ones beside
/// them: in any span of days they move on each account what both move there. On either basis each transaction is dated
/// no earlier than the business day on which its line comes.
pub fn books_on_either_basis()
    ensures cash { (i : Institution) (lines : List Line) (n : ℕ)
        → booked basis.Cash n lines i ≡ transactions n lines i }
    ensures accrual { (i : Institution) (lines : List Line) (n first last : ℕ) (title : Title) (meant : Selection) →
        posted title meant (between first last (booked basis.Accrual n lines i))
        ≡ posted title meant (between first last (transactions n lines i))
        +ℤ posted title meant (between first last (adjustments n lines i)) }
    ensures dated { (kept_on : Basis) (i : Institution) (lines : List Line) (n : ℕ) → IsTree i.offices →
        AllByRecursion (λ (t : Transaction). i.catalogue.day ≤ t.day) (booked kept_on n lines i) }
{}

/// What is receivable of a portion is what is outstanding of it in the instalments that fell due: at most what is
/// outstanding, and all of that once each instalment fell due. By office, what accrual adds is the sum of what its
/// loans have outstanding of what fell due, waived and written off, and with what was paid it is the income.
pub fn accruals_tie_to_the_loans()
    ensures at_most { (day p : ℕ) (rows : List Instalment) → due_open day rows p ≤ open_in p rows }
    ensures all_due { (day p : ℕ) (rows : List Instalment) → AllByRecursion (λ (row : Instalment). row.due ≤ day) rows →
        due_open day rows p ≡ open_in p rows }
    ensures receivable { (day p : ℕ) (k : Catalogue) (office : Office) → p < 3 →
        office_accrued (receivable_of p) everything day k office
        ≡ pos (sum_by (λ (l : Ledger). slice_index (accrued_in day k l).due p) office.rows.loans) }
    ensures waived { (day p : ℕ) (k : Catalogue) (office : Office) → p < 3 →
        office_accrued (waived_of p) everything day k office
        ≡ pos (sum_by (λ (l : Ledger). slice_index (balances_in k l).waived p) office.rows.loans) }
    ensures written_off { (day p : ℕ) (k : Catalogue) (office : Office) → p < 3 →
        office_accrued (written_off_of p) everything day k office
        ≡ pos (sum_by (λ (l : Ledger). slice_index (balances_in k l).written_off p) office.rows.loans) }
    ensures paid { (day p : ℕ) (k : Catalogue) (office : Office) → p < 3 →
        ((office_balance (income_of p) everything k office +ℤ office_accrued (income_of p) everything day k office)
        +ℤ office_accrued (receivable_of p) everything day k office)
        +ℤ (office_accrued (waived_of p) everything day k office
        +ℤ office_accrued (written_off_of p) everything day k office)
        ≡ neg_ℤ (pos (sum_by (λ (l : Ledger). slice_index (balances_in k l).paid p) office.rows.loans)) }
{}

/// A reader of comma-separated values by RFC 4180 reads from a sheet of any transactions, by whatever names, each row
/// as it was written.
pub fn sheets_are_read_back()
    ensures { (names : List GivenName) (transactions : List Transaction) →
        records default_config (sheet_text (columns ∷ flat_map (transaction_rows names) transactions))
        ≡ columns ∷ flat_map (transaction_rows names) transactions }
{}

/// A row tells its posting: two postings with one row are of one day, one line of the journal and one loan, on accounts
/// of one name, and move one amount.
pub fn one_row_one_posting()
    ensures { (names : List GivenName) (o q : Occasion) (p r : Posting) → IsOccasion o → IsOccasion q →
        IsWritten p.amount → IsWritten r.amount → fields_of names o p ≡ fields_of names q r →
        (o ≡ q) × (name_of Hledger names p.account ≡ name_of Hledger names r.account) × (p.amount ≡ r.amount) }
{}

/// Worked out, line by line: a loan that is paid out with a fee kept, a waiver, a repayment that counts from an earlier
/// day and its reversal, a write-off and its reversal, an overpayment and its refund; the opening of books that begin
/// then, and what an accrual basis adds.
pub fn worked_books()
    ensures answers { answers (map (λ row. row.0) worked_days) (newly_made january) ≡ map (λ row. row.1) worked_days }
    ensures transactions { transactions 0 (map (λ row. row.0) worked_days) (newly_made january) ≡ worked_transactions }
    ensures cash { balance Cash everything (last (map (λ row. row.0) worked_days) (newly_made january)) ≡ pos 3333 }
    ensures opening { opening_postings (last (map (λ row. row.0) worked_days) (newly_made january)) ≡ worked_opening }
    ensures adjustments { filter (λ (t : Transaction). some_moves t.postings)
        (adjustments 0 (map (λ row. row.0) worked_days) (newly_made january)) ≡ worked_adjustments }
{}

/// The same as each program reads it, line by line: for hledger, for beancount and as a sheet, these two by names of a
/// chart; and the opening of books that begin after it. In the file of names the more exact name and the first line are
/// taken, and a line without `=` gives none.
pub fn worked_texts()
    ensures hledger { preamble Hledger ++ flat_map (transaction_text Hledger []) worked_transactions
        ≡ journal_of hledger_lines }
    ensures beancount { preamble Beancount ++ flat_map (transaction_text Beancount till_names) worked_transactions
        ≡ journal_of beancount_lines }
    ensures sheet { sheet_text (columns ∷ flat_map (transaction_rows chart_names) worked_transactions)
        ≡ sheet_of csv_lines }
    ensures opening { opening_text Hledger [] march worked_opening ≡ journal_of opening_lines }
    ensures opening_sheet { sheet_text (opening_rows [] march worked_opening)
        ≡ sheet_of (codes "2024-03-31,0,,assets:cash:office-0001:product-001,33.33,"
        ∷ codes "2024-03-31,0,,income:interest:office-0001:product-001,,13.33"
        ∷ codes "2024-03-31,0,,income:disbursement-fees:office-0001:product-001,,20.00" ∷ []) }
{}

/// Books that are kept from a day on, on either basis, begin with opening transactions that have what stands on each
/// account at the end of that business day, over any offices and products. Each of them comes to 0. With the
/// transactions up to a later business day they come to what stands there at the end of it.
pub fn books_open_on_either_basis()
    ensures opening { (kept_on : Basis) (i : Institution) (title : Title) (meant : Selection) → IsSound i →
        opened kept_on title meant i ≡ standing kept_on title meant i.catalogue.day i }
    ensures nothing { (kept_on : Basis) (i : Institution) → IsSound i →
        AllByRecursion (λ (postings : List Posting). signed_sum (λ (p : Posting). p.amount) postings ≡ pos 0)
        (openings kept_on i) }
    ensures day_end { (kept_on : Basis) (i : Institution) (lines : List Line) (n day : ℕ) (title : Title)
        (meant : Selection) → IsSound i → AreInRange lines →
        i.catalogue.day ≤ day → day ≤ (last lines i).catalogue.day →
        standing kept_on title meant day (at_end_of day lines i)
        ≡ opened kept_on title meant i +ℤ posted title meant (between 0 day (booked kept_on n lines i)) }
{}

/// Worked out, line by line: what books on either basis open with once interest was waived, and once all was repaid.
pub fn worked_openings()
    ensures waived { openings basis.Accrual (last (map (λ row. row.0) worked_until_waived) (newly_made january))
        ≡ worked_waived_openings }
    ensures repaid { openings basis.Accrual (last (map (λ row. row.0) worked_days) (newly_made january))
        ≡ worked_repaid_openings }
    ensures cash { openings basis.Cash (last (map (λ row. row.0) worked_days) (newly_made january))
        ≡ worked_opening ∷ [] }
    ensures hledger { flat_map (opening_text Hledger [] march) worked_waived_openings
        ≡ journal_of accrual_opening_lines }
{}
