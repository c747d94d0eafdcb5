//! Laws of a loan's entries over whole runs. Each function does nothing: its contract is the law.

ghost use Rattle.std.specs.Prelude.{◌≡◌, [], ◌∷◌, ◌++◌, List, Some, map};
ghost use Rattle.mf_office.specs.declared.account.Account.{Account};
ghost use Rattle.mf_model.specs.Accounts.{statement, instalments_in, entries_in};
ghost use Rattle.mf_model.specs.Institution.{Institution, Ledger, newly_made};
ghost use Rattle.mf_model.specs.Run.{Line, last};
ghost use Rattle.mf_model.specs.Store.{ledger_at};
ghost use Rattle.mf_model.specs.WorkedAccounts.{january};
ghost use Rattle.mf_model.specs.WorkedEntries.{reversing};
ghost use Rattle.mf_model.specs.WorkedRows.{account};
ghost use Rattle.mf_histories.specs.Histories.{added_by, deeds, entries_of_loan, reversed, with_marks};

/// The entries of a loan after any run are those that it had before, followed by those that the accepted requests on it
/// added, with the marks of the entries that the accepted requests on it reversed. A loan that is submitted in the run
/// begins with none.
///
/// So each balance, instalment and entry that is shown of it afterwards is read off these entries, and two runs whose
/// accepted requests did the same to a loan with the same entries leave it with the same.
pub fn entries_over_runs()
    ensures entries { (i : Institution) (run : List Line) (loan : Account) →
        entries_of_loan loan (last run i)
        ≡ with_marks (reversed (deeds loan run i)) (entries_of_loan loan i ++ added_by (deeds loan run i)) }
    ensures shown { (i : Institution) (run : List Line) (loan : Account) (ledger : Ledger) →
        ledger_at loan (last run i) ≡ Some ledger →
        let k = (last run i).catalogue in
        let replayed : Ledger = record ledger {
          entries = with_marks (reversed (deeds loan run i)) (entries_of_loan loan i ++ added_by (deeds loan run i));
        } in
        (statement k ledger ≡ statement k replayed) × (instalments_in k ledger ≡ instalments_in k replayed)
        × (entries_in k ledger ≡ entries_in k replayed) }
    ensures alike { (i j : Institution) (run other : List Line) (loan : Account) →
        entries_of_loan loan i ≡ entries_of_loan loan j → deeds loan run i ≡ deeds loan other j →
        entries_of_loan loan (last run i) ≡ entries_of_loan loan (last other j) }
{}

/// Worked out: a loan is repaid twice, and the first repayment is reversed; requests to reverse it again and to reverse
/// what is not there are refused. These add two entries and reverse one, and do nothing to another loan.
pub fn worked_deeds()
    ensures added { map (λ entry. entry.amount)
        (added_by (deeds (account 1 1) (map (λ row. row.0) reversing) (newly_made january))) ≡ 20000 ∷ 50000 ∷ [] }
    ensures reversed { reversed
        (deeds (account 1 1) (map (λ row. row.0) reversing) (newly_made january)) ≡ 1 ∷ [] }
    ensures other_loan { deeds (account 1 2) (map (λ row. row.0) reversing) (newly_made january) ≡ [] }
{}
