//! Laws of the definitions. Each function does nothing: its contract is the law.

ghost use Rattle.std.specs.Prelude.{◌≡◌, ◌==◌};
ghost use Rattle.std.specs.List.{list_any};
ghost use Rattle.mf_alloc.specs.Sums.{is_open};
ghost use Rattle.mf_account.specs.Loan.{DisbursedLoan, IsSoundDisbursed, state_of_loan, status_of_loan};
ghost use Rattle.mf_account.specs.StandingLaw.{StandingIsOne};
ghost use Rattle.mf_account.specs.ClearingLaw.{WritesOffByCells, WaivesOneCell};
ghost use Rattle.mf_account.specs.Rewind.{TailsCanBeRewound};
ghost use Rattle.mf_account.specs.BoundsLaw.{ChangesStayWithinBounds};
ghost use Rattle.mf_account.specs.OpenLaw.{OpenLoansHoldNoMoney};

/// The standing entries of a loan are the one list of exactly those not reversed that ascends by day, then by number.
pub fn standing_entries_are_one_list()
    ensures { StandingIsOne }
{}

/// The standing entries of a sound loan, from the place of any of them on, can be rewound by what they settle.
pub fn tails_can_be_rewound()
    ensures { TailsCanBeRewound }
{}

/// What an account comes to with an entry more, or with one reversed, stays within the bounds of what is kept, 10^18
/// cents, where the account is a replay's and the loan is sound with the change.
pub fn changes_stay_within_bounds()
    ensures { ChangesStayWithinBounds }
{}

/// A write-off moves all that is outstanding in each cell to what is written off, a waiver all that is outstanding in
/// its cell to what is waived, and neither changes anything else.
pub fn clearing_goes_by_cells()
    ensures write_off { WritesOffByCells }
    ensures waiver { WaivesOneCell }
{}

/// A loan has status 300 exactly where something is outstanding in one of its instalments: a write-off that stands is
/// its last standing entry, and leaves nothing outstanding.
pub fn active_loans_owe()
    ensures { (loan : DisbursedLoan) → IsSoundDisbursed loan → (status_of_loan loan == 300)
        ≡ list_any is_open (state_of_loan loan).rows }
{}

/// While something of a sound loan is outstanding, nothing is overpaid and nothing refunded: a refund that stands is
/// its last standing entry, and gave nothing back.
pub fn open_loans_hold_no_money()
    ensures { OpenLoansHoldNoMoney }
{}
