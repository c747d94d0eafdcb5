//! What rows come to: how many loans and entries there are of each kind, and sums of money in whole cents.

ghost use Rattle.std.specs.Prelude.{◌≡◌, IfSome, []};
ghost use Rattle.std.specs.Option.{SomeIff};
ghost use Rattle.std.specs.List.{AllByRecursion};
ghost use Rattle.mf_store_audit.specs.Sums.{loans_added, entries_added, principal_added, money_added, added};
ghost use Rattle.mf_store_audit.specs.Sums.{FitLoans, FitEntries, FitPrincipal, FitMoney, Fit, sums_of_all, IsBalanced};

/// How many loans have each status.
#[derive(Clone, Copy)]
pub struct LoanCounts {
    /// Status 100: applied for.
    pub submitted: u64,
    /// Status 200: approved, and not disbursed.
    pub approved: u64,
    /// Status 300: disbursed, and something is outstanding.
    pub active: u64,
    /// Status 400: withdrawn by its client.
    pub withdrawn: u64,
    /// Status 500: not approved.
    pub rejected: u64,
    /// Status 600: nothing is outstanding, and nothing is overpaid.
    pub closed: u64,
    /// Status 601: a write-off stands.
    pub written_off: u64,
    /// Status 700: nothing is outstanding, and something is overpaid.
    pub overpaid: u64,
}

impl LoanCounts {
    /// Two counts added, where 64 bits hold each number.
    fn plus(self, other: LoanCounts) -> Option<LoanCounts>
        ensures { SomeIff result (FitLoans (loans_added self other)) (loans_added self other) }
    {
        Some(LoanCounts {
            submitted: self.submitted.checked_add(other.submitted)?,
            approved: self.approved.checked_add(other.approved)?,
            active: self.active.checked_add(other.active)?,
            withdrawn: self.withdrawn.checked_add(other.withdrawn)?,
            rejected: self.rejected.checked_add(other.rejected)?,
            closed: self.closed.checked_add(other.closed)?,
            written_off: self.written_off.checked_add(other.written_off)?,
            overpaid: self.overpaid.checked_add(other.overpaid)?,
        })
    }
}

/// How many entries stand, and how many are reversed.
#[derive(Clone, Copy)]
pub struct EntryCounts {
    /// Those that count.
    pub standing: u64,
    /// Those that were taken back, and count no more.
    pub reversed: u64,
}

impl EntryCounts {
    /// Two counts added, where 64 bits hold each number.
    fn plus(self, other: EntryCounts) -> Option<EntryCounts>
        ensures { SomeIff result (FitEntries (entries_added self other)) (entries_added self other) }
    {
        Some(EntryCounts {
            standing: self.standing.checked_add(other.standing)?,
            reversed: self.reversed.checked_add(other.reversed)?,
        })
    }
}

/// Where the principal of loans is, in whole cents.
#[derive(Clone, Copy)]
pub struct PrincipalSums {
    /// All of it, of the loans that are disbursed.
    pub disbursed: u128,
    /// What of it is paid.
    pub paid: u128,
    /// What of it is written off.
    pub written_off: u128,
    /// What of it is still owed.
    pub outstanding: u128,
}

impl PrincipalSums {
    /// Two sums added, where 128 bits hold each.
    fn plus(self, other: PrincipalSums) -> Option<PrincipalSums>
        ensures { SomeIff result (FitPrincipal (principal_added self other)) (principal_added self other) }
    {
        Some(PrincipalSums {
            disbursed: self.disbursed.checked_add(other.disbursed)?,
            paid: self.paid.checked_add(other.paid)?,
            written_off: self.written_off.checked_add(other.written_off)?,
            outstanding: self.outstanding.checked_add(other.outstanding)?,
        })
    }
}

/// Where the money of repayments went, in whole cents.
#[derive(Clone, Copy)]
pub struct MoneySums {
    /// What the repayments that stand brought.
    pub repaid: u128,
    /// What of it paid penalties, fees, interest and principal.
    pub paid: u128,
    /// What of it is more than was owed, and is still held.
    pub overpaid: u128,
    /// What of it was more than was owed, and was given back.
    pub refunded: u128,
}

impl MoneySums {
    /// Two sums added, where 128 bits hold each.
    fn plus(self, other: MoneySums) -> Option<MoneySums>
        ensures { SomeIff result (FitMoney (money_added self other)) (money_added self other) }
    {
        Some(MoneySums {
            repaid: self.repaid.checked_add(other.repaid)?,
            paid: self.paid.checked_add(other.paid)?,
            overpaid: self.overpaid.checked_add(other.overpaid)?,
            refunded: self.refunded.checked_add(other.refunded)?,
        })
    }
}

/// What rows come to.
#[derive(Clone, Copy)]
pub struct Sums {
    /// How many clients there are.
    pub clients: u64,
    /// How many loans there are, by status.
    pub loans: LoanCounts,
    /// How many entries the loans have.
    pub entries: EntryCounts,
    /// Where the principal of the loans is.
    pub principal: PrincipalSums,
    /// Where the money of their repayments went.
    pub money: MoneySums,
}

impl Sums {
    /// Those of so many clients without loans.
    pub(crate) fn of_clients(clients: u64) -> Sums
        ensures { result ≡ record (sums_of_all []) { clients = clients } }
    {
        Sums {
            clients,
            loans: LoanCounts {
                submitted: 0,
                approved: 0,
                active: 0,
                withdrawn: 0,
                rejected: 0,
                closed: 0,
                written_off: 0,
                overpaid: 0,
            },
            entries: EntryCounts {
                standing: 0,
                reversed: 0,
            },
            principal: PrincipalSums {
                disbursed: 0,
                paid: 0,
                written_off: 0,
                outstanding: 0,
            },
            money: MoneySums {
                repaid: 0,
                paid: 0,
                overpaid: 0,
                refunded: 0,
            },
        }
    }

    /// Two sums added, where each number has room.
    pub(crate) fn plus(self, other: Sums) -> Option<Sums>
        ensures { SomeIff result (Fit (added self other)) (added self other) }
    {
        Some(Sums {
            clients: self.clients.checked_add(other.clients)?,
            loans: self.loans.plus(other.loans)?,
            entries: self.entries.plus(other.entries)?,
            principal: self.principal.plus(other.principal)?,
            money: self.money.plus(other.money)?,
        })
    }
}

/// What the rows of an office come to.
#[derive(Clone, Copy)]
pub struct OfficeSums {
    /// The office's number.
    pub office: u32,
    /// What its clients, loans and entries come to.
    pub sums: Sums,
}

/// What offices come to in all. None is for sums that are too great: a count that 64 bits don't hold, or an amount that
/// 128 bits don't.
pub fn total(offices: &[OfficeSums]) -> Option<Sums>
    ensures value { SomeIff result (Fit (sums_of_all offices.now)) (sums_of_all offices.now) }
    ensures balanced { AllByRecursion (λ (o : OfficeSums). IsBalanced o.sums) offices.now → IfSome result IsBalanced }
{
    let mut all = Sums::of_clients(0);
    for office in offices {
        all = all.plus(office.sums)?;
    }
    Some(all)
}
