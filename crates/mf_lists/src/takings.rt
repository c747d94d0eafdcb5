//! What was paid in and paid out at an office, by member of staff.

ghost use Rattle.std.specs.Prelude.{◌≡◌, ◌+◌, ◌++◌, ◌∷◌, [], List, map, IfOk, IfErr};
ghost use Rattle.std.specs.List.{list_any};
ghost use Rattle.mf_base.specs.declared.fault.Fault.TheVariants.{F20};
ghost use Rattle.mf_lists.specs.Takings.{is_same, taking_of, takings_of, with_movement, with_own};

use mf_base::Fault;
use mf_office::Caller;
use std::alloc::Global;

/// Which way money went.
#[derive(Clone, Copy)]
pub enum Way {
    /// It was paid in.
    PaidIn,
    /// It was paid out.
    PaidOut,
    /// What was paid in before was reversed.
    InReversed,
    /// What was paid out before was reversed.
    OutReversed,
}

/// Money that a request moved. Amounts are whole cents.
#[derive(Clone, Copy)]
pub struct Movement {
    pub way: Way,
    pub amount: u64,
}

/// How many movements, and their sum.
#[derive(Clone, Copy)]
pub struct Counted {
    pub count: u64,
    pub sum: u64,
}

/// The takings of a member of staff on a day.
#[derive(Clone, Copy)]
pub struct Taking {
    /// Who sent the requests.
    pub staff: Caller,
    /// Repayments, and what a fee at disbursement is above the principal.
    pub paid_in: Counted,
    /// Disbursements less the fees that were kept, and refunds.
    pub paid_out: Counted,
    /// Repayments that were reversed on this day.
    pub in_reversed: Counted,
    /// Refunds that were reversed on this day.
    pub out_reversed: Counted,
}

impl Counted {
    /// None.
    fn none() -> Counted
        ensures { result ≡ record { count = 0; sum = 0 } }
    {
        Counted { count: 0, sum: 0 }
    }

    /// One more of an amount. F20 where 64 bits don't hold the sum.
    fn with(self, amount: u64) -> Result<Counted, Fault>
        ensures more { IfOk result (λ more. more ≡ record { count = self.count + 1; sum = self.sum + amount }) }
        ensures gives_up { IfErr result (λ fault. fault ≡ F20) }
    {
        let Some(count) = self.count.checked_add(1) else {
            return Err(Fault::F20);
        };
        match self.sum.checked_add(amount) {
            Some(sum) => Ok(Counted { count, sum }),
            None => Err(Fault::F20),
        }
    }
}

/// Whether two members of staff are the same.
fn is_same(one: &Caller, other: &Caller) -> bool
    ensures { result ≡ is_same one.now other.now }
{
    one.office.get() == other.office.get() && one.staff.get() == other.staff.get()
}

impl Taking {
    /// The takings of somebody who moved nothing.
    fn nothing(staff: &Caller) -> Taking
        ensures { result ≡ taking_of staff.now [] }
    {
        Taking {
            staff: *staff,
            paid_in: Counted::none(),
            paid_out: Counted::none(),
            in_reversed: Counted::none(),
            out_reversed: Counted::none(),
        }
    }

    /// The same with one movement more.
    fn with_movement(&self, movement: &Movement) -> Result<Taking, Fault>
        ensures more { IfOk result (λ more. more ≡ with_movement movement.now self.now) }
        ensures gives_up { IfErr result (λ fault. fault ≡ F20) }
    {
        let mut taking = *self;
        let amount = movement.amount;
        match movement.way {
            Way::PaidIn => taking.paid_in = taking.paid_in.with(amount)?,
            Way::PaidOut => taking.paid_out = taking.paid_out.with(amount)?,
            Way::InReversed => taking.in_reversed = taking.in_reversed.with(amount)?,
            Way::OutReversed => taking.out_reversed = taking.out_reversed.with(amount)?,
        }
        Ok(taking)
    }

    /// The same with a movement of somebody, where they are that one's.
    fn with_own(&self, staff: &Caller, movement: &Movement) -> Result<Taking, Fault>
        ensures more { IfOk result (λ more. more ≡ with_own staff.now movement.now self.now) }
        ensures gives_up { IfErr result (λ fault. fault ≡ F20) }
    {
        if is_same(staff, &self.staff) {
            self.with_movement(movement)
        } else {
            Ok(*self)
        }
    }
}

/// Whether some takings are somebody's.
fn are_of(takings: &[Taking], staff: &Caller) -> bool
    ensures { result ≡ list_any (λ (t : Taking). is_same staff.now t.staff) takings.now }
{
    for taking in takings {
        if is_same(staff, &taking.staff) {
            return true;
        }
    }
    false
}

/// The takings, each with a movement where it is of the one who moved.
fn each_with(
    alloc: Global,
    takings: &[Taking],
    staff: &Caller,
    movement: &Movement,
) -> Result<Vec<Taking>, Fault>
    ensures more { IfOk result (λ more. more.items ≡ map (with_own staff.now movement.now) takings.now) }
    ensures gives_up { IfErr result (λ fault. fault ≡ F20) }
{
    let mut more = Vec::new(alloc);
    for taking in takings {
        let taking = taking.with_own(staff, movement)?;
        more.push(taking)?;
    }
    Ok(more)
}

/// The takings with one movement more, of somebody. F20 where there is no memory, or 64 bits don't hold a sum.
pub fn with_movement(
    alloc: Global,
    takings: &[Taking],
    staff: &Caller,
    movement: &Movement,
) -> Result<Vec<Taking>, Fault>
    ensures more { (moves : List (Caller × Movement)) → takings.now ≡ takings_of moves
        → IfOk result (λ more. more.items ≡ takings_of (moves ++ (staff.now, movement.now) ∷ [])) }
    ensures gives_up { IfErr result (λ fault. fault ≡ F20) }
{
    let mut more = each_with(alloc, takings, staff, movement)?;
    if are_of(takings, staff) {
        return Ok(more);
    }
    let first = Taking::nothing(staff).with_movement(movement)?;
    more.push(first)?;
    Ok(more)
}
