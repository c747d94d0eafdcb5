//! The conditions of a sound institution, one kind each, by the row that breaks it.

ghost use Rattle.mf_store_audit.specs.Kinds.{meta_flaws, charge_flaws, product_flaws, office_flaws, staff_flaws};
ghost use Rattle.mf_store_audit.specs.Kinds.{client_flaws, doubts, loan_flaws, entry_flaws, receipt_flaws};
ghost use Rattle.mf_store_audit.specs.declared.finding.Finding.TheVariants as finding;

use crate::places::Flaws;

/// What is wrong with a row of `meta`.
#[derive(Clone, Copy, Debug, PartialEq, Eq)]
pub enum MetaFlaw {
    /// Its key is not 1.
    Key,
    /// Its number is not that of the schema.
    Schema,
    /// Its business day is the text of no day up to 2099-12-31.
    Day,
}

impl Flaws for MetaFlaw {
    ghost all = { meta_flaws };

    ghost finding = { finding.Meta };

    fn all() -> &'static [MetaFlaw] {
        &[MetaFlaw::Key, MetaFlaw::Schema, MetaFlaw::Day]
    }

    fn finding(self, place: usize) -> Finding {
        Finding::Meta { place, flaw: self }
    }
}

/// What is wrong with a row of a charge.
#[derive(Clone, Copy, Debug, PartialEq, Eq)]
pub enum ChargeFlaw {
    /// It is not numbered next after the one before it, the first by 1.
    Number,
    /// Its number is above 999.
    Limit,
    Name,
    /// Its kind is none.
    Kind,
    /// Its way of computing is none.
    Calc,
    /// Its value lies outside of the limits of its way of computing.
    Value,
}

impl Flaws for ChargeFlaw {
    ghost all = { charge_flaws };

    ghost finding = { finding.Charge };

    fn all() -> &'static [ChargeFlaw] {
        &[
            ChargeFlaw::Number,
            ChargeFlaw::Limit,
            ChargeFlaw::Name,
            ChargeFlaw::Kind,
            ChargeFlaw::Calc,
            ChargeFlaw::Value,
        ]
    }

    fn finding(self, place: usize) -> Finding {
        Finding::Charge { place, flaw: self }
    }
}

/// What is wrong with a row of a product.
#[derive(Clone, Copy, Debug, PartialEq, Eq)]
pub enum ProductFlaw {
    /// It is not numbered next after the one before it, the first by 1.
    Number,
    /// Its number is above 999.
    Limit,
    Name,
    /// Its method is none.
    Method,
    /// Its frequency is none.
    Frequency,
    /// Its strategy is none.
    Strategy,
    /// Whether it is retired is neither 0 nor 1.
    Retired,
    /// Its annual rate is above 100,000 hundredths of a percent.
    Rate,
    /// The step between due days is 0, or longer than its frequency allows.
    Every,
    /// Its grace on principal is above 359 periods.
    PrincipalGrace,
    /// Its grace on interest is above 359 periods.
    InterestGrace,
    /// Its least principal is no amount.
    MinPrincipal,
    /// Its greatest principal is no amount.
    MaxPrincipal,
    /// Its least number of periods is not from 1 to 360.
    MinPeriods,
    /// Its greatest number of periods is not from 1 to 360.
    MaxPeriods,
    /// Its least principal is above its greatest.
    PrincipalOrder,
    /// Its least number of periods is above its greatest.
    PeriodsOrder,
    /// Its grace on principal is not below its least number of periods.
    PrincipalGraceOrder,
    /// Its grace on interest is not below its least number of periods.
    InterestGraceOrder,
    /// The charge that it names at disbursement is none of that kind.
    DisbursementCharge,
    /// The charge that it names with each instalment is none of that kind.
    InstalmentCharge,
    /// The charge that it names for an overdue instalment is none of that kind.
    OverdueCharge,
}

impl Flaws for ProductFlaw {
    ghost all = { product_flaws };

    ghost finding = { finding.Product };

    fn all() -> &'static [ProductFlaw] {
        &[
            ProductFlaw::Number,
            ProductFlaw::Limit,
            ProductFlaw::Name,
            ProductFlaw::Method,
            ProductFlaw::Frequency,
            ProductFlaw::Strategy,
            ProductFlaw::Retired,
            ProductFlaw::Rate,
            ProductFlaw::Every,
            ProductFlaw::PrincipalGrace,
            ProductFlaw::InterestGrace,
            ProductFlaw::MinPrincipal,
            ProductFlaw::MaxPrincipal,
            ProductFlaw::MinPeriods,
            ProductFlaw::MaxPeriods,
            ProductFlaw::PrincipalOrder,
            ProductFlaw::PeriodsOrder,
            ProductFlaw::PrincipalGraceOrder,
            ProductFlaw::InterestGraceOrder,
            ProductFlaw::DisbursementCharge,
            ProductFlaw::InstalmentCharge,
            ProductFlaw::OverdueCharge,
        ]
    }

    fn finding(self, place: usize) -> Finding {
        Finding::Product { place, flaw: self }
    }
}

/// What is wrong with a row of an office.
#[derive(Clone, Copy, Debug, PartialEq, Eq)]
pub enum OfficeFlaw {
    /// It does not come after the row before it.
    Order,
    /// Its number is not from 1 to 9999.
    Number,
    Name,
    /// It has no parent and is not the head office, or is the head office and has one, or its parent is not there.
    Parent,
    /// Its hierarchy text is not the one that its parent gives.
    Text,
    /// It lies more than five steps below the head office.
    Depth,
}

impl Flaws for OfficeFlaw {
    ghost all = { office_flaws };

    ghost finding = { finding.Office };

    fn all() -> &'static [OfficeFlaw] {
        &[
            OfficeFlaw::Order,
            OfficeFlaw::Number,
            OfficeFlaw::Name,
            OfficeFlaw::Parent,
            OfficeFlaw::Text,
            OfficeFlaw::Depth,
        ]
    }

    fn finding(self, place: usize) -> Finding {
        Finding::Office { place, flaw: self }
    }
}

/// What is wrong with a row of a member of staff.
#[derive(Clone, Copy, Debug, PartialEq, Eq)]
pub enum StaffFlaw {
    /// It does not come after the row before it.
    Order,
    /// Its office is not there.
    Office,
    /// It is not numbered next after the one before it in its office, the first by 1.
    Number,
    /// Its number is above 9999.
    Limit,
    Name,
    /// Its role is none.
    Role,
}

impl Flaws for StaffFlaw {
    ghost all = { staff_flaws };

    ghost finding = { finding.Staff };

    fn all() -> &'static [StaffFlaw] {
        &[
            StaffFlaw::Order,
            StaffFlaw::Office,
            StaffFlaw::Number,
            StaffFlaw::Limit,
            StaffFlaw::Name,
            StaffFlaw::Role,
        ]
    }

    fn finding(self, place: usize) -> Finding {
        Finding::Staff { place, flaw: self }
    }
}

/// What is wrong with a row of a client.
#[derive(Clone, Copy, Debug, PartialEq, Eq)]
pub enum ClientFlaw {
    /// It does not come after the row before it.
    Order,
    /// Its office is not there.
    Office,
    /// It is not numbered next after the one before it in its office, the first by 1.
    Number,
    /// Its number is above 999999.
    Limit,
    Name,
}

impl Flaws for ClientFlaw {
    ghost all = { client_flaws };

    ghost finding = { finding.Client };

    fn all() -> &'static [ClientFlaw] {
        &[
            ClientFlaw::Order,
            ClientFlaw::Office,
            ClientFlaw::Number,
            ClientFlaw::Limit,
            ClientFlaw::Name,
        ]
    }

    fn finding(self, place: usize) -> Finding {
        Finding::Client { place, flaw: self }
    }
}

/// What is wrong with a row of a loan.
#[derive(Clone, Copy, Debug, PartialEq, Eq)]
pub enum LoanFlaw {
    /// It does not come after the row before it.
    Order,
    /// Its office is not there.
    Office,
    /// It is not numbered next after the one before it in its office, the first by 1.
    Number,
    /// Its number is above 999999.
    Limit,
    /// Its client is not there.
    Client,
    /// Its product is not there.
    Product,
    /// Its principal lies outside of its product's limits.
    Principal,
    /// Its number of periods lies outside of its product's limits.
    Periods,
    /// Its status is none that a loan's row has.
    Stage,
    /// A loan with its status has no day of approval and it has one, or must have one and has none, or its text is no
    /// day's.
    Approved,
    /// The same of its day of disbursement.
    Disbursed,
    /// Its days are out of order, or after the business day.
    Days,
}

impl Flaws for LoanFlaw {
    ghost all = { loan_flaws };

    ghost finding = { finding.Loan };

    fn all() -> &'static [LoanFlaw] {
        &[
            LoanFlaw::Order,
            LoanFlaw::Office,
            LoanFlaw::Number,
            LoanFlaw::Limit,
            LoanFlaw::Client,
            LoanFlaw::Product,
            LoanFlaw::Principal,
            LoanFlaw::Periods,
            LoanFlaw::Stage,
            LoanFlaw::Approved,
            LoanFlaw::Disbursed,
            LoanFlaw::Days,
        ]
    }

    fn finding(self, place: usize) -> Finding {
        Finding::Loan { place, flaw: self }
    }
}

/// What is wrong with a row of an entry.
#[derive(Clone, Copy, Debug, PartialEq, Eq)]
pub enum EntryFlaw {
    /// It does not come after the row before it.
    Order,
    /// Its loan is not there.
    Loan,
    /// Its loan is not disbursed.
    Undisbursed,
    /// It is not numbered next after the one before it on its loan, the first by 1.
    Number,
    /// Its number is above 9999.
    Limit,
    /// Its kind is none.
    Kind,
    /// Its day is the text of none.
    Day,
    /// Its day is before its loan's disbursement.
    Early,
    /// Its day is after the business day.
    Late,
    /// Its amount is below 0.
    Amount,
    /// Its portion is none.
    Portion,
    /// Whether it is reversed is neither 0 nor 1.
    Reversed,
    /// Its amount, instalment, portion and receipt are not such as its kind has.
    Columns,
    /// Its receipt is not the text of one.
    Receipt,
    /// It is a write-off or a refund that stands, and another entry that stands comes after it.
    Seal,
    /// Its member of staff is not there.
    Staff,
    /// Its receipt is not in the table of receipts as this entry's.
    Unlisted,
}

impl Flaws for EntryFlaw {
    ghost all = { entry_flaws };

    ghost finding = { finding.Entry };

    fn all() -> &'static [EntryFlaw] {
        &[
            EntryFlaw::Order,
            EntryFlaw::Loan,
            EntryFlaw::Undisbursed,
            EntryFlaw::Number,
            EntryFlaw::Limit,
            EntryFlaw::Kind,
            EntryFlaw::Day,
            EntryFlaw::Early,
            EntryFlaw::Late,
            EntryFlaw::Amount,
            EntryFlaw::Portion,
            EntryFlaw::Reversed,
            EntryFlaw::Columns,
            EntryFlaw::Receipt,
            EntryFlaw::Seal,
            EntryFlaw::Staff,
            EntryFlaw::Unlisted,
        ]
    }

    fn finding(self, place: usize) -> Finding {
        Finding::Entry { place, flaw: self }
    }
}

/// What is wrong with a row of a receipt.
#[derive(Clone, Copy, Debug, PartialEq, Eq)]
pub enum ReceiptFlaw {
    /// It does not come after the row before it.
    Order,
    /// The entry that it names does not carry it.
    Entry,
}

impl Flaws for ReceiptFlaw {
    ghost all = { receipt_flaws };

    ghost finding = { finding.Receipt };

    fn all() -> &'static [ReceiptFlaw] {
        &[ReceiptFlaw::Order, ReceiptFlaw::Entry]
    }

    fn finding(self, place: usize) -> Finding {
        Finding::Receipt { place, flaw: self }
    }
}

/// What makes an entry of sound rows suspect. Nobody's office or role changes, so the program didn't write it.
#[derive(Clone, Copy, Debug, PartialEq, Eq)]
pub enum Doubt {
    /// Whoever entered it can't see the loan: its office isn't theirs, nor below it.
    Office,
    /// The role of whoever entered it may not enter its kind.
    Role,
}

impl Flaws for Doubt {
    ghost all = { doubts };

    ghost finding = { finding.Suspect };

    fn all() -> &'static [Doubt] {
        &[Doubt::Office, Doubt::Role]
    }

    fn finding(self, place: usize) -> Finding {
        Finding::Suspect { place, doubt: self }
    }
}

/// The loan of a row of an account, and the number of its instalment or of its entry. Their order is by office, loan
/// and number.
#[derive(Clone, Copy, Debug, PartialEq, Eq, PartialOrd, Ord)]
pub struct RowKey {
    pub office: u32,
    /// The loan's number within the office.
    pub loan: u32,
    /// The number within the loan: of an instalment, or of the entry that a share is of.
    pub number: u32,
}

/// A row that breaks a condition, or is suspect: by its table, its place there in the order of the key, counted from 0,
/// and what is wrong.
#[derive(Clone, Copy, Debug, PartialEq, Eq)]
pub enum Finding {
    /// The table `meta` has no row, or several.
    MetaRows,
    Meta { place: usize, flaw: MetaFlaw },
    Charge { place: usize, flaw: ChargeFlaw },
    Product { place: usize, flaw: ProductFlaw },
    /// There is no head office.
    NoHead,
    Office { place: usize, flaw: OfficeFlaw },
    Staff { place: usize, flaw: StaffFlaw },
    Client { place: usize, flaw: ClientFlaw },
    Loan { place: usize, flaw: LoanFlaw },
    Entry { place: usize, flaw: EntryFlaw },
    Receipt { place: usize, flaw: ReceiptFlaw },
    /// The instalment with this key is not what replaying the loan's entries gives: another one, one too many, or one
    /// that is missing.
    Instalment { key: RowKey },
    /// The shares of the entry with this key are not those that replaying the loan's entries gives.
    Share { key: RowKey },
    /// The entry at this place is suspect, though the rows are sound.
    Suspect { place: usize, doubt: Doubt },
    /// No sound institution has these rows, although no row by itself breaks a condition.
    Unsound,
}
