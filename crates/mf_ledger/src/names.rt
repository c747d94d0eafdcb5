//! The names of accounts: those that the books give them, and those of an institution's own chart.

ghost use Rattle.std.specs.Prelude.{◌≡◌, ◌++◌, [], string_bytes, IfOk, OnOk, IsOkUnless};
ghost use Rattle.std.specs.List.{cons_option};
ghost use Rattle.mf_ledger.specs.Names as spec;

use crate::books::{BookAccount, Title};
use mf_base::{Fault, Text};
use std::alloc::Global;
use std::marker::Model;

/// The program that a journal is written for.
#[derive(Clone, Copy, PartialEq, Eq)]
pub enum Program {
    /// hledger; ledger reads the same text.
    Hledger,
    /// beancount, where each part of a name begins with a capital letter and an amount has a commodity.
    Beancount,
}

impl Title {
    ghost use Rattle.std.specs.Prelude.{◌≡◌};
    ghost use Rattle.mf_ledger.specs.Names as spec;

    /// Its name for hledger, from its kind on.
    fn hledger(self) -> &'static str
        ensures { result.now ≡ spec.hledger_title self }
    {
        match self {
            Title::Cash => "assets:cash",
            Title::Principal => "assets:principal",
            Title::Interest => "income:interest",
            Title::Fees => "income:fees",
            Title::Penalties => "income:penalties",
            Title::DisbursementFees => "income:disbursement-fees",
            Title::Overpaid => "liabilities:overpaid",
            Title::WrittenOff => "expenses:written-off",
            Title::InterestReceivable => "assets:interest-receivable",
            Title::FeesReceivable => "assets:fees-receivable",
            Title::PenaltiesReceivable => "assets:penalties-receivable",
            Title::InterestWaived => "expenses:interest-waived",
            Title::FeesWaived => "expenses:fees-waived",
            Title::PenaltiesWaived => "expenses:penalties-waived",
            Title::InterestWrittenOff => "expenses:interest-written-off",
            Title::FeesWrittenOff => "expenses:fees-written-off",
            Title::PenaltiesWrittenOff => "expenses:penalties-written-off",
        }
    }

    /// Its name for beancount.
    fn beancount(self) -> &'static str
        ensures { result.now ≡ spec.beancount_title self }
    {
        match self {
            Title::Cash => "Assets:Cash",
            Title::Principal => "Assets:Principal",
            Title::Interest => "Income:Interest",
            Title::Fees => "Income:Fees",
            Title::Penalties => "Income:Penalties",
            Title::DisbursementFees => "Income:Disbursement-Fees",
            Title::Overpaid => "Liabilities:Overpaid",
            Title::WrittenOff => "Expenses:Written-Off",
            Title::InterestReceivable => "Assets:Interest-Receivable",
            Title::FeesReceivable => "Assets:Fees-Receivable",
            Title::PenaltiesReceivable => "Assets:Penalties-Receivable",
            Title::InterestWaived => "Expenses:Interest-Waived",
            Title::FeesWaived => "Expenses:Fees-Waived",
            Title::PenaltiesWaived => "Expenses:Penalties-Waived",
            Title::InterestWrittenOff => "Expenses:Interest-Written-Off",
            Title::FeesWrittenOff => "Expenses:Fees-Written-Off",
            Title::PenaltiesWrittenOff => "Expenses:Penalties-Written-Off",
        }
    }

    /// The account's name for a program, from its kind on.
    pub fn text(self, program: Program) -> &'static str
        ensures { result.now ≡ spec.title_text program self }
    {
        match program {
            Program::Hledger => self.hledger(),
            Program::Beancount => self.beancount(),
        }
    }
}

impl Program {
    ghost use Rattle.std.specs.Prelude.{◌≡◌};
    ghost use Rattle.mf_ledger.specs.Names as spec;

    /// What stands before the number of an office.
    fn before_office(self) -> &'static str
        ensures { result.now ≡ spec.before_office self }
    {
        match self {
            Program::Hledger => ":office-",
            Program::Beancount => ":Office-",
        }
    }

    /// What stands before the number of a product.
    fn before_product(self) -> &'static str
        ensures { result.now ≡ spec.before_product self }
    {
        match self {
            Program::Hledger => ":product-",
            Program::Beancount => ":Product-",
        }
    }
}

/// The name of a title in an office. Its only error is F20.
fn office_text(alloc: Global, program: Program, account: &BookAccount) -> Result<String, Fault>
    ensures text { IfOk result (λ text. string_bytes text ≡ spec.office_text program account.now) }
    ensures only { IsOkUnless result Fault.F20 }
{
    let (title, before_office) = (account.title.text(program), program.before_office());
    let office = account.office.get();
    let text = format!(in alloc; "{title}{before_office}{office:04}")?;
    Ok(text)
}

/// The name that the books give an account, with its office and its product. Its only error is F20.
fn account_text(alloc: Global, program: Program, account: &BookAccount) -> Result<String, Fault>
    ensures text { IfOk result (λ text. string_bytes text ≡ spec.account_text program account.now) }
    ensures only { IsOkUnless result Fault.F20 }
{
    let (title, before_office) = (account.title.text(program), program.before_office());
    let (office, product) = (account.office.get(), account.product);
    let before_product = program.before_product();
    let text = format!(in alloc; "{title}{before_office}{office:04}{before_product}{product:03}")?;
    Ok(text)
}

/// A name that an institution's chart gives for a name of the books.
#[derive(Drop)]
pub struct GivenName {
    /// The name of the books for hledger: of an account, of a title in an office, or of a title.
    pub ours: Text,
    /// The name in the chart.
    pub theirs: Text,
}

/// Names of an institution's chart. Contracts see the list of those that are given.
#[derive(Drop)]
pub struct Names {
    given: Vec<GivenName>,
}

impl Model for Names {
    ghost use Rattle.std.specs.Prelude.{List};
    ghost use Rattle.mf_ledger.specs.declared.names.GivenName.{GivenName};

    ghost Value = { List GivenName };

    ghost view = { λ names. names.given.items };
}

/// What a line of a file of names gives. Its only error is F20.
fn name_in(alloc: Global, line: &str) -> Result<Option<GivenName>, Fault>
    ensures name { IfOk result (λ name. name ≡ spec.name_in line.now) }
    ensures only { IsOkUnless result Fault.F20 }
{
    match line.split_once('=') {
        None => Ok(None),
        Some((ours, theirs)) => {
            let ours = Text::new(String::from_str(alloc, ours)?);
            let theirs = Text::new(String::from_str(alloc, theirs)?);
            Ok(Some(GivenName { ours, theirs }))
        }
    }
}

/// Adds what a line of a file of names gives. Its only error is F20.
fn push_name(alloc: Global, given: &mut Vec<GivenName>, line: &str) -> Result<(), Fault>
    ensures names { OnOk result (given.new.items ≡ given.old.items ++ cons_option (spec.name_in line.now) []) }
    ensures only { IsOkUnless result Fault.F20 }
{
    if let Some(name) = name_in(alloc, line)? {
        given.push(name)?;
    }
    Ok(())
}

impl Names {
    ghost use Rattle.std.specs.Prelude.{◌≡◌, [], option_map, IfOk, IsOkUnless, string_bytes};
    ghost use Rattle.std.specs.Option.{option_or};
    ghost use Rattle.mf_ledger.specs.Names as spec;

    /// No names of a chart, so that each account is written by its own.
    pub fn none(alloc: Global) -> Names
        ensures { result ≡ [] }
    {
        Names {
            given: Vec::new(alloc),
        }
    }

    /// The names that a file gives: a line `assets:cash=1010 Cash` for each. A line without `=` gives nothing. Its only
    /// error is F20.
    pub fn read(alloc: Global, text: &str) -> Result<Names, Fault>
        ensures names { IfOk result (λ names. names ≡ spec.names_in text.now) }
        ensures only { IsOkUnless result Fault.F20 }
    {
        let mut given = Vec::new(alloc);
        for line in text.lines() {
            push_name(alloc, &mut given, line)?;
        }
        Ok(Names { given })
    }

    /// What the first of them that is for a name gives for it.
    pub fn given_for(&self, name: &str) -> Option<&str>
        ensures { option_map (λ given. given.now) result ≡ spec.given_for self.now name.now }
    {
        for given in &self.given {
            if given.ours.as_str() == name {
                return Some(given.theirs.as_str());
            }
        }
        None
    }

    /// What is given for the first of three names for which something is.
    fn first_given(&self, account: &str, office: &str, title: &str) -> Option<&str>
        ensures { option_map (λ given. given.now) result ≡ option_or (spec.given_for self.now account.now)
            (option_or (spec.given_for self.now office.now) (spec.given_for self.now title.now)) }
    {
        if let Some(given) = self.given_for(account) {
            return Some(given);
        }
        if let Some(given) = self.given_for(office) {
            return Some(given);
        }
        self.given_for(title)
    }

    /// The name by which an account is written: what is given for it, or else for its title in its office, or else for
    /// its title, and its own where nothing is given. Its only error is F20.
    pub fn name_of(
        &self,
        alloc: Global,
        program: Program,
        account: &BookAccount,
    ) -> Result<String, Fault>
        ensures text { IfOk result (λ text. string_bytes text ≡ spec.name_of program self.now account.now) }
        ensures only { IsOkUnless result Fault.F20 }
    {
        let ours = account_text(alloc, Program::Hledger, account)?;
        let office = office_text(alloc, Program::Hledger, account)?;
        let title = account.title.text(Program::Hledger);
        match self.first_given(ours.as_str(), office.as_str(), title) {
            Some(theirs) => {
                let text = String::from_str(alloc, theirs)?;
                Ok(text)
            }
            None => account_text(alloc, program, account),
        }
    }
}
