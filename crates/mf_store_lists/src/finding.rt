//! Clients that are found by a part of their name, by their number, or by that of one of their loans.

ghost use Rattle.std.specs.Prelude.{◌≡◌, ◌++◌, ◌+◌, ◌≤◌, ℕ, List, length, map, take, IfOk, IfErr, OnOk};
ghost use Rattle.std.specs.List.{flat_map};
ghost use Rattle.std.specs.Str.{bytes_eq};
ghost use Rattle.mf_base.specs.declared.fault.Fault.TheVariants.{F20};
ghost use Rattle.mf_folding.specs.Folding.{folded};
ghost use Rattle.mf_lists.specs.Lists.{find_clients};
ghost use Rattle.mf_model.specs.Institution.{Institution};
ghost use Rattle.mf_model.specs.Store.{rows_at};
ghost use Rattle.mf_office.specs.Numbers.{IsNumberUpTo};
ghost use Rattle.mf_office.specs.Written.{account_text};
ghost use Rattle.mf_store.specs.Stands.{StandsFor, IsClean, AsksTables, MayAskTables};
ghost use Rattle.mf_store_lists.specs.Counted.{uncounted};
ghost use Rattle.mf_store_lists.specs.Finding.{borrower_at, is_number, is_sought, number_of};
ghost use Rattle.mf_store_lists.specs.Told.{told_if};
ghost use Rattle.mf_store_schema.specs.Rows.{client_row};
ghost use Rattle.mf_store_values.specs.Flat.{client_in};

use crate::clients::{client_of, count_loans};
use crate::parts::has_part;
use mf_base::{Fault, Name};
use mf_folding::folded;
use mf_lists::ClientLine;
use mf_office::{Account, AccountNo, OfficeNo};
use mf_statement::Listing;
use mf_store::Store;
use mf_store_schema::ClientRow;
use sqlite::{Alter, Row};
use std::alloc::Global;

/// What a client is found by: a folded part of their name, their number, or that of the borrower of a loan.
#[derive(Drop)]
pub(crate) struct Sought {
    part: Vec<char>,
    client: Option<AccountNo>,
    borrower: Option<AccountNo>,
}

/// The characters of a text as they are compared.
fn folded_text(alloc: Global, text: &str) -> Result<Vec<char>, Fault>
    ensures folded { IfOk result (λ kept. kept.items ≡ folded text.now) }
    ensures gives_up { IfErr result (λ fault. fault ≡ F20) }
{
    match folded(alloc, text) {
        Ok(kept) => Ok(kept),
        Err(_) => Err(Fault::F20),
    }
}

/// The number that an account has in an office.
fn number_of(office: u32, account: Option<Account>) -> Option<AccountNo>
    ensures { result ≡ number_of office account }
{
    match account {
        Some(account) if account.office.get() == office => Some(account.number),
        _ => None,
    }
}

/// The number of a client or a loan of an office whose text this is, where it is one.
fn number_in(office: OfficeNo, text: &str) -> Option<AccountNo>
    ensures { (n : ℕ) → IsNumberUpTo 999999 n → is_number result n ≡ bytes_eq text.now (account_text office n) }
{
    let account = Account::parse(text.as_bytes());
    number_of(office.get(), account)
}

/// The client of a loan of an office, where there is one of this number.
fn borrower_of<S: Alter>(
    store: &mut Store<S>,
    office: OfficeNo,
    number: &Option<AccountNo>,
) -> Result<Option<AccountNo>, Fault>
    ensures asks { MayAskTables S.Store store.old store.new result }
    ensures value { IsClean S.Store store.new → (i : Institution) → StandsFor S.Store store.old i
        → IfOk result (λ client. client ≡ borrower_at office number.now i) }
{
    let Some(number) = number else {
        return Ok(None);
    };
    match store.loan(Account {
        office,
        number: *number,
    })? {
        None => Ok(None),
        Some(loan) => Ok(Some(loan.client)),
    }
}

/// Whether a number is this one.
fn is_number(named: Option<AccountNo>, number: AccountNo) -> bool
    ensures { result ≡ is_number named number }
{
    match named {
        Some(named) => named.get() == number.get(),
        None => false,
    }
}

/// Whether a client is sought.
fn is_sought(alloc: Global, sought: &Sought, line: &ClientLine) -> Result<bool, Fault>
    ensures sought { IfOk result (λ is. is ≡ is_sought sought.now.part.items sought.now.client sought.now.borrower
        (line.now.number, line.now.name)) }
    ensures gives_up { IfErr result (λ fault. fault ≡ F20) }
{
    if is_number(sought.client, line.number) || is_number(sought.borrower, line.number) {
        return Ok(true);
    }
    let name = folded_text(alloc, line.name.as_str())?;
    Ok(has_part(&sought.part, &name))
}

/// Adds the client of a row, where they are sought.
fn put_sought(
    alloc: Global,
    row: &Row,
    sought: &Sought,
    lines: &mut Vec<ClientLine>,
) -> Result<(), Fault>
    ensures one { length lines.new.items ≤ length lines.old.items + 1 }
    ensures added { OnOk result ((office : ℕ) (c : ℕ × List ℕ) → row.now ≡ client_row (client_in office c.0 c.1)
        → lines.new.items ≡ lines.old.items
        ++ told_if (is_sought sought.now.part.items sought.now.client sought.now.borrower c) (uncounted c)) }
    ensures gives_up { IfErr result (λ fault. fault ≡ F20) }
{
    let line = client_of(row)?;
    let is = is_sought(alloc, sought, &line)?;
    if !is {
        return Ok(());
    }
    lines.push(line)?;
    Ok(())
}

/// The most clients that are found at once.
const PAGE: usize = 50;

/// The first 50 of the rows' clients that are sought.
fn page_of(alloc: Global, rows: &[Row], sought: &Sought) -> Result<Vec<ClientLine>, Fault>
    ensures clients { IfOk result (λ lines. (office : ℕ) (cs : List (ℕ × List ℕ))
        → rows.now ≡ map (λ c. client_row (client_in office c.0 c.1)) cs
        → lines.items ≡ take 50 (flat_map (λ c. told_if (is_sought sought.now.part.items sought.now.client
        sought.now.borrower c) (uncounted c)) cs)) }
    ensures gives_up { IfErr result (λ fault. fault ≡ F20) }
{
    let mut lines = Vec::new(alloc);
    for row in rows {
        if lines.len() >= PAGE {
            return Ok(lines);
        }
        put_sought(alloc, row, sought, &mut lines)?;
    }
    Ok(lines)
}

/// The first 50 clients of an office that have a part in their name, where both are folded, or have it as their number
/// or as that of one of their loans, by number. It reads the rows of the office's clients; where it tells some also
/// those of its loans, and the instalments of the loans of those that it tells.
pub fn find_clients<S: Alter>(
    alloc: Global,
    store: &mut Store<S>,
    office: OfficeNo,
    part: &Name,
) -> Result<Listing<ClientLine>, Fault>
    ensures asks { AsksTables S.Store store.old store.new result }
    ensures value { IsClean S.Store store.new → (i : Institution) → StandsFor S.Store store.old i
        → IfOk result (λ list. list ≡ find_clients folded office part.now i.catalogue (rows_at office i)) }
{
    let client = number_in(office, part.as_str());
    let borrower = borrower_of(store, office, &client)?;
    let key = folded_text(alloc, part.as_str())?;
    let sought = Sought {
        part: key,
        client,
        borrower,
    };
    let rows = store.list::<ClientRow>(office.get())?;
    let mut lines = page_of(alloc, &rows, &sought)?;
    if lines.is_empty() {
        return Ok(Listing::new(lines));
    }
    count_loans(alloc, store, office, &mut lines)?;
    Ok(Listing::new(lines))
}
