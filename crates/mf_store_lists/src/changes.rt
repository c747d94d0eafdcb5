//! What the journal tells of an office and of a loan.

ghost use Rattle.std.specs.Prelude.{◌≡◌, ◌↔◌, ◌++◌, ◌∷◌, ◌+◌, ◌≤◌, [], ℕ, List, length, map, Some, None, IsTrue};
ghost use Rattle.std.specs.Prelude.{IfOk, IfErr, nat_lt};
ghost use Rattle.mf_base.specs.declared.fault.Fault.TheVariants.{F20};
ghost use Rattle.mf_journal.specs.Chain.{line_of_row};
ghost use Rattle.mf_journal.specs.declared.following.Head.{Head as JournalHead};
ghost use Rattle.mf_lists.specs.Changes.{change_line, loan_named};
ghost use Rattle.mf_lists_desk.specs.Readings.{changes_at, loan_changes_at};
ghost use Rattle.mf_model.specs.Institution.{Institution, JournalLine};
ghost use Rattle.mf_store.specs.Stands.{StandsFor, IsClean, AsksTables, MayAskTables};
ghost use Rattle.mf_store_journal.specs.Rows.{filed_after, filed_at};
ghost use Rattle.mf_store_noted.specs.Kept.{begins_of};
ghost use Rattle.mf_store_sql.specs.Numbered.{shown_filed};
ghost use Rattle.mf_store_lists.specs.Changed.{IsEnough, IsFound, IsFoundUpTo, first_of, is_named, sought_by, told_of};

use mf_base::{Day, Fault};
use mf_journal::{Head, JournalRow};
use mf_lists::ChangeLine;
use mf_office::{Account, AccountNo, Caller, OfficeNo, StaffNo};
use mf_statement::Listing;
use mf_store::{Store, day_of_number};
use mf_store_journal::{Sought, lines_told, number_after};
use sqlite::{Alter, Row};
use std::alloc::Global;

/// The most changes of an office that are told at once.
const PAGE: usize = 200;

/// Which lines of a journal are told: of those that name an office, or a loan of it, the ones whose place among them is
/// above one, and no more than so many, where there is a limit.
#[derive(Clone, Copy)]
struct Asked {
    office: OfficeNo,
    loan: Option<AccountNo>,
    after: u32,
    most: Option<usize>,
}

/// The day of a number. F20 where it may not be entered, as no line's day.
fn day_of(number: u64) -> Result<Day, Fault>
    ensures day { IfOk result (λ day. day ≡ number) }
    ensures gives_up { IfErr result (λ fault. fault ≡ F20) }
{
    day_of_number(number)?.ok_or(Fault::F20)
}

/// A number in 32 bits. F20 where it has no room there, as no number of a line.
pub(crate) fn narrow(number: u64) -> Result<u32, Fault>
    ensures number { IfOk result (λ n. n ≡ number) }
    ensures gives_up { IfErr result (λ fault. fault ≡ F20) }
{
    match u32::try_from(number) {
        Ok(number) => Ok(number),
        Err(_) => Err(Fault::F20),
    }
}

/// Who sent a line. F20 where nobody can have these numbers.
pub(crate) fn caller_of(row: JournalRow<'_>) -> Result<Caller, Fault>
    ensures office { IfOk result (λ caller. caller.office ≡ row.entry.office) }
    ensures staff { IfOk result (λ caller. caller.staff ≡ row.entry.staff) }
    ensures gives_up { IfErr result (λ fault. fault ≡ F20) }
{
    let Some(office) = OfficeNo::new(narrow(row.office)?) else {
        return Err(Fault::F20);
    };
    match StaffNo::new(narrow(row.staff)?) {
        Some(staff) => Ok(Caller { office, staff }),
        None => Err(Fault::F20),
    }
}

/// The loan that a line names, where it names one. F20 where no loan can have the number.
fn loan_of(number: u64) -> Result<Option<AccountNo>, Fault>
    ensures loan { IfOk result (λ loan. loan ≡ loan_named number) }
    ensures gives_up { IfErr result (λ fault. fault ≡ F20) }
{
    if number == 0 {
        return Ok(None);
    }
    match AccountNo::new(narrow(number)?) {
        Some(number) => Ok(Some(number)),
        None => Err(Fault::F20),
    }
}

/// A copy of bytes.
fn copied(alloc: Global, bytes: &[u8]) -> Result<Listing<u8>, Fault>
    ensures bytes { IfOk result (λ list. list ≡ bytes.now) }
    ensures gives_up { IfErr result (λ fault. fault ≡ F20) }
{
    let mut copy = Vec::new(alloc);
    copy.extend_from_slice(bytes)?;
    Ok(Listing::new(copy))
}

/// A line as it is told, at a place.
fn line_told(alloc: Global, place: u32, row: JournalRow<'_>) -> Result<ChangeLine, Fault>
    ensures line { IfOk result (λ line. line ≡ change_line (place, line_of_row row.entry)) }
    ensures gives_up { IfErr result (λ fault. fault ≡ F20) }
{
    Ok(ChangeLine {
        number: place,
        day: day_of(row.day)?,
        caller: caller_of(row)?,
        loan: loan_of(row.named_loan)?,
        told: copied(alloc, row.told)?,
        method: copied(alloc, row.method)?,
        path: copied(alloc, row.path)?,
        body: copied(alloc, row.body)?,
    })
}

impl Asked {
    /// What is sought of the journal for the lines that are asked for.
    fn sought(&self) -> Sought
        ensures { result ≡ sought_by self.now }
    {
        let loan = match self.loan {
            None => None,
            Some(loan) => Some(loan.get()),
        };
        Sought {
            office: self.office.get(),
            loan,
            day: None,
        }
    }

    /// Whether a line is asked for.
    fn names(&self, row: JournalRow<'_>) -> bool
        ensures { result ≡ is_named self.now.office self.now.loan (line_of_row row.entry) }
    {
        let is_office = row.named_office == u64::from(self.office.get());
        match self.loan {
            None => is_office,
            Some(loan) => is_office && row.named_loan == u64::from(loan.get()),
        }
    }

    /// Whether so many lines are as many as may be told.
    fn has_all(&self, count: usize) -> bool
        ensures { IsTrue result ↔ IsEnough self.now.most count }
    {
        match self.most {
            None => false,
            Some(most) => count >= most,
        }
    }

    /// Whether a line is told at a place.
    fn tells(&self, place: u32) -> bool
        ensures { result ≡ nat_lt self.now.after place }
    {
        place > self.after
    }
}

/// The place of one more line among those that are asked for, where it is one of them, else that of the last. It is
/// told where its place is above the one after which they are told.
fn put_line(
    alloc: Global,
    asked: &Asked,
    row: JournalRow<'_>,
    place: u32,
    lines: &mut Vec<ChangeLine>,
) -> Result<u32, Fault>
    requires { IsEnough asked.now.most (length lines.old.items) → ⊥ }
    ensures found { (before : List JournalLine) → IsFound asked.now before (record {
      place = place;
      lines = lines.old.items;
    }) → IfOk result (λ next. IsFound asked.now
        (before ++ line_of_row row.entry ∷ []) (record { place = next; lines = lines.new.items })) }
    ensures gives_up { IfErr result (λ fault. fault ≡ F20) }
{
    if !asked.names(row) {
        return Ok(place);
    }
    let Some(next) = place.checked_add(1) else {
        return Err(Fault::F20);
    };
    if asked.tells(next) {
        let line = line_told(alloc, next, row)?;
        lines.push(line)?;
    }
    Ok(next)
}

/// The place of the last of lines that are asked for. They are found one after another, until no more may be told.
fn put_lines(
    alloc: Global,
    asked: &Asked,
    rows: &[JournalRow<'_>],
    place: u32,
    lines: &mut Vec<ChangeLine>,
) -> Result<u32, Fault>
    ensures found { (before : List JournalLine) → IsFound asked.now before (record {
      place = place;
      lines = lines.old.items;
    }) → IfOk result (λ next. IsFoundUpTo asked.now before
        (map line_of_row rows.now) (record { place = next; lines = lines.new.items })) }
    ensures gives_up { IfErr result (λ fault. fault ≡ F20) }
{
    let mut place = place;
    for at in 0..rows.len() {
        if asked.has_all(lines.len()) {
            return Ok(place);
        }
        let row = rows[at];
        place = put_line(alloc, asked, row, place, lines)?;
    }
    Ok(place)
}

/// The same of a page of rows of the table.
fn put_page(
    alloc: Global,
    asked: &Asked,
    page: &[Row],
    place: u32,
    lines: &mut Vec<ChangeLine>,
) -> Result<u32, Fault>
    ensures found { (h : JournalHead) (before more : List JournalLine)
        → page.now ≡ map shown_filed (filed_after h more) → IsFound asked.now before (record {
          place = place;
          lines = lines.old.items;
        }) → IfOk result (λ next. IsFoundUpTo asked.now before more (record {
          place = next;
          lines = lines.new.items;
        })) }
    ensures gives_up { IfErr result (λ fault. fault ≡ F20) }
{
    let rows = lines_told(alloc, page)?;
    put_lines(alloc, asked, &rows, place, lines)
}

/// What a journal tells that begins here, of what is asked for. It reads the lines that the index finds.
fn told_from<S: Alter>(
    alloc: Global,
    store: &mut Store<S>,
    begins: Head,
    asked: &Asked,
) -> Result<Listing<ChangeLine>, Fault>
    ensures asks { AsksTables S.Store store.old store.new result }
    ensures value { IsClean S.Store store.new → (i : Institution) (lines : List JournalLine)
        → StandsFor S.Store store.old i → begins_of store.old.journal ≡ Some begins → i.journal ≡ Some lines
        → IfOk result (λ list. list ≡ first_of asked.now.most (told_of asked.now lines)) }
{
    let sought = asked.sought();
    let mut number = narrow(begins.number)?;
    let mut place = 0;
    let mut lines = Vec::new(alloc);
    'pages: for _ in 0..u64::MAX {
        let next = store.next_rows(alloc, &sought, number)?;
        if next.rows.is_empty() {
            return Ok(Listing::new(lines));
        }
        if asked.has_all(lines.len()) {
            return Ok(Listing::new(lines));
        }
        place = put_page(alloc, asked, &next.rows, place, &mut lines)?;
        number = number_after(next.after, next.rows.len())?;
    }
    Err(Fault::F20)
}

/// What the journal tells of a loan, in the order in which it was accepted, or None where no journal is kept.
pub fn changes_of_loan<S: Alter>(
    alloc: Global,
    store: &mut Store<S>,
    loan: Account,
) -> Result<Option<Listing<ChangeLine>>, Fault>
    ensures asks { MayAskTables S.Store store.old store.new result }
    ensures value { IsClean S.Store store.new → (i : Institution) → StandsFor S.Store store.old i
        → IfOk result (λ list. list ≡ loan_changes_at loan i) }
{
    let Some(begins) = store.journal_begins() else {
        return Ok(None);
    };
    let asked = Asked {
        office: loan.office,
        loan: Some(loan.number),
        after: 0,
        most: None,
    };
    let lines = told_from(alloc, store, begins, &asked)?;
    Ok(Some(lines))
}

/// The first 200 changes that the journal tells of an office and whose place among them is above one, or None where no
/// journal is kept. It reads the office's lines up to the last of them.
pub fn changes_after<S: Alter>(
    alloc: Global,
    store: &mut Store<S>,
    office: OfficeNo,
    after: u32,
) -> Result<Option<Listing<ChangeLine>>, Fault>
    ensures asks { MayAskTables S.Store store.old store.new result }
    ensures value { IsClean S.Store store.new → (i : Institution) → StandsFor S.Store store.old i
        → IfOk result (λ list. list ≡ changes_at office after i) }
{
    let Some(begins) = store.journal_begins() else {
        return Ok(None);
    };
    let asked = Asked {
        office,
        loan: None,
        after,
        most: Some(PAGE),
    };
    let lines = told_from(alloc, store, begins, &asked)?;
    Ok(Some(lines))
}
