//! A store is given back, its tables are changed or not, and they are adopted again.

ghost use Rattle.std.specs.Prelude.{◌≡◌, false};

use super::{Trial, answered_over, holds, refused_over};
use mf_base::{Day, Fault};
use mf_office::OfficeNo;
use mf_store::Store;
use mf_store_audit::audit_tables;
use mf_store_files::adopt;
use mf_store_schema::Unfollowed;
use microloan_audit::audit_text;
use sqlite::{Alter, Connection, Error};
use std::alloc::Global;
use std::rt::HostRuntime;
use std::test::Fail;

/// An institution with rows in each table.
pub(super) const INSTITUTION: &str = "\
1/1 POST /offices {\"number\":2,\"parent\":1,\"name\":\"North\"}\n\
1/1 POST /staff {\"office\":2,\"name\":\"Ben\",\"role\":\"officer\"}\n\
1/1 POST /charges {\"name\":\"Visit\",\"kind\":\"due-date\",\"calc\":\"flat\",\"value\":500}\n\
1/1 POST /products {\"name\":\"P\",\"method\":\"declining-equal-principal\",\"rate\":1200,\"frequency\":\"months\",\
\"every\":1,\"principal_grace\":0,\"interest_grace\":0,\"min_principal\":1,\"max_principal\":1000000,\
\"min_periods\":1,\"max_periods\":12,\"strategy\":\"mifos-standard-strategy\"}\n\
1/1 PUT /business-day {\"day\":\"2024-02-01\"}\n\
1/1 POST /clients {\"office\":1,\"name\":\"Amina\"}\n\
1/1 POST /loans {\"client\":\"0001-000001\",\"product\":1,\"principal\":100000,\"periods\":3}\n\
1/1 POST /loans/0001-000001/approve\n\
1/1 POST /loans/0001-000001/disburse {\"day\":\"2024-02-01\"}\n\
1/1 PUT /business-day {\"day\":\"2024-03-31\"}\n\
1/1 POST /loans/0001-000001/repayments {\"amount\":20000,\"day\":\"2024-02-29\",\"receipt\":\"R-1\"}\n\
1/1 POST /loans/0001-000001/repayments {\"amount\":50000,\"day\":\"2024-03-31\"}\n";

/// What comes after: an office below, more clients, and what is left of the loan.
const MORE: &str = "\
1/1 POST /offices {\"number\":3,\"parent\":2,\"name\":\"Mill\"}\n\
1/1 POST /clients {\"office\":2,\"name\":\"Musa\"}\n\
1/1 POST /clients {\"office\":2,\"name\":\"Sara\"}\n\
1/1 POST /clients {\"office\":3,\"name\":\"Omar\"}\n\
1/1 POST /loans/0001-000001/repayments {\"amount\":32000,\"day\":\"2024-03-31\"}\n";

/// Changes of a row, each of which leaves what no institution has, of how many rows, and what an audit says of them.
const CHANGES: [(&str, usize, &str); 52] = [
    ("DELETE FROM meta", 1, "meta: 0 rows, and not one"),
    (
        "UPDATE meta SET schema = 1",
        1,
        "meta: its schema is not that of these tables",
    ),
    (
        "UPDATE meta SET schema = 3",
        1,
        "meta: its schema is not that of these tables",
    ),
    (
        "UPDATE meta SET day = '2024-02-30'",
        1,
        "meta: its business day is no day up to 2099-12-31",
    ),
    (
        "UPDATE meta SET day = '2100-01-01'",
        1,
        "meta: its business day is no day up to 2099-12-31",
    ),
    (
        "UPDATE meta SET day = '2024-03-30'",
        1,
        "entries 0001-000001 entry 2: its day is after the business day",
    ),
    (
        "UPDATE offices SET parent = 2 WHERE number = 1",
        1,
        "offices 1: the head office has a parent, 2",
    ),
    (
        "UPDATE offices SET parent = 77 WHERE number = 2",
        1,
        "offices 2: its parent 77 is not there",
    ),
    (
        "UPDATE offices SET parent = 2 WHERE number = 2",
        1,
        "offices 2: hierarchy text \".2.\", its parent gives \".2.2.\"",
    ),
    (
        "UPDATE offices SET hkey = '.3.' WHERE number = 2",
        1,
        "offices 2: hierarchy text \".3.\", its parent gives \".2.\"",
    ),
    (
        "UPDATE offices SET name = '' WHERE number = 2",
        1,
        "offices 2: its name is not 1 to 100 characters, none of them a control character",
    ),
    (
        "UPDATE staff SET role = 4 WHERE office = 2",
        1,
        "staff 2/1: its role is not 1 to 3",
    ),
    (
        "UPDATE staff SET role = 4294967297 WHERE office = 2",
        1,
        "staff 2 1: a number that is not 0 to 4294967295",
    ),
    (
        "UPDATE staff SET number = 2 WHERE office = 2",
        1,
        "staff 2/2: its number is not the next after that of the row before it",
    ),
    (
        "INSERT INTO staff VALUES (77, 1, 'Ghost', 1)",
        1,
        "staff 77/1: its office is not there",
    ),
    (
        "UPDATE clients SET number = 2",
        1,
        "clients 0001-000002: its number is not the next after that of the row before it",
    ),
    (
        "UPDATE clients SET number = -1",
        1,
        "clients 1 -1: a number that is not 0 to 4294967295",
    ),
    (
        "UPDATE clients SET office = 77",
        1,
        "clients 0077-000001: its office is not there",
    ),
    (
        "UPDATE charges SET number = 2",
        1,
        "charges 2: its number is not the next after that of the row before it",
    ),
    (
        "UPDATE charges SET kind = 5",
        1,
        "charges 1: its kind is not 1 to 4",
    ),
    (
        "UPDATE charges SET value = 0",
        1,
        "charges 1: its value is not 1 to 1000000000000 cents, or 1 to 10000 hundredths of a percent",
    ),
    (
        "UPDATE products SET overdue_charge = 1",
        1,
        "products 1: its charge for an overdue instalment is not there, or is of another kind",
    ),
    (
        "UPDATE products SET overdue_charge = 2",
        1,
        "products 1: its charge for an overdue instalment is not there, or is of another kind",
    ),
    (
        "UPDATE products SET rate = 100001",
        1,
        "products 1: its rate is above 100000 hundredths of a percent",
    ),
    (
        "UPDATE products SET min_principal = 1000001",
        1,
        "products 1: its least principal is above its greatest",
    ),
    (
        "UPDATE products SET retired = 2",
        1,
        "products 1: it is neither retired (1) nor not (0)",
    ),
    (
        "UPDATE loans SET number = 2",
        1,
        "loans 0001-000002: its number is not the next after that of the row before it",
    ),
    (
        "UPDATE loans SET principal = 1000001",
        1,
        "loans 0001-000001: its product lends at most 1000000 cents",
    ),
    (
        "UPDATE loans SET periods = 13",
        1,
        "loans 0001-000001: its product lends at most 12 periods",
    ),
    (
        "UPDATE loans SET client = 2",
        1,
        "loans 0001-000001: its client 2 is not there",
    ),
    (
        "UPDATE loans SET product = 2",
        1,
        "loans 0001-000001: its product 2 is not there",
    ),
    (
        "UPDATE loans SET stage = 250",
        1,
        "loans 0001-000001: its status 250 is none",
    ),
    (
        "UPDATE loans SET stage = 200, disbursed = NULL",
        1,
        "entries 0001-000001 entry 1: its loan is not disbursed",
    ),
    (
        "UPDATE loans SET disbursed = NULL",
        1,
        "loans 0001-000001: its day of disbursement does not fit its status, or is no day",
    ),
    (
        "UPDATE loans SET approved = '2024-02-02'",
        1,
        "loans 0001-000001: its days are out of order, or after the business day",
    ),
    (
        "UPDATE loans SET disbursed = '2024-03-01'",
        1,
        "entries 0001-000001 entry 1: its day is before its loan's disbursement",
    ),
    (
        "UPDATE entries SET seq = 9 WHERE seq = 2",
        1,
        "entries 0001-000001 entry 9: its number is not the next after that of the row before it",
    ),
    (
        "UPDATE entries SET kind = 7 WHERE seq = 2",
        1,
        "entries 0001-000001 entry 2: its kind is not 1 to 6",
    ),
    (
        "UPDATE entries SET amount = 0 WHERE seq = 2",
        1,
        "entries 0001-000001 entry 2: its amount, instalment, \
         portion and receipt are not those of an entry of its kind",
    ),
    (
        "UPDATE entries SET day = '2024-01-31' WHERE seq = 1",
        1,
        "entries 0001-000001 entry 1: its day is before its loan's disbursement",
    ),
    (
        "UPDATE entries SET day = '2024-04-01' WHERE seq = 2",
        1,
        "entries 0001-000001 entry 2: its day is after the business day",
    ),
    (
        "UPDATE entries SET staff = '1/9' WHERE seq = 2",
        1,
        "entries 0001-000001 entry 2: the member of staff who entered it is not there",
    ),
    (
        "UPDATE entries SET reversed = 1 WHERE seq = 2",
        1,
        "instalments 0001-000001 instalment 1: not what replaying the entries gives",
    ),
    (
        "UPDATE entries SET receipt = 'R-2' WHERE seq = 2",
        1,
        "entries 0001-000001 entry 2: its receipt is not among the receipts as this entry's",
    ),
    (
        "DELETE FROM receipts",
        1,
        "entries 0001-000001 entry 1: its receipt is not among the receipts as this entry's",
    ),
    (
        "UPDATE receipts SET seq = 2",
        1,
        "entries 0001-000001 entry 1: its receipt is not among the receipts as this entry's",
    ),
    (
        "UPDATE instalments SET paid_principal = 1 WHERE number = 1",
        1,
        "instalments 0001-000001 instalment 1: not what replaying the entries gives",
    ),
    (
        "UPDATE instalments SET due = '2024-03-02' WHERE number = 1",
        1,
        "instalments 0001-000001 instalment 1: not what replaying the entries gives",
    ),
    (
        "DELETE FROM instalments WHERE number = 3",
        1,
        "instalments 0001-000001 instalment 3: not what replaying the entries gives",
    ),
    (
        "UPDATE shares SET amount = 1 WHERE seq = 1 AND place = 1",
        1,
        "shares 0001-000001 entry 1: not what replaying the entries gives",
    ),
    (
        "DELETE FROM shares WHERE seq = 1 AND place = 1",
        1,
        "shares 0001-000001 entry 1: not what replaying the entries gives",
    ),
    (
        "UPDATE shares SET place = 9 WHERE seq = 1 AND place = 2",
        1,
        "shares 0001-000001 entry 1: not what replaying the entries gives",
    ),
];

/// Changes that come after these lines too. Each leaves what no institution has: a client whom another office alone
/// has, two offices each below the other, the amounts of two entries or of two shares swapped, and a write-off that
/// stands with a refund after it, though nothing was left to write off or to refund.
const LATER_CHANGES: [(&str, usize, &str); 5] = [
    (
        "UPDATE loans SET client = 2",
        1,
        "loans 0001-000001: its client 2 is not there",
    ),
    (
        "UPDATE offices SET parent = 5 - number WHERE number > 1",
        2,
        "offices 2: hierarchy text \".2.\", its parent gives \".2.3.2.\"",
    ),
    (
        "UPDATE entries SET amount = 70000 - amount WHERE seq < 3",
        2,
        "shares 0001-000001 entry 1: not what replaying the entries gives",
    ),
    (
        "UPDATE shares SET amount = 20000 - amount WHERE seq = 1",
        2,
        "shares 0001-000001 entry 1: not what replaying the entries gives",
    ),
    (
        "INSERT INTO entries VALUES (1, 1, 4, 5, '2024-03-31', 0, 0, 4, NULL, '1/1', 0), \
(1, 1, 5, 6, '2024-03-31', 0, 0, 4, NULL, '1/1', 0)",
        2,
        "entries 0001-000001 entry 4: a write-off or refund that stands, and another standing entry comes after it",
    ),
];

/// Each table whole.
const TABLES: [&str; 11] = [
    "SELECT * FROM meta",
    "SELECT * FROM offices",
    "SELECT * FROM staff",
    "SELECT * FROM charges",
    "SELECT * FROM products",
    "SELECT * FROM clients",
    "SELECT * FROM loans",
    "SELECT * FROM entries",
    "SELECT * FROM receipts",
    "SELECT * FROM instalments",
    "SELECT * FROM shares",
];

/// The business day is set, and the tables are adopted again on an earlier one.
#[derive(Drop)]
struct DaySet;

impl Trial for DaySet {
    fn holds<S: Alter + Drop>(
        &self,
        alloc: Global,
        connection: Connection<S>,
    ) -> Result<bool, Fail> {
        let set = b"1/1 PUT /business-day {\"day\":\"2024-03-31\"}\n";
        let (_, tables) = answered_over(alloc, connection, set);
        let (told, _) = answered_over(alloc, tables, b"1/1 GET /business-day\n");
        Ok(told.as_slice() == "200 {\"day\":\"2024-03-31\"}\n".as_bytes())
    }
}

#[test]
fn the_old_day_stands(rt: HostRuntime) -> Result<(), Fail> {
    assert!(rt; holds(rt.alloc(), &DaySet)?);
    Ok(())
}

/// The staff, the clients and the loans of an office, with how many entries each loan has.
fn office_told<S: Alter>(
    alloc: Global,
    store: &mut Store<S>,
    office: OfficeNo,
) -> Result<String, Fault> {
    let rows = store.office_rows(alloc, office)?;
    let mut text = String::new(alloc);
    for member in rows.staff() {
        let (name, role) = (member.name.as_str(), member.role);
        write!(text, "{name} {role:?};")?;
    }
    for client in rows.clients() {
        let name = client.as_str();
        write!(text, "{name};")?;
    }
    for loan in rows.loans() {
        let (principal, entries) = (loan.loan.principal, loan.entries.len());
        write!(text, "{principal} {entries};")?;
    }
    Ok(text)
}

/// The rows of the head office are read whole.
#[derive(Drop)]
struct HeadOffice;

impl Trial for HeadOffice {
    fn holds<S: Alter + Drop>(
        &self,
        alloc: Global,
        connection: Connection<S>,
    ) -> Result<bool, Fail> {
        let (_, tables) = answered_over(alloc, connection, INSTITUTION.as_bytes());
        let day = Day::parse(b"2024-01-31").ok_or("a day")?;
        let office = OfficeNo::new(1).ok_or("an office")?;
        let Ok(mut store) = adopt(alloc, tables, day, &mut Unfollowed) else {
            return Ok(false);
        };
        let told = office_told(alloc, &mut store, office)?;
        Ok(told.as_str() == "Head Manager Manager;Amina;100000 2;")
    }
}

#[test]
fn the_rows_of_an_office(rt: HostRuntime) -> Result<(), Fail> {
    assert!(rt; holds(rt.alloc(), &HeadOffice)?);
    Ok(())
}

/// All rows of the tables, as a text.
fn show<S: Alter>(alloc: Global, connection: &mut Connection<S>) -> Result<String, Error> {
    let mut text = String::new(alloc);
    for table in TABLES {
        let rows = connection.query_all(table, &[])?;
        write!(text, "{rows:?};")?;
    }
    Ok(text)
}

/// The institution of these lines is adopted again, and refused once so many rows are changed so; an audit says which
/// row breaks which condition, and all rows then stand as they were.
#[derive(Drop)]
struct Refusal<'a> {
    lines: &'a str,
    change: &'static str,
    rows: usize,
    found: &'static str,
}

/// What an audit says of the tables of a connection, in its first line.
fn first_line_of_audit<S: Alter>(
    alloc: Global,
    connection: &mut Connection<S>,
) -> Result<String, Fault>
    requires alone { connection.old.in_transaction ≡ false }
    ensures mode { connection.new.in_transaction ≡ false }
{
    let found = audit_tables(alloc, connection, false, &mut Unfollowed)?;
    audit_text(alloc, &found)
}

impl Trial for Refusal<'_> {
    fn holds<S: Alter + Drop>(
        &self,
        alloc: Global,
        connection: Connection<S>,
    ) -> Result<bool, Fail> {
        let (replies, connection) = answered_over(alloc, connection, self.lines.as_bytes());
        let (refused, mut connection) = refused_over(alloc, connection);
        let changed = connection.execute(self.change, &[])?;
        let before = show(alloc, &mut connection)?;
        if replies.is_empty() || refused || changed != self.rows || !connection.is_autocommit() {
            return Ok(false);
        }
        let (refused, mut connection) = refused_over(alloc, connection);
        if !connection.is_autocommit() {
            return Ok(false);
        }
        let said = first_line_of_audit(alloc, &mut connection)?;
        let wanted = format!(in alloc; "audit: {}\n", self.found)?;
        let after = show(alloc, &mut connection)?;
        Ok(refused && said.as_str() == wanted.as_str() && before.as_str() == after.as_str())
    }
}

/// The first of the changes that is not refused after these lines.
fn first_kept(
    alloc: Global,
    lines: &str,
    changes: &[(&'static str, usize, &'static str)],
) -> Result<Option<&'static str>, Fail> {
    for (change, rows, found) in changes {
        let (change, rows, found) = (*change, *rows, *found);
        let refusal = Refusal {
            lines,
            change,
            rows,
            found,
        };
        if !holds(alloc, &refusal)? {
            return Ok(Some(change));
        }
    }
    Ok(None)
}

#[test]
fn each_changed_row_is_refused_and_named(rt: HostRuntime) -> Result<(), Fail> {
    let kept = first_kept(rt.alloc(), INSTITUTION, &CHANGES)?;
    assert!(rt; kept.is_none(), "{kept:?}");
    let lines = format!(in rt.alloc(); "{INSTITUTION}{MORE}")?;
    let kept = first_kept(rt.alloc(), lines.as_str(), &LATER_CHANGES)?;
    assert!(rt; kept.is_none(), "{kept:?}");
    Ok(())
}

/// Changes of the tables themselves: one more, a view, an index, a table that takes any value, and one with a column
/// more or with a column that may be NULL.
const SHAPES: [&str; 6] = [
    "CREATE TABLE more (number INTEGER) STRICT",
    "CREATE VIEW more AS SELECT number FROM clients",
    "CREATE INDEX more ON clients (name)",
    "DROP TABLE shares; CREATE TABLE shares (office INTEGER NOT NULL, loan INTEGER NOT NULL, seq INTEGER NOT NULL, \
     place INTEGER NOT NULL, instalment INTEGER NOT NULL, portion INTEGER NOT NULL, how INTEGER NOT NULL, \
     amount INTEGER NOT NULL, PRIMARY KEY (office, loan, seq, place))",
    "DROP TABLE shares; CREATE TABLE shares (office INTEGER NOT NULL, loan INTEGER NOT NULL, seq INTEGER NOT NULL, \
     place INTEGER NOT NULL, instalment INTEGER NOT NULL, portion INTEGER NOT NULL, how INTEGER NOT NULL, \
     amount INTEGER NOT NULL, more INTEGER, PRIMARY KEY (office, loan, seq, place)) STRICT",
    "DROP TABLE shares; CREATE TABLE shares (office INTEGER NOT NULL, loan INTEGER NOT NULL, seq INTEGER NOT NULL, \
     place INTEGER NOT NULL, instalment INTEGER NOT NULL, portion INTEGER NOT NULL, how INTEGER NOT NULL, \
     amount INTEGER, PRIMARY KEY (office, loan, seq, place)) STRICT",
];

/// A new institution, whose table of shares has no rows, is refused once its tables are others.
#[derive(Drop)]
struct OtherTables {
    change: &'static str,
}

impl Trial for OtherTables {
    fn holds<S: Alter + Drop>(
        &self,
        alloc: Global,
        connection: Connection<S>,
    ) -> Result<bool, Fail> {
        let (_, connection) = answered_over(alloc, connection, b"");
        let (refused, mut connection) = refused_over(alloc, connection);
        connection.execute_batch(self.change)?;
        if refused || !connection.is_autocommit() {
            return Ok(false);
        }
        let (refused, _) = refused_over(alloc, connection);
        Ok(refused)
    }
}

#[test]
fn other_tables_are_refused(rt: HostRuntime) -> Result<(), Fail> {
    for change in SHAPES {
        let tables = OtherTables { change };
        assert!(rt; holds(rt.alloc(), &tables)?, "{change}");
    }
    Ok(())
}
