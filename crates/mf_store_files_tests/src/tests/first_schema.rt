//! Tables of the first schema, as the program made them before it kept instalments, are adopted.

ghost use Rattle.std.specs.Prelude.{◌≡◌, false, IsTrue, IfOk};

use super::stops::{MOST_CALLS, PAID, answer, failing_at, stop};
use super::{Failing, Trial, answered_over, holds, refused_over};
use sqlite::{Alter, Connection, Error, Files, Options};
use sqlite_disk::{Fuse, Memory};
use std::alloc::Global;
use std::rt::HostRuntime;
use std::test::Fail;

/// Makes the tables, with a loan of 100000 cents over three months, of which 20000 and 50000 cents were paid back.
const FIRST: &str = "\
BEGIN; \
CREATE TABLE meta (one INT NOT NULL, schema INTEGER NOT NULL, day TEXT NOT NULL, PRIMARY KEY (one)) STRICT; \
CREATE TABLE offices (number INT NOT NULL, parent INTEGER, hkey TEXT NOT NULL UNIQUE, name TEXT NOT NULL, PRIMARY KEY \
(number)) STRICT; \
CREATE TABLE staff (office INTEGER NOT NULL, number INTEGER NOT NULL, name TEXT NOT NULL, role INTEGER NOT NULL, \
PRIMARY KEY (office, number)) STRICT; \
CREATE TABLE clients (office INTEGER NOT NULL, number INTEGER NOT NULL, name TEXT NOT NULL, PRIMARY KEY (office, \
number)) STRICT; \
CREATE TABLE charges (number INT NOT NULL, name TEXT NOT NULL, kind INTEGER NOT NULL, calc INTEGER NOT NULL, value \
INTEGER NOT NULL, PRIMARY KEY (number)) STRICT; \
CREATE TABLE products (number INT NOT NULL, name TEXT NOT NULL, method INTEGER NOT NULL, rate INTEGER NOT NULL, \
frequency INTEGER NOT NULL, every INTEGER NOT NULL, principal_grace INTEGER NOT NULL, interest_grace INTEGER NOT NULL, \
min_principal INTEGER NOT NULL, max_principal INTEGER NOT NULL, min_periods INTEGER NOT NULL, max_periods INTEGER NOT \
NULL, strategy INTEGER NOT NULL, disbursement_charge INTEGER, instalment_charge INTEGER, overdue_charge INTEGER, \
retired INTEGER NOT NULL, PRIMARY KEY (number)) STRICT; \
CREATE TABLE loans (office INTEGER NOT NULL, number INTEGER NOT NULL, client INTEGER NOT NULL, product INTEGER NOT \
NULL, principal INTEGER NOT NULL, periods INTEGER NOT NULL, stage INTEGER NOT NULL, approved TEXT, disbursed TEXT, \
PRIMARY KEY (office, number)) STRICT; \
CREATE TABLE entries (office INTEGER NOT NULL, loan INTEGER NOT NULL, seq INTEGER NOT NULL, kind INTEGER NOT NULL, day \
TEXT NOT NULL, amount INTEGER NOT NULL, instalment INTEGER NOT NULL, portion INTEGER NOT NULL, receipt TEXT, staff \
TEXT NOT NULL, reversed INTEGER NOT NULL, PRIMARY KEY (office, loan, seq)) STRICT; \
CREATE TABLE receipts (office INTEGER NOT NULL, receipt TEXT NOT NULL, loan INTEGER NOT NULL, seq INTEGER NOT NULL, \
PRIMARY KEY (office, receipt)) STRICT; \
INSERT INTO meta VALUES (1, 1, '2024-03-31'); \
INSERT INTO offices VALUES (1, NULL, '.', 'Head Office'); \
INSERT INTO staff VALUES (1, 1, 'Head Manager', 3); \
INSERT INTO products VALUES (1, 'P', 2, 1200, 2, 1, 0, 0, 1, 1000000, 1, 12, 1, NULL, NULL, NULL, 0); \
INSERT INTO clients VALUES (1, 1, 'Amina'); \
INSERT INTO loans VALUES (1, 1, 1, 1, 100000, 3, 300, '2024-01-31', '2024-01-31'); \
INSERT INTO entries VALUES (1, 1, 1, 1, '2024-02-29', 20000, 0, 4, NULL, '1/1', 0); \
INSERT INTO entries VALUES (1, 1, 2, 1, '2024-03-31', 50000, 0, 4, NULL, '1/1', 0); \
COMMIT";

/// What the repayments settle: the entry, the place, the instalment, the portion, how, and the cents.
const SHARES: [[i64; 6]; 7] = [
    [1, 1, 1, 3, 1, 1000],
    [1, 2, 1, 4, 1, 19000],
    [2, 1, 1, 4, 1, 14333],
    [2, 2, 2, 3, 1, 667],
    [2, 3, 2, 4, 1, 33333],
    [2, 4, 3, 3, 1, 333],
    [2, 5, 3, 4, 1, 1334],
];

/// The instalments of the loan: its office, its number and the instalment's; for penalties, fees, interest and
/// principal what is owed, paid, waived and written off; and the day on which it is due.
const INSTALMENTS: [([i64; 19], &str); 3] = [
    (
        [
            1, 1, 1, 0, 0, 0, 0, 0, 0, 0, 0, 1000, 1000, 0, 0, 33333, 33333, 0, 0,
        ],
        "2024-02-29",
    ),
    (
        [
            1, 1, 2, 0, 0, 0, 0, 0, 0, 0, 0, 667, 667, 0, 0, 33333, 33333, 0, 0,
        ],
        "2024-03-31",
    ),
    (
        [
            1, 1, 3, 0, 0, 0, 0, 0, 0, 0, 0, 333, 333, 0, 0, 33334, 1334, 0, 0,
        ],
        "2024-04-30",
    ),
];

const LOAN: &[u8] = b"1/1 GET /loans/0001-000001\n";

/// Whether the tables could be made.
fn makes_first<S: Alter>(connection: &mut Connection<S>) -> bool
    ensures { IsTrue result → connection.new.in_transaction ≡ false }
{
    connection.execute_batch(FIRST).is_ok() && connection.is_autocommit()
}

fn number<S: Alter>(connection: &mut Connection<S>, sql: &str) -> Result<i64, Error>
    ensures { connection.old.in_transaction ≡ false → connection.new.in_transaction ≡ false }
{
    connection.query_row(sql, &[])?.get(0)
}

/// Whether the table of shares holds just those of the two repayments.
fn has_shares<S: Alter>(connection: &mut Connection<S>) -> Result<bool, Error>
    ensures { connection.old.in_transaction ≡ false → connection.new.in_transaction ≡ false }
{
    let rows = connection.query_all(
        "SELECT seq, place, instalment, portion, how, amount FROM shares ORDER BY seq, place",
        &[],
    )?;
    for (row, wanted) in rows.iter().zip(SHARES.iter()) {
        for (at, column) in wanted.iter().enumerate() {
            let found: i64 = row.get(at)?;
            if found != *column {
                return Ok(false);
            }
        }
    }
    Ok(rows.len() == SHARES.len())
}

/// Whether the table of instalments holds just those of the loan.
fn has_instalments<S: Alter>(connection: &mut Connection<S>) -> Result<bool, Error>
    ensures { connection.old.in_transaction ≡ false → connection.new.in_transaction ≡ false }
{
    let rows = connection.query_all(
        "SELECT office, loan, number, owed_penalty, paid_penalty, waived_penalty, written_off_penalty, owed_fee, \
paid_fee, waived_fee, written_off_fee, owed_interest, paid_interest, waived_interest, written_off_interest, \
owed_principal, paid_principal, waived_principal, written_off_principal, due \
FROM instalments ORDER BY office, loan, number",
        &[],
    )?;
    for (row, wanted) in rows.iter().zip(INSTALMENTS.iter()) {
        for (at, column) in wanted.0.iter().enumerate() {
            let found: i64 = row.get(at)?;
            if found != *column {
                return Ok(false);
            }
        }
        let due: String = row.get(19)?;
        if due.as_str() != wanted.1 {
            return Ok(false);
        }
    }
    Ok(rows.len() == INSTALMENTS.len())
}

/// Whether the loan is told as it was paid back, and the tables are those of the second schema with its instalments and
/// shares.
fn is_brought_up<S: Alter + Drop>(
    alloc: Global,
    connection: Connection<S>,
) -> Result<(bool, Connection<S>), Error>
    requires { connection.in_transaction ≡ false }
    ensures { IfOk result (λ r. r.1.in_transaction ≡ false) }
{
    let (told, mut connection) = answered_over(alloc, connection, LOAN);
    let schema = number(&mut connection, "SELECT schema FROM meta")?;
    let instalments = has_instalments(&mut connection)?;
    let shares = has_shares(&mut connection)?;
    Ok((
        told.as_slice() == PAID.as_bytes() && schema == 2 && instalments && shares,
        connection,
    ))
}

/// The tables are brought up, and adopted again they are those of the second schema as before.
#[derive(Drop)]
struct BroughtUp;

impl Trial for BroughtUp {
    fn holds<S: Alter + Drop>(
        &self,
        alloc: Global,
        mut connection: Connection<S>,
    ) -> Result<bool, Fail> {
        if !makes_first(&mut connection) {
            return Ok(false);
        }
        let (is_first, connection) = is_brought_up(alloc, connection)?;
        let (is_second, _) = is_brought_up(alloc, connection)?;
        Ok(is_first && is_second)
    }
}

#[test]
fn tables_are_brought_up_once(rt: HostRuntime) -> Result<(), Fail> {
    assert!(rt; holds(rt.alloc(), &BroughtUp)?);
    Ok(())
}

/// The tables are refused once they are changed so, and then stand as they were.
#[derive(Drop)]
struct Refusal(&'static str);

impl Trial for Refusal {
    fn holds<S: Alter + Drop>(
        &self,
        alloc: Global,
        mut connection: Connection<S>,
    ) -> Result<bool, Fail> {
        if !makes_first(&mut connection) {
            return Ok(false);
        }
        let _changed = connection.execute(self.0, &[])?;
        if !connection.is_autocommit() {
            return Ok(false);
        }
        let schema = number(&mut connection, "SELECT schema FROM meta")?;
        let (refused, mut connection) = refused_over(alloc, connection);
        let after = number(&mut connection, "SELECT schema FROM meta")?;
        Ok(refused && after == schema && connection.schema().tables.len() == 9)
    }
}

/// Changes of a row, each of which leaves what no institution of the first schema has.
const CHANGES: [&str; 5] = [
    "UPDATE entries SET staff = '1/9' WHERE seq = 2",
    "UPDATE meta SET schema = 3",
    "UPDATE meta SET schema = 2",
    "UPDATE offices SET hkey = '.1.'",
    "UPDATE entries SET day = '2024-04-01' WHERE seq = 2",
];

#[test]
fn rows_of_no_institution_are_refused(rt: HostRuntime) -> Result<(), Fail> {
    for change in CHANGES {
        assert!(rt; holds(rt.alloc(), &Refusal(change))?, "{change}");
    }
    Ok(())
}

/// The files with the tables, and whether these were made before a file failed.
fn with_first<D: Failing>(alloc: Global, files: Files<D>) -> Result<(bool, Files<D>), Fail> {
    if !files.log.may_be_used() || !files.db.may_be_used() {
        return Err(Fail::new("a file that can be used"));
    }
    match Connection::open_files(alloc, files, Options::new(1)) {
        Ok(mut connection) => {
            let made = makes_first(&mut connection);
            Ok((made, connection.into_store().close()))
        }
        Err((_, left)) => Ok((false, left.into_files())),
    }
}

/// Whether the files, stopped where they failed, hold the loan if its tables were made; and whether they were adopted.
fn holds_a_schema<D: Failing>(alloc: Global, files: Files<D>) -> Result<(bool, bool), Fail> {
    let (made, files) = with_first(alloc, files)?;
    if !made {
        let (seen, _) = answer(alloc, stop(files), LOAN)?;
        return Ok((!seen.is_empty(), false));
    }
    let (told, files) = answer(alloc, files, LOAN)?;
    let (seen, _) = answer(alloc, stop(files), LOAN)?;
    Ok((seen.as_slice() == PAID.as_bytes(), !told.is_empty()))
}

/// Whether each stop of the log, or of the file with the tables, leaves a schema, up to a run without a stop.
fn leave_schemas<D: Failing>(alloc: Global, of_log: bool) -> Result<bool, Fail> {
    for calls in 0..MOST_CALLS {
        let files = failing_at::<D>(alloc, of_log, calls);
        let (holds, is_adopted) = holds_a_schema(alloc, files)?;
        if !holds || is_adopted {
            return Ok(holds);
        }
    }
    Ok(false)
}

#[test]
fn each_stop_leaves_a_schema(rt: HostRuntime) -> Result<(), Fail> {
    assert!(rt; leave_schemas::<Fuse<Memory>>(rt.alloc(), true)?);
    assert!(rt; leave_schemas::<Fuse<Memory>>(rt.alloc(), false)?);
    Ok(())
}
