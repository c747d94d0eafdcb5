//! A stop at each call of each file, while an institution is made and its first requests are answered.

use super::{Failing, answered_over, fuse};
use sqlite::{Connection, Files, Options};
use sqlite_disk::{Fuse, Memory};
use std::alloc::Global;
use std::rt::HostRuntime;
use std::test::Fail;

/// A loan is paid out, two repayments are entered, and the first is reversed.
const LINES: [&str; 9] = [
    "1/1 POST /products {\"name\":\"P\",\"method\":\"declining-equal-principal\",\"rate\":1200,\
\"frequency\":\"months\",\"every\":1,\"principal_grace\":0,\"interest_grace\":0,\"min_principal\":1,\
\"max_principal\":1000000,\"min_periods\":1,\"max_periods\":12,\"strategy\":\"mifos-standard-strategy\"}\n",
    "1/1 POST /clients {\"office\":1,\"name\":\"Amina\"}\n",
    "1/1 POST /loans {\"client\":\"0001-000001\",\"product\":1,\"principal\":100000,\"periods\":3}\n",
    "1/1 POST /loans/0001-000001/approve\n",
    "1/1 POST /loans/0001-000001/disburse {\"day\":\"2024-01-31\"}\n",
    "1/1 PUT /business-day {\"day\":\"2024-03-31\"}\n",
    "1/1 POST /loans/0001-000001/repayments {\"amount\":20000,\"day\":\"2024-02-29\"}\n",
    "1/1 POST /loans/0001-000001/repayments {\"amount\":50000,\"day\":\"2024-03-31\"}\n",
    "1/1 POST /loans/0001-000001/entries/1/reverse\n",
];

/// What tells each row of the institution.
const SEEN: &str = "1/1 GET /offices\n\
1/1 GET /business-day\n\
1/1 GET /products/1\n\
1/1 GET /clients/0001-000001\n\
1/1 GET /loans/0001-000001\n\
1/1 GET /loans/0001-000001/schedule\n\
1/1 GET /loans/0001-000001/entries\n";

/// The loan after its two repayments.
pub(super) const PAID: &str =
    "200 {\"client\":\"0001-000001\",\"day\":\"2024-01-31\",\"disbursement_fee\":0,\"loan\":\"0001-000001\",\
\"outstanding\":{\"fees\":0,\"interest\":0,\"penalties\":0,\"principal\":32000},\"overpaid\":0,\
\"paid\":{\"fees\":0,\"interest\":2000,\"penalties\":0,\"principal\":68000},\"periods\":3,\
\"principal\":100000,\"product\":1,\"refunded\":0,\"status\":300,\
\"waived\":{\"fees\":0,\"interest\":0,\"penalties\":0,\"principal\":0},\
\"written_off\":{\"fees\":0,\"interest\":0,\"penalties\":0,\"principal\":0}}\n";

/// More calls of one file than these lines take.
pub(super) const MOST_CALLS: u64 = 100_000;

/// The replies to lines over what files hold, up to where they fail, and the files after.
pub(super) fn answer<D: Failing>(
    alloc: Global,
    mut files: Files<D>,
    lines: &[u8],
) -> Result<(Vec<u8>, Files<D>), Fail> {
    if !files.log.may_be_used() || !files.db.may_be_used() {
        return Err(Fail::new("a file that can be used"));
    }
    match Connection::open_files(alloc, files, Options::new(1)) {
        Ok(connection) => {
            let (replies, connection) = answered_over(alloc, connection, lines);
            Ok((replies, connection.into_store().close()))
        }
        Err((_, left)) => Ok((Vec::new(alloc), left.into_files())),
    }
}

/// The files after a stop: what was not synced is lost, and they work again.
pub(super) fn stop<D: Failing>(mut files: Files<D>) -> Files<D> {
    files.log.crash();
    files.db.crash();
    files
}

/// The first so many lines, in one.
fn first_lines(alloc: Global, count: usize) -> Result<Vec<u8>, Fail> {
    let mut lines = Vec::new(alloc);
    for line in LINES.iter().take(count) {
        lines.extend_from_slice(line.as_bytes())?;
    }
    Ok(lines)
}

/// What is told of the institution after each beginning of the lines, none and all among them.
fn beginnings<D: Failing>(alloc: Global) -> Result<Vec<Vec<u8>>, Fail> {
    let mut told = Vec::new(alloc);
    for count in 0..=LINES.len() {
        let lines = first_lines(alloc, count)?;
        let (_, files) = answer(alloc, fuse::<D>(alloc, u64::MAX, u64::MAX), &lines)?;
        let (seen, _) = answer(alloc, files, SEEN.as_bytes())?;
        told.push(seen)?;
    }
    Ok(told)
}

/// How many of the replies are successes.
fn successes(replies: &[u8]) -> usize {
    replies
        .split(|byte| *byte == b'\n')
        .filter(|reply| reply.starts_with(b"20"))
        .count()
}

/// Whether the files, stopped where they failed, hold each request that was answered, and at most the next one; and how
/// many were answered.
fn holds_a_beginning<D: Failing>(
    alloc: Global,
    told: &[Vec<u8>],
    files: Files<D>,
) -> Result<(bool, usize), Fail> {
    let lines = first_lines(alloc, LINES.len())?;
    let (replies, files) = answer(alloc, files, &lines)?;
    let (seen, _) = answer(alloc, stop(files), SEEN.as_bytes())?;
    let done = successes(&replies);
    let before = told.get(done).ok_or("as many beginnings")?;
    let is_next = match told.get(done + 1) {
        Some(next) => seen == *next,
        None => false,
    };
    Ok((seen == *before || is_next, done))
}

/// What is told of the loan once the files were closed and opened again.
fn told_again<D: Failing>(alloc: Global) -> Result<Vec<u8>, Fail> {
    let lines = first_lines(alloc, 8)?;
    let (_, files) = answer(alloc, fuse::<D>(alloc, u64::MAX, u64::MAX), &lines)?;
    let (told, _) = answer(alloc, files, b"1/1 GET /loans/0001-000001\n")?;
    Ok(told)
}

#[test]
fn a_closed_institution_is_opened_again(rt: HostRuntime) -> Result<(), Fail> {
    let told = told_again::<Fuse<Memory>>(rt.alloc())?;
    assert!(rt; told.as_slice() == PAID.as_bytes());
    Ok(())
}

/// Empty files of which the log, or the one with the tables, fails after so many calls.
pub(super) fn failing_at<D: Failing>(alloc: Global, of_log: bool, calls: u64) -> Files<D> {
    if of_log {
        fuse(alloc, calls, u64::MAX)
    } else {
        fuse(alloc, u64::MAX, calls)
    }
}

/// Whether each stop of the log, or of the file with the tables, leaves a beginning, up to a run without a stop.
fn leave_beginnings<D: Failing>(alloc: Global, of_log: bool) -> Result<bool, Fail> {
    let told = beginnings::<D>(alloc)?;
    for calls in 0..MOST_CALLS {
        let files = failing_at::<D>(alloc, of_log, calls);
        let (holds, done) = holds_a_beginning(alloc, &told, files)?;
        if !holds {
            return Ok(false);
        }
        if done == LINES.len() {
            return Ok(true);
        }
    }
    Ok(false)
}

#[test]
fn each_stop_leaves_a_beginning(rt: HostRuntime) -> Result<(), Fail> {
    assert!(rt; leave_beginnings::<Fuse<Memory>>(rt.alloc(), true)?);
    assert!(rt; leave_beginnings::<Fuse<Memory>>(rt.alloc(), false)?);
    Ok(())
}
