//! A store that gives up at one call.

use super::{new_books, replies};
use mf_desk_books::streams::{BRANCHES, BRANCHES_REPLIES};
use std::alloc::{AllocError, Global};
use std::test::Fail;

/// Which line was refused when out of memory, if one was.
fn refused_line(replies: &[u8]) -> Option<usize> {
    replies
        .split(|b| *b == b'\n')
        .position(|reply| reply == b"503 {\"fault\":\"F20\"}".as_slice())
}

/// The lines of a text without one of them.
fn without(alloc: Global, text: &[u8], place: usize) -> Result<Vec<u8>, AllocError> {
    let mut kept = Vec::new(alloc);
    for (at, line) in text.split(|b| *b == b'\n').enumerate() {
        if at != place && !line.is_empty() {
            kept.extend_from_slice(line)?;
            kept.push(b'\n')?;
        }
    }
    Ok(kept)
}

/// The replies where the store gives up after so many calls.
fn told_after(alloc: Global, calls: u32) -> Result<Vec<u8>, Fail> {
    let mut books = new_books(alloc)?;
    books.refuse_after(calls);
    Ok(replies(alloc, &mut books, BRANCHES.as_bytes())?.1)
}

/// Whether the other lines get the same replies where the refused one isn't sent.
fn is_as_not_sent(alloc: Global, told: &[u8], place: usize) -> Result<bool, Fail> {
    let mut books = new_books(alloc)?;
    let others = without(alloc, BRANCHES.as_bytes(), place)?;
    let (_, right) = replies(alloc, &mut books, others.as_slice())?;
    Ok(without(alloc, told, place)?.as_slice() == right.as_slice())
}

/// Each call of the store gives up in turn: the line is refused and is as one not sent, and the next line is served.
#[test]
fn a_line_refused_by_the_store_is_as_one_not_sent(rt: HostRuntime) -> Result<(), Fail> {
    for calls in 0..1000 {
        let told = told_after(rt.alloc(), calls)?;
        let Some(place) = refused_line(told.as_slice()) else {
            assert!(rt; calls > 20);
            assert_eq!(rt; told.as_slice(), BRANCHES_REPLIES.as_bytes());
            return Ok(());
        };
        assert!(rt;
            is_as_not_sent(rt.alloc(), told.as_slice(), place)?,
            "{calls}"
        );
    }
    Err(Fail::from("every run was refused"))
}
