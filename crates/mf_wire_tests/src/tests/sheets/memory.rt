//! A sheet of which a request for memory is refused: `rt try --test --fail-alloc 1..` refuses each in turn.

use super::faults::{given_up_at, whole_records};
use super::{collect_sheet, lent, make_books, results, results_after};
use mf_base::{Cause, StreamFault};
use mf_desk_books::Books;
use mf_desk_books::streams::{ENTERED, SHEET};
use mf_office::Caller;
use mf_sheet::collect;
use mf_wire_lines::WatchedWriter;
use std::alloc::Global;
use std::io;
use std::io::Write;
use std::test::Fail;

/// Keeps what it is given, for which it has room from the start.
#[derive(Drop)]
struct Page {
    bytes: [u8; 256],
    taken: usize,
}

impl Page {
    fn new() -> Page {
        Page {
            bytes: [0; 256],
            taken: 0,
        }
    }

    fn text(&self) -> &[u8] {
        &self.bytes[..self.taken.min(256)]
    }
}

impl Write for Page {
    fn write(&mut self, buf: &[u8]) -> io::Result<usize> {
        let (Some(byte), Some(place)) = (buf.first(), self.bytes.get_mut(self.taken)) else {
            return Err(io::Error::from(io::ErrorKind::BrokenPipe));
        };
        *place = *byte;
        self.taken += 1;
        Ok(1)
    }

    fn flush(&mut self) -> io::Result<()> {
        Ok(())
    }
}

/// What a sheet ended with, and the text of its results.
#[derive(Drop)]
struct Ended {
    told: Result<(), StreamFault>,
    page: Page,
}

fn collected_once(alloc: Global, books: &mut Books, caller: Caller) -> Ended {
    let mut sink = WatchedWriter::new(Page::new());
    let told = collect(
        alloc,
        books,
        b"".as_slice(),
        caller,
        SHEET.as_bytes(),
        &mut sink,
    );
    Ended {
        told,
        page: sink.into_inner(),
    }
}

/// The results so far where so many lines were run: those of all lines, or F20 in the last; or, where there was no room
/// for the next record, the records before it. How many lines were run, where this is so.
fn lines_run(ended: &Ended) -> Option<usize> {
    let text = ended.page.text();
    let records = whole_records(text);
    match ended.told {
        Ok(()) => (0..4).find(|place| text == given_up_at(*place).as_bytes()),
        Err(
            StreamFault {
                answered,
                cause: Cause::Memory,
            },
        ) => {
            let is_whole = text.is_empty() || text.ends_with(b"\n");
            let results = records.saturating_sub(1);
            let is_so = is_whole
                && ENTERED.as_bytes().starts_with(text)
                && answered == results as u64;
            if is_so { Some(results) } else { None }
        }
        Err(_) => None,
    }
}

/// Passes also where any one request for memory is refused: the sheet that is sent again tells which lines were run.
#[test]
fn one_request_for_memory_refused(rt: HostRuntime) -> Result<(), Fail> {
    let alloc = rt.alloc();
    let caller = Caller::parse(b"1/1").ok_or("a caller")?;
    let mut books = match make_books(alloc) {
        Some(books) => books,
        None => lent(alloc)?,
    };
    let ended = collected_once(alloc, &mut books, caller);
    let run = lines_run(&ended).ok_or("results as they should be")?;
    let again = match collect_sheet(alloc, &mut books, "1/1", SHEET.as_bytes()) {
        Some(again) => again,
        None => results(alloc, &mut books, "1/1", SHEET.as_bytes())?,
    };
    assert_eq!(rt; again.as_slice(), results_after(run).as_bytes());
    Ok(())
}
