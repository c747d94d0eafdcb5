//! A new institution that keeps a journal. What is wanted of it comes from two other programs: the replies from
//! `bench/loan-model`, the journal from `bench/journal-lines`.

use super::adopted::INSTITUTION;
use super::{Trial, holds};
use mf_base::Day;
use mf_store::Store;
use mf_store_journal::{Found, check_journal};
use mf_wire::run;
use mf_wire_lines::{WatchedReader, WatchedWriter};
use sqlite::{Alter, Connection};
use std::alloc::Global;
use std::rt::HostRuntime;
use std::test::Fail;

/// The replies to the institution's lines.
const REPLIES: &str = "\
201 {\"office\":2}\n\
201 {\"staff\":\"2/1\"}\n\
201 {\"charge\":1}\n\
201 {\"product\":1}\n\
200 {\"day\":\"2024-02-01\"}\n\
201 {\"client\":\"0001-000001\"}\n\
201 {\"loan\":\"0001-000001\"}\n\
200 {\"loan\":\"0001-000001\",\"status\":200}\n\
200 {\"loan\":\"0001-000001\",\"status\":300}\n\
200 {\"day\":\"2024-03-31\"}\n\
201 {\"entry\":1}\n\
201 {\"entry\":2}\n";

/// How many lines its journal has then, since each was accepted and changed something.
const COUNT: u64 = 12;

/// The chain after them, over all that they say.
const CHAIN: [u8; 32] = [
    0xd3, 0x75, 0x70, 0xfd, 0x90, 0xf9, 0x7d, 0x1d, 0xa4, 0x8b, 0x12, 0x99, 0xd8, 0x47, 0xa2, 0xbe,
    0x9e, 0x09, 0x84, 0x19, 0x7e, 0x48, 0x86, 0xd6, 0x46, 0x30, 0x4a, 0x1a, 0xce, 0xa8, 0x68, 0x50,
];

/// A journal whose lines follow on one another and end here, beside the replies.
#[derive(Drop)]
struct Journaled;

impl Trial for Journaled {
    fn holds<S: Alter + Drop>(
        &self,
        alloc: Global,
        connection: Connection<S>,
    ) -> Result<bool, Fail> {
        let day = Day::parse(b"2024-01-31").ok_or("a day")?;
        let Ok(mut store) = Store::create_journaled(alloc, connection, day) else {
            return Ok(false);
        };
        let mut source = WatchedReader::new(INSTITUTION.as_bytes());
        let mut sink = WatchedWriter::new(Vec::new(alloc));
        let _ended = run(alloc, false, &mut store, &mut source, &mut sink);
        let mut tables = store.release();
        let Ok(Found::Whole(journal)) = check_journal(&mut tables) else {
            return Ok(false);
        };
        let is_told = sink.into_inner().as_slice() == REPLIES.as_bytes();
        Ok(is_told && journal.head.number == COUNT && journal.head.chain == CHAIN)
    }
}

#[test]
fn each_accepted_line_is_noted(rt: HostRuntime) -> Result<(), Fail> {
    assert!(rt; holds(rt.alloc(), &Journaled)?);
    Ok(())
}
