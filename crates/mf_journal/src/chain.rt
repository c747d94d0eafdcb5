//! The chain of a journal: the digest that ties a line to all lines before it.

ghost use Rattle.std.specs.Prelude.{◌≡◌, ◌++◌, List, ℕ};
ghost use Rattle.std.specs.Int.{w64, to_be_bytes};
ghost use Rattle.sha2.specs.Hashers.{Holds256};
ghost use Rattle.sha2.specs.Sha256.{sha256};
ghost use Rattle.mf_journal.specs.Chain.{bytes_text, line_of_row, link};
ghost use Rattle.mf_journal.specs.Founding.{founding_text};

use sha2::{Digest, Sha256};

/// A line of the journal as a row keeps it, but for the chain.
#[derive(Clone, Copy)]
pub struct JournalRow<'a> {
    /// The number of the business day on which the request was accepted; 1 January 2000 is 0.
    pub day: u64,
    /// The office of who sent it.
    pub office: u64,
    /// Their staff number in it.
    pub staff: u64,
    /// What the front told of the request, as the time and the address.
    pub told: &'a [u8],
    pub method: &'a [u8],
    pub path: &'a [u8],
    /// As it was received.
    pub body: &'a [u8],
    /// The office that the request names; 0 where it names none.
    pub named_office: u64,
    /// The number of the loan that it names; 0 where it names none.
    pub named_loan: u64,
}

/// The chain after a line, from the chain before it. It takes no memory.
pub fn link(before: &[u8; 32], row: JournalRow<'_>) -> [u8; 32]
    ensures { result ≡ link before.now (line_of_row row.entry) }
{
    let mut hasher = Sha256::new();
    put_chain(&mut hasher, before);
    put_number(&mut hasher, row.day);
    put_number(&mut hasher, row.office);
    put_number(&mut hasher, row.staff);
    put_bytes(&mut hasher, row.told);
    put_bytes(&mut hasher, row.method);
    put_bytes(&mut hasher, row.path);
    put_bytes(&mut hasher, row.body);
    put_number(&mut hasher, row.named_office);
    put_number(&mut hasher, row.named_loan);
    hasher.finalize()
}

/// The chain before the first line of a new institution.
pub(crate) fn founding_chain(schema: u64, day: u64) -> [u8; 32]
    ensures { result ≡ sha256 (founding_text schema day) }
{
    let mut hasher = Sha256::new();
    hasher.update(b"microloan");
    put_number(&mut hasher, schema);
    put_number(&mut hasher, day);
    hasher.finalize()
}

/// Bytes behind their length.
fn put_bytes(hasher: &mut Sha256, bytes: &[u8])
    ensures { (m : List ℕ) → Holds256 hasher.old m → Holds256 hasher.new (m ++ bytes_text bytes.now) }
{
    put_number(hasher, bytes.len() as u64);
    hasher.update(bytes);
}

/// The chain before the line.
fn put_chain(hasher: &mut Sha256, chain: &[u8; 32])
    ensures { (m : List ℕ) → Holds256 hasher.old m → Holds256 hasher.new (m ++ chain.now) }
{
    hasher.update(chain.as_slice());
}

/// A number, in eight bytes, the greatest first.
fn put_number(hasher: &mut Sha256, number: u64)
    ensures { (m : List ℕ) → Holds256 hasher.old m → Holds256 hasher.new (m ++ to_be_bytes w64 number) }
{
    hasher.update(number.to_be_bytes());
}
