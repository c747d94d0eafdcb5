//! Numbers as the table keeps them: of 32 bits, without a sign.

ghost use Rattle.std.specs.Prelude.{◌≡◌, ◌≤◌, ◌↔◌, ◌^◌, IsTrue, IfSome, IfNone};
ghost use Rattle.mf_store_journal.specs.Rows.{HasPlace};

use mf_journal::KeptRow;

/// The numbers of a line, narrow.
#[derive(Clone, Copy)]
pub(crate) struct Numbers {
    pub(crate) number: u32,
    pub(crate) day: u32,
    pub(crate) office: u32,
    pub(crate) staff: u32,
    pub(crate) named_office: u32,
    pub(crate) named_loan: u32,
}

/// The number in 32 bits, where it has room there.
pub(crate) fn narrow(number: u64) -> Option<u32>
    ensures some { IfSome result (λ n. n ≡ number) }
    ensures none { IfNone result (2 ^ 32 ≤ number) }
{
    match u32::try_from(number) {
        Ok(narrow) => Some(narrow),
        Err(_) => None,
    }
}

/// The numbers of a line, and none where one of them has no room in 32 bits.
pub(crate) fn numbers_of(kept: KeptRow<'_>) -> Option<Numbers>
    ensures number { IfSome result (λ n. n.number ≡ kept.entry.number) }
    ensures day { IfSome result (λ n. n.day ≡ kept.entry.row.day) }
    ensures office { IfSome result (λ n. n.office ≡ kept.entry.row.office) }
    ensures staff { IfSome result (λ n. n.staff ≡ kept.entry.row.staff) }
    ensures named_office { IfSome result (λ n. n.named_office ≡ kept.entry.row.named_office) }
    ensures named_loan { IfSome result (λ n. n.named_loan ≡ kept.entry.row.named_loan) }
    ensures none { IfNone result (¬ HasPlace kept.entry) }
{
    Some(Numbers {
        number: narrow(kept.number)?,
        day: narrow(kept.row.day)?,
        office: narrow(kept.row.office)?,
        staff: narrow(kept.row.staff)?,
        named_office: narrow(kept.row.named_office)?,
        named_loan: narrow(kept.row.named_loan)?,
    })
}

/// Whether all numbers of a line have room in 32 bits, as the table keeps them.
pub fn has_room(kept: KeptRow<'_>) -> bool
    ensures { IsTrue result ↔ HasPlace kept.entry }
{
    numbers_of(kept).is_some()
}
