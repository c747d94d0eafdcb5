//! What is said of the play of a journal.

ghost use Rattle.std.specs.Prelude.{◌≡◌, Some, None, string_bytes, option_map, IfOk, IsOkUnless};
ghost use Rattle.std.specs.List.{flat_map};
ghost use Rattle.microloan_audit.specs.Played as spec;
ghost use Rattle.microloan_audit.specs.Quoted.{two_hex};

use crate::names::name_in;
use crate::quoted::push_bytes;
use mf_base::Fault;
use mf_journal::Head;
use mf_play::Stop;
use mf_store_played::Difference;
use std::alloc::Global;

/// Bytes in digits to the base 16.
fn hex_text(alloc: Global, bytes: &[u8]) -> Result<String, Fault>
    ensures text { IfOk result (λ text. string_bytes text ≡ flat_map two_hex bytes.now) }
    ensures only { IsOkUnless result Fault.F20 }
{
    let mut text = String::new(alloc);
    push_bytes(alloc, &mut text, bytes)?;
    Ok(text)
}

/// Where a journal stands, in words: how many changes there were, and the chain after the last of them, in digits to
/// the base 16. The error is F20, out of memory.
pub fn head_text(alloc: Global, head: Head) -> Result<String, Fault>
    ensures text { IfOk result (λ text. string_bytes text ≡ spec.head_text head) }
    ensures only { IsOkUnless result Fault.F20 }
{
    let number = head.number;
    let chain = hex_text(alloc, &head.chain)?;
    let chain = chain.as_str();
    Ok(format!(in alloc; "{number} changes, head {chain}")?)
}

/// The last line of the text of tables to which their journal leads.
pub(crate) fn leads_line(alloc: Global, head: Head) -> Result<String, Fault>
    ensures text { IfOk result (λ text. string_bytes text ≡ spec.leads_line head) }
    ensures only { IsOkUnless result Fault.F20 }
{
    let head = head_text(alloc, head)?;
    let head = head.as_str();
    Ok(format!(in alloc; "sound, and the play of its journal ({head})")?)
}

/// The last line of the text of sound tables whose journal begins at no founding.
pub(crate) fn unplayed_line(alloc: Global, head: Head) -> Result<String, Fault>
    ensures text { IfOk result (λ text. string_bytes text ≡ spec.unplayed_line head) }
    ensures only { IsOkUnless result Fault.F20 }
{
    let head = head_text(alloc, head)?;
    let head = head.as_str();
    Ok(format!(in alloc; "sound; its journal ({head}) begins at no founding, and was not played")?)
}

/// What is said of sound tables whose journal was begun over other rows than the copy's.
pub(crate) fn other_copy_line(alloc: Global, head: Head) -> Result<String, Fault>
    ensures text { IfOk result (λ text. string_bytes text ≡ spec.other_copy_line head) }
    ensures only { IsOkUnless result Fault.F20 }
{
    let head = head_text(alloc, head)?;
    let head = head.as_str();
    Ok(format!(in alloc; "the journal ({head}) was begun over other rows than those of the copy")?)
}

/// Why a line doesn't play.
fn stop_words(why: Stop) -> &'static str
    ensures { result.now ≡ spec.stop_words why }
{
    match why {
        Stop::NoRequest => "it tells no caller, or its text is no request",
        Stop::OtherDay => "its day is not the business day at which the play is there",
        Stop::Refused => "the play refuses its request",
        Stop::ChangesNothing => "its request changes nothing in the play",
        Stop::NamesOther => "it names another office or loan than the play",
    }
}

/// The line at which a play stops, by its number, and why.
pub(crate) fn stop_line(alloc: Global, number: u64, why: Stop) -> Result<String, Fault>
    ensures text { IfOk result (λ text. string_bytes text ≡ spec.stop_line number why) }
    ensures only { IsOkUnless result Fault.F20 }
{
    let words = stop_words(why);
    Ok(format!(in alloc; "journal {number}: {words}")?)
}

/// What is said of two rows at one place.
fn two_rows(alloc: Global, here: &str, played: &str) -> Result<String, Fault>
    ensures text { IfOk result (λ text. string_bytes text ≡ spec.two_rows here.now played.now) }
    ensures only { IsOkUnless result Fault.F20 }
{
    if here == played {
        Ok(format!(in alloc; "{here}: the play of the journal gives it otherwise")?)
    } else {
        Ok(format!(in alloc; "{here}: the play of the journal gives {played} in its place")?)
    }
}

/// What is said of a row that the play doesn't give.
fn too_much(alloc: Global, here: &str) -> Result<String, Fault>
    ensures text { IfOk result (λ text. string_bytes text ≡ spec.difference_words (Some here.now) None) }
    ensures only { IsOkUnless result Fault.F20 }
{
    Ok(format!(in alloc; "{here}: the play of the journal does not give it")?)
}

/// What is said of a row that the play gives alone.
fn missing(alloc: Global, played: &str) -> Result<String, Fault>
    ensures text { IfOk result (λ text. string_bytes text ≡ spec.difference_words None (Some played.now)) }
    ensures only { IsOkUnless result Fault.F20 }
{
    Ok(format!(in alloc; "{played}: the play of the journal gives it, and it is missing")?)
}

/// What is said of two rows at one place, of which one may be missing, by their names.
fn difference_words(
    alloc: Global,
    here: &Option<String>,
    played: &Option<String>,
) -> Result<String, Fault>
    ensures text { IfOk result (λ text. string_bytes text
        ≡ spec.difference_words (option_map string_bytes here.now) (option_map string_bytes played.now)) }
    ensures only { IsOkUnless result Fault.F20 }
{
    match (here, played) {
        (Some(here), Some(played)) => two_rows(alloc, here.as_str(), played.as_str()),
        (Some(here), None) => too_much(alloc, here.as_str()),
        (None, Some(played)) => missing(alloc, played.as_str()),
        (None, None) => Ok(String::from_str(alloc, "no row differs")?),
    }
}

/// What is said of the first row that the play of a journal doesn't give. The error is F20, out of memory.
pub(crate) fn difference_line(alloc: Global, difference: &Difference) -> Result<String, Fault>
    ensures text { IfOk result (λ text. string_bytes text ≡ spec.difference_line difference.now) }
    ensures only { IsOkUnless result Fault.F20 }
{
    let (table, row) = (difference.table, difference.row);
    let here = name_in(alloc, table, &difference.here, row)?;
    let played = name_in(alloc, table, &difference.played, row)?;
    difference_words(alloc, &here, &played)
}
