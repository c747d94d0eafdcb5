//! Lists as JSON, line by line.

ghost use Rattle.std.specs.Prelude.{◌≡◌, ◌++◌, ◌∷◌, [], ℕ, List, false, IfOk, IfErr, OnOk, map, string_bytes};
ghost use Rattle.json.specs.Print.{quoted};
ghost use Rattle.serde_json.specs.Data.{Data, array};
ghost use Rattle.serde_json.specs.View.{items_of};
ghost use Rattle.serde_json.specs.Written.{compact_text, comma_if};
ghost use Rattle.mf_wire_replies.specs.Json.{joined_values};
ghost use Rattle.mf_lists_replies.specs.Lines.{list_named};

use mf_base::Fault;
use mf_wire_replies::{comma_if, text_in};
use std::alloc::Global;

/// A line of a list, which is written as JSON at once: a value of JSON would take a map for each line.
pub trait ListLine {
    /// What the lines of a list have in common, as the office whose things they tell of by number.
    type Place: Copy;

    /// What it is shown as.
    ghost json: { Self.Place → Self → Data };

    /// Puts the text that shows it behind a text.
    fn put(&self, alloc: Global, place: Self::Place, text: &mut String) -> Result<(), Fault>
        ensures ok { OnOk result (string_bytes text.new ≡ string_bytes text.old
            ++ compact_text (json place self.now)) }
        ensures err { IfErr result (λ f. f ≡ Fault.F20) };
}

/// Puts the text that shows a line behind a text, and a comma before it where it isn't the first.
fn put_line<T: ListLine>(
    alloc: Global,
    place: T::Place,
    text: &mut String,
    later: bool,
    line: &T,
) -> Result<(), Fault>
    ensures ok { OnOk result (string_bytes text.new ≡ string_bytes text.old ++ (comma_if later
        ++ compact_text (T.json place line.now))) }
    ensures err { IfErr result (λ f. f ≡ Fault.F20) }
{
    text.push_str(comma_if(later))?;
    line.put(alloc, place, text)
}

/// Puts the texts that show the lines behind a text, in their order, with commas between them.
fn put_lines<T: ListLine>(
    alloc: Global,
    place: T::Place,
    text: &mut String,
    lines: &[T],
) -> Result<(), Fault>
    ensures ok { OnOk result (string_bytes text.new ≡ string_bytes text.old
        ++ joined_values false (map (T.json place) lines.now)) }
    ensures err { IfErr result (λ f. f ≡ Fault.F20) }
{
    let mut later = false;
    for line in lines {
        put_line(alloc, place, text, later, line)?;
        later = true;
    }
    Ok(())
}

/// The text of the array of the lines.
pub fn lines_text<T: ListLine>(alloc: Global, place: T::Place, lines: &[T]) -> Result<String, Fault>
    ensures ok { IfOk result (λ s. string_bytes s ≡ compact_text (array (items_of (map (T.json place) lines.now)))) }
    ensures err { IfErr result (λ f. f ≡ Fault.F20) }
{
    let mut text = text_in(alloc, 1024, "[")?;
    put_lines(alloc, place, &mut text, lines)?;
    text.push_str("]")?;
    Ok(text)
}

/// The text of an object whose one member is the array of the lines, by the text up to the array's first item.
pub fn named_text<T: ListLine>(
    alloc: Global,
    place: T::Place,
    opened: &str,
    lines: &[T],
) -> Result<String, Fault>
    ensures ok { IfOk result (λ s. (name : List ℕ) → opened.now ≡ 123 ∷ (quoted name ++ 58 ∷ 91 ∷ [])
        → string_bytes s ≡ compact_text (list_named name (T.json place) lines.now)) }
    ensures err { IfErr result (λ f. f ≡ Fault.F20) }
{
    let mut text = text_in(alloc, 2048, opened)?;
    put_lines(alloc, place, &mut text, lines)?;
    text.push_str("]}")?;
    Ok(text)
}
