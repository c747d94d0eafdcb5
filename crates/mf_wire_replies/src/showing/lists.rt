//! Lists of values, as JSON.

ghost use Rattle.std.specs.Prelude.{◌≡◌, ◌++◌, ◌∷◌, [], ℕ, List, false, IfOk, IfErr, OnOk, map, string_bytes};
ghost use Rattle.json.specs.Print.{quoted};
ghost use Rattle.serde_json.specs.Data.{Data, array, object, member, no_members};
ghost use Rattle.serde_json.specs.View.{view, items_of};
ghost use Rattle.serde_json.specs.Written.{compact_text, comma_if};
ghost use Rattle.mf_wire_replies.specs.Json.{joined_values};

use super::texts::text_in;
use mf_base::Fault;
use serde_json::Value;
use std::alloc::Global;

/// What is shown as a value of JSON.
pub trait Shown {
    /// What it is shown as.
    ghost json: { Self → Data };

    /// The value of JSON that shows it.
    fn value(&self, alloc: Global) -> Result<Value, Fault>
        ensures ok { IfOk result (λ v. view v ≡ json self.now) }
        ensures err { IfErr result (λ f. f ≡ Fault.F20) };
}

/// The array of the values that show the lines, in their order.
pub fn array_of<T: Shown>(alloc: Global, lines: &[T]) -> Result<Value, Fault>
    ensures ok { IfOk result (λ v. view v ≡ array (items_of (map T.json lines.now))) }
    ensures err { IfErr result (λ f. f ≡ Fault.F20) }
{
    let mut values = Vec::new(alloc);
    for line in lines {
        values.push(line.value(alloc)?)?;
    }
    Ok(Value::Array(values))
}

/// What is shown as a text of JSON that is written at once: a value of JSON would take a map for each object.
pub trait Written {
    /// What it is shown as.
    ghost json: { Self → Data };

    /// Puts the text that shows it behind a text.
    fn put(&self, alloc: Global, text: &mut String) -> Result<(), Fault>
        ensures ok { OnOk result (string_bytes text.new ≡ string_bytes text.old ++ compact_text (json self.now)) }
        ensures err { IfErr result (λ f. f ≡ Fault.F20) };
}

/// A comma, where something stands before.
pub fn comma_if(later: bool) -> &'static str
    ensures { result.now ≡ comma_if later }
{
    if later { "," } else { "" }
}

/// Puts the text that shows a line behind a text, and a comma before it where it isn't the first.
fn put_line<T: Written>(
    alloc: Global,
    text: &mut String,
    later: bool,
    line: &T,
) -> Result<(), Fault>
    ensures ok { OnOk result (string_bytes text.new ≡ string_bytes text.old ++ (comma_if later
        ++ compact_text (T.json line.now))) }
    ensures err { IfErr result (λ f. f ≡ Fault.F20) }
{
    text.push_str(comma_if(later))?;
    line.put(alloc, text)
}

/// Puts the texts that show the lines behind a text, in their order, with commas between them.
fn put_lines<T: Written>(alloc: Global, text: &mut String, lines: &[T]) -> Result<(), Fault>
    ensures ok { OnOk result (string_bytes text.new ≡ string_bytes text.old
        ++ joined_values false (map T.json lines.now)) }
    ensures err { IfErr result (λ f. f ≡ Fault.F20) }
{
    let mut later = false;
    for line in lines {
        put_line(alloc, text, later, line)?;
        later = true;
    }
    Ok(())
}

/// The text of the array of the lines.
pub fn array_text<T: Written>(alloc: Global, lines: &[T]) -> Result<String, Fault>
    ensures ok { IfOk result (λ s. string_bytes s ≡ compact_text (array (items_of (map T.json lines.now)))) }
    ensures err { IfErr result (λ f. f ≡ Fault.F20) }
{
    let mut text = text_in(alloc, 192, "[")?;
    put_lines(alloc, &mut text, lines)?;
    text.push_str("]")?;
    Ok(text)
}

/// The text of an object whose one member is the array of the lines, by the text up to the array's first item.
pub fn list_text<T: Written>(alloc: Global, opened: &str, lines: &[T]) -> Result<String, Fault>
    ensures ok { IfOk result (λ s. (name : List ℕ) → opened.now ≡ 123 ∷ (quoted name ++ 58 ∷ 91 ∷ [])
        → string_bytes s ≡ compact_text (object (member name (array (items_of (map T.json lines.now))) no_members))) }
    ensures err { IfErr result (λ f. f ≡ Fault.F20) }
{
    let mut text = text_in(alloc, 2048, opened)?;
    put_lines(alloc, &mut text, lines)?;
    text.push_str("]}")?;
    Ok(text)
}
