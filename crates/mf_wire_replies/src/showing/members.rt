//! Numbers that may be null, and the members of an object.

ghost use Rattle.std.specs.Prelude.{◌≡◌, OnOk};
ghost use Rattle.serde_json.specs.Data.{string, object, no_members, put};
ghost use Rattle.serde_json.specs.View.{view, members_view};
ghost use Rattle.mf_wire_replies.specs.Json.{whole, whole_or_null};

use serde_json::{Map, Value};
use std::alloc::{AllocError, Global};

/// A number, or null where there is none.
pub fn whole_or_null(number: Option<u32>) -> Value
    ensures { view result ≡ whole_or_null number }
{
    match number {
        Some(number) => Value::from(number),
        None => Value::Null,
    }
}

/// The members of a JSON object as they are put together. They stand in the order of their names, so where each is put
/// before those that follow it, the last that is put comes first.
pub struct Members {
    map: Map<String, Value>,
}

// By hand, since a derived drop is proved again in each function that may drop one.
impl Drop for Members {
    fn drop(self) {
        let Members { map: _ } = self;
    }
}

impl Members {
    /// No members yet.
    pub fn new(alloc: Global) -> Self
        ensures { members_view result.map.entries ≡ no_members }
    {
        Members {
            map: Map::new(alloc),
        }
    }

    /// Puts a value.
    pub fn put(&mut self, alloc: Global, name: &str, value: Value) -> Result<(), AllocError>
        ensures { OnOk result (members_view self.new.map.entries ≡ put name.now (view value)
            (members_view self.old.map.entries)) }
    {
        serde_json::put(&mut self.map, alloc, name, value)
    }

    /// Puts a number.
    pub fn put_whole(&mut self, alloc: Global, name: &str, number: u64) -> Result<(), AllocError>
        ensures { OnOk result (members_view self.new.map.entries ≡ put name.now (whole number)
            (members_view self.old.map.entries)) }
    {
        self.put(alloc, name, Value::from(number))
    }

    /// Puts a copy of a text.
    pub fn put_text(&mut self, alloc: Global, name: &str, text: &str) -> Result<(), AllocError>
        ensures { OnOk result (members_view self.new.map.entries ≡ put name.now (string text.now)
            (members_view self.old.map.entries)) }
    {
        let text = String::from_str(alloc, text)?;
        self.put(alloc, name, Value::String(text))
    }

    /// The object of these members.
    pub fn into_value(self) -> Value
        ensures { view result ≡ object (members_view self.map.entries) }
    {
        let Members { map: entries } = self;
        Value::Object(entries)
    }
}
