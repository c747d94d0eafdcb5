//! Texts as columns keep them.

use mf_base::Name;
use sqlite::types::{FromSql, FromSqlError, ToSql, ValueRef};
use std::alloc::Global;
use std::marker::Model;

/// A text of a column, a type of this crate since only such a one can be a column's. Contracts see its bytes.
pub struct Text {
    text: String,
}

// By hand, since a derived drop is proved again in each function that may drop one.
impl Drop for Text {
    fn drop(self) {
        let Text { text: _ } = self;
    }
}

impl Model for Text {
    ghost use Rattle.std.specs.Prelude.{ℕ, List};
    ghost use Rattle.std.specs.String.{string_bytes};

    ghost Value = { List ℕ };

    ghost view = { λ text. string_bytes text.text };
}

impl Text {
    ghost use Rattle.std.specs.Prelude.{◌≡◌};
    ghost use Rattle.std.specs.String.{string_bytes};

    /// The text of these bytes.
    pub fn new(text: String) -> Text
        ensures { result ≡ string_bytes text }
    {
        Text { text }
    }

    /// The text of a name.
    pub fn of_name(name: Name) -> Text
        ensures { result ≡ name }
    {
        Text::new(name.into_string())
    }

    /// The text as Rust knows it.
    pub fn as_str(&self) -> &str
        ensures { result.now ≡ self.now }
    {
        self.text.as_str()
    }

    /// Gives the text back.
    pub fn into_string(self) -> String
        ensures { string_bytes result ≡ self }
    {
        let Text { text: whole } = self;
        whole
    }

    /// The name that the text is.
    pub fn into_name(self) -> Name
        ensures { result ≡ self }
    {
        Name::new(self.into_string())
    }
}

impl<'a> ToSql<'a> for &'a Text {
    ghost use Rattle.sqlite_value.specs.declared.value.Value.TheVariants.{Text};

    ghost to_sql = { λ text. Text text.now };

    fn to_sql(self) -> ValueRef<'a> {
        ValueRef::Text(self.as_str().as_bytes())
    }
}

impl FromSql for Text {
    ghost use Rattle.std.specs.Prelude.{◌≡◌, IsUtf8};
    ghost use Rattle.sqlite_value.specs.declared.value.Value.TheVariants.{Text};
    ghost use Rattle.sqlite.specs.Values.{text_refusal};

    ghost reads_as = { λ v text. v ≡ Text text };

    ghost is_readable = { λ v. (t : _) × (v ≡ Text t) × IsUtf8 t };

    ghost refusal = { text_refusal };

    fn column_result(alloc: Global, value: ValueRef<'_>) -> Result<Text, FromSqlError> {
        let text = String::column_result(alloc, value)?;
        Ok(Text::new(text))
    }
}
