//! The versions of the schema: which of the program's tables a file has.

/// A version of the schema. Each has the tables of the one before it, and more.
#[derive(Clone, Copy, Debug, PartialEq, Eq)]
pub enum Version {
    /// Nine tables, which keep no instalments and no shares.
    First,
    /// Also the tables of instalments and of shares.
    Second,
    /// Also the journal.
    Third,
}

impl Version {
    ghost use Rattle.std.specs.Prelude.{◌≡◌};
    ghost use Rattle.mf_store_schema.specs.Versions.{number_of};

    /// Its number, as the row of meta has it.
    pub fn number(self) -> u32
        ensures { result ≡ number_of self }
    {
        match self {
            Version::First => 1,
            Version::Second => 2,
            Version::Third => 3,
        }
    }
}
