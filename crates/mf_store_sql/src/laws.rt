//! What texts mean. The function does nothing: its contract is the law.

ghost use Rattle.mf_store_sql.specs.WorkedJournal.{HasTexts, IsJournal};

/// The texts of a journal make a numbered table, put a row at its end, and show those above a number and the last.
pub fn journal_is_numbered()
    ensures texts { HasTexts }
    ensures meaning { IsJournal }
{}
