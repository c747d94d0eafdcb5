//! Worked values of the crates without tables, from days and money to accounts and the report. They stand apart so that
//! none of these crates is proved a second time with its tests.
#![tactic(auto)]

#[cfg(test)]
mod tests;
