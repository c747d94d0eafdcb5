//! What runs, messages and sheets leave of an institution that keeps a journal: the play of that journal.
#![tactic(auto)]

pub mod laws;
