//! Tables against the play of their journal: whether the lines, played from their founding, lead to just these rows.
#![tactic(auto)]

mod archived;
mod copied;
mod differing;
mod founding;
pub mod laws;
mod pages;
mod played;
mod playing;
mod rows;

pub use archived::play_tables_over_archives;
pub use copied::{begun_over, is_at, play_tables_from};
pub use founding::{found_in_memory, founding_day};
pub use played::{Difference, Played, PlayedTable};
pub use playing::play_tables;
