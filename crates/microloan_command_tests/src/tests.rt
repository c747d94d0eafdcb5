//! The command line and the commands.

mod desk;
mod no_lists;
mod printed;
mod words;
