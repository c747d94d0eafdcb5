//! How far the reading of tables has come.

/// Is told how far a piece of work has come that may take long.
pub trait Progress {
    /// One more part of the work is done.
    fn pass(&mut self);
}

/// For work that nobody follows.
#[derive(Drop)]
pub struct Unfollowed;

impl Progress for Unfollowed {
    fn pass(&mut self) {}
}
