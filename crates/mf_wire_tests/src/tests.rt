//! What arrives as bytes: request lines, messages and sheets.

mod arrivals;
mod lines;
mod played;
mod sheets;
