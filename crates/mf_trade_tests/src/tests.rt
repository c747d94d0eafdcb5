//! No clause says that a call succeeds, or which cents come out.

mod accounts;
mod books;
mod worked;
