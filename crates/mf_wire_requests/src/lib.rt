//! What is asked: a request line in its parts, the route of its path, and the request that its body makes.
#![tactic(auto)]

mod body;
pub mod laws;
mod paths;
mod request;
mod request_line;
mod routes;

pub use request::read_request;
pub use request_line::{LineParts, fit_line, is_token, line_parts, parts_in};
pub use routes::Routes;
