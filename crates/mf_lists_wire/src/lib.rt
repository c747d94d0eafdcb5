//! What is asked of the lists: by a path under `/lists/`, its method and its body.
#![tactic(auto)]

mod body;
mod paths;
mod request;
mod routes;

pub use request::read_list_request;
pub use routes::is_list_path;
