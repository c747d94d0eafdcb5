//! HTTP messages: one read from a stream, and the response to one written.
//!
//! A head is what `httparse` reads. The definitions speak of all the bytes of the stream, however they come in pieces.
#![tactic(auto)]

mod bodies;
mod fields;
mod head;
pub mod laws;
mod messages;
mod reading;
mod responses;

pub use bodies::fill;
pub use messages::Message;
pub use reading::{Arrival, read_message};
pub use responses::{response_room, write_refusal, write_reply};
