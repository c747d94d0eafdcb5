//! Request lines and HTTP messages over an institution: the bytes that come in, and the bytes that go out.
#![tactic(auto)]

mod answering;
pub mod laws;
mod running;
mod serving;

pub use answering::{Desk, answer_text};
pub use mf_wire_lines::{
    ReadFault, Sink, Source, WatchedReader, WatchedWriter, WriteFault, fault_text,
};
pub use running::run;
pub use serving::{Response, answer_message, message_parts, put_response, serve_one};
