//! A request as it came: its bytes, and where its parts are.

ghost use Rattle.std.specs.Prelude.{◌≡◌, length, option_map};
ghost use Rattle.httparse.specs.Spans.{span_bytes, IsWithin};
ghost use Rattle.mf_wire_messages.specs.Framing.{told_at, IsFoundWithin};
ghost use Rattle.mf_wire_messages.specs.Messages.{Message, is_head};

use crate::fields::Found;
use httparse::spans::Span;
use std::marker::Model;

/// A request as it came.
#[derive(Drop)]
pub struct Message {
    bytes: Vec<u8>,
    told: Found,
    staff: Span,
    method: Span,
    target: Span,
    body: Vec<u8>,
}

impl Model for Message {
    ghost Value = { Message };

    ghost view = { λ m. record {
      told = told_at m.bytes.items m.told;
      staff = span_bytes m.bytes.items m.staff;
      method = span_bytes m.bytes.items m.method;
      target = span_bytes m.bytes.items m.target;
      body = m.body.items;
    } };

    ghost invariant = { λ m. IsFoundWithin (length m.bytes.items) m.told × IsWithin (length m.bytes.items) m.staff
        × IsWithin (length m.bytes.items) m.method × IsWithin (length m.bytes.items) m.target };
}

/// Whether the method asks for a reply without its body.
pub fn is_head(method: &[u8]) -> bool
    ensures { result ≡ is_head method.now }
{
    method == b"HEAD".as_slice()
}

impl Message {
    /// A request of these bytes, by where its parts are.
    pub fn new(
        bytes: Vec<u8>,
        told: Found,
        staff: Span,
        method: Span,
        target: Span,
        body: Vec<u8>,
    ) -> Message
        requires told { IsFoundWithin (length bytes.items) told }
        requires staff { IsWithin (length bytes.items) staff }
        requires method { IsWithin (length bytes.items) method }
        requires target { IsWithin (length bytes.items) target }
        ensures { result ≡ (record {
          told = told_at bytes.items told;
          staff = span_bytes bytes.items staff;
          method = span_bytes bytes.items method;
          target = span_bytes bytes.items target;
          body = body.items;
        }) }
    {
        Message {
            bytes,
            told,
            staff,
            method,
            target,
            body,
        }
    }

    /// What is told of it, which may be nothing. None where that is told more than once.
    pub fn told(&self) -> Option<&[u8]>
        ensures { option_map (λ text. text.now) result ≡ self.now.told }
    {
        match self.told {
            Found::Nothing => Some([].as_slice()),
            Found::Once(span) => Some(span.of(&self.bytes)),
            Found::Often => None,
        }
    }

    /// Who sends it.
    pub fn staff(&self) -> &[u8]
        ensures { result.now ≡ self.now.staff }
    {
        self.staff.of(&self.bytes)
    }

    /// The method's token, such as `GET`.
    pub fn method(&self) -> &[u8]
        ensures { result.now ≡ self.now.method }
    {
        self.method.of(&self.bytes)
    }

    /// The target, such as a path.
    pub fn target(&self) -> &[u8]
        ensures { result.now ≡ self.now.target }
    {
        self.target.of(&self.bytes)
    }

    /// The body.
    pub fn body(&self) -> &[u8]
        ensures { result.now ≡ self.now.body }
    {
        &self.body
    }

    /// Whether its reply has no body.
    pub fn is_head(&self) -> bool
        ensures { result ≡ is_head self.now.method }
    {
        is_head(self.method())
    }
}
