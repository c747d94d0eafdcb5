//! The numbered refusals, and what can fail of a stream.

ghost use Rattle.std.specs.Prelude.{◌≡◌};
ghost use Rattle.mf_base.specs.declared.fault.Fault.TheVariants.{F20};

use std::alloc::{AllocError, AllocFailed};

/// A refusal, by its number. A refused call has changed nothing.
#[derive(Clone, Copy, PartialEq, Eq, Debug)]
pub enum Fault {
    /// Malformed: a line, a head, a length, JSON, a member missing, of the wrong kind or outside its range.
    F1,
    /// The caller is unknown.
    F2,
    /// The caller's role or office forbids this kind of request.
    F3,
    /// A named thing is not there, or not visible to the caller.
    F4,
    /// No such route.
    F5,
    /// The route has no such method.
    F6,
    /// The product is retired.
    F7,
    /// Outside the product's limits, an inconsistent product, a charge of the wrong kind, or an entry's computed
    /// fee or penalty of 0 or over 10^12 cents.
    F8,
    /// The loan has the wrong status.
    F9,
    /// A day out of order.
    F10,
    /// Sealed: a write-off or a refund stands.
    F11,
    /// No such entry.
    F12,
    /// The entry is reversed already.
    F13,
    /// The instalment does not allow it.
    F14,
    /// The receipt was used with other contents.
    F15,
    /// The office number is taken.
    F16,
    /// The business day is not later than the present one.
    F17,
    /// A limit is reached.
    F18,
    /// The file holds no institution of a known schema.
    F19,
    /// Out of memory, or a fault of the store.
    F20,
}

impl From<AllocError> for Fault {
    ghost from_gives = { λ _ fault. fault ≡ F20 };

    fn from(_error: AllocError) -> Fault {
        Fault::F20
    }
}

impl<T: Drop> From<AllocFailed<T>> for Fault {
    ghost from_gives = { λ _ fault. fault ≡ F20 };

    fn from(_error: AllocFailed<T>) -> Fault {
        Fault::F20
    }
}

/// Why a stream of requests ended early.
#[derive(Clone, Copy, PartialEq, Eq, Debug)]
pub enum Cause {
    /// The reader failed.
    Read,
    /// The writer failed, or took no byte.
    Write,
    /// The buffer could not be made.
    Memory,
}

/// A stream that ended early: how many replies were written whole, and why it ended.
#[derive(Clone, Copy, PartialEq, Eq, Debug)]
pub struct StreamFault {
    /// Replies that were written whole.
    pub answered: u64,
    /// Why the stream ended.
    pub cause: Cause,
}
