//! Why a line of a journal doesn't play.

/// The first thing for which a line doesn't play on an institution.
#[derive(Clone, Copy, Debug, PartialEq, Eq)]
pub enum Stop {
    /// It tells no caller, or its text reads as no request.
    NoRequest,
    /// Its day isn't the business day.
    OtherDay,
    /// Its request is refused.
    Refused,
    /// Its request is accepted, and changes nothing.
    ChangesNothing,
    /// The reply names another office or another loan than the line.
    NamesOther,
}
