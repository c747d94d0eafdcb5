//! What a commit notes of the request that it comes of.

use crate::reply::Names;
use mf_account::Receipt;
use mf_base::Day;
use mf_office::{Account, Caller};

/// The text of a request, as bytes.
#[derive(Clone, Copy)]
pub struct ReceivedText<'a> {
    /// What the front told of the request, as the time and the address; empty where it told nothing.
    pub told: &'a [u8],
    pub method: &'a [u8],
    pub path: &'a [u8],
    /// As it was received.
    pub body: &'a [u8],
}

/// A repayment that did not come as text.
#[derive(Clone, Copy)]
pub struct RepaymentText<'a> {
    /// What the front told of it; empty where it told nothing.
    pub told: &'a [u8],
    pub loan: Account,
    /// In whole cents.
    pub amount: u64,
    pub day: Day,
    pub receipt: &'a Receipt,
}

/// The text of a request, as the journal keeps it.
#[derive(Clone, Copy)]
pub enum RequestText<'a> {
    /// The text that was received.
    Received(ReceivedText<'a>),
    /// That of a repayment, which came as a line of a sheet.
    Repayment(RepaymentText<'a>),
}

/// What the journal notes of an accepted request, beside the business day.
#[derive(Clone, Copy)]
pub struct Note<'a> {
    /// Who sent it.
    pub caller: Caller,
    pub text: &'a RequestText<'a>,
    /// What its reply names.
    pub names: Names,
}
