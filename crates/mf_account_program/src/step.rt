//! The steps that standard input asks for.

/// What is done to the loan.
#[derive(Clone, Copy)]
pub(crate) enum Step {
    /// So many repayments of one cent, dated before the business day.
    Early(u32),
    /// So many, dated on the business day.
    Late(u32),
    /// The reversal of the last entry.
    Reverse,
    /// A replay of so many repayments of one cent, beside the loan.
    Replay(u32),
    /// The nanoseconds of the last entry or reversal.
    Time,
}

impl Step {
    /// The step that a line names: a word, and a number behind those that want one.
    pub fn parse(line: &str) -> Option<Step> {
        match line.split_once(' ') {
            None => step_of(line),
            Some((word, number)) => counted_step_of(word, number.parse::<u32>().ok()?),
        }
    }
}

fn step_of(word: &str) -> Option<Step> {
    match word.as_bytes() {
        b"reverse" => Some(Step::Reverse),
        b"time" => Some(Step::Time),
        _ => None,
    }
}

fn counted_step_of(word: &str, count: u32) -> Option<Step> {
    match word.as_bytes() {
        b"early" => Some(Step::Early(count)),
        b"late" => Some(Step::Late(count)),
        b"replay" => Some(Step::Replay(count)),
        _ => None,
    }
}
