//! What is decided of a request: a commit or none, and the reply.

ghost use Rattle.std.specs.Prelude.{◌≡◌, Some, None};
ghost use Rattle.mf_model.specs.declared.reply.Reply.TheVariants as reply;

use mf_model::{Commit, LoanReply, Reply};
use mf_office::Account;

/// What is decided of a request before anything is changed: the reply, and the change that it reports, if it makes one.
#[derive(Drop)]
pub struct Decision {
    pub reply: Reply,
    pub commit: Option<Commit>,
}

impl Decision {
    /// A reply, and no change.
    pub fn show(reply: Reply) -> Decision
        ensures { result ≡ record { reply = reply; commit = None } }
    {
        Decision {
            reply,
            commit: None,
        }
    }

    /// What is replied of a loan, and no change.
    pub fn tell(loan: Account, told: LoanReply) -> Decision
        ensures { result ≡ record { reply = reply.Loan loan told; commit = None } }
    {
        Decision::show(Reply::Loan { loan, told })
    }

    /// A change, and the reply that reports it.
    pub fn change(commit: Commit, reply: Reply) -> Decision
        ensures { result ≡ record { reply = reply; commit = Some commit } }
    {
        Decision {
            reply,
            commit: Some(commit),
        }
    }
}
