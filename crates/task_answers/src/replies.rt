ghost use Rattle.std.specs.Prelude.{◌≡◌, ◌≢◌, IfOk, IsErr, OnErr, Err};
ghost use Rattle.command_tasks.specs.declared.statuses.Status.TheVariants.{Done};
ghost use Rattle.command_tasks.specs.declared.refusals.Refusal.TheVariants.{Memory};
ghost use Rattle.task_answers.specs.Replies.{told};

use command_tasks::{Refusal, Status};
use flow_base::{Bytes, NoMemory};
use std::alloc::Global;

/// A status and the whole text that is put with it.
#[derive(Drop)]
pub struct Reply {
    /// What the command line is answered by.
    pub status: Status,
    /// The whole text.
    pub text: Bytes,
}

impl Reply {
    /// A command that is done, with this text.
    pub fn done(text: Bytes) -> Reply
        ensures { result ≡ record { status = Done; text = text } }
    {
        Reply {
            status: Status::Done,
            text,
        }
    }
}

/// The reply that an answer is told by: a refusal by its line. Out of memory there is none; an answer that is a reply
/// takes none.
pub fn reply_of(alloc: Global, answer: Result<Reply, Refusal>) -> Result<Reply, NoMemory>
    ensures told { IfOk result (λ reply. (answer ≢ Err Memory) × (reply ≡ told answer)) }
    ensures memory { OnErr result (IsErr answer) }
{
    match answer {
        Ok(reply) => Ok(reply),
        Err(Refusal::Memory) => Err(NoMemory),
        Err(refusal) => {
            let status = refusal.status();
            let text = format!(in alloc; "{refusal}\n")?;
            Ok(Reply {
                status,
                text: Bytes::from_vec(text.into_bytes()),
            })
        }
    }
}
