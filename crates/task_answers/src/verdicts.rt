ghost use Rattle.std.specs.Prelude.{◌≡◌, IfOk};
ghost use Rattle.task_answers.specs.Verdicts.{verdict_reply, verdict_status};

use crate::replies::Reply;
use command_tasks::Status;
use flow_base::{Bytes, NoMemory};
use flow_certificate::CertVerdict;
use std::alloc::Global;

/// The status of a verdict.
fn status_of(verdict: CertVerdict) -> Status
    ensures { result ≡ verdict_status verdict }
{
    match verdict {
        CertVerdict::Verified { .. } => Status::Done,
        CertVerdict::Rejected(_) => Status::Rejected,
    }
}

/// The reply that tells a verdict by one line.
pub fn reply_of_verdict(alloc: Global, verdict: CertVerdict) -> Result<Reply, NoMemory>
    ensures { IfOk result (λ reply. reply ≡ verdict_reply verdict) }
{
    let text = format!(in alloc; "{verdict}\n")?;
    Ok(Reply {
        status: status_of(verdict),
        text: Bytes::from_vec(text.into_bytes()),
    })
}
