ghost use Rattle.std.specs.Prelude.{◌≡◌, None, IfSome};
ghost use Rattle.flow_certificate.specs.Verdicts.{IsFirstFlowFault, IsVerdict, IsVerified};

use crate::across::first_across;
use crate::balance::first_unbalanced;
use crate::certificates::Certificate;
use crate::over::first_over;
use crate::values::{side_capacity, source_outflow};
use crate::verdicts::{CertFault, CertVerdict};

/// The first thing that is wrong with a certificate, if any.
fn first_fault(certificate: &Certificate) -> Option<CertFault>
    ensures some { IfSome result (IsFirstFlowFault certificate.now.graph certificate.now.solved) }
    ensures none { result ≡ None → IsVerified certificate.now.graph certificate.now.solved
        certificate.now.solved.value }
{
    if let Some(point) = first_over(certificate) {
        return Some(CertFault::Over { point });
    }
    if let Some(node) = first_unbalanced(certificate) {
        return Some(CertFault::Unbalanced { node });
    }
    if let Some(link) = first_across(certificate) {
        return Some(CertFault::OpenAcross { link });
    }
    let value = certificate.solved.value;
    let flow = source_outflow(certificate);
    let cut = side_capacity(certificate);
    if u128::from(value) == flow && u128::from(value) == cut {
        return None;
    }
    Some(CertFault::Values { value, flow, cut })
}

/// What a certificate shows. `Verified` comes exactly where its flow is feasible, its side is a side, and the value, the
/// flow out of the source and the side's capacity are equal; else the first refusal, in the order of [`CertFault`]. It
/// takes no memory, and time in the number of links for each 4,096 nodes.
pub fn verify(certificate: &Certificate) -> CertVerdict
    ensures verdict { IsVerdict certificate.now.graph certificate.now.solved result }
    ensures verified { IsVerified certificate.now.graph certificate.now.solved certificate.now.solved.value →
        result ≡ CertVerdict.Verified certificate.now.solved.value }
{
    match first_fault(certificate) {
        Some(fault) => CertVerdict::Rejected(fault),
        None => CertVerdict::Verified {
            value: certificate.solved.value,
        },
    }
}
