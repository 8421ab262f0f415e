ghost use Rattle.std.specs.Prelude.{◌≡◌, None, IfSome};
ghost use Rattle.flow_certificate.specs.Verdicts.{HasNoneOver, IsOver};

use crate::certificates::Certificate;

/// The first point through which more flows than its capacity, if any.
pub fn first_over(certificate: &Certificate) -> Option<u32>
    ensures some { IfSome result (λ point. IsOver certificate.now.graph certificate.now.solved point) }
    ensures none { result ≡ None → HasNoneOver certificate.now.graph certificate.now.solved }
{
    let flows = certificate.solved.flow.points.as_slice();
    for (i, node) in certificate.graph.points.as_slice().iter().enumerate() {
        if u128::from(flows[i]) > node.capacity {
            return Some(i as u32);
        }
    }
    None
}
