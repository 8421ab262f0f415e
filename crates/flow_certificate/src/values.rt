ghost use Rattle.std.specs.Prelude.{◌≡◌, cond};
ghost use Rattle.max_flow.specs.Flows.{is_cut};
ghost use Rattle.flow_certificate.specs.Verdicts.{cut_in, flow_in};

use crate::certificates::Certificate;
use crate::sums::sum_outflows;
use max_flow::Half;

/// What flows out of the source, in bits.
pub fn source_outflow(certificate: &Certificate) -> u128
    ensures { result ≡ flow_in certificate.now.graph certificate.now.solved }
{
    let mut sums = [0u128; 1];
    sum_outflows(certificate, 0, &mut sums);
    sums[0]
}

/// What a point adds to the capacity of the side: its own, where its first half alone is in it.
fn part_of(half: Half, capacity: u128) -> u128
    ensures { result ≡ cond (is_cut half) capacity 0 }
{
    match half {
        Half::FirstOnly => capacity,
        Half::Both | Half::SecondOnly | Half::Neither => 0,
    }
}

/// The capacity of the side, in bits.
pub fn side_capacity(certificate: &Certificate) -> u128
    ensures { result ≡ cut_in certificate.now.graph certificate.now.solved }
{
    let halves = certificate.solved.side.points.as_slice();
    let mut total: u128 = 0;
    for (i, node) in certificate.graph.points.as_slice().iter().enumerate() {
        total += part_of(halves[i], node.capacity);
    }
    total
}
