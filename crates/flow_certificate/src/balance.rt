ghost use Rattle.std.specs.Prelude.{◌≡◌, ◌+◌, ◌*◌, ◌≤◌, ◌<◌, None, IfSome, length, true};
ghost use Rattle.max_flow.specs.Private.GraphNetworks.{network_of};
ghost use Rattle.flow_certificate.specs.Private.Sums.{AreZero, differ_at, is_uneven};
ghost use Rattle.flow_certificate.specs.Verdicts.{HasNone, HasNoneUnbalanced, IsFirst, IsFirstUnbalanced, is_node_of};
ghost use Rattle.flow_certificate.specs.Verdicts.{place_of};

use crate::certificates::Certificate;
use crate::sums::{sum_inflows, sum_outflows};
use crate::verdicts::Member;

/// For how many nodes one pass over the links counts.
const BLOCK: usize = 4096;

/// Counters at 0 for the nodes of a pass.
fn no_sums() -> [u128; BLOCK]
    ensures { AreZero result }
{
    [0; BLOCK]
}

/// The first index, of those below `width`, at which two lists of counters differ.
fn first_difference(first: &[u128], second: &[u128], width: usize) -> Option<usize>
    requires first { width ≤ length first.now }
    requires second { width ≤ length second.now }
    ensures some { IfSome result (λ k. IsFirst (differ_at first.now second.now) 0 width k) }
    ensures none { result ≡ None → HasNone (differ_at first.now second.now) 0 width }
{
    for k in 0..width {
        if first[k] != second[k] {
            return Some(k);
        }
    }
    None
}

/// The first of the nodes from `base` on, `width` of them, at which as much does not flow in as out.
fn unbalanced_from(certificate: &Certificate, base: usize, width: usize) -> Option<usize>
    requires width { width ≤ 4096 }
    requires fits { base + width < 18446744073709551616 }
    ensures some { IfSome result (λ node. IsFirst (is_uneven certificate.now.graph certificate.now.solved) base
        (base + width) node) }
    ensures none { result ≡ None → HasNone (is_uneven certificate.now.graph certificate.now.solved) base (base +
        width) }
{
    let mut inflows = no_sums();
    let mut outflows = no_sums();
    sum_inflows(certificate, base, &mut inflows);
    sum_outflows(certificate, base, &mut outflows);
    match first_difference(&inflows, &outflows, width) {
        Some(k) => Some(base + k),
        None => None,
    }
}

/// The node with a number, where there are `count` points.
fn node_at(count: usize, number: usize) -> Member
    requires count { count < 4294967296 }
    requires from_on { 2 ≤ number }
    requires below { number < 2 + 2 * count + 65536 }
    ensures place { 2 + place_of count result ≡ number }
    ensures known { is_node_of count result ≡ true }
{
    if number >= 2 + 2 * count {
        return Member::Relay((number - 2 - 2 * count) as u16);
    }
    let point = ((number - 2) / 2) as u32;
    if number % 2 == 0 {
        Member::In(point)
    } else {
        Member::Out(point)
    }
}

/// The number of the first half or relay at which as much does not flow in as out, if any. It makes one pass over the
/// links for each block of nodes.
fn first_uneven(certificate: &Certificate) -> Option<usize>
    ensures some { IfSome result (λ node. IsFirst (is_uneven certificate.now.graph certificate.now.solved) 2
        ((network_of certificate.now.graph).nodes) node) }
    ensures none { result ≡ None → HasNone (is_uneven certificate.now.graph certificate.now.solved) 2
        ((network_of certificate.now.graph).nodes) }
{
    let end = 2 + 2 * certificate.graph.points.len() + 65536;
    let mut base = 2;
    while base < end {
        let width = BLOCK.min(end - base);
        if let Some(number) = unbalanced_from(certificate, base, width) {
            return Some(number);
        }
        base += width;
    }
    None
}

/// The first half or relay at which as much does not flow in as out, if any.
pub fn first_unbalanced(certificate: &Certificate) -> Option<Member>
    ensures some { IfSome result (IsFirstUnbalanced certificate.now.graph certificate.now.solved) }
    ensures none { result ≡ None → HasNoneUnbalanced certificate.now.graph certificate.now.solved }
{
    let count = certificate.graph.points.len();
    match first_uneven(certificate) {
        Some(number) => Some(node_at(count, number)),
        None => None,
    }
}
