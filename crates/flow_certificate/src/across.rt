ghost use Rattle.std.specs.Prelude.{◌≡◌, None, IfSome, length, true};
ghost use Rattle.flow_graph.specs.Graphs.{are_relays, is_link, is_origin, is_relay, is_target};
ghost use Rattle.max_flow.specs.Flows.{entered_in, has_first as first_in, has_second as second_in, left_in, relay_in};
ghost use Rattle.flow_certificate.specs.Verdicts.{HasNoneAcross, IsFirstAcross, is_across};

use crate::certificates::Certificate;
use flow_graph::{Arc, End};
use max_flow::Half;

/// Whether a point's first half is in the side.
pub fn has_first(half: Half) -> bool
    ensures { result ≡ first_in half }
{
    matches!(half, Half::Both | Half::FirstOnly)
}

/// Whether its second half is.
pub fn has_second(half: Half) -> bool
    ensures { result ≡ second_in half }
{
    matches!(half, Half::Both | Half::SecondOnly)
}

/// Whether the relay of a region is in the side, where these are the answers for the relays.
fn has_relay(relays: &[u16], answers: &[bool], region: u16) -> bool
    requires ascend { are_relays relays.now ≡ true }
    requires known { is_relay relays.now region ≡ true }
    requires same { length answers.now ≡ length relays.now }
    ensures { result ≡ relay_in relays.now answers.now region }
{
    match relays.binary_search(&region) {
        Ok(index) => answers[index],
        Err(_) => false,
    }
}

/// Whether what a link leaves is in the side.
fn has_source(certificate: &Certificate, end: End) -> bool
    requires { is_origin (length certificate.now.graph.points) certificate.now.graph.relays end ≡ true }
    ensures { result ≡ left_in certificate.now.graph certificate.now.solved.side.points
        certificate.now.solved.side.relays end }
{
    let Certificate { graph, solved } = certificate;
    match end {
        End::Source => true,
        End::Point(index) => has_second(solved.side.points.as_slice()[index as usize]),
        End::Relay(region) => has_relay(
            graph.relays.as_slice(),
            solved.side.relays.as_slice(),
            region,
        ),
        End::Sink => false,
    }
}

/// Whether what a link enters is in the side.
fn has_target(certificate: &Certificate, end: End) -> bool
    requires { is_target (length certificate.now.graph.points) certificate.now.graph.relays end ≡ true }
    ensures { result ≡ entered_in certificate.now.graph certificate.now.solved.side.points
        certificate.now.solved.side.relays end }
{
    let Certificate { graph, solved } = certificate;
    match end {
        End::Source => true,
        End::Point(index) => has_first(solved.side.points.as_slice()[index as usize]),
        End::Relay(region) => has_relay(
            graph.relays.as_slice(),
            solved.side.relays.as_slice(),
            region,
        ),
        End::Sink => false,
    }
}

/// Whether a link leads out of the side.
fn is_leaving(certificate: &Certificate, link: &Arc) -> bool
    requires { is_link (length certificate.now.graph.points) certificate.now.graph.relays link.now ≡ true }
    ensures { result ≡ is_across certificate.now.graph certificate.now.solved link.now }
{
    has_source(certificate, link.source) && !has_target(certificate, link.target)
}

/// The first link that leaves the source side, if any.
pub fn first_across(certificate: &Certificate) -> Option<Arc>
    ensures some { IfSome result (IsFirstAcross certificate.now.graph certificate.now.solved) }
    ensures none { result ≡ None → HasNoneAcross certificate.now.graph certificate.now.solved }
{
    for link in certificate.graph.links.as_slice() {
        if is_leaving(certificate, link) {
            return Some(*link);
        }
    }
    None
}
