use crate::end_names::EndName;
use flow_graph::Arc;
use std::fmt;

/// A node of a graph at which what flows in must flow out: a half of a point, by the point's index, or the relay of a
/// region. Nodes are ordered as p0.in, p0.out, p1.in and so on, and then the relays by their regions.
#[derive(Clone, Copy)]
pub enum Member {
    /// The first half of a point, which links enter.
    In(u32),
    /// The second half of a point, which links leave.
    Out(u32),
    /// The relay of a region.
    Relay(u16),
}

/// Why a certificate does not show a maximum flow: the first of these that holds.
#[derive(Clone, Copy)]
pub enum CertFault {
    /// The flow through a point exceeds its capacity.
    Over {
        /// The index of the first such point.
        point: u32,
    },
    /// What flows into a half or a relay differs from what flows out of it.
    Unbalanced {
        /// The first such node.
        node: Member,
    },
    /// An open link leaves the source side.
    OpenAcross {
        /// The first such link.
        link: Arc,
    },
    /// The value, the flow out of the source and the side's capacity are not all equal.
    Values {
        /// The value that the certificate names, in bits.
        value: u64,
        /// What flows out of the source, in bits.
        flow: u128,
        /// The capacity of the side, in bits.
        cut: u128,
    },
}

/// What a certificate shows.
#[derive(Clone, Copy)]
pub enum CertVerdict {
    /// The flow is feasible, the side is a side, and both have this value, in bits: the flow is a maximum flow and the
    /// side a minimum cut.
    Verified { value: u64 },
    /// It does not show this.
    Rejected(CertFault),
}

impl fmt::Display for Member {
    ghost use Rattle.std.specs.Prelude.{Some};
    ghost use Rattle.flow_certificate.specs.VerdictTexts.{node_text};

    ghost output = { λ node. Some (node_text node) };

    fn fmt<W: fmt::Write>(&self, f: &mut fmt::Formatter<W>) -> fmt::Result {
        match *self {
            Member::In(point) => write!(f, "p{point}.in"),
            Member::Out(point) => write!(f, "p{point}.out"),
            Member::Relay(region) => write!(f, "r{region}"),
        }
    }
}

impl fmt::Display for CertFault {
    ghost use Rattle.std.specs.Prelude.{Some};
    ghost use Rattle.flow_certificate.specs.VerdictTexts.{certificate_fault_text};

    ghost output = { λ fault. Some (certificate_fault_text fault) };

    fn fmt<W: fmt::Write>(&self, f: &mut fmt::Formatter<W>) -> fmt::Result {
        match *self {
            CertFault::Over { point } => write!(f, "over p{point}"),
            CertFault::Unbalanced { node } => write!(f, "unbalanced {node}"),
            CertFault::OpenAcross { link } => {
                let from = EndName(link.source);
                let to = EndName(link.target);
                write!(f, "across {from} {to}")
            }
            CertFault::Values { value, flow, cut } => {
                write!(f, "values value {value} flow {flow} cut {cut}")
            }
        }
    }
}

impl fmt::Display for CertVerdict {
    ghost use Rattle.std.specs.Prelude.{Some};
    ghost use Rattle.flow_certificate.specs.VerdictTexts.{verdict_text};

    ghost output = { λ verdict. Some (verdict_text verdict) };

    fn fmt<W: fmt::Write>(&self, f: &mut fmt::Formatter<W>) -> fmt::Result {
        match *self {
            CertVerdict::Verified { value } => write!(f, "verified {value}"),
            CertVerdict::Rejected(fault) => write!(f, "rejected {fault}"),
        }
    }
}
