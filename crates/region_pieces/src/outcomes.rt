use crate::hold_faults::HoldFault;
use crate::pieces::Piece;
use flow_base::{Point, Slot};
use rv32im_machine::Fault;

/// What comes of a turn of a piece.
#[derive(Drop)]
pub(crate) enum Turned {
    /// The piece goes on.
    On,
    /// The piece goes on, and behind it another.
    Beside(Piece),
    /// In place of the piece these go on, in order.
    Each(Vec<Piece>),
    /// No state goes on.
    Gone,
    /// It was not shown that all states go on.
    NotShown(HoldFault),
}

/// A guest may be stopped.
pub(crate) fn stopped(fault: Fault) -> Turned {
    Turned::NotShown(HoldFault::Guest(fault))
}

/// The address at which the instruction of the piece looks, or to which it jumps, is not known: so much of it.
pub(crate) fn left(region: u16, pc: u32, mask: u32) -> Turned {
    Turned::NotShown(HoldFault::Left {
        point: Point {
            region,
            address: pc,
            slot: Slot::Address,
        },
        mask,
    })
}
