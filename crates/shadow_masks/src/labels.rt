ghost use Rattle.std.specs.Prelude.{◌≡◌};
ghost use Rattle.shadow_masks.specs.Labels.{clean};

use flow_base::{Point, Slot};

/// What is known of a register or a byte: the mask of the bits that the secret may reach, and the point where they last
/// passed. A label of mask 0 is the clean one.
#[derive(Clone, Copy)]
pub struct Label {
    /// The bits that the secret may reach; of a byte at most 0xff.
    pub mask: u32,
    /// The point where they last passed.
    pub point: Point,
}

impl Label {
    /// The label of a value that the secret does not reach: mask 0, at region 0, address 0, slot First.
    pub fn clean() -> Label
        ensures { result ≡ clean }
    {
        Label {
            mask: 0,
            point: Point {
                region: 0,
                address: 0,
                slot: Slot::First,
            },
        }
    }
}
