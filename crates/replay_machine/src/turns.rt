use rv32im_machine::Fault;

/// How a turn of a replay ends.
#[derive(Clone, Copy, Debug)]
pub enum ReplayTurn {
    /// The replay runs on.
    Ran,
    /// A mask of this turn needs so many bits more than are left.
    Wants(u8),
    /// The guest has exited with this status.
    Exited(u8),
    /// The guest is stopped.
    Stopped(Fault),
    /// At the entry of the region with this number, a range is not inside guest memory: the first such, counted from 0.
    RangeOutside { region: u16, range: u32 },
}
