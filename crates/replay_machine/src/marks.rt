use flow_base::HexWord;
use std::fmt;

/// Where a run stands after a turn, as far as a real run and its replay must agree.
#[derive(Clone, Copy, Debug, PartialEq, Eq)]
pub struct Mark {
    /// The program counter, an address; after an exit it is that of the exit's ECALL.
    pub address: u32,
    /// The number of crossing bits so far.
    pub bits: u64,
    /// The number of output bytes so far.
    pub output: u32,
    /// Whether the run has exited.
    pub exited: bool,
}

impl fmt::Display for Mark {
    ghost use Rattle.std.specs.Prelude.{Some};
    ghost use Rattle.replay_machine.specs.Marks.{mark_text};

    ghost output = { λ mark. Some (mark_text mark) };

    fn fmt<W: fmt::Write>(&self, f: &mut fmt::Formatter<W>) -> fmt::Result {
        let address = HexWord(self.address);
        let bits = self.bits;
        let output = self.output;
        let ended = if self.exited { "exited" } else { "running" };
        write!(f, "{address} bits {bits} output {output} {ended}")
    }
}
