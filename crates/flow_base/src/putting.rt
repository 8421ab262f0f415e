ghost use Rattle.std.specs.Prelude.{◌≡◌, ◌≤◌, ℕ, Option, OnOk, OnErr};
ghost use Rattle.flow_base.specs.Counts.{Rose};
ghost use Rattle.flow_base.specs.Puts.{Taken, Puts};

/// Why a put took not all of its bytes.
#[derive(Clone, Copy, Debug)]
pub enum SinkFault {
    /// The sink failed; its count of faults rose.
    Failed,
}

/// Where text goes. A sink has a count of faults that never falls. Where it tells its meanings, these are the bytes
/// taken so far and the number of puts made.
pub trait Sink {
    ghost faults: { Self → ℕ };

    ghost told: { Self → Option Taken };

    /// Appends all of `bytes`. Each put raises the number of puts, whatever it answers; at 2^64 - 1 that number stays.
    /// `Failed` comes only where the count of faults rose, and a prefix of `bytes` was then appended. After Ok the
    /// count is as it was.
    fn put(&mut self, bytes: &[u8]) -> Result<(), SinkFault>
        ensures puts { Puts bytes.now result (told self.old) (told self.new) }
        ensures cause { OnErr result (Rose (faults self.old) (faults self.new)) }
        ensures kept { OnOk result (faults self.new ≡ faults self.old) }
        ensures faults { faults self.old ≤ faults self.new };
}
