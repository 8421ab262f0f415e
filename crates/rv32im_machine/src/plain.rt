ghost use Rattle.std.specs.Prelude.{◌≡◌};
ghost use Rattle.rv32im_machine.specs.Folds.{Step};

use crate::language::{Passing, Place, Seen, Shape, Source};
use crate::machines::Machine;
use crate::passing::Passer;
use crate::stepping::Stepped;
use crate::walker::turn_by;
use std::convert::Infallible;

/// Whoever is told everything and keeps nothing: every value goes on as it is.
#[derive(Clone, Copy)]
pub struct Plain;

#[tactic(auto, unfolding(crate::specs::Folds::real_end))]
impl Passer for Plain {
    ghost use Rattle.std.specs.Prelude.{◌≡◌, ℕ, None};
    ghost use Rattle.rv32im_machine.specs.State.{State};
    ghost use Rattle.std.proofs.Common.{ap};
    ghost use Rattle.rv32im_machine.specs.Folds.{real_end, real_Ended};
    ghost use Rattle.rv32im_machine.specs.Playing.{Finished};

    type Stop = Infallible;

    ghost Tape = { Unit {0} };

    ghost tape = { λ p. tt };

    ghost memory = { λ p. None };

    ghost Plays = { λ p walk out. Finished (real_end walk) tt ≡ out };

    fn look(&mut self, _seen: Seen, _value: u32) -> Result<(), Infallible> {
        Ok(())
    }

    fn pass(&mut self, passing: Passing) -> Result<u32, Infallible> {
        Ok(passing.value)
    }

    fn move_to(
        &mut self,
        _place: Place,
        _shape: Shape,
        _source: Source,
        _value: u32,
    ) -> Result<(), Infallible> {
        Ok(())
    }

    fn save(&mut self) -> Result<(), Infallible> {
        Ok(())
    }

    fn restore(&mut self, _registers: &[u8]) -> Result<bool, Infallible> {
        Ok(false)
    }

    ghost at_end = { λ p state. ap (λ s. Finished s tt) (real_Ended state) };
}

impl Machine {
    /// One turn of the real run (RISC-V Unprivileged ISA, RV32IM): one instruction or call, unless the machine has
    /// exited or is stopped, for then it stands still. The answer is the mode after it. It takes no memory.
    pub fn step(&mut self) -> Stepped
        ensures state { self.new ≡ Step self.old }
        ensures mode { result ≡ self.new.control.mode }
    {
        let mut plain = Plain;
        let _ = turn_by(self, &mut plain);
        self.mode()
    }
}
