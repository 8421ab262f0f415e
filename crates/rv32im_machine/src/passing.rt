ghost use Rattle.std.specs.Prelude.{◌≡◌, ℕ, ◌<◌, ◌≤◌, IfOk, IsTrue, All, Option as Maybe};
ghost use Rattle.flow_base.specs.Points.{is_slot, width_of};
ghost use Rattle.rv32im_machine.specs.State.{State};
ghost use Rattle.rv32im_machine.specs.Language.{Walk, Looked, Passed, Moved, Saved, Restored, Ended};
ghost use Rattle.rv32im_machine.specs.Playing.{Played, Finished, Goes, restored_or, IsAim, IsPlace, IsSeen, IsSource, AreSources};
ghost use Rattle.rv32im_machine.specs.Playing.{joins_bytes, FitsAim, FitsSlot, moves_bits, fits_place};

use crate::language::{Passing, Place, Seen, Shape, Source};

/// Whoever is handed the values of a turn, one after another, and answers the value that goes on, or stops the turn.
/// `Plays` says which ends a walk may have from here; each call says what may be played before it, given what may be
/// played after it. A passer that keeps something of the bytes of guest memory says of which: `memory` is the base of
/// that memory, and each byte that it is told of lies inside.
pub trait Passer {
    /// Why a turn is stopped before its end.
    type Stop;

    ghost Tape: { Type 0 };

    ghost tape: { Self → Tape };

    ghost memory: { Self → Maybe ℕ };

    ghost Plays: { Self → Walk → Played Self.Stop Tape → Type 0 };

    /// A look at the fetched word or at a base register, which is no passing.
    fn look(&mut self, seen: Seen, value: u32) -> Result<(), Self::Stop>
        requires { IsSeen (memory self.old) seen }
        ensures memory { memory self.new ≡ memory self.old }
        ensures goes { (walk : Walk) → Goes result (λ done. Plays self.new walk)
            (Plays self.old (Looked seen value walk)) };

    /// A value passes a point; the answer goes on from it in its place. Only bytes of memory are joined to a word, what
    /// passes a slot of 8 bits is a byte, and what goes to a byte of memory passes such a slot.
    fn pass(&mut self, passing: Passing) -> Result<u32, Self::Stop>
        requires slot { IsTrue (is_slot passing.point.slot) }
        requires value { passing.value ≤ width_of passing.point.slot }
        requires aim { IsAim (memory self.old) passing.aim }
        requires sources { AreSources (memory self.old) passing.sources }
        requires joins { IsTrue (joins_bytes passing.work passing.sources) }
        requires byte { FitsSlot passing.point.slot passing.work passing.sources }
        requires fits { FitsAim passing.aim passing.point.slot }
        ensures memory { memory self.new ≡ memory self.old }
        ensures width { IfOk result (λ other. other ≤ width_of passing.point.slot) }
        ensures goes { (go : ℕ → Walk) → Goes result (λ other. Plays self.new (go other))
            (Plays self.old (Passed passing go)) };

    /// A value is written to a place without passing a point. It is not extended, and what goes to a byte of memory is a
    /// byte.
    fn move_to(
        &mut self,
        place: Place,
        shape: Shape,
        source: Source,
        value: u32,
    ) -> Result<(), Self::Stop>
        requires place { IsPlace (memory self.old) place }
        requires source { IsSource (memory self.old) source }
        requires moves { IsTrue (moves_bits shape) }
        requires fits { IsTrue (fits_place place shape source) }
        ensures memory { memory self.new ≡ memory self.old }
        ensures goes { (walk : Walk) → Goes result (λ done. Plays self.new walk)
            (Plays self.old (Moved place shape source value walk)) };

    /// The entry of a region keeps every register.
    fn save(&mut self) -> Result<(), Self::Stop>
        ensures memory { memory self.new ≡ memory self.old }
        ensures goes { (walk : Walk) → Goes result (λ done. Plays self.new walk)
            (Plays self.old (Saved walk)) };

    /// At a leave: whether these registers (below 32) are put back to what was kept at the entry.
    fn restore(&mut self, registers: &[u8]) -> Result<bool, Self::Stop>
        requires { All (λ register. register < 32) registers.now }
        ensures memory { memory self.new ≡ memory self.old }
        ensures goes { (real : Walk) (replayed : Walk) →
            Goes result (λ back. Plays self.new (restored_or back real replayed))
            (Plays self.old (Restored registers.now real replayed)) };

    ghost at_end: { (p : Self) (state : State) → Plays p (Ended state) (Finished state (tape p)) };
}
