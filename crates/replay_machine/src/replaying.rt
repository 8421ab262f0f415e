ghost use Rattle.std.specs.Prelude.{◌≡◌, ℕ, ◌∷◌, ◌≤◌, IsTrue, List};
ghost use Rattle.flow_base.specs.declared.points.Point.{Point as ThePoint};
ghost use Rattle.flow_base.specs.Words.{bit_count as count_of, patched};
ghost use Rattle.flow_base.specs.Points.{is_slot, width_of};
ghost use Rattle.crossing_bits.specs.Askers.{Asker, Asks};
ghost use Rattle.crossing_bits.specs.Strings.{left_of};
ghost use Rattle.rv32im_machine.specs.Playing.{Played};
ghost use Rattle.replay_machine.specs.Runs.{ReplayPlace as ThePlace, Masks, mask_at};
ghost use Rattle.replay_machine.specs.Visits.{IsAhead};
ghost use Rattle.replay_machine.specs.Private.Sides.{Side, Replays, fed_of};

use crate::replays::Replaying;
use crossing_bits::bit_count;
use flow_base::Point;
use rv32im_machine::{Passer, Passing, Place, Seen, Shape, Source};

impl Replaying<'_> {
    /// The value with the next bits in place of those under the mask of its point. Where too few are left, the number
    /// that is missing is kept, no bit is taken any more, and values go on as they are.
    #[inline(always)]
    fn patch(&mut self, point: Point, value: u32) -> u32
        requires slot { IsTrue (is_slot point.slot) }
        requires value { value ≤ width_of point.slot }
        ensures width { result ≤ width_of point.slot }
        ensures goes { (masks : Masks) (past : List ThePoint) (next : ℕ → Asker ThePlace)
            (out : Played (Unit {0}) Side) →
            IsAhead self.old.masks masks past →
            (IsAhead self.new.masks masks (point ∷ past) →
            Replays masks self.new.bits (fed_of self.new.missing (next result) (left_of self.new.bits)) out) →
            Replays masks self.old.bits (fed_of self.old.missing (Asks (count_of (mask_at masks past point))
            (λ bits. next (patched value (mask_at masks past point) bits))) (left_of self.old.bits)) out }
    {
        let mask = self.masks.next(point);
        if self.missing != 0 {
            return value;
        }
        match self.bits.patch(value, mask) {
            Some(word) => word,
            None => {
                self.missing = (bit_count(mask) - self.bits.left()) as u8;
                value
            }
        }
    }
}

#[tactic(auto, unfolding(crate::specs::Runs::replayed))]
impl Passer for Replaying<'_> {
    ghost use Rattle.std.specs.Prelude.{◌≡◌, ℕ, List, None};
    ghost use Rattle.flow_base.specs.declared.points.Point.{Point as ThePoint};
    ghost use Rattle.crossing_bits.specs.Strings.{left_of};
    ghost use Rattle.replay_machine.specs.Runs.{Masks, replayed};
    ghost use Rattle.replay_machine.specs.Visits.{IsAhead};
    ghost use Rattle.replay_machine.specs.Private.Sides.{Side, Replays, fed_of};
    ghost use Rattle.replay_machine.specs.Private.Replaying.{replays_Ended};

    type Stop = ();

    ghost Tape = { Side };

    ghost tape = { λ side. record { ahead = side.masks; stream = side.bits; missing = side.missing } };

    ghost memory = { λ side. None };

    ghost Plays = { λ side walk out. (masks : Masks) (past : List ThePoint) → IsAhead side.masks masks past →
        Replays masks side.bits (fed_of side.missing (replayed masks past walk) (left_of side.bits)) out };

    fn look(&mut self, _seen: Seen, _value: u32) -> Result<(), ()> {
        Ok(())
    }

    #[inline(always)]
    fn pass(&mut self, passing: Passing) -> Result<u32, ()> {
        Ok(self.patch(passing.point, passing.value))
    }

    fn move_to(
        &mut self,
        _place: Place,
        _shape: Shape,
        _source: Source,
        _value: u32,
    ) -> Result<(), ()> {
        Ok(())
    }

    fn save(&mut self) -> Result<(), ()> {
        Ok(())
    }

    fn restore(&mut self, _registers: &[u8]) -> Result<bool, ()> {
        Ok(true)
    }

    ghost at_end = { λ side state masks past ahead.
        replays_Ended (Unit {0}) side.masks side.bits side.missing masks past state ahead };
}
