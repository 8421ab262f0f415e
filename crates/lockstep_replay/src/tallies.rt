ghost use Rattle.std.specs.Prelude.{◌≡◌, ℕ, ◌+◌, ◌≤◌, ◌<◌, ◌^◌, ◌++◌, ◌∷◌, List, length, IsTrue};
ghost use Rattle.flow_base.specs.declared.points.Point.{Point as APoint};
ghost use Rattle.flow_base.specs.Points.{is_slot};
ghost use Rattle.flow_base.specs.Words.{bits_under};
ghost use Rattle.replay_machine.specs.Runs.{Masks, mask_at};
ghost use Rattle.replay_machine.specs.Visits.{IsAhead};
ghost use Rattle.lockstep_replay.specs.Verdicts.{counted_bits};
ghost use Rattle.lockstep_replay.specs.Tapes.{Tally, Tallies};

use crossing_bits::{Bits, bit_count};
use flow_base::{NoMemory, Point};
use region_machine::Observer;
use replay_machine::{CutTable, LentVisits};
use rv32im_machine::{Passer, Passing, Place, Seen, Shape, Source};
use std::alloc::Global;
use std::convert::Infallible;

/// What crosses in a real run: each value goes on as it is, and its bits under the mask of its visit are counted, and are
/// kept as long as the budget holds.
#[derive(Drop)]
pub struct Tallying<'c> {
    /// The masks of the visits that are ahead.
    pub masks: LentVisits<'c>,
    /// The bits that have crossed, as long as the budget holds.
    pub bits: Bits,
    /// How many bits have crossed, or 4,294,967,295 where there are more.
    pub needed: u32,
    /// How many bits are kept.
    pub budget: u32,
    ghost room: { budget ≤ length bits.bits + bits.room },
    ghost kept: { length bits.bits ≤ needed },
    ghost small: { budget < 4294967295 },
    ghost word: { needed < 4294967296 },
}

/// Counts the bits of a value under a mask, and keeps them as long as the budget holds; the answer is the number so
/// far.
#[cold]
#[inline(never)]
#[tactic(auto, using(crossing_bits::proofs::Places::length_bits_under, crossing_bits::proofs::Places::count_bound))]
fn keep(bits: &mut Bits, needed: u32, budget: u32, value: u32, mask: u32) -> u32
    requires room { budget ≤ length bits.old.bits + bits.old.room }
    requires kept { length bits.old.bits ≤ needed }
    requires small { budget < 4294967295 }
    ensures needed { result ≡ counted_bits (needed + length (bits_under value mask)) }
    ensures pushed { needed + length (bits_under value mask) ≤ budget →
        bits.new.bits ≡ bits.old.bits ++ bits_under value mask }
    ensures taken { bits.new.taken ≡ bits.old.taken }
    ensures room { budget ≤ length bits.new.bits + bits.new.room }
    ensures kept { length bits.new.bits ≤ result }
{
    let count = bit_count(mask);
    let so_far = needed.saturating_add(count);
    if so_far <= budget {
        push_fitting(bits, value, mask);
    }
    so_far
}

/// Appends the bits of a value under a mask, for which there is room.
#[tactic(auto, using(crossing_bits::proofs::Places::length_bits_under))]
fn push_fitting(bits: &mut Bits, value: u32, mask: u32)
    requires room { length (bits_under value mask) ≤ bits.old.room }
    requires few { length bits.old.bits + length (bits_under value mask) < 2 ^ 32 }
    ensures pushed { bits.new.bits ≡ bits.old.bits ++ bits_under value mask }
    ensures taken { bits.new.taken ≡ bits.old.taken }
    ensures room { bits.old.room ≤ bits.new.room + length (bits_under value mask) }
{
    let _ = bits.push_masked(value, mask);
}

impl<'c> Tallying<'c> {
    ghost use Rattle.std.specs.Prelude.{[], IfOk};
    ghost use Rattle.cut_file.specs.Masks.{MaskAt};
    ghost use Rattle.lockstep_replay.specs.Sides.{tally_of};

    /// Nothing has crossed yet, at the masks of a table, of which up to a budget of fewer than 4,294,967,295 bits is kept.
    /// `NoMemory` where there is not enough; no later call takes memory.
    pub fn new(alloc: Global, table: &'c CutTable, budget: u32) -> Result<Tallying<'c>, NoMemory>
        requires { budget < 4294967295 }
        ensures ahead { IfOk result (λ tally. IsAhead tally.masks (MaskAt table.now) []) }
        ensures empty { IfOk result (λ tally. tally.bits.bits ≡ []) }
        ensures untaken { IfOk result (λ tally. tally.bits.taken ≡ 0) }
        ensures uncounted { IfOk result (λ tally. tally.needed ≡ 0) }
        ensures budget { IfOk result (λ tally. tally.budget ≡ budget) }
    {
        let masks = LentVisits::new(alloc, table)?;
        let bits = Bits::with_room(alloc, budget)?;
        Ok(Tallying {
            masks,
            bits,
            needed: 0,
            budget,
        })
    }

    /// The bits of a value under the mask of the next visit of its point cross. The answer is that mask.
    #[inline(always)]
    pub fn cross(&mut self, point: Point, value: u32) -> u32
        requires { IsTrue (is_slot point.slot) }
        ensures mask { (masks : Masks) (past : List APoint) → IsAhead self.old.masks masks past →
            result ≡ mask_at masks past point }
        ensures budget { self.new.budget ≡ self.old.budget }
        ensures tally { (masks : Masks) (past : List APoint) → IsAhead self.old.masks masks past →
            Tallies (tally_of self.old) (bits_under value (mask_at masks past point)) (tally_of self.new) }
        ensures ahead { (masks : Masks) (past : List APoint) → IsAhead self.old.masks masks past →
            IsAhead self.new.masks masks (point ∷ past) }
    {
        let mask = self.masks.next(point);
        if mask == 0 {
            return 0;
        }
        self.needed = keep(&mut self.bits, self.needed, self.budget, value, mask);
        mask
    }
}

impl Passer for Tallying<'_> {
    ghost use Rattle.std.specs.Prelude.{◌≡◌, ℕ, List, None};
    ghost use Rattle.flow_base.specs.declared.points.Point.{Point as ThePoint};
    ghost use Rattle.rv32im_machine.specs.Folds.{real_end};
    ghost use Rattle.region_machine.specs.Runs.{passed};
    ghost use Rattle.replay_machine.specs.Runs.{Masks};
    ghost use Rattle.replay_machine.specs.Visits.{IsAhead};
    ghost use Rattle.lockstep_replay.specs.Crossing.{crossing};
    ghost use Rattle.lockstep_replay.specs.Tapes.{Tally, Crosses};
    ghost use Rattle.lockstep_replay.specs.Sides.{tally_of};
    ghost use Rattle.lockstep_replay.specs.Ends.{crosses_Ended};
    ghost use Rattle.std.specs.declared.convert.Infallible.{Infallible as Never};

    type Stop = Infallible;

    ghost Tape = { Tally };

    ghost tape = { λ side. tally_of side };

    ghost memory = { λ side. None };

    ghost Plays = { λ side walk out. (masks : Masks) (past : List ThePoint) → IsAhead side.masks masks past →
        Crosses (tally_of side) masks (passed past walk) (crossing masks past walk) (real_end walk) out };

    fn look(&mut self, _seen: Seen, _value: u32) -> Result<(), Infallible> {
        Ok(())
    }

    #[inline(always)]
    fn pass(&mut self, passing: Passing) -> Result<u32, Infallible> {
        self.cross(passing.point, passing.value);
        Ok(passing.value)
    }

    fn move_to(
        &mut self,
        _place: Place,
        _shape: Shape,
        _source: Source,
        _value: u32,
    ) -> Result<(), Infallible> {
        Ok(())
    }

    fn save(&mut self) -> Result<(), Infallible> {
        Ok(())
    }

    fn restore(&mut self, _registers: &[u8]) -> Result<bool, Infallible> {
        Ok(false)
    }

    ghost at_end = { λ side state masks past ahead.
        crosses_Ended Never (tally_of side) masks past state side.word ahead };
}

impl Observer for Tallying<'_> {
    ghost use Rattle.std.specs.Prelude.{[]};
    ghost use Rattle.replay_machine.proofs.MasksAhead.{ahead_self};
    ghost use Rattle.cut_file.specs.Masks.{MaskAt};
    ghost use Rattle.rv32im_machine.specs.Folds.{real_end};
    ghost use Rattle.region_machine.specs.Runs.{passed};
    ghost use Rattle.lockstep_replay.specs.Crossing.{crossing};
    ghost use Rattle.lockstep_replay.specs.Ends.{crosses_real};
    ghost use Rattle.lockstep_replay.specs.Sides.{tally_of};
    ghost use Rattle.std.specs.declared.convert.Infallible.{Infallible as Never};

    ghost real = { λ side walk state after told.
        crosses_real Never (tally_of side) (MaskAt side.masks) (passed [] walk) (crossing (MaskAt side.masks) [] walk)
        (real_end walk) state after (told (MaskAt side.masks) [] (ahead_self side.masks)) };
}
