use flow_base::NoMemory;
use lockstep_replay::Tallying;
use masked_turns::{
    LeftBits, SecretLook, earlier_left, earlier_look, left_bits, note_cleared, secret_look,
};
use region_machine::Observer;
use rv32im_machine::{Passer, Passing, Place, Seen, Shape, Source};
use shadow_masks::Shadow;
use tracked_run::{Held, note_move, note_restore, note_save};
use transfer_rules::RuleBook;

/// The observer of a check with one machine: each value goes on as it is, its bits under the mask of its visit cross, and
/// its mask loses them.
#[derive(Drop)]
pub(crate) struct Clearing<'b> {
    /// The masks of registers and bytes, as labels at no point.
    pub shadow: Shadow,
    pub tally: Tallying<'b>,
    pub book: &'b RuleBook,
    /// The masks of the operands of the turn.
    pub held: Held,
    /// The number of the region that the turn enters, 0: of none.
    pub region: u16,
    /// Whether the turn leaves a region that is skipped.
    pub skipped: bool,
    /// The first look at what may differ.
    pub look: Option<SecretLook>,
    /// The first bits that are left at a decision.
    pub left: Option<LeftBits>,
}

impl Passer for Clearing<'_> {
    ghost use Rattle.std.specs.Prelude.{ℕ, List, Some};
    ghost use Rattle.std.proofs.Common.{refl};
    ghost use Rattle.flow_base.specs.declared.points.Point.{Point as ThePoint};
    ghost use Rattle.replay_machine.specs.Runs.{Masks};
    ghost use Rattle.replay_machine.specs.Visits.{IsAhead};
    ghost use Rattle.tracked_run.specs.Labels.{labels_of};
    ghost use Rattle.taint_check.specs.Private.Tapes.{Tape, PlaysCleared, clears_Ended, tape_of};

    type Stop = NoMemory;

    ghost Tape = { Tape };

    ghost tape = { λ side.
        tape_of side.book.now.table side.shadow side.tally side.look side.left };

    ghost memory = { λ side. Some side.shadow.base };

    ghost Plays = { λ side walk out. (masks : Masks) (past : List ThePoint) → IsAhead side.tally.masks masks past →
        PlaysCleared side.region (record { masks = masks; skipped = side.skipped }) past
        (labels_of side.shadow side.held)
        (tape_of side.book.now.table side.shadow side.tally side.look side.left) walk out };

    #[inline(always)]
    fn look(&mut self, seen: Seen, _value: u32) -> Result<(), NoMemory> {
        let look = secret_look(&self.shadow, self.region, seen);
        self.look = earlier_look(self.look, look);
        Ok(())
    }

    #[inline(always)]
    fn pass(&mut self, passing: Passing) -> Result<u32, NoMemory> {
        let crossing = self.tally.cross(passing.point, passing.value);
        let mask = note_cleared(
            &mut self.shadow,
            &mut self.held,
            self.book,
            passing,
            crossing,
            self.skipped,
        )?;
        let left = left_bits(passing.aim, passing.point, mask);
        self.left = earlier_left(self.left, left);
        Ok(passing.value)
    }

    fn move_to(
        &mut self,
        place: Place,
        shape: Shape,
        source: Source,
        _value: u32,
    ) -> Result<(), NoMemory> {
        note_move(&mut self.shadow, &mut self.held, place, shape, source)?;
        Ok(())
    }

    fn save(&mut self) -> Result<(), NoMemory> {
        note_save(&mut self.shadow);
        Ok(())
    }

    fn restore(&mut self, registers: &[u8]) -> Result<bool, NoMemory> {
        note_restore(&mut self.shadow, registers);
        Ok(false)
    }

    ghost at_end = { λ side state masks past ahead.
        clears_Ended side.region (record { masks = masks; skipped = side.skipped }) past
        (labels_of side.shadow side.held)
        (tape_of side.book.now.table side.shadow side.tally side.look side.left) state refl
        side.tally.word ahead };
}

impl Observer for Clearing<'_> {
    ghost use Rattle.std.specs.Prelude.{[]};
    ghost use Rattle.cut_file.specs.Masks.{MaskAt};
    ghost use Rattle.replay_machine.proofs.MasksAhead.{ahead_self};
    ghost use Rattle.tracked_run.specs.Labels.{labels_of};
    ghost use Rattle.taint_check.specs.Private.Tapes.{clears_real, tape_of};

    ghost real = { λ side walk state after told.
        clears_real side.region
        (record { masks = MaskAt side.tally.masks; skipped = side.skipped }) [] (labels_of side.shadow side.held)
        (tape_of side.book.now.table side.shadow side.tally side.look side.left) walk state after
        (told (MaskAt side.tally.masks) [] (ahead_self side.tally.masks)) };
}
