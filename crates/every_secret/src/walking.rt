ghost use Rattle.std.specs.Prelude.{◌≡◌, ◌≤◌, ℕ, IfOk, IsTrue, List as Seq, None, OnOk, Some};
ghost use Rattle.flow_base.specs.Points.{is_slot, width_of};
ghost use Rattle.rv32im_machine.specs.Language.{Passed, Walk};
ghost use Rattle.rv32im_machine.specs.Playing.{AreSources, FitsAim, FitsSlot, Goes, IsAim, IsPlace, IsSource, fits_place};
ghost use Rattle.rv32im_machine.specs.Playing.{joins_bytes, moves_bits};
ghost use Rattle.run_labels.specs.TurnLabels.{put_label};
ghost use Rattle.tracked_run.specs.Labels.{labels_of};
ghost use Rattle.every_secret.specs.Masked.{label_moved, unclear_by_left, unclear_by_look};
ghost use Rattle.every_secret.specs.Private.Tapes.{PlaysWalk, ruling_of, tape_of};

use crate::idle_visits::{are_words, settle_aim};
use crate::public_inputs::{PublicInput, is_public_byte, public_mask};
use crate::resting::{NO_REST, passes_inside};
use crate::shown::shown_of;
use crate::visits::{note_free, put_in};
use crate::watched_shadows::WatchedShadow;
use crate::whys::UnclearWhy;
use crossing_bits::{Bits, bit_count};
use flow_base::{NoMemory, Point, Slot};
use masked_turns::{LeftBits, SecretLook, left_bits, uncrossed};
use replay_machine::LentVisits;
use rv32im_machine::{Aim, Passer, Passing, Place, Seen, Shape, Source};
use tracked_run::{Held, labelled};
use transfer_rules::RuleBook;

/// The point of each label: none.
const NOWHERE: Point = Point {
    region: 0,
    address: 0,
    slot: Slot::First,
};

/// The walk's side of a turn.
#[derive(Drop)]
pub(crate) struct Walking<'b> {
    /// The masks of registers and bytes, as labels at no point.
    pub shadow: WatchedShadow,
    /// The masks of the cut.
    pub masks: LentVisits<'b>,
    /// The string, which gets a 0 where a choice finds no bit left.
    pub bits: Bits,
    /// How many bits have crossed, 4,294,967,295 where there are more.
    pub crossed: u32,
    /// The free bits of each byte that was written.
    pub byte_masks: Vec<u8>,
    /// The free bits of the exit status.
    pub status_mask: u8,
    pub book: &'b RuleBook,
    /// What is known of the public input.
    pub known: PublicInput,
    /// The masks of the operands of the turn.
    pub held: Held,
    /// The number of the region that the turn enters, 0: of none.
    pub region: u16,
    /// Whether the turn skips a region.
    pub skipped: bool,
    /// What makes the walk unclear; values then go on as they are.
    pub unclear: Option<UnclearWhy>,
    /// The address of the turn's instruction, if no bit crosses there and no register or operand may differ so far; else
    /// 2^32.
    pub rest: u64,
}

/// What a look at what may differ makes of a walk.
fn looked(look: SecretLook) -> UnclearWhy
    ensures { Some result ≡ unclear_by_look (Some look) }
{
    match look {
        SecretLook::Code { pc } => UnclearWhy::SecretCode { pc },
        SecretLook::BaseRegister { region, register } => {
            UnclearWhy::BaseSecret { region, register }
        }
    }
}

/// What bits that are left at a decision make of it.
fn decided(left: Option<LeftBits>) -> Option<UnclearWhy>
    ensures { result ≡ unclear_by_left left }
{
    left.map(|left| UnclearWhy::Left {
        point: left.point,
        mask: left.mask,
    })
}

/// A value moves to a place, which gets the label of what moves there: a byte of the public input, by what is known of it,
/// or another. The turn may be the skip of a region.
/// `NoMemory` where there is not enough.
fn note_moved(
    shadow: &mut WatchedShadow,
    held: &mut Held,
    known: PublicInput,
    skipped: bool,
    place: Place,
    shape: Shape,
    source: Source,
) -> Result<(), NoMemory>
    requires place { IsPlace (Some shadow.old.base) place }
    requires source { IsSource (Some shadow.old.base) source }
    requires moves { IsTrue (moves_bits shape) }
    requires fits { IsTrue (fits_place place shape source) }
    ensures base { shadow.new.base ≡ shadow.old.base }
    ensures labels { OnOk result (labels_of shadow.new held.new ≡ put_label place
        (label_moved known skipped (labels_of shadow.old held.old) place shape source)
        (labels_of shadow.old held.old)) }
{
    if is_public_byte(place, source, skipped) {
        let label = labelled(public_mask(known), NOWHERE);
        shadow.put_aimed(held, Aim::Put(place), label)?;
        return Ok(());
    }
    shadow.note_move(held, place, shape, source)?;
    Ok(())
}

impl Walking<'_> {
    /// A value passes: its bits that cross and may differ are chosen or free, and its mask loses those that cross.
    /// `NoMemory` where there is not enough.
    #[inline(always)]
    fn visit(&mut self, passing: Passing) -> Result<u32, NoMemory>
        requires slot { IsTrue (is_slot passing.point.slot) }
        requires value { passing.value ≤ width_of passing.point.slot }
        requires aim { IsAim (Some self.old.shadow.base) passing.aim }
        requires sources { AreSources (Some self.old.shadow.base) passing.sources }
        requires joins { IsTrue (joins_bytes passing.work passing.sources) }
        requires byte { FitsSlot passing.point.slot passing.work passing.sources }
        requires fits { FitsAim passing.aim passing.point.slot }
        ensures memory { self.new.shadow.base ≡ self.old.shadow.base }
        ensures width { IfOk result (λ other. other ≤ width_of passing.point.slot) }
        ensures goes { self.old.unclear ≡ None → (go : ℕ → Walk) → Goes result
            (λ other. PlaysWalk self.new.region self.new.skipped (labels_of self.new.shadow self.new.held)
            (tape_of (ruling_of self.new.book.now.table self.new.known) self.new.shadow self.new.masks self.new.bits self.new.crossed
            self.new.byte_masks.items self.new.status_mask self.new.unclear) (go other))
            (PlaysWalk self.old.region self.old.skipped (labels_of self.old.shadow self.old.held)
            (tape_of (ruling_of self.old.book.now.table self.old.known) self.old.shadow self.old.masks self.old.bits self.old.crossed
            self.old.byte_masks.items self.old.status_mask self.old.unclear) (Passed passing go)) }
    {
        if self
            .shadow
            .is_idle(&self.masks, self.held, &passing, self.skipped)
        {
            let _ = self.bits.left();
            are_words(&passing, self.crossed);
            settle_aim(&mut self.held, passing.aim, self.skipped);
            return Ok(passing.value);
        }
        self.visit_busy(passing)
    }

    /// The same, whatever the visit is. It is a call of its own, so that what is put in at each place of a turn stays small.
    /// `NoMemory` where there is not enough.
    #[inline(never)]
    fn visit_busy(&mut self, passing: Passing) -> Result<u32, NoMemory>
        requires slot { IsTrue (is_slot passing.point.slot) }
        requires value { passing.value ≤ width_of passing.point.slot }
        requires aim { IsAim (Some self.old.shadow.base) passing.aim }
        requires sources { AreSources (Some self.old.shadow.base) passing.sources }
        requires joins { IsTrue (joins_bytes passing.work passing.sources) }
        requires byte { FitsSlot passing.point.slot passing.work passing.sources }
        requires fits { FitsAim passing.aim passing.point.slot }
        ensures memory { self.new.shadow.base ≡ self.old.shadow.base }
        ensures width { IfOk result (λ other. other ≤ width_of passing.point.slot) }
        ensures goes { self.old.unclear ≡ None → (go : ℕ → Walk) → Goes result
            (λ other. PlaysWalk self.new.region self.new.skipped (labels_of self.new.shadow self.new.held)
            (tape_of (ruling_of self.new.book.now.table self.new.known) self.new.shadow self.new.masks self.new.bits self.new.crossed
            self.new.byte_masks.items self.new.status_mask self.new.unclear) (go other))
            (PlaysWalk self.old.region self.old.skipped (labels_of self.old.shadow self.old.held)
            (tape_of (ruling_of self.old.book.now.table self.old.known) self.old.shadow self.old.masks self.old.bits self.old.crossed
            self.old.byte_masks.items self.old.status_mask self.old.unclear) (Passed passing go)) }
    {
        let crossing = self.masks.next(passing.point);
        let mask = self
            .shadow
            .passing_mask(self.held, self.book, passing, self.skipped);
        let differing = mask & crossing;
        let left = uncrossed(mask, crossing);
        let label = labelled(left, NOWHERE);
        self.shadow.put_aimed(&mut self.held, passing.aim, label)?;
        self.crossed = self.crossed.saturating_add(bit_count(crossing));
        let shown = shown_of(passing.point.slot);
        self.status_mask = note_free(&mut self.byte_masks, self.status_mask, shown, differing)?;
        let value = put_in(&mut self.bits, shown, passing.value, differing)?;
        self.unclear = decided(left_bits(passing.aim, passing.point, left));
        Ok(value)
    }
}

impl Passer for Walking<'_> {
    ghost use Rattle.std.specs.Prelude.{Some};
    ghost use Rattle.std.proofs.Common.{refl};
    ghost use Rattle.tracked_run.specs.Labels.{labels_of};
    ghost use Rattle.every_secret.specs.Private.Resting.{Rests};
    ghost use Rattle.every_secret.specs.Private.Tapes.{Tape, PlaysWalk, tape_of};
    ghost use Rattle.every_secret.specs.Private.Walking.{masks_Ended};

    type Stop = NoMemory;

    ghost Tape = { Tape };

    ghost tape = { λ side. tape_of (ruling_of side.book.now.table side.known) side.shadow side.masks side.bits side.crossed
        side.byte_masks.items side.status_mask side.unclear };

    ghost memory = { λ side. Some side.shadow.base };

    ghost Plays = { λ side walk out. Rests side.rest side.skipped side.masks (labels_of side.shadow side.held) side.unclear →
        PlaysWalk side.region side.skipped (labels_of side.shadow side.held)
        (tape_of (ruling_of side.book.now.table side.known) side.shadow side.masks side.bits side.crossed side.byte_masks.items
        side.status_mask side.unclear) walk out };

    #[inline(always)]
    fn look(&mut self, seen: Seen, _value: u32) -> Result<(), NoMemory> {
        match self.unclear {
            Some(_) => Ok(()),
            None => {
                if let Some(look) = self.shadow.secret_look(self.region, seen) {
                    self.rest = NO_REST;
                    self.unclear = Some(looked(look));
                }
                Ok(())
            }
        }
    }

    #[inline(always)]
    fn pass(&mut self, passing: Passing) -> Result<u32, NoMemory> {
        if passes_inside(self.rest, &passing) {
            let _ = self.bits.left();
            are_words(&passing, self.crossed);
            return Ok(passing.value);
        }
        match self.unclear {
            Some(_) => Ok(passing.value),
            None => {
                let value = self.visit(passing)?;
                self.rest = NO_REST;
                Ok(value)
            }
        }
    }

    fn move_to(
        &mut self,
        place: Place,
        shape: Shape,
        source: Source,
        _value: u32,
    ) -> Result<(), NoMemory> {
        let known = self.known;
        let skipped = self.skipped;
        self.rest = NO_REST;
        note_moved(
            &mut self.shadow,
            &mut self.held,
            known,
            skipped,
            place,
            shape,
            source,
        )?;
        Ok(())
    }

    fn save(&mut self) -> Result<(), NoMemory> {
        self.rest = NO_REST;
        self.shadow.note_save();
        Ok(())
    }

    fn restore(&mut self, registers: &[u8]) -> Result<bool, NoMemory> {
        self.rest = NO_REST;
        self.shadow.note_restore(registers);
        Ok(true)
    }

    ghost at_end = { λ side state rest masks past ahead.
        masks_Ended (record { masks = masks; skipped = side.skipped }) side.region past
        (labels_of side.shadow side.held)
        (tape_of (ruling_of side.book.now.table side.known) side.shadow side.masks side.bits side.crossed side.byte_masks.items
        side.status_mask side.unclear) state refl ahead };
}
