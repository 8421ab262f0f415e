//! A shadow of which it is known whether the mask of a register may be other than 0.

ghost use Rattle.std.specs.Prelude.{◌≡◌, ◌+◌, ◌^◌, ◌<◌, ◌≤◌, ℕ, All, IfOk, IsTrue, OnOk, Some, true};
ghost use Rattle.std.specs.List.{list_all};
ghost use Rattle.enclosure_regions.specs.Regions.{is_range};
ghost use Rattle.flow_base.specs.Guests.{memory_size};
ghost use Rattle.flow_base.specs.Points.{is_slot, width_of};
ghost use Rattle.rv32im_machine.specs.Playing.{AreSources, FitsSlot, IsAim, IsPlace, IsSeen, IsSource, fits_place};
ghost use Rattle.rv32im_machine.specs.Playing.{joins_bytes, moves_bits};
ghost use Rattle.shadow_masks.specs.Labels.{IsLabel, clean};
ghost use Rattle.shadow_masks.specs.Shades.{IsNew, kept_label, register_label};
ghost use Rattle.masked_turns.specs.Clearing.{passing_mask as mask_passing};
ghost use Rattle.masked_turns.specs.Looking.{look_at};
ghost use Rattle.run_labels.specs.Masks.{masks_of, moved_label};
ghost use Rattle.run_labels.specs.TurnLabels.{aim_label, put_label, restore_labels, save_labels};
ghost use Rattle.tracked_run.specs.Labels.{IsMaskFor, labels_of, map_of};
ghost use Rattle.tracked_run.specs.declared.held.Held.{Held as TheHeld};
ghost use Rattle.every_secret.specs.Private.Idle.{IsIdle};
ghost use Rattle.every_secret.specs.Private.Resting.{IsBeside};
ghost use Rattle.every_secret.specs.Rules.{AnswerAs, Rules, answer_to};
ghost use Rattle.every_secret.specs.Turns.{secret_base as base_secret};
ghost use Rattle.kept_states.specs.Keeping.{CanReturn, Keeps};
ghost use Rattle.kept_states.specs.Pieces.{Grows};

use crate::entries::secret_base;
use crate::idle_visits::is_idle;
use crate::visits::passing_mask;
use enclosure_regions::Range;
use flow_base::NoMemory;
use kept_states::{KeptState, Pieces};
use masked_turns::{SecretLook, secret_look};
use replay_machine::LentVisits;
use rv32im_machine::{Aim, Machine, Passing, Place, Seen, Shape, Source};
use shadow_masks::{Label, Shadow};
use std::alloc::Global;
use std::marker::Model;
use tracked_run::{Held, note_move, note_restore, note_save, put_aimed};
use transfer_rules::RuleBook;

/// A shadow, and whether each of its registers is known to be clean; contracts see the shadow.
#[derive(Drop)]
pub(crate) struct WatchedShadow {
    shadow: Shadow,
    are_clean: bool,
}

impl Model for WatchedShadow {
    ghost use Rattle.std.specs.Prelude.{◌≡◌, ℕ, true};
    ghost use Rattle.shadow_masks.specs.Labels.{clean};
    ghost use Rattle.shadow_masks.specs.Shades.{Shades, register_label};

    ghost Value = { Shades };

    ghost view = { λ w. w.shadow };

    ghost invariant = { λ w. w.are_clean ≡ true → (register : ℕ) → register_label w.shadow register ≡ clean };
}

impl WatchedShadow {
    /// The same as [`Shadow::new`].
    pub fn new(alloc: Global, base: u32) -> Result<WatchedShadow, NoMemory>
        requires { base + memory_size ≤ 2 ^ 32 }
        ensures { IfOk result (λ shadow. IsNew base shadow) }
    {
        Ok(WatchedShadow {
            shadow: Shadow::new(alloc, base)?,
            are_clean: false,
        })
    }

    /// The same as [`Shadow::tell_registers`].
    pub fn tell_registers(&self)
        ensures registers { (register : ℕ) → 32 ≤ register → register_label self.now register ≡ clean }
        ensures kept { (register : ℕ) → 32 ≤ register → kept_label self.now register ≡ clean }
    {
        self.shadow.tell_registers();
    }

    /// The same as [`masked_turns::secret_look`].
    #[inline(always)]
    pub fn secret_look(&self, region: u16, seen: Seen) -> Option<SecretLook>
        requires { IsSeen (Some self.now.base) seen }
        ensures { (held : TheHeld) → result ≡ look_at region (labels_of self.now held) seen }
    {
        secret_look(&self.shadow, region, seen)
    }

    /// The base register of the first range whose base may differ.
    pub fn secret_base(&self, ranges: &[Range]) -> Option<u8>
        requires { IsTrue (list_all is_range ranges.now) }
        ensures { result ≡ base_secret ranges.now (map_of self.now) }
    {
        secret_base(&self.shadow, ranges)
    }

    /// Whether nothing comes of a visit, in a turn that may be the skip of a region.
    #[inline(always)]
    pub fn is_idle(
        &self,
        masks: &LentVisits<'_>,
        held: Held,
        passing: &Passing,
        skipped: bool,
    ) -> bool
        requires aim { IsAim (Some self.now.base) passing.now.aim }
        requires sources { AreSources (Some self.now.base) passing.now.sources }
        ensures { IsTrue result → IsIdle masks.now skipped (labels_of self.now held) passing.now }
    {
        is_idle(masks, &self.shadow, held, passing, skipped)
    }

    /// The mask of a passing before bits cross there, by the book's rules, in a turn that may be the skip of a region.
    #[inline(always)]
    pub fn passing_mask(&self, held: Held, book: &RuleBook, passing: Passing, skipped: bool) -> u32
        requires slot { IsTrue (is_slot passing.point.slot) }
        requires sources { AreSources (Some self.now.base) passing.sources }
        requires joins { IsTrue (joins_bytes passing.work passing.sources) }
        requires byte { FitsSlot passing.point.slot passing.work passing.sources }
        ensures mask { (rules : Rules) → AnswerAs book.now.table rules → result ≡ mask_passing skipped
            (labels_of self.now held)
            (answer_to rules passing.work (masks_of (labels_of self.now held) passing.sources)) passing }
        ensures byte { width_of passing.point.slot ≡ 255 → result ≤ 255 }
    {
        passing_mask(&self.shadow, held, book, passing, skipped)
    }

    /// The same as [`KeptState::of`].
    pub fn keep<'c>(
        &self,
        alloc: Global,
        pieces: &mut Pieces,
        machine: &Machine,
        visits: &LentVisits<'c>,
        byte_masks: &[u8],
        status_mask: u8,
    ) -> Result<KeptState<'c>, NoMemory>
        requires { self.now.base ≡ machine.now.setting.base }
        ensures keeps { IfOk result (λ kept.
            Keeps pieces.new kept machine.now self.now visits.now byte_masks.now status_mask) }
        ensures grows { Grows pieces.old pieces.new }
    {
        KeptState::of(
            alloc,
            pieces,
            machine,
            &self.shadow,
            visits,
            byte_masks,
            status_mask,
        )
    }

    /// Whether each register is known to be clean.
    #[inline(always)]
    pub fn has_clean_registers(&self) -> bool
        ensures { result ≡ true → (register : ℕ) → register_label self.now register ≡ clean }
    {
        self.are_clean
    }

    /// The same as [`tracked_run::put_aimed`].
    #[inline(always)]
    pub fn put_aimed(&mut self, held: &mut Held, aim: Aim, label: Label) -> Result<(), NoMemory>
        requires aim { IsAim (Some self.old.base) aim }
        requires label { IsLabel label }
        requires fits { IsMaskFor aim label.mask }
        ensures base { self.new.base ≡ self.old.base }
        ensures put { OnOk result (labels_of self.new held.new ≡ aim_label aim label (labels_of self.old held.old)) }
    {
        let was_clean = stay_clean(self.are_clean, label);
        let looks = !was_clean && is_cleaning(aim, label);
        self.are_clean = false;
        put_aimed(&mut self.shadow, held, aim, label)?;
        self.are_clean = clean_now(&self.shadow, was_clean, looks);
        Ok(())
    }

    /// The same as [`tracked_run::note_move`].
    pub fn note_move(
        &mut self,
        held: &mut Held,
        place: Place,
        shape: Shape,
        source: Source,
    ) -> Result<(), NoMemory>
        requires place { IsPlace (Some self.old.base) place }
        requires source { IsSource (Some self.old.base) source }
        requires moves { IsTrue (moves_bits shape) }
        requires fits { IsTrue (fits_place place shape source) }
        ensures base { self.new.base ≡ self.old.base }
        ensures labels { OnOk result (labels_of self.new held.new ≡
            put_label place (moved_label (labels_of self.old held.old) shape source) (labels_of self.old held.old)) }
    {
        let are_clean = stay_beside(self.are_clean, place, source);
        self.are_clean = false;
        note_move(&mut self.shadow, held, place, shape, source)?;
        self.are_clean = are_clean;
        Ok(())
    }

    /// The same as [`tracked_run::note_save`].
    pub fn note_save(&mut self)
        ensures base { self.new.base ≡ self.old.base }
        ensures labels { (held : TheHeld) → labels_of self.new held ≡ save_labels (labels_of self.old held) }
    {
        self.are_clean = false;
        note_save(&mut self.shadow);
        self.are_clean = are_clean(&self.shadow);
    }

    /// The same as [`tracked_run::note_restore`].
    pub fn note_restore(&mut self, registers: &[u8])
        requires { All (λ register. register < 32) registers.now }
        ensures base { self.new.base ≡ self.old.base }
        ensures labels { (held : TheHeld) →
            labels_of self.new held ≡ restore_labels registers.now (labels_of self.old held) }
    {
        self.are_clean = false;
        note_restore(&mut self.shadow, registers);
        self.are_clean = are_clean(&self.shadow);
    }

    /// The same as [`KeptState::put_back`]; then the registers are looked over.
    pub fn put_back<'c>(
        &mut self,
        alloc: Global,
        kept: &KeptState<'c>,
        pieces: &Pieces,
        machine: &mut Machine,
    ) -> Result<(LentVisits<'c>, Vec<u8>), NoMemory>
        requires returns { CanReturn pieces.now kept.now machine.old.setting }
        requires begins { self.old.base ≡ machine.old.setting.base }
        ensures keeps { IfOk result (λ back.
            Keeps pieces.now kept.now machine.new self.new back.0 back.1.items kept.now.status_mask) }
        ensures setting { machine.new.setting ≡ machine.old.setting }
        ensures secret { machine.new.secret ≡ machine.old.secret }
        ensures begins { self.new.base ≡ self.old.base }
    {
        self.are_clean = false;
        let back = kept.put_back(alloc, pieces, machine, &mut self.shadow)?;
        self.are_clean = are_clean(&self.shadow);
        Ok(back)
    }
}

/// Whether a register gets the clean label.
#[inline(always)]
fn is_cleaning(aim: Aim, label: Label) -> bool {
    match aim {
        Aim::Put(Place::Register(_)) => label.mask == 0,
        _ => false,
    }
}

/// Whether each register is clean, where that is known or is looked for.
#[inline(always)]
fn clean_now(shadow: &Shadow, was_clean: bool, looks: bool) -> bool
    requires { was_clean ≡ true → (register : ℕ) → register_label shadow.now register ≡ clean }
    ensures { result ≡ true → (register : ℕ) → register_label shadow.now register ≡ clean }
{
    if looks { are_clean(shadow) } else { was_clean }
}

/// Whether registers that are clean are so where one may get this label.
#[inline(always)]
fn stay_clean(are_clean: bool, label: Label) -> bool
    requires { IsLabel label }
    ensures before { result ≡ true → are_clean ≡ true }
    ensures label { result ≡ true → label ≡ clean }
{
    are_clean && label.mask == 0
}

/// Whether registers that are clean are so where this moves to a place: to a byte of memory, or a number to anywhere.
fn stay_beside(are_clean: bool, place: Place, source: Source) -> bool
    ensures before { result ≡ true → are_clean ≡ true }
    ensures beside { result ≡ true → IsBeside place source }
{
    match source {
        Source::Constant(_) => are_clean,
        _ => match place {
            Place::Byte(_) => are_clean,
            Place::Register(_) => false,
            Place::First => false,
            Place::Second => false,
        },
    }
}

/// Whether a register is clean.
#[inline(always)]
fn is_clean(shadow: &Shadow, register: u8) -> bool
    requires { register < 32 }
    ensures { result ≡ true → register_label shadow.now register ≡ clean }
{
    shadow.reg(register).mask == 0
}

/// Whether each register is clean.
fn are_clean(shadow: &Shadow) -> bool
    ensures { result ≡ true → (register : ℕ) → register_label shadow.now register ≡ clean }
{
    shadow.tell_registers();
    for register in 0..32 {
        if !is_clean(shadow, register) {
            return false;
        }
    }
    true
}
