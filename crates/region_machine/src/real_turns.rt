ghost use Rattle.std.specs.Prelude.{◌≡◌, IfOk, IsOk, IsTrue, List as Seq, true, false};
ghost use Rattle.rv32im_machine.specs.Folds.{real_end};
ghost use Rattle.rv32im_machine.specs.Language.{turn_walk};
ghost use Rattle.rv32im_machine.specs.Playing.{Knows};
ghost use Rattle.rv32im_machine.specs.Rows.{walk_of};
ghost use Rattle.enclosure_regions.specs.Breaks.{keep_break, range_break};
ghost use Rattle.enclosure_regions.specs.Regions.{is_region};
ghost use Rattle.enclosure_regions.specs.declared.region_parts.Region.{Region as TheRegion};
ghost use Rattle.region_machine.specs.Breaking.{Breaks, kind_break, walk_break};
ghost use Rattle.region_machine.specs.Enclosures.{is_enclosed, is_enclosed_kind};
ghost use Rattle.region_machine.specs.Guards.{ending};
ghost use Rattle.region_machine.specs.Guests.{entry, guest_walk, kind_walk, leave};
ghost use Rattle.region_machine.specs.Within.{are_inside, can_leave, has_rules, may_leave, seen};

use crate::entering::enter_by;
use crate::guards::Guarding;
use crate::kinds::GuestTurn;
use crate::leaving::leave_by;
use crate::marked::MarkedRegions;
use crate::observers::Observer;
use enclosure_regions::{Break, Region, broken_at_entry, broken_at_leave};
use rv32im_machine::{Machine, Plain, turn_by};

/// What a turn of the real run has been.
#[derive(Clone, Copy)]
pub struct RealTurn {
    /// The turn is the entry of a skipped region or inside it.
    pub enclosed: bool,
    /// How the turn breaks a region, if it does.
    pub broken: Option<Break>,
}

/// The entry of a region, and what breaks it.
#[inline(always)]
fn enter<P: Observer>(
    machine: &mut Machine,
    passer: &mut P,
    region: &Region,
) -> Result<Option<Break>, P::Stop>
    requires { IsTrue (is_region region.now) }
    ensures broken { IfOk result (λ broken.
        broken ≡ range_break region.now machine.old.store.registers machine.old.setting.base) }
    ensures plays { P.Plays passer.old (turn_walk machine.old (entry region.now machine.old.control))
        (ending result machine.new (P.tape passer.new)) }
    ensures memory { P.memory passer.new ≡ P.memory passer.old }
    ensures setting { machine.new.setting ≡ machine.old.setting }
{
    let broken = broken_at_entry(region, machine.registers(), machine.base());
    enter_by(machine, passer, region)?;
    Ok(broken)
}

/// The leave of a region, and what breaks it.
#[inline(always)]
fn leave<P: Observer>(
    machine: &mut Machine,
    passer: &mut P,
    region: &Region,
) -> Result<Option<Break>, P::Stop>
    requires memory { Knows (P.memory passer.old) machine.old.setting.base }
    requires rules { IsTrue (is_region region.now) }
    requires inside { IsTrue (are_inside region.now.ranges machine.old.store.kept machine.old.setting.base) }
    ensures broken { IfOk result (λ broken.
        broken ≡ keep_break region.now machine.old.store.kept machine.old.store.registers) }
    ensures plays { P.Plays passer.old (turn_walk machine.old (leave region.now machine.old.store.kept machine.old.control))
        (ending result machine.new (P.tape passer.new)) }
    ensures memory { P.memory passer.new ≡ P.memory passer.old }
    ensures setting { machine.new.setting ≡ machine.old.setting }
{
    let broken = broken_at_leave(region, machine.kept(), machine.registers());
    leave_by(machine, passer, region)?;
    Ok(broken)
}

/// One step inside a region, and what breaks it first. The turn is played to its end, also where it breaks the region.
#[inline(always)]
fn step_inside<P: Observer>(
    machine: &mut Machine,
    passer: &mut P,
    region: &Region,
) -> Result<Option<Break>, P::Stop>
    requires memory { Knows (P.memory passer.old) machine.old.setting.base }
    requires rules { IsTrue (is_region region.now) }
    ensures broken { IfOk result (λ broken.
        broken ≡ walk_break region.now machine.old.store.kept machine.old.control.pc (walk_of machine.old)) }
    ensures plays { P.Plays passer.old (walk_of machine.old) (ending result machine.new (P.tape passer.new)) }
    ensures memory { IfOk result (λ broken. P.memory passer.new ≡ P.memory passer.old) }
    ensures setting { machine.new.setting ≡ machine.old.setting }
{
    let mut side = Guarding {
        passer,
        region,
        kept: *machine.kept(),
        pc: machine.pc(),
        broken: None,
    };
    turn_by(machine, &mut side)?;
    Ok(side.broken)
}

/// A turn of this kind, each value handed to a passer, and what breaks a region in it.
#[inline(always)]
fn kind_turn<P: Observer>(
    machine: &mut Machine,
    passer: &mut P,
    turn: GuestTurn<'_>,
) -> Result<Option<Break>, P::Stop>
    requires memory { Knows (P.memory passer.old) machine.old.setting.base }
    requires rules { IsTrue (has_rules (seen turn)) }
    requires leave { IsTrue (can_leave (seen turn) machine.old.store.kept machine.old.setting.base) }
    ensures broken { IfOk result (λ broken. broken ≡ kind_break (seen turn.entry) machine.old) }
    ensures plays { P.Plays passer.old (kind_walk (seen turn.entry) machine.old)
        (ending result machine.new (P.tape passer.new)) }
    ensures memory { IfOk result (λ broken. P.memory passer.new ≡ P.memory passer.old) }
    ensures setting { machine.new.setting ≡ machine.old.setting }
{
    match turn {
        GuestTurn::Enters(region) => enter(machine, passer, region),
        GuestTurn::Leaves(region) => leave(machine, passer, region),
        GuestTurn::Steps(Some(region)) => step_inside(machine, passer, region),
        GuestTurn::Steps(None) => {
            turn_by(machine, passer)?;
            Ok(None)
        }
    }
}

/// Whether a turn is the entry of one of the regions with these numbers or inside it.
#[inline(always)]
fn is_enclosed_turn(turn: GuestTurn<'_>, skip: &[u16]) -> bool
    ensures { (regions : Seq TheRegion) →
        result ≡ is_enclosed_kind (record { regions = regions; skip = skip.now }) (seen turn.entry) }
{
    match turn {
        GuestTurn::Enters(region) => skip.contains(&region.id),
        GuestTurn::Leaves(_) => false,
        GuestTurn::Steps(Some(region)) => skip.contains(&region.id),
        GuestTurn::Steps(None) => false,
    }
}

/// A turn of this kind of which nobody is told, and what breaks a region in it.
#[inline(always)]
fn unobserved_turn(machine: &mut Machine, turn: GuestTurn<'_>) -> Option<Break>
    requires rules { IsTrue (has_rules (seen turn)) }
    requires leave { IsTrue (can_leave (seen turn) machine.old.store.kept machine.old.setting.base) }
    ensures broken { result ≡ kind_break (seen turn.entry) machine.old }
    ensures state { machine.new ≡ real_end (kind_walk (seen turn.entry) machine.old) }
    ensures setting { machine.new.setting ≡ machine.old.setting }
{
    let mut nobody = Plain;
    match kind_turn(machine, &mut nobody, turn) {
        Ok(broken) => broken,
        Err(never) => match never {},
    }
}

/// One turn of the real run of a guest with these regions, of which those with these numbers are skipped: an entry, a
/// leave or a step. Each of its values is handed to an observer, but of the entry of a skipped region and of the turns
/// inside it the observer is told nothing, and does not stop it. The turn is played to its end also where it breaks a
/// region; where the observer stops it, the machine is left in the middle of it and keeps what it was begun with. It
/// takes no memory of its own.
#[inline(always)]
pub fn real_turn_by<P: Observer>(
    machine: &mut Machine,
    observer: &mut P,
    marked: &MarkedRegions,
    skip: &[u16],
) -> Result<RealTurn, P::Stop>
    requires memory { Knows (P.memory observer.old) machine.old.setting.base }
    requires leave { IsTrue (may_leave marked.now.regions.items machine.old) }
    ensures broken { IfOk result (λ turn. turn.broken ≡ Breaks marked.now.regions.items machine.old) }
    ensures enclosed { IfOk result (λ turn. turn.enclosed ≡
        is_enclosed (record { regions = marked.now.regions.items; skip = skip.now }) machine.old.control) }
    ensures state { IfOk result (λ turn. machine.new ≡ real_end (guest_walk marked.now.regions.items machine.old)) }
    ensures untold { is_enclosed (record { regions = marked.now.regions.items; skip = skip.now }) machine.old.control ≡ true →
        observer.new ≡ observer.old }
    ensures unstopped { is_enclosed (record { regions = marked.now.regions.items; skip = skip.now }) machine.old.control ≡ true →
        IsOk result }
    ensures plays { is_enclosed (record { regions = marked.now.regions.items; skip = skip.now }) machine.old.control ≡ false →
        P.Plays observer.old (guest_walk marked.now.regions.items machine.old)
        (ending result machine.new (P.tape observer.new)) }
    ensures memory { IfOk result (λ turn. P.memory observer.new ≡ P.memory observer.old) }
    ensures setting { machine.new.setting ≡ machine.old.setting }
{
    let turn = marked.next_turn(machine);
    if is_enclosed_turn(turn, skip) {
        let broken = unobserved_turn(machine, turn);
        return Ok(RealTurn {
            enclosed: true,
            broken,
        });
    }
    let broken = kind_turn(machine, observer, turn)?;
    Ok(RealTurn {
        enclosed: false,
        broken,
    })
}
