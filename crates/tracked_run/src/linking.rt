ghost use Rattle.std.specs.Prelude.{◌+◌, ◌^◌, ◌<◌, ◌∷◌, [], Some, OnOk, IsTrue};
ghost use Rattle.flow_base.specs.Guests.{is_inside};
ghost use Rattle.rv32im_machine.specs.Playing.{IsSource, AreSources};
ghost use Rattle.run_labels.specs.Flowing.{link_from, source_events, sources_events, aim_events, flow_events};
ghost use Rattle.run_labels.specs.Flowing.{byte_events};
ghost use Rattle.tracked_run.specs.Labels.{labels_of};
ghost use Rattle.flow_graph.specs.declared.events.Event.TheVariants.{FromSecret, Implicit};
ghost use Rattle.tracked_run.specs.Linking.{Appends, masked_events};

use crate::held::Held;
use crate::placing::label_at;
use flow_base::{NoMemory, Point};
use flow_graph::{Event, Events};
use rv32im_machine::{Aim, Passing, Source, Sources};
use shadow_masks::{Label, Shadow};

/// Bits flow to a point from where they last passed.
/// `NoMemory` where there is not enough.
#[inline(always)]
fn link<E: Events>(events: &mut E, label: Label, point: Point) -> Result<(), NoMemory>
    ensures { OnOk result (Appends (E.stands_for events.old) (E.stands_for events.new) (link_from label point)) }
{
    if label.mask == 0 {
        return Ok(());
    }
    events.add(Event::Link {
        source: label.point,
        target: point,
    })
}

/// A byte of the secret flows to a point.
/// `NoMemory` where there is not enough.
#[inline(never)]
fn link_secret<E: Events>(events: &mut E, point: Point) -> Result<(), NoMemory>
    ensures { OnOk result (Appends (E.stands_for events.old) (E.stands_for events.new) (FromSecret point ∷ [])) }
{
    events.add(Event::FromSecret { point })
}

/// The bits of a decision flow to all that its region gives out.
/// `NoMemory` where there is not enough.
#[inline(never)]
fn link_decision<E: Events>(events: &mut E, point: Point) -> Result<(), NoMemory>
    ensures { OnOk result (Appends (E.stands_for events.old) (E.stands_for events.new)
        (Implicit point point.region ∷ [])) }
{
    events.add(Event::Implicit {
        point,
        region: point.region,
    })
}

/// Bits flow to a point from one source.
/// `NoMemory` where there is not enough.
#[inline(always)]
fn link_source<E: Events>(
    events: &mut E,
    shadow: &Shadow,
    held: Held,
    source: Source,
    point: Point,
) -> Result<(), NoMemory>
    requires { IsSource (Some shadow.now.base) source }
    ensures { OnOk result (Appends (E.stands_for events.old) (E.stands_for events.new)
        (source_events (labels_of shadow.now held) point source)) }
{
    match source {
        Source::At(place) => link(events, label_at(shadow, held, place), point),
        Source::Constant(_) => Ok(()),
        Source::Secret(_) => link_secret(events, point),
    }
}

/// Bits flow to a point from a byte.
/// `NoMemory` where there is not enough.
#[inline(never)]
fn link_byte<E: Events>(
    events: &mut E,
    shadow: &Shadow,
    held: Held,
    address: u32,
    point: Point,
) -> Result<(), NoMemory>
    requires { IsTrue (is_inside shadow.now.base address 1) }
    ensures { OnOk result (Appends (E.stands_for events.old) (E.stands_for events.new)
        (byte_events (labels_of shadow.now held) point address)) }
{
    link(events, shadow.byte(address), point)
}

/// Bits flow to a point from two bytes.
/// `NoMemory` where there is not enough.
#[inline(never)]
fn link_half<E: Events>(
    events: &mut E,
    shadow: &Shadow,
    held: Held,
    address: u32,
    point: Point,
) -> Result<(), NoMemory>
    requires below { address + 1 < 2 ^ 32 }
    requires inside { IsTrue (is_inside shadow.now.base address 2) }
    ensures { OnOk result (Appends (E.stands_for events.old) (E.stands_for events.new)
        (sources_events (labels_of shadow.now held) point (Sources.Half address))) }
{
    link_byte(events, shadow, held, address, point)?;
    link_byte(events, shadow, held, address + 1, point)
}

/// Bits flow to a point from four bytes.
/// `NoMemory` where there is not enough.
#[inline(never)]
fn link_word<E: Events>(
    events: &mut E,
    shadow: &Shadow,
    held: Held,
    address: u32,
    point: Point,
) -> Result<(), NoMemory>
    requires below { address + 3 < 2 ^ 32 }
    requires inside { IsTrue (is_inside shadow.now.base address 4) }
    ensures { OnOk result (Appends (E.stands_for events.old) (E.stands_for events.new)
        (sources_events (labels_of shadow.now held) point (Sources.Word address))) }
{
    link_byte(events, shadow, held, address, point)?;
    link_byte(events, shadow, held, address + 1, point)?;
    link_byte(events, shadow, held, address + 2, point)?;
    link_byte(events, shadow, held, address + 3, point)
}

/// Bits flow to a point from two sources.
/// `NoMemory` where there is not enough.
#[inline(never)]
fn link_two<E: Events>(
    events: &mut E,
    shadow: &Shadow,
    held: Held,
    first: Source,
    second: Source,
    point: Point,
) -> Result<(), NoMemory>
    requires first { IsSource (Some shadow.now.base) first }
    requires second { IsSource (Some shadow.now.base) second }
    ensures { OnOk result (Appends (E.stands_for events.old) (E.stands_for events.new)
        (sources_events (labels_of shadow.now held) point (Sources.Two first second))) }
{
    link_source(events, shadow, held, first, point)?;
    link_source(events, shadow, held, second, point)
}

/// Bits flow to a point from each source, in order.
/// `NoMemory` where there is not enough.
#[inline(always)]
fn link_sources<E: Events>(
    events: &mut E,
    shadow: &Shadow,
    held: Held,
    sources: Sources,
    point: Point,
) -> Result<(), NoMemory>
    requires { AreSources (Some shadow.now.base) sources }
    ensures { OnOk result (Appends (E.stands_for events.old) (E.stands_for events.new)
        (sources_events (labels_of shadow.now held) point sources)) }
{
    match sources {
        Sources::One(source) => link_source(events, shadow, held, source, point),
        Sources::Two(first, second) => link_two(events, shadow, held, first, second, point),
        Sources::Byte(address) => link_byte(events, shadow, held, address, point),
        Sources::Half(address) => link_half(events, shadow, held, address, point),
        Sources::Word(address) => link_word(events, shadow, held, address, point),
    }
}

/// Bits flow on from a point by what becomes of them.
/// `NoMemory` where there is not enough.
#[inline(always)]
fn link_aim<E: Events>(events: &mut E, point: Point, aim: Aim) -> Result<(), NoMemory>
    ensures { OnOk result (Appends (E.stands_for events.old) (E.stands_for events.new) (aim_events point aim)) }
{
    let region = point.region;
    match aim {
        Aim::Put(_) => Ok(()),
        Aim::Decide => link_decision(events, point),
        Aim::Give(_) => events.add(Event::Out { region, point }),
    }
}

/// The events of the bits that pass, but for the passing itself.
/// `NoMemory` where there is not enough.
#[inline(always)]
fn link_flow<E: Events>(
    events: &mut E,
    shadow: &Shadow,
    held: Held,
    passing: Passing,
) -> Result<(), NoMemory>
    requires { AreSources (Some shadow.now.base) passing.sources }
    ensures { OnOk result (Appends (E.stands_for events.old) (E.stands_for events.new)
        (flow_events (labels_of shadow.now held) passing)) }
{
    link_sources(events, shadow, held, passing.sources, passing.point)?;
    link_aim(events, passing.point, passing.aim)
}

/// The events of a passing of this mask.
/// `NoMemory` where there is not enough.
#[inline(always)]
pub(crate) fn add_passing<E: Events>(
    events: &mut E,
    shadow: &Shadow,
    held: Held,
    passing: Passing,
    mask: u32,
) -> Result<(), NoMemory>
    requires { AreSources (Some shadow.now.base) passing.sources }
    ensures { OnOk result (Appends (E.stands_for events.old) (E.stands_for events.new)
        (masked_events (labels_of shadow.now held) mask passing)) }
{
    events.add(Event::Pass {
        point: passing.point,
        mask,
    })?;
    if mask == 0 {
        return Ok(());
    }
    link_flow(events, shadow, held, passing)
}
