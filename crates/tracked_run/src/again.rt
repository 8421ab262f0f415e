ghost use Rattle.std.specs.Prelude.{◌≡◌, Some, IfSome, OnOk};
ghost use Rattle.std.specs.Bool.{OnTrue};
ghost use Rattle.rv32im_machine.specs.Playing.{AreSources};
ghost use Rattle.flow_graph.specs.Events.{again_events};
ghost use Rattle.tracked_run.specs.Private.Again.{GivesAgain};
ghost use Rattle.tracked_run.specs.Labels.{labels_of};
ghost use Rattle.tracked_run.specs.Linking.{Appends};

use crate::held::Held;
use flow_base::{NoMemory, Point};
use flow_graph::Events;
use rv32im_machine::{Aim, Passing, Place, Source, Sources};
use shadow_masks::Shadow;

/// The address of the byte that a value goes on to out of a region, if it does.
#[inline(always)]
fn given_byte(aim: Aim) -> Option<u32>
    ensures { IfSome result (λ address. aim ≡ Aim.Give (Place.Byte address)) }
{
    match aim {
        Aim::Give(Place::Byte(address)) => Some(address),
        _ => None,
    }
}

/// The address of the byte that is the one source of a value, if it is.
#[inline(always)]
fn source_byte(sources: Sources) -> Option<u32>
    ensures { IfSome result (λ address. sources ≡ Sources.One (Source.At (Place.Byte address))) }
{
    match sources {
        Sources::One(Source::At(Place::Byte(address))) => Some(address),
        _ => None,
    }
}

/// Whether a passing of this mask gives a byte out again to where it stands, which has the label that it gets already;
/// of others that do it may say that they do not.
#[inline(always)]
pub(crate) fn gives_again(shadow: &Shadow, held: Held, passing: &Passing, mask: u32) -> bool
    requires { AreSources (Some shadow.now.base) passing.now.sources }
    ensures { OnTrue result (GivesAgain (labels_of shadow.now held) passing.now mask) }
{
    let Some(to) = given_byte(passing.aim) else {
        return false;
    };
    let Some(from) = source_byte(passing.sources) else {
        return false;
    };
    if from != to {
        return false;
    }
    let label = shadow.byte(from);
    label.mask == mask && label.point == passing.point
}

/// The events of such a passing are added; its label stays. It is a call of its own, so that what is put in at each
/// place of a turn stays small.
/// `NoMemory` where there is not enough.
#[inline(never)]
pub(crate) fn note_again<E: Events>(events: &mut E, point: Point, mask: u32) -> Result<(), NoMemory>
    ensures { OnOk result (Appends (E.stands_for events.old) (E.stands_for events.new) (again_events point mask)) }
{
    events.add_again(point, mask)
}
