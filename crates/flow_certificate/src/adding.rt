ghost use Rattle.std.specs.Prelude.{◌≡◌, IfOk, OnOk};
ghost use Rattle.flow_certificate.specs.declared.lines.Line.TheVariants as forms;
ghost use Rattle.flow_certificate.specs.Private.Drafts.{IsDraft, blank, is_bare as has_none, is_open as is_open_stage};
ghost use Rattle.flow_certificate.specs.Private.Drafts.{is_nothing as is_no_stage, is_version as is_version_stage};
ghost use Rattle.flow_certificate.specs.Private.Drafts.{may_add_link as may_link, may_add_point as may_point};
ghost use Rattle.flow_certificate.specs.Private.Drafts.{may_add_relay as may_relay, sketch_of, step, taken};

use crate::drafts::{Draft, Stage};
use crate::following::{may_follow_links, may_follow_points, may_follow_regions};
use crate::lines::{Line, LinkLine, PointLine, RelayLine};
use flow_base::{List, NoMemory};
use flow_graph::joins_ends;
use std::alloc::Global;

/// The draft of no lines.
pub fn begin(alloc: Global) -> Draft
    ensures sketch { sketch_of result ≡ blank }
    ensures draft { IsDraft result }
{
    Draft {
        stage: Stage::Nothing,
        value: 0,
        points: List::new(alloc),
        relays: List::new(alloc),
        regions: List::new(alloc),
        links: List::new(alloc),
    }
}

/// Whether points, relays and links may still come.
fn is_open(stage: Stage) -> bool
    ensures { result ≡ is_open_stage stage }
{
    matches!(stage, Stage::Open)
}

/// Whether the version may come.
fn is_nothing(stage: Stage) -> bool
    ensures { result ≡ is_no_stage stage }
{
    matches!(stage, Stage::Nothing)
}

/// Whether the value may come.
fn is_version(stage: Stage) -> bool
    ensures { result ≡ is_version_stage stage }
{
    matches!(stage, Stage::Version)
}

/// Whether there is no point, relay or link yet.
fn is_bare(draft: &Draft) -> bool
    ensures { result ≡ has_none ((sketch_of draft.now).picture) }
{
    draft.points.len() == 0 && draft.relays.len() == 0 && draft.links.len() == 0
}

/// Whether a point may come.
fn may_add_point(draft: &Draft, line: &PointLine) -> bool
    ensures { result ≡ may_point (sketch_of draft.now) line.now }
{
    is_open(draft.stage)
        && draft.relays.len() == 0
        && draft.links.len() == 0
        && may_follow_points(draft.points.as_slice(), line)
}

/// Whether a relay may come.
fn may_add_relay(draft: &Draft, line: &RelayLine) -> bool
    requires { IsDraft draft.now }
    ensures { result ≡ may_relay (sketch_of draft.now) line.now }
{
    is_open(draft.stage)
        && draft.links.len() == 0
        && may_follow_regions(draft.regions.as_slice(), line.region)
}

/// Whether a link may come.
fn may_add_link(draft: &Draft, line: &LinkLine) -> bool
    requires { IsDraft draft.now }
    ensures { result ≡ may_link (sketch_of draft.now) line.now }
{
    is_open(draft.stage)
        && may_follow_links(draft.links.as_slice(), line)
        && joins_ends(draft.points.len(), draft.regions.as_slice(), &line.link)
}

/// Takes the line of the version, where it may come.
#[tactic(auto, unfolding(crate::specs::Private::Drafts::step))]
fn add_version(draft: &mut Draft) -> bool
    requires { IsDraft draft.old }
    ensures step { taken result (sketch_of draft.new) ≡ step (sketch_of draft.old) forms.Version }
    ensures draft { IsDraft draft.new }
{
    if !is_nothing(draft.stage) {
        return false;
    }
    draft.stage = Stage::Version;
    true
}

/// Takes the line of the value, where it may come.
#[tactic(auto, unfolding(crate::specs::Private::Drafts::step))]
fn add_value(draft: &mut Draft, value: u64) -> bool
    requires { IsDraft draft.old }
    ensures step { taken result (sketch_of draft.new) ≡ step (sketch_of draft.old) (forms.Value value) }
    ensures draft { IsDraft draft.new }
{
    if !(is_version(draft.stage) && is_bare(draft)) {
        return false;
    }
    draft.stage = Stage::Open;
    draft.value = value;
    true
}

/// Takes the line of a point, where it may come.
#[tactic(auto, unfolding(crate::specs::Private::Drafts::step))]
fn add_point(draft: &mut Draft, line: PointLine) -> Result<bool, NoMemory>
    requires { IsDraft draft.old }
    ensures step { IfOk result (λ t. taken t (sketch_of draft.new) ≡ step (sketch_of draft.old) (forms.Point line)) }
    ensures draft { OnOk result (IsDraft draft.new) }
{
    if !may_add_point(draft, &line) {
        return Ok(false);
    }
    draft.points.push(line)?;
    Ok(true)
}

/// Takes the line of a relay, where it may come.
#[tactic(auto, unfolding(crate::specs::Private::Drafts::step))]
fn add_relay(draft: &mut Draft, line: RelayLine) -> Result<bool, NoMemory>
    requires { IsDraft draft.old }
    ensures step { IfOk result (λ t. taken t (sketch_of draft.new) ≡ step (sketch_of draft.old) (forms.Relay line)) }
    ensures draft { OnOk result (IsDraft draft.new) }
{
    if !may_add_relay(draft, &line) {
        return Ok(false);
    }
    draft.regions.push(line.region)?;
    draft.relays.push(line)?;
    Ok(true)
}

/// Takes the line of a link, where it may come.
#[tactic(auto, unfolding(crate::specs::Private::Drafts::step))]
fn add_link(draft: &mut Draft, line: LinkLine) -> Result<bool, NoMemory>
    requires { IsDraft draft.old }
    ensures step { IfOk result (λ t. taken t (sketch_of draft.new) ≡ step (sketch_of draft.old) (forms.Link line)) }
    ensures draft { OnOk result (IsDraft draft.new) }
{
    if !may_add_link(draft, &line) {
        return Ok(false);
    }
    draft.links.push(line)?;
    Ok(true)
}

/// Takes the last line, where it may come.
#[tactic(auto, unfolding(crate::specs::Private::Drafts::step))]
fn add_end(draft: &mut Draft) -> bool
    requires { IsDraft draft.old }
    ensures step { taken result (sketch_of draft.new) ≡ step (sketch_of draft.old) forms.End }
    ensures draft { IsDraft draft.new }
{
    if !is_open(draft.stage) {
        return false;
    }
    draft.stage = Stage::Whole;
    true
}

/// Takes a line, where it may come. Gives whether it may.
pub fn add(draft: &mut Draft, line: Line) -> Result<bool, NoMemory>
    requires { IsDraft draft.old }
    ensures step { IfOk result (λ t. taken t (sketch_of draft.new) ≡ step (sketch_of draft.old) line) }
    ensures draft { OnOk result (IsDraft draft.new) }
{
    match line {
        Line::Version => Ok(add_version(draft)),
        Line::Value(value) => Ok(add_value(draft, value)),
        Line::Point(line) => add_point(draft, line),
        Line::Relay(line) => add_relay(draft, line),
        Line::Link(line) => add_link(draft, line),
        Line::End => Ok(add_end(draft)),
    }
}
