ghost use Rattle.std.specs.Prelude.{◌≡◌, ◌≤◌, ◌==◌, ◌∷◌, [], cond, length, true, false, is_some, OnOk, OnErr, OnSome, IfSome, Err};
ghost use Rattle.std.specs.Bool.{OnTrue};
ghost use Rattle.std.proofs.Props.{props};
ghost use Rattle.std.specs.Map.{keys_of};
ghost use Rattle.flow_graph.specs.EventGraphs.{is_among};
ghost use Rattle.flow_graph.specs.Keeping.{TakesLinks};
ghost use Rattle.flow_graph.specs.declared.named_links.NamedEnd.TheVariants.{At};
ghost use Rattle.hinted_map.specs.Maps.{StandsAt};
ghost use Rattle.location_collapse.specs.KeptLinks.{flow_after, has_flow, has_output, is_latest_flow, is_latest_output, output_after};
ghost use Rattle.location_collapse.specs.Limits.{HasAllLinks, is_same_link};

use crate::faults::CollapseFault;
use flow_base::{NoMemory, Point};
use flow_graph::{NamedEnd, NamedLink};
use hinted_map::HintedMap;
use std::alloc::Global;

/// How many links a graph may have.
const MAX_LINKS: usize = 1_048_576;

/// The links by the names of their ends, in the order in which they first occurred. They are at most 1,048,576.
///
/// Of the links between two points, and of those from a relay to a point, the ends of the latest one that was looked for
/// and found are kept beside, so that it is known by them alone and not looked for again.
#[derive(Drop)]
pub struct KeptLinks {
    pub named: HintedMap<NamedLink, ()>,
    /// The source and the target of the latest link between two points that was found.
    pub flow: Option<(Point, Point)>,
    /// The region and the target of the latest link from a relay to a point that was found.
    pub output: Option<(u16, Point)>,
    ghost has_latest_flow: { IfSome flow (λ ends. has_flow (keys_of named.map.entries) ends.0 ends.1 ≡ true) } by { Prim.hlevel props },
    ghost has_latest_output: { IfSome output (λ ends. has_output (keys_of named.map.entries) ends.0 ends.1 ≡ true) } by { Prim.hlevel props },
    ghost few: { length (keys_of named.map.entries) ≤ 1048576 },
}

impl KeptLinks {
    /// No links. It takes no memory.
    pub fn new(alloc: Global) -> KeptLinks
        ensures { keys_of result.named.map.entries ≡ [] }
    {
        KeptLinks {
            named: HintedMap::new(alloc),
            flow: None,
            output: None,
        }
    }

    /// Whether the link from a point to a point is the latest one of its kind, and so has occurred.
    #[inline(always)]
    pub fn is_latest_flow(&self, source: &Point, target: &Point) -> bool
        ensures latest { result ≡ is_latest_flow self.now.flow source.now target.now }
        ensures known { OnTrue result (has_flow (keys_of self.now.named.map.entries) source.now target.now ≡ true) }
    {
        match self.flow {
            Some((from, to)) => from == *source && to == *target,
            None => false,
        }
    }

    /// Whether the link from a point to a point stands at an index, and so has occurred.
    #[inline(always)]
    fn is_flow_at(&self, index: usize, source: &Point, target: &Point) -> bool
        ensures { OnTrue result (has_flow (keys_of self.now.named.map.entries) source.now target.now ≡ true) }
    {
        let _differing = self.named.len();
        match self.named.map.get_index(index) {
            Some((link, _)) => leads(link, source, target),
            None => false,
        }
    }

    /// Whether the link from a point to a point stands after the one that was found latest, and so has occurred: it is
    /// then found. A run follows the same links in the same order again and again. The links stay.
    #[inline(always)]
    pub fn follows_flow(&mut self, source: &Point, target: &Point) -> bool
        ensures known { OnTrue result (has_flow (keys_of self.old.named.map.entries) source.now target.now ≡ true) }
        ensures map { self.new.named.map ≡ self.old.named.map }
        ensures flow { self.new.flow ≡ self.old.flow }
        ensures output { self.new.output ≡ self.old.output }
    {
        let next = self.named.latest.wrapping_add(1);
        if !self.is_flow_at(next, source, target) {
            return false;
        }
        self.named.note(next);
        true
    }

    /// Whether the link from a point to a point is the latest one of its kind or stands after the one that was found
    /// latest, and so has occurred. What the link before was is looked at first. The links stay.
    #[inline(always)]
    pub fn is_flow_again(&mut self, source: &Point, target: &Point) -> bool
        ensures known { OnTrue result (has_flow (keys_of self.old.named.map.entries) source.now target.now ≡ true) }
        ensures map { self.new.named.map ≡ self.old.named.map }
        ensures flow { self.new.flow ≡ self.old.flow }
        ensures output { self.new.output ≡ self.old.output }
    {
        if self.named.moves && self.follows_flow(source, target) {
            return true;
        }
        if self.is_latest_flow(source, target) {
            self.named.moves = false;
            return true;
        }
        !self.named.moves && self.follows_flow(source, target)
    }

    /// Whether the link from the relay of a region to a point is the latest one of its kind, and so has occurred.
    #[inline(always)]
    pub fn is_latest_output(&self, region: u16, point: &Point) -> bool
        ensures latest { result ≡ is_latest_output self.now.output region point.now }
        ensures known { OnTrue result (has_output (keys_of self.now.named.map.entries) region point.now ≡ true) }
    {
        match self.output {
            Some((from, to)) => from == region && to == *point,
            None => false,
        }
    }

    /// The index of the link; None exactly where it has not occurred.
    #[inline(always)]
    pub fn find(&self, link: &NamedLink) -> Option<usize>
        ensures some { is_some result ≡ is_among (keys_of self.now.named.map.entries) link.now }
        ensures at { IfSome result (StandsAt is_same_link self.now.named.map.entries link.now) }
    {
        self.named.find(link)
    }

    /// Notes the ends of a link that has occurred, for the next look. The links stay.
    #[inline(always)]
    fn note_ends(&mut self, link: &NamedLink)
        requires { is_among (keys_of self.old.named.map.entries) link.now ≡ true }
        ensures named { self.new.named ≡ self.old.named }
        ensures flow { self.new.flow ≡ flow_after link.now.source link.now.target self.old.flow }
        ensures output { self.new.output ≡ output_after link.now.source link.now.target self.old.output }
    {
        if let NamedEnd::At(target) = link.target {
            match link.source {
                NamedEnd::At(source) => {
                    self.flow = Some((source, target));
                }
                NamedEnd::Relay(region) => {
                    self.output = Some((region, target));
                }
                _ => {}
            }
        }
    }

    /// Notes a link that has occurred and where it was found, for the next look. The links stay.
    #[inline(always)]
    pub fn note(&mut self, index: usize, link: &NamedLink)
        requires { is_among (keys_of self.old.named.map.entries) link.now ≡ true }
        ensures keys { keys_of self.new.named.map.entries ≡ keys_of self.old.named.map.entries }
        ensures latest { self.new.named.latest ≡ index }
        ensures before { self.new.named.before ≡ cond (index == self.old.named.latest) self.old.named.before self.old.named.latest }
        ensures flow { self.new.flow ≡ flow_after link.now.source link.now.target self.old.flow }
        ensures output { self.new.output ≡ output_after link.now.source link.now.target self.old.output }
    {
        self.named.note(index);
        self.note_ends(link);
    }

    /// Keeps a link that has not occurred before, unless there are 1,048,576 already.
    #[inline(never)]
    pub fn put(&mut self, link: NamedLink) -> Result<(), CollapseFault>
        requires new { is_among (keys_of self.old.named.map.entries) link ≡ false }
        ensures ok { OnOk result (TakesLinks (keys_of self.old.named.map.entries)
            (keys_of self.new.named.map.entries) (link ∷ [])) }
        ensures err { OnErr result (keys_of self.new.named.map.entries ≡ keys_of self.old.named.map.entries) }
        ensures full { result ≡ Err CollapseFault.Limit → HasAllLinks (keys_of self.old.named.map.entries) }
        ensures latest { self.new.named.latest ≡ self.old.named.latest }
        ensures before { self.new.named.before ≡ self.old.named.before }
        ensures flow { self.new.flow ≡ self.old.flow }
        ensures output { self.new.output ≡ self.old.output }
    {
        if self.named.len() >= MAX_LINKS {
            return Err(CollapseFault::Limit);
        }
        match self.named.add(link, ()) {
            Ok(_) => Ok(()),
            Err(NoMemory) => Err(CollapseFault::Memory),
        }
    }
}

/// Whether a link leads from a point to a point.
#[inline(always)]
fn leads(link: &NamedLink, source: &Point, target: &Point) -> bool
    ensures { OnTrue result (link.now ≡ record { source = At source.now; target = At target.now }) }
{
    match link.source {
        NamedEnd::At(from) => match link.target {
            NamedEnd::At(to) => from == *source && to == *target,
            _ => false,
        },
        _ => false,
    }
}
