ghost use Rattle.std.specs.Prelude.{◌≡◌, ◌+◌, ◌==◌, ◌&&◌, ◌++◌, ◌∷◌, [], cond, not, true, List as Seq, OnOk, OnErr};
ghost use Rattle.flow_base.specs.declared.points.Point.{Point as ThePoint};
ghost use Rattle.flow_base.specs.Words.{bit_count};
ghost use Rattle.flow_base.specs.PointOrders.{is_same};
ghost use Rattle.flow_graph.specs.declared.events.Event.{Event as AnEvent};
ghost use Rattle.flow_graph.specs.EventGraphs.{one_if, outlet_of};
ghost use Rattle.flow_graph.specs.Builders.{ArePositive, HasRoom, StandsFor, Takes, count_at, has_point};

use crate::events::Event;
use crate::named_links::{NamedEnd, NamedLink};
use flow_base::{NoMemory, Point};
use std::alloc::Global;
use std::collections::{BTreeMap, BTreeSet};

/// The graph of the events so far: the capacity of each point that has passed a mask other than 0, and the links by the
/// names of their ends.
#[derive(Drop)]
pub struct Builder {
    /// The capacity of each point, in bits.
    pub capacities: BTreeMap<Point, u128>,
    /// The links.
    pub links: BTreeSet<NamedLink>,
}

impl Builder {
    /// Nothing. It stands for no events, and takes no memory.
    pub fn new(alloc: Global) -> Builder
        ensures { StandsFor result [] }
    {
        Builder {
            capacities: BTreeMap::new(alloc),
            links: BTreeSet::new(alloc),
        }
    }

    /// Whether the point has passed a mask other than 0.
    fn has(&self, point: &Point) -> bool
        ensures { result ≡ has_point self.now point.now }
    {
        self.capacities.contains_key(point)
    }

    /// Whether both points have passed a mask other than 0.
    fn has_both(&self, source: &Point, target: &Point) -> bool
        ensures { result ≡ (has_point self.now source.now && has_point self.now target.now) }
    {
        self.has(source) && self.has(target)
    }

    /// Whether the region is one, and the point has passed a mask other than 0.
    fn has_output(&self, region: u16, point: &Point) -> bool
        ensures { result ≡ (has_point self.now point.now && not (region == 0)) }
    {
        self.has(point) && region != 0
    }

    /// Adds the bits of a mask to a point's capacity.
    fn pass(&mut self, point: Point, mask: u32) -> Result<(), NoMemory>
        requires positive { ArePositive self.old }
        requires room { HasRoom self.old }
        ensures positive { OnOk result (ArePositive self.new) }
        ensures counted { OnOk result ((q : ThePoint) → count_at self.new q ≡ count_at self.old q + cond
            (is_same point q) (bit_count mask) 0) }
        ensures grows { OnOk result ((q : ThePoint) → has_point self.old q ≡ true → has_point self.new q ≡ true) }
        ensures links { self.new.links ≡ self.old.links }
        ensures err { OnErr result (self.new.capacities.entries ≡ self.old.capacities.entries) }
    {
        if mask == 0 {
            return Ok(());
        }
        let before = self.capacities.get(&point).copied().unwrap_or(0);
        let after = before + u128::from(mask.count_ones());
        match self.capacities.insert(point, after) {
            Ok(_) => Ok(()),
            Err(_) => Err(NoMemory),
        }
    }

    /// Puts a link into the set, where it holds that there is one.
    fn link_if(&mut self, holds: bool, source: NamedEnd, target: NamedEnd) -> Result<(), NoMemory>
        ensures takes { OnOk result (Takes self.old self.new (one_if holds source target)) }
        ensures capacities { self.new.capacities ≡ self.old.capacities }
        ensures err { OnErr result (self.new.links.keys ≡ self.old.links.keys) }
    {
        if !holds {
            return Ok(());
        }
        match self.links.insert(NamedLink { source, target }) {
            Ok(_) => Ok(()),
            Err(_) => Err(NoMemory),
        }
    }

    /// Takes an event. Where memory is short it takes none.
    pub fn add(&mut self, event: Event) -> Result<(), NoMemory>
        requires positive { ArePositive self.old }
        requires room { HasRoom self.old }
        ensures ok { OnOk result ((events : Seq AnEvent) → StandsFor self.old events → StandsFor self.new
            (events ++ event ∷ [])) }
        ensures capacities { OnErr result (self.new.capacities.entries ≡ self.old.capacities.entries) }
        ensures links { OnErr result (self.new.links.keys ≡ self.old.links.keys) }
    {
        match event {
            Event::Pass { point, mask } => {
                self.pass(point, mask)?;
                Ok(())
            }
            Event::Link { source, target } => {
                let holds = self.has_both(&source, &target);
                self.link_if(holds, NamedEnd::At(source), NamedEnd::At(target))?;
                Ok(())
            }
            Event::FromSecret { point } => {
                let holds = self.has(&point);
                self.link_if(holds, NamedEnd::Source, NamedEnd::At(point))?;
                Ok(())
            }
            Event::Implicit { point, region } => {
                let holds = self.has(&point);
                self.link_if(holds, NamedEnd::At(point), outlet(region))?;
                Ok(())
            }
            Event::Out { region, point } => {
                let holds = self.has_output(region, &point);
                self.link_if(holds, NamedEnd::Relay(region), NamedEnd::At(point))?;
                Ok(())
            }
        }
    }
}

/// Where what decides the way that a run goes on in a region flows on: to the relay of the region, and for region 0 to
/// the sink.
pub fn outlet(region: u16) -> NamedEnd
    ensures { result ≡ outlet_of region }
{
    if region == 0 {
        NamedEnd::Sink
    } else {
        NamedEnd::Relay(region)
    }
}
