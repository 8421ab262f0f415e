ghost use Rattle.std.specs.Prelude.{◌≡◌, ◌⊎◌, ◌||◌, ◌++◌, ◌∷◌, [], cond, true, false, List as Seq};
ghost use Rattle.std.specs.Prelude.{OnOk, OnErr, IfOk, Err};
ghost use Rattle.std.specs.Bool.{OnTrue};
ghost use Rattle.flow_graph.specs.declared.events.Event.{Event as AnEvent};
ghost use Rattle.flow_graph.specs.declared.events.Event.TheVariants.{Pass as PassEvent};
ghost use Rattle.flow_graph.specs.Events.{again_events};
ghost use Rattle.flow_graph.specs.Keeping.{is_there, may_lead};
ghost use Rattle.location_collapse.specs.Limits.{ExceedsLimit, WantsPoint};
ghost use Rattle.location_collapse.specs.Collapses.{HasAgainLinks, KeepsAll, MakesLink, StandsFor};
ghost use Rattle.location_collapse.specs.Collapses.{has_ends, is_limit, knows};
ghost use Rattle.location_collapse.specs.Adding.{WantsLink, WantsMore};

use crate::collapses::Collapse;
use crate::faults::CollapseFault;
use crate::kept_links::KeptLinks;
use crate::kept_points::KeptPoints;
use flow_base::{NoMemory, Point};
use flow_graph::{Event, NamedEnd, NamedLink, outlet};
use std::alloc::Global;

impl Collapse {
    /// Nothing. It stands for no events. Its error is lack of memory.
    pub fn new(alloc: Global) -> Result<Collapse, NoMemory>
        ensures stands { IfOk result (λ collapse. StandsFor collapse []) }
        ensures full { IfOk result (λ collapse. collapse.is_full ≡ false) }
    {
        Ok(Collapse {
            points: KeptPoints::new(alloc),
            links: KeptLinks::new(alloc),
            is_full: false,
        })
    }

    /// Whether an end of a link is there: a point has to have passed a mask other than 0.
    fn has_end(&self, end: &NamedEnd) -> bool
        ensures { result ≡ is_there (knows self.now) end.now }
    {
        match end {
            NamedEnd::At(point) => self.points.has(point),
            _ => true,
        }
    }

    /// Whether both ends of a link are there.
    fn has_ends(&self, link: &NamedLink) -> bool
        ensures { result ≡ has_ends (knows self.now) link.now }
    {
        self.has_end(&link.source) && self.has_end(&link.target)
    }

    /// Adds the bits of a mask to a point's capacity.
    #[inline(always)]
    fn pass(&mut self, point: Point, mask: u32) -> Result<(), CollapseFault>
        ensures ok { OnOk result ((events : Seq AnEvent) → StandsFor self.old events → StandsFor self.new
            (events ++ PassEvent point mask ∷ [])) }
        ensures err { OnErr result (KeepsAll self.old self.new) }
        ensures limit { result ≡ Err CollapseFault.Limit → (events : Seq AnEvent) → StandsFor self.old events →
            ExceedsLimit (events ++ PassEvent point mask ∷ []) }
        ensures memory { result ≡ Err CollapseFault.Memory → WantsPoint self.old.points.capacities.map.entries point mask }
        ensures full { self.new.is_full ≡ self.old.is_full }
        ensures links { self.new.links ≡ self.old.links }
    {
        self.points.pass(point, mask)
    }

    /// Keeps a link, where its ends are there.
    #[inline(never)]
    fn put(&mut self, link: NamedLink) -> Result<(), CollapseFault>
        requires leads { may_lead link.source link.target ≡ true }
        ensures ok { OnOk result ((event : AnEvent) (events : Seq AnEvent) → MakesLink (knows self.old) event link →
            StandsFor self.old events → StandsFor self.new (events ++ event ∷ [])) }
        ensures err { OnErr result (KeepsAll self.old self.new) }
        ensures limit { result ≡ Err CollapseFault.Limit → (event : AnEvent) (events : Seq AnEvent) → MakesLink
            (knows self.old) event link → StandsFor self.old events → ExceedsLimit (events ++ event ∷ []) }
        ensures memory { result ≡ Err CollapseFault.Memory → WantsLink self.old link }
        ensures full { self.new.is_full ≡ self.old.is_full }
    {
        if let Some(index) = self.links.find(&link) {
            self.links.note(index, &link);
            return Ok(());
        }
        if !self.has_ends(&link) {
            return Ok(());
        }
        self.links.put(link)
    }

    /// Takes an event, unless a limit is exceeded then.
    #[inline(always)]
    fn take(&mut self, event: Event) -> Result<(), CollapseFault>
        ensures ok { OnOk result ((events : Seq AnEvent) → StandsFor self.old events → StandsFor self.new
            (events ++ event ∷ [])) }
        ensures err { OnErr result (KeepsAll self.old self.new) }
        ensures limit { result ≡ Err CollapseFault.Limit → (events : Seq AnEvent) → StandsFor self.old events →
            ExceedsLimit (events ++ event ∷ []) }
        ensures memory { result ≡ Err CollapseFault.Memory → WantsMore self.old event }
        ensures full { self.new.is_full ≡ self.old.is_full }
    {
        match event {
            Event::Pass { point, mask } => self.pass(point, mask),
            Event::Link { source, target } => {
                if self.links.is_flow_again(&source, &target) {
                    return Ok(());
                }
                self.put(NamedLink {
                    source: NamedEnd::At(source),
                    target: NamedEnd::At(target),
                })
            }
            Event::FromSecret { point } => self.put(NamedLink {
                source: NamedEnd::Source,
                target: NamedEnd::At(point),
            }),
            Event::Implicit { point, region } => self.put(NamedLink {
                source: NamedEnd::At(point),
                target: outlet(region),
            }),
            Event::Out { region, point } => {
                if region == 0 {
                    return Ok(());
                }
                if self.links.is_latest_output(region, &point) {
                    return Ok(());
                }
                self.put(NamedLink {
                    source: NamedEnd::Relay(region),
                    target: NamedEnd::At(point),
                })
            }
        }
    }

    /// Takes an event. `Limit` comes exactly where the graph of the events taken with this one exceeds a limit, or an
    /// earlier `add` answered it. `Memory` comes only where the event makes a point or a link that is not there yet. An
    /// event that is not taken leaves no trace but that a limit is exceeded.
    #[inline(always)]
    pub fn add(&mut self, event: Event) -> Result<(), CollapseFault>
        ensures ok { OnOk result ((events : Seq AnEvent) → StandsFor self.old events → StandsFor self.new
            (events ++ event ∷ [])) }
        ensures within { OnOk result ((events : Seq AnEvent) → StandsFor self.old events → ExceedsLimit
            (events ++ event ∷ []) → ⊥) }
        ensures err { OnErr result (KeepsAll self.old self.new) }
        ensures limit { result ≡ Err CollapseFault.Limit → self.old.is_full ≡ true ⊎ ((events : Seq AnEvent) →
            StandsFor self.old events → ExceedsLimit (events ++ event ∷ [])) }
        ensures again { self.old.is_full ≡ true → result ≡ Err CollapseFault.Limit }
        ensures memory { result ≡ Err CollapseFault.Memory → WantsMore self.old event }
        ensures full { self.new.is_full ≡ (self.old.is_full || is_limit result) }
    {
        if self.is_full {
            return Err(CollapseFault::Limit);
        }
        let taken = self.take(event);
        self.is_full = tells_limit(&taken);
        taken
    }

    /// Whether the links of an output that gives out again what it gave before are the latest ones of their kinds, and
    /// so have occurred; the output is one of a region then.
    #[inline(always)]
    fn has_latest_links(&self, point: &Point) -> bool
        ensures { OnTrue result (HasAgainLinks self.now point.now) }
    {
        point.region != 0
            && self.links.is_latest_flow(point, point)
            && self.links.is_latest_output(point.region, point)
    }

    /// Takes the events of an output that gives out again what it gave before, one after the other; see
    /// [`Collapse::add_again`].
    #[inline(never)]
    fn add_in_turn(&mut self, point: Point, mask: u32) -> Result<(), CollapseFault>
        ensures ok { OnOk result ((events : Seq AnEvent) → StandsFor self.old events → StandsFor self.new
            (events ++ again_events point mask)) }
        ensures within { OnOk result ((events : Seq AnEvent) → StandsFor self.old events → ExceedsLimit
            (events ++ again_events point mask) → ⊥) }
        ensures limit { result ≡ Err CollapseFault.Limit → self.old.is_full ≡ true ⊎ ((events : Seq AnEvent) →
            StandsFor self.old events → ExceedsLimit (events ++ again_events point mask)) }
        ensures again { self.old.is_full ≡ true → result ≡ Err CollapseFault.Limit }
        ensures full { self.new.is_full ≡ (self.old.is_full || is_limit result) }
    {
        self.add(Event::Pass { point, mask })?;
        self.add(Event::Link {
            source: point,
            target: point,
        })?;
        self.add(Event::Out {
            region: point.region,
            point,
        })
    }

    /// Takes the three events of an output that gives out again what it gave before: where both of its links are the
    /// latest of their kinds it only counts. `Limit` comes exactly where the graph of the events taken with these
    /// exceeds a limit, or an earlier event was not taken for one. Where it answers an error, a first part of them may
    /// be taken.
    #[inline(always)]
    pub fn add_again(&mut self, point: &Point, mask: u32) -> Result<(), CollapseFault>
        ensures ok { OnOk result ((events : Seq AnEvent) → StandsFor self.old events → StandsFor self.new
            (events ++ again_events point.now mask)) }
        ensures within { OnOk result ((events : Seq AnEvent) → StandsFor self.old events → ExceedsLimit
            (events ++ again_events point.now mask) → ⊥) }
        ensures limit { result ≡ Err CollapseFault.Limit → self.old.is_full ≡ true ⊎ ((events : Seq AnEvent) →
            StandsFor self.old events → ExceedsLimit (events ++ again_events point.now mask)) }
        ensures again { self.old.is_full ≡ true → result ≡ Err CollapseFault.Limit }
        ensures full { self.new.is_full ≡ (self.old.is_full || is_limit result) }
    {
        if self.is_full || !self.has_latest_links(point) {
            return self.add_in_turn(*point, mask);
        }
        match self.pass(*point, mask) {
            Ok(()) => Ok(()),
            Err(CollapseFault::Limit) => {
                self.is_full = true;
                Err(CollapseFault::Limit)
            }
            Err(CollapseFault::Memory) => Err(CollapseFault::Memory),
        }
    }
}

/// Whether an answer is that a limit is exceeded.
#[inline(always)]
fn tells_limit(taken: &Result<(), CollapseFault>) -> bool
    ensures { result ≡ is_limit taken.now }
{
    matches!(taken, Err(CollapseFault::Limit))
}
