ghost use Rattle.std.specs.Prelude.{◌≡◌, true, length, IfSome};
ghost use Rattle.std.specs.List.{list_all};
ghost use Rattle.std.specs.Option.{is_some};
ghost use Rattle.std.specs.Ordering.{is_lt, nat_cmp};
ghost use Rattle.std.specs.declared.cmp.Ordering.{Ordering as TheOrdering};
ghost use Rattle.flow_graph.specs.Graphs.{arc_cmp, are_links, are_relays, ascend, has_capacity, is_graph};
ghost use Rattle.flow_graph.specs.Graphs.{is_link, is_origin, is_relay, is_target, leads_on, node_cmp};

use crate::ends::{Arc, End};
use crate::graphs::Graph;
use crate::nodes::Node;
use flow_base::List;

/// Whether each point has a capacity other than 0.
fn have_capacities(points: &[Node]) -> bool
    ensures { result ≡ list_all has_capacity points.now }
{
    points.iter().all(|node| node.capacity != 0)
}

/// Items of a list that is to ascend.
trait Ranked {
    ghost order: { Self → Self → TheOrdering };

    /// Whether the item comes before another.
    fn comes_before(&self, other: &Self) -> bool
        ensures { result ≡ is_lt (order self.now other.now) };
}

impl Ranked for Node {
    ghost order = { node_cmp };

    fn comes_before(&self, other: &Node) -> bool {
        self.point.is_below(other.point)
    }
}

impl Ranked for u16 {
    ghost order = { nat_cmp };

    fn comes_before(&self, other: &u16) -> bool {
        *self < *other
    }
}

impl Ranked for Arc {
    ghost order = { arc_cmp };

    fn comes_before(&self, other: &Arc) -> bool {
        *self < *other
    }
}

/// Whether items ascend strictly.
fn do_ascend<T: Ranked>(items: &[T]) -> bool
    ensures { result ≡ ascend T.order items.now }
{
    let mut rest = items;
    while let [first, others @ ..] = rest {
        let [second, ..] = others else {
            return true;
        };
        if !first.comes_before(second) {
            return false;
        }
        rest = others;
    }
    true
}

/// Whether a region is one of ascending relays.
fn has_relay(relays: &[u16], region: u16) -> bool
    requires { are_relays relays.now ≡ true }
    ensures { result ≡ is_relay relays.now region }
{
    match relays.binary_search(&region) {
        Ok(_) => true,
        Err(_) => false,
    }
}

/// Whether a link may lead from an end.
fn is_source(count: usize, relays: &[u16], end: End) -> bool
    requires { are_relays relays.now ≡ true }
    ensures { result ≡ is_origin count relays.now end }
{
    match end {
        End::Source => true,
        End::Point(index) => (index as usize) < count,
        End::Relay(region) => has_relay(relays, region),
        End::Sink => false,
    }
}

/// Whether a link may lead to an end.
fn is_goal(count: usize, relays: &[u16], end: End) -> bool
    requires { are_relays relays.now ≡ true }
    ensures { result ≡ is_target count relays.now end }
{
    match end {
        End::Source => false,
        End::Point(index) => (index as usize) < count,
        End::Relay(region) => has_relay(relays, region),
        End::Sink => true,
    }
}

/// Whether the source leads to a point alone.
fn leads_well(source: End, target: End) -> bool
    ensures { result ≡ leads_on source target }
{
    match source {
        End::Source => matches!(target, End::Point(_)),
        _ => true,
    }
}

/// Whether a link joins ends that there are, among so many points and these relays.
pub fn joins_ends(count: usize, relays: &[u16], link: &Arc) -> bool
    requires { are_relays relays.now ≡ true }
    ensures { result ≡ is_link count relays.now link.now }
{
    is_source(count, relays, link.source)
        && is_goal(count, relays, link.target)
        && leads_well(link.source, link.target)
}

/// Whether each link joins ends that there are.
fn do_links_join(count: usize, relays: &[u16], links: &[Arc]) -> bool
    requires { are_relays relays.now ≡ true }
    ensures { result ≡ are_links count relays.now links.now }
{
    links.iter().all(|link| joins_ends(count, relays, link))
}

/// Whether three lists are ones that a graph may have.
fn are_fit(points: &[Node], relays: &[u16], links: &[Arc]) -> bool
    ensures { result ≡ is_graph points.now relays.now links.now }
{
    have_capacities(points)
        && do_ascend(points)
        && do_ascend(relays)
        && do_ascend(links)
        && do_links_join(points.len(), relays, links)
}

impl Graph {
    /// The graph of these lists; None exactly where they break what a graph keeps.
    pub fn from_lists(points: List<Node>, relays: List<u16>, links: List<Arc>) -> Option<Graph>
        ensures some { is_some result ≡ is_graph points relays links }
        ensures points { IfSome result (λ graph. graph.points ≡ points) }
        ensures relays { IfSome result (λ graph. graph.relays ≡ relays) }
        ensures links { IfSome result (λ graph. graph.links ≡ links) }
    {
        if !are_fit(points.as_slice(), relays.as_slice(), links.as_slice()) {
            return None;
        }
        Some(Graph {
            points,
            relays,
            links,
        })
    }
}
