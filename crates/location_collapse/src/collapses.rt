ghost use Rattle.std.specs.Prelude.{IsTrue};
ghost use Rattle.std.specs.List.{list_all};
ghost use Rattle.std.specs.Map.{keys_of};
ghost use Rattle.flow_graph.specs.Keeping.{is_known, is_sound};

use crate::kept_links::KeptLinks;
use crate::kept_points::KeptPoints;

/// The graph of the events taken so far: each point that has passed a mask other than 0 with its capacity, the links,
/// and whether an event was not taken for a limit. It stands for each list of events that makes exactly these points,
/// capacities and links.
#[derive(Drop)]
pub struct Collapse {
    pub points: KeptPoints,
    pub links: KeptLinks,
    /// Whether an earlier `add` or `add_again` answered `Limit`.
    pub is_full: bool,
    ghost sound: { IsTrue (list_all (is_sound (is_known points.capacities.map.entries)) (keys_of links.named.map.entries)) },
}
