//! What the types of a graph keep of its numbers, told to proofs. None of these functions does anything when it is
//! called.

ghost use Rattle.std.specs.Prelude.{◌≡◌, nat_lt, true};
ghost use Rattle.std.specs.List.{list_all};
ghost use Rattle.flow_certificate.specs.Keeping.{is_placed, is_region_or_outside};

use flow_graph::{Graph, Node};

/// Tells that a region has 16 bits.
fn tell_region(region: u16)
    ensures { is_region_or_outside region ≡ true }
{}

/// Tells that regions have 16 bits.
fn tell_regions(regions: &[u16])
    ensures { list_all is_region_or_outside regions.now ≡ true }
{
    let mut rest = regions;
    while let [region, more @ ..] = rest {
        tell_region(*region);
        rest = more;
    }
}

/// Tells that an address has 32 bits.
fn tell_address(address: u32)
    ensures { nat_lt address 4294967296 ≡ true }
{}

/// Tells that the region of a point has 16 bits and its address 32.
fn tell_node(node: &Node)
    ensures { is_placed node.now ≡ true }
{
    let point = node.point;
    tell_region(point.region);
    tell_address(point.address);
}

/// Tells that the regions of points have 16 bits and their addresses 32.
fn tell_nodes(nodes: &[Node])
    ensures { list_all is_placed nodes.now ≡ true }
{
    let mut rest = nodes;
    while let [node, more @ ..] = rest {
        tell_node(node);
        rest = more;
    }
}

/// Tells that the regions of a graph have 16 bits and its addresses 32.
pub fn tell_graph(graph: &Graph)
    ensures relays { list_all is_region_or_outside graph.now.relays ≡ true }
    ensures points { list_all is_placed graph.now.points ≡ true }
{
    tell_regions(graph.relays.as_slice());
    tell_nodes(graph.points.as_slice());
}
