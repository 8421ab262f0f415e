ghost use Rattle.std.specs.Prelude.{◌≡◌, ◌^◌, ◌<◌, ◌++◌, ◌∷◌, [], IfOk, OnOk, length, map, true};
ghost use Rattle.flow_graph.specs.Graphs.{is_graph};
ghost use Rattle.flow_certificate.specs.Certificates.{arc_of, is_certificate_picture, node_of};
ghost use Rattle.flow_certificate.specs.Private.Drafts.{IsDraft, sketch_of};
ghost use Rattle.flow_certificate.specs.Pictures.{flow_at_link, flow_at_point, half_at, inside_at, certificate_picture};
ghost use Rattle.flow_certificate.specs.Pictures.{have_counts, have_texts};

use crate::certificates::Certificate;
use crate::drafts::Draft;
use crate::lines::{LinkLine, PointLine, RelayLine};
use flow_base::{List, NoMemory};
use flow_graph::{Arc, Graph, Node};
use max_flow::{Flow, Half, Side, Solved};
use std::alloc::Global;

/// What the lines of points say, by kind.
#[derive(Drop)]
struct PointLists {
    /// The points with their capacities.
    nodes: List<Node>,
    /// The flows through the points.
    flows: List<u64>,
    /// The halves of the points in the side.
    halves: List<Half>,
}

/// Puts what the line of a point says at the end of the lists.
fn put_point(lists: &mut PointLists, line: &PointLine) -> Result<(), NoMemory>
    ensures nodes { OnOk result (lists.new.nodes ≡ lists.old.nodes ++ node_of line.now ∷ []) }
    ensures flows { OnOk result (lists.new.flows ≡ lists.old.flows ++ flow_at_point line.now ∷ []) }
    ensures halves { OnOk result (lists.new.halves ≡ lists.old.halves ++ half_at line.now ∷ []) }
{
    lists.nodes.push(Node {
        point: line.point,
        capacity: u128::from(line.capacity),
    })?;
    lists.flows.push(line.flow)?;
    lists.halves.push(line.half)?;
    Ok(())
}

/// What the lines of points say.
fn points_of(alloc: Global, lines: &[PointLine]) -> Result<PointLists, NoMemory>
    ensures nodes { IfOk result (λ lists. lists.nodes ≡ map node_of lines.now) }
    ensures flows { IfOk result (λ lists. lists.flows ≡ map flow_at_point lines.now) }
    ensures halves { IfOk result (λ lists. lists.halves ≡ map half_at lines.now) }
{
    let mut lists = PointLists {
        nodes: List::new(alloc),
        flows: List::new(alloc),
        halves: List::new(alloc),
    };
    for line in lines {
        put_point(&mut lists, line)?;
    }
    Ok(lists)
}

/// The answers for the relays of lines.
fn answers_of(alloc: Global, lines: &[RelayLine]) -> Result<List<bool>, NoMemory>
    ensures { IfOk result (λ answers. answers ≡ map inside_at lines.now) }
{
    let mut answers = List::new(alloc);
    for line in lines {
        answers.push(line.inside)?;
    }
    Ok(answers)
}

/// What the lines of links say, by kind.
#[derive(Drop)]
struct LinkLists {
    /// The links.
    arcs: List<Arc>,
    /// The flows over the links.
    flows: List<u64>,
}

/// What the lines of links say.
fn links_of(alloc: Global, lines: &[LinkLine]) -> Result<LinkLists, NoMemory>
    ensures arcs { IfOk result (λ lists. lists.arcs ≡ map arc_of lines.now) }
    ensures flows { IfOk result (λ lists. lists.flows ≡ map flow_at_link lines.now) }
{
    let mut lists = LinkLists {
        arcs: List::new(alloc),
        flows: List::new(alloc),
    };
    for line in lines {
        lists.arcs.push(line.link)?;
        lists.flows.push(line.flow)?;
    }
    Ok(lists)
}

/// What a draft says, but for the regions of its relays.
#[derive(Drop)]
struct Said {
    /// The points with their capacities.
    nodes: List<Node>,
    /// The links.
    arcs: List<Arc>,
    /// The value, the flow and the side.
    solved: Solved,
}

/// What a draft says.
fn said_in(alloc: Global, draft: &Draft) -> Result<Said, NoMemory>
    ensures nodes { IfOk result (λ said. said.nodes ≡ map node_of draft.now.points) }
    ensures arcs { IfOk result (λ said. said.arcs ≡ map arc_of draft.now.links) }
    ensures value { IfOk result (λ said. said.solved.value ≡ draft.now.value) }
    ensures point_flows { IfOk result (λ said. said.solved.flow.points ≡ map flow_at_point draft.now.points) }
    ensures link_flows { IfOk result (λ said. said.solved.flow.links ≡ map flow_at_link draft.now.links) }
    ensures halves { IfOk result (λ said. said.solved.side.points ≡ map half_at draft.now.points) }
    ensures answers { IfOk result (λ said. said.solved.side.relays ≡ map inside_at draft.now.relays) }
{
    let points = points_of(alloc, draft.points.as_slice())?;
    let links = links_of(alloc, draft.links.as_slice())?;
    let relays = answers_of(alloc, draft.relays.as_slice())?;
    Ok(Said {
        nodes: points.nodes,
        arcs: links.arcs,
        solved: Solved {
            value: draft.value,
            flow: Flow {
                points: points.flows,
                links: links.flows,
            },
            side: Side {
                points: points.halves,
                relays,
            },
        },
    })
}

/// The graph of lists that make one.
fn graph_of(points: List<Node>, relays: List<u16>, links: List<Arc>) -> Graph
    requires { is_graph points relays links ≡ true }
    ensures points { result.points ≡ points }
    ensures relays { result.relays ≡ relays }
    ensures links { result.links ≡ links }
{
    match Graph::from_lists(points, relays, links) {
        Some(graph) => graph,
        None => unreachable!(),
    }
}

/// The certificate of parts that make one.
fn whole_of(graph: Graph, solved: Solved) -> Certificate
    requires counts { have_counts graph solved ≡ true }
    requires texts { have_texts graph solved ≡ true }
    ensures graph { result.graph ≡ graph }
    ensures solved { result.solved ≡ solved }
{
    match Certificate::from_parts(graph, solved) {
        Some(certificate) => certificate,
        None => unreachable!(),
    }
}

/// The certificate of a whole draft.
pub fn certificate_of(alloc: Global, draft: Draft) -> Result<Certificate, NoMemory>
    requires valid { is_certificate_picture ((sketch_of draft).picture) ≡ true }
    requires draft { IsDraft draft }
    requires few { length draft.points < 2 ^ 32 }
    ensures { IfOk result (λ c. certificate_picture c.graph c.solved ≡ (sketch_of draft).picture) }
{
    let said = said_in(alloc, &draft)?;
    let graph = graph_of(said.nodes, draft.regions, said.arcs);
    Ok(whole_of(graph, said.solved))
}
