ghost use Rattle.std.specs.Prelude.{◌≡◌, ◌++◌, ◌∷◌, [], IfOk, OnOk, map, true};
ghost use Rattle.std.specs.List.{list_all};
ghost use Rattle.flow_certificate.specs.declared.lines.Line.TheVariants as forms;
ghost use Rattle.flow_certificate.specs.Certificates.{CertText, lines_text};
ghost use Rattle.flow_certificate.specs.Keeping.{is_node};
ghost use Rattle.flow_certificate.specs.Pictures.{link_lines, certificate_picture, point_lines, relay_lines};

use crate::certificates::Certificate;
use crate::line_texts::put_line;
use crate::lines::{Line, LinkLine, PointLine, RelayLine};
use flow_base::{Bytes, List, NoMemory};
use flow_graph::{Arc, Node};
use max_flow::Half;
use std::alloc::Global;

/// The capacity of a point that a certificate can name.
fn capacity_of(node: &Node) -> u64
    requires { is_node node.now ≡ true }
    ensures { result ≡ node.now.capacity }
{
    node.capacity as u64
}

/// Puts the lines of points at the end of a text.
#[tactic(auto, unfolding(crate::specs::Certificates::lines_text))]
fn put_points(
    alloc: Global,
    text: &mut Vec<u8>,
    nodes: &[Node],
    flows: &[u64],
    halves: &[Half],
) -> Result<(), NoMemory>
    requires { list_all is_node nodes.now ≡ true }
    ensures { OnOk result (text.new.items ≡ text.old.items ++ lines_text (map forms.Point (point_lines nodes.now
        flows.now halves.now))) }
{
    let mut rest = nodes;
    let mut flows_left = flows;
    let mut halves_left = halves;
    while let [node, more @ ..] = rest {
        let [flow, more_flows @ ..] = flows_left else {
            return Ok(());
        };
        let [half, more_halves @ ..] = halves_left else {
            return Ok(());
        };
        let line = PointLine {
            point: node.point,
            capacity: capacity_of(node),
            flow: *flow,
            half: *half,
        };
        put_line(alloc, text, &Line::Point(line))?;
        rest = more;
        flows_left = more_flows;
        halves_left = more_halves;
    }
    Ok(())
}

/// Puts the lines of relays at the end of a text.
#[tactic(auto, unfolding(crate::specs::Certificates::lines_text))]
fn put_relays(
    alloc: Global,
    text: &mut Vec<u8>,
    regions: &[u16],
    answers: &[bool],
) -> Result<(), NoMemory>
    ensures { OnOk result (text.new.items ≡ text.old.items ++ lines_text (map forms.Relay (relay_lines regions.now
        answers.now))) }
{
    let mut rest = regions;
    let mut answers_left = answers;
    while let [region, more @ ..] = rest {
        let [inside, more_answers @ ..] = answers_left else {
            return Ok(());
        };
        let line = RelayLine {
            region: *region,
            inside: *inside,
        };
        put_line(alloc, text, &Line::Relay(line))?;
        rest = more;
        answers_left = more_answers;
    }
    Ok(())
}

/// Puts the lines of links at the end of a text.
#[tactic(auto, unfolding(crate::specs::Certificates::lines_text))]
fn put_links(
    alloc: Global,
    text: &mut Vec<u8>,
    links: &[Arc],
    flows: &[u64],
) -> Result<(), NoMemory>
    ensures { OnOk result (text.new.items ≡ text.old.items ++ lines_text (map forms.Link (link_lines links.now
        flows.now))) }
{
    let mut rest = links;
    let mut flows_left = flows;
    while let [link, more @ ..] = rest {
        let [flow, more_flows @ ..] = flows_left else {
            return Ok(());
        };
        let line = LinkLine {
            link: *link,
            flow: *flow,
        };
        put_line(alloc, text, &Line::Link(line))?;
        rest = more;
        flows_left = more_flows;
    }
    Ok(())
}

/// Puts the lines of a certificate into an empty text.
fn put_lines(alloc: Global, text: &mut Vec<u8>, certificate: &Certificate) -> Result<(), NoMemory>
    requires { text.old.items ≡ [] }
    ensures { OnOk result (CertText text.new.items (certificate_picture certificate.now.graph certificate.now.solved)) }
{
    let Certificate { graph, solved } = certificate;
    put_line(alloc, text, &Line::Version)?;
    put_line(alloc, text, &Line::Value(solved.value))?;
    put_points(
        alloc,
        text,
        graph.points.as_slice(),
        solved.flow.points.as_slice(),
        solved.side.points.as_slice(),
    )?;
    put_relays(
        alloc,
        text,
        graph.relays.as_slice(),
        solved.side.relays.as_slice(),
    )?;
    put_links(
        alloc,
        text,
        graph.links.as_slice(),
        solved.flow.links.as_slice(),
    )?;
    put_line(alloc, text, &Line::End)?;
    Ok(())
}

/// The one text of a certificate, as [`read_certificate`](crate::read_certificate) reads it. Its error is want of
/// memory.
pub fn write_certificate(alloc: Global, certificate: &Certificate) -> Result<Bytes, NoMemory>
    ensures { IfOk result (λ text. CertText text (certificate_picture certificate.now.graph certificate.now.solved)) }
{
    let mut text = Vec::new(alloc);
    put_lines(alloc, &mut text, certificate)?;
    Ok(List::from_vec(text))
}
