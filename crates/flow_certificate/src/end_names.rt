use flow_graph::End;
use std::fmt;

/// An end of a link, which shows as `source`, `p` and a point's index, `r` and a region, or `sink`.
#[derive(Clone, Copy)]
pub(crate) struct EndName(pub End);

impl fmt::Display for EndName {
    ghost use Rattle.std.specs.Prelude.{Some};
    ghost use Rattle.flow_certificate.specs.VerdictTexts.{end_text};

    ghost output = { λ end. Some (end_text end.0) };

    fn fmt<W: fmt::Write>(&self, f: &mut fmt::Formatter<W>) -> fmt::Result {
        match self.0 {
            End::Source => f.write_str("source"),
            End::Point(index) => write!(f, "p{index}"),
            End::Relay(region) => write!(f, "r{region}"),
            End::Sink => f.write_str("sink"),
        }
    }
}
