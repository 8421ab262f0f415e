use replay_machine::Outside;
use rv32im_machine::Fault;
use std::fmt;

/// Why a path stops before it exits.
#[derive(Clone, Copy)]
pub enum PathStop {
    /// The guest is stopped.
    Guest(Fault),
    /// A region is entered or skipped one of whose ranges is not inside guest memory: the first such range.
    RangeOutside(Outside),
    /// So many turns were made without exit.
    Turns { limit: u32 },
}

impl fmt::Display for PathStop {
    ghost use Rattle.std.specs.Prelude.{Some};
    ghost use Rattle.every_secret.specs.BoundTexts.{path_stop_text};

    ghost output = { λ stop. Some (path_stop_text stop) };

    fn fmt<W: fmt::Write>(&self, f: &mut fmt::Formatter<W>) -> fmt::Result {
        match *self {
            PathStop::Guest(fault) => write!(f, "guest {fault}"),
            PathStop::RangeOutside(outside) => {
                let region = outside.region;
                let range = outside.range;
                write!(f, "region {region} range {range} outside")
            }
            PathStop::Turns { limit } => write!(f, "turns {limit}"),
        }
    }
}
