use flow_base::HexWord;
use flow_graph::Event;
use std::fmt;
use tracked_run::TrackedTurn;

/// An event: what passes with its mask, or where bits flow from and to.
#[derive(Clone, Copy)]
pub struct EventText(pub Event);

impl fmt::Display for EventText {
    ghost use Rattle.std.specs.Prelude.{Some};
    ghost use Rattle.label_rows.specs.Texts.{event_text};

    ghost output = { λ shown. Some (event_text shown.0) };

    fn fmt<W: fmt::Write>(&self, f: &mut fmt::Formatter<W>) -> fmt::Result {
        match self.0 {
            Event::Pass { point, mask } => {
                let mask = HexWord(mask);
                write!(f, "pass {point} {mask}")
            }
            Event::Link { source, target } => write!(f, "link {source} to {target}"),
            Event::FromSecret { point } => write!(f, "secret to {point}"),
            Event::Implicit { point, region } => write!(f, "implicit {point} to {region}"),
            Event::Out { region, point } => write!(f, "out {region} to {point}"),
        }
    }
}

/// What a turn answers.
#[derive(Clone, Copy)]
pub struct AnswerText(pub TrackedTurn);

impl fmt::Display for AnswerText {
    ghost use Rattle.std.specs.Prelude.{Some};
    ghost use Rattle.label_rows.specs.Texts.{answer_text};

    ghost output = { λ shown. Some (answer_text shown.0) };

    fn fmt<W: fmt::Write>(&self, f: &mut fmt::Formatter<W>) -> fmt::Result {
        match self.0 {
            TrackedTurn::Ran => write!(f, "ran"),
            TrackedTurn::Exited(status) => write!(f, "exited {status}"),
            TrackedTurn::Refused(fault) => write!(f, "refused {fault}"),
        }
    }
}
