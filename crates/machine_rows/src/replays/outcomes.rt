ghost use Rattle.std.specs.Prelude.{◌≡◌, length};
ghost use Rattle.crossing_bits.specs.Strings.{left_of};
ghost use Rattle.replay_machine.specs.Standing.{mark_of, turn_answer};

use crossing_bits::Bits;
use replay_machine::{Mark, Replay, ReplayTurn};

/// Where a replay stands, and how many bits are left of its string.
#[derive(Clone, Copy)]
pub struct Outcome {
    pub answer: ReplayTurn,
    pub mark: Mark,
    pub left: u32,
}

/// Makes so many turns, also after the last that does something, and says where the replay then stands.
pub fn outcome_after(replay: &mut Replay<'_>, bits: &mut Bits, turns: u32) -> Outcome
    ensures answer { result.answer ≡ turn_answer replay.new.missing replay.new.outside replay.new.state.control.mode }
    ensures mark { result.mark ≡ mark_of replay.new }
    ensures left { result.left ≡ length (left_of bits.new) }
{
    for _ in 0..turns {
        replay.turn(bits);
    }
    Outcome {
        answer: replay.answer(),
        mark: replay.mark(),
        left: bits.left(),
    }
}
