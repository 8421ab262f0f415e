ghost use Rattle.region_machine.specs.Pairs.{AgreeOn};

use crate::observers::Observer;
use crate::pair_stops::{PairStop, of_second};
use rv32im_machine::{Passer, Passing, Place, Seen, Shape, Source};

/// Two observers as one: each value of a turn is handed to the first, and then to the second. Where the first stops the
/// turn, the second has been handed what came before; where the second stops it, the first has been handed this too.
/// The two keep nothing of two different guest memories.
#[derive(Drop)]
pub struct Both<A: Observer, B: Observer> {
    pub first: A,
    pub second: B,
    ghost agree: { AgreeOn (A.memory first) (B.memory second) },
}

impl<A: Observer, B: Observer> Passer for Both<A, B> {
    ghost use Rattle.region_machine.specs.Pairs.{Pairs, Tapes, either_memory};

    type Stop = PairStop<A::Stop, B::Stop>;

    ghost Tape = { Tapes A.Tape B.Tape };

    ghost tape = { λ pair. record { first = A.tape pair.first; second = B.tape pair.second } };

    ghost memory = { λ pair. either_memory (A.memory pair.first) (B.memory pair.second) };

    ghost Plays = { λ pair walk out. Pairs (A.Plays pair.first walk) (B.Plays pair.second walk) out };

    fn look(&mut self, seen: Seen, value: u32) -> Result<(), PairStop<A::Stop, B::Stop>> {
        match self.first.look(seen, value) {
            Ok(()) => of_second(self.second.look(seen, value)),
            Err(stop) => Err(PairStop::First(stop)),
        }
    }

    #[inline(always)]
    fn pass(&mut self, passing: Passing) -> Result<u32, PairStop<A::Stop, B::Stop>> {
        match self.first.pass(passing) {
            Ok(_) => of_second(self.second.pass(passing)),
            Err(stop) => Err(PairStop::First(stop)),
        }
    }

    fn move_to(
        &mut self,
        place: Place,
        shape: Shape,
        source: Source,
        value: u32,
    ) -> Result<(), PairStop<A::Stop, B::Stop>> {
        match self.first.move_to(place, shape, source, value) {
            Ok(()) => of_second(self.second.move_to(place, shape, source, value)),
            Err(stop) => Err(PairStop::First(stop)),
        }
    }

    fn save(&mut self) -> Result<(), PairStop<A::Stop, B::Stop>> {
        match self.first.save() {
            Ok(()) => of_second(self.second.save()),
            Err(stop) => Err(PairStop::First(stop)),
        }
    }

    fn restore(&mut self, registers: &[u8]) -> Result<bool, PairStop<A::Stop, B::Stop>> {
        match self.first.restore(registers) {
            Ok(_) => of_second(self.second.restore(registers)),
            Err(stop) => Err(PairStop::First(stop)),
        }
    }

    ghost at_end = { λ pair state. (A.at_end pair.first state, B.at_end pair.second state) };
}

impl<A: Observer, B: Observer> Observer for Both<A, B> {
    ghost real = { λ pair walk state tape plays. A.real pair.first walk state tape.first plays.0 };
}
