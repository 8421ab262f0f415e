ghost use Rattle.std.specs.Prelude.{IsTrue};
ghost use Rattle.enclosure_regions.specs.Regions.{is_region};

use crate::breaks::{earlier, passing_break, place_break};
use crate::observers::Observer;
use enclosure_regions::{Break, Region};
use flow_base::Registers;
use rv32im_machine::{Passer, Passing, Place, Seen, Shape, Source};

/// The guard of a region: it hands each value on to the passer that it wraps, and keeps the first break of the region.
#[derive(Drop)]
pub(crate) struct Guarding<'p, 'r, P> {
    /// Lent for the turn.
    pub passer: &'p mut P,
    pub region: &'r Region,
    /// The registers at the entry.
    pub kept: Registers,
    /// The address of the instruction.
    pub pc: u32,
    pub broken: Option<Break>,
    ghost rules: { IsTrue (is_region region.now) },
}

impl<P: Observer> Passer for Guarding<'_, '_, P> {
    ghost use Rattle.region_machine.specs.Breaking.{walk_break};
    ghost use Rattle.region_machine.specs.Guards.{Guard, Guards, guards_Ended};
    ghost use Rattle.std.specs.Option.{option_or};

    type Stop = P::Stop;

    ghost Tape = { Guard P.Tape };

    ghost tape = { λ side.
        record { tape = P.tape side.passer.now; broken = side.broken; lent = side.passer.ghost_name } };

    ghost memory = { λ side. P.memory side.passer.now };

    ghost Plays = { λ side walk out.
        Guards (P.Plays side.passer.now walk)
        (option_or side.broken (walk_break side.region.now side.kept side.pc walk)) side.passer.ghost_name out };

    fn look(&mut self, seen: Seen, value: u32) -> Result<(), P::Stop> {
        self.passer.look(seen, value)
    }

    #[inline(always)]
    fn pass(&mut self, passing: Passing) -> Result<u32, P::Stop> {
        let broken = passing_break(self.region, &self.kept, self.pc, &passing);
        self.broken = earlier(self.broken, broken);
        self.passer.pass(passing)
    }

    fn move_to(
        &mut self,
        place: Place,
        shape: Shape,
        source: Source,
        value: u32,
    ) -> Result<(), P::Stop> {
        let broken = place_break(self.region, &self.kept, self.pc, place);
        self.broken = earlier(self.broken, broken);
        self.passer.move_to(place, shape, source, value)
    }

    fn save(&mut self) -> Result<(), P::Stop> {
        self.passer.save()
    }

    fn restore(&mut self, registers: &[u8]) -> Result<bool, P::Stop> {
        self.passer.restore(registers)
    }

    ghost at_end = { λ side state.
        guards_Ended (P.Plays side.passer.now) (P.tape side.passer.now) side.broken side.passer.ghost_name
        side.region.now side.kept side.pc state (P.at_end side.passer.now state) };
}
