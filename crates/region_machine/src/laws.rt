ghost use Rattle.rv32im_machine.specs.Language.{Walk};
ghost use Rattle.rv32im_machine.specs.Playing.{Finished, Halted};
ghost use Rattle.rv32im_machine.specs.State.{State};
ghost use Rattle.region_machine.specs.Laws.{NextTurnLaw};
ghost use Rattle.region_machine.specs.Pairs.{Tapes};
ghost use Rattle.region_machine.specs.declared.pair_stops.PairStop.TheVariants.{First, Second};

use crate::observers::Observer;
use crate::pairs::Both;
use rv32im_machine::Passer;

/// While a guest runs, the turn that it makes next is the one that a monitor of regions tells, if both hold the same
/// region for entered. It does nothing when it is called.
pub fn monitors_tell_the_next_turn()
    ensures { NextTurnLaw }
{}

/// Where a pair of observers ends a turn, each of the two ends it, in the same state and with what it leaves itself;
/// where the pair is stopped, the one that stopped it is. Of the other it is known only that it was handed the values
/// before. It does nothing when it is called.
pub fn each_of_a_pair_is_handed_the_turn<A: Observer, B: Observer>(pair: &Both<A, B>)
    ensures first { (walk : Walk) (state : State) (left : Tapes A.Tape B.Tape) →
        ⟦<Both<A, B> as Passer>⟧.Plays pair.now walk (Finished state left) →
        A.Plays pair.now.first walk (Finished state left.first) }
    ensures second { (walk : Walk) (state : State) (left : Tapes A.Tape B.Tape) →
        ⟦<Both<A, B> as Passer>⟧.Plays pair.now walk (Finished state left) →
        B.Plays pair.now.second walk (Finished state left.second) }
    ensures first_stop { (walk : Walk) (stop : A.Stop) →
        ⟦<Both<A, B> as Passer>⟧.Plays pair.now walk (Halted (First stop)) →
        A.Plays pair.now.first walk (Halted stop) }
    ensures second_stop { (walk : Walk) (stop : B.Stop) →
        ⟦<Both<A, B> as Passer>⟧.Plays pair.now walk (Halted (Second stop)) →
        B.Plays pair.now.second walk (Halted stop) }
{}
