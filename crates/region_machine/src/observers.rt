ghost use Rattle.std.specs.Prelude.{◌≡◌};
ghost use Rattle.rv32im_machine.specs.State.{State};
ghost use Rattle.rv32im_machine.specs.Language.{Walk};
ghost use Rattle.rv32im_machine.specs.Folds.{real_end};
ghost use Rattle.rv32im_machine.specs.Playing.{Finished};

use rv32im_machine::{Passer, Plain};

/// A passer that lets each value go on as it is and puts no register back: it observes the real run. Where it does not
/// stop a turn, the turn ends as the real one.
pub trait Observer: Passer {
    ghost real: { (p : Self) (walk : Walk) (state : State) (tape : Self.Tape) →
        Self.Plays p walk (Finished state tape) → state ≡ real_end walk };
}

impl Observer for Plain {
    ghost use Rattle.region_machine.specs.Guards.{plain_real};
    ghost use Rattle.std.specs.declared.convert.Infallible.{Infallible as Never};

    ghost real = { λ p walk state tape. plain_real Never walk state tape };
}
