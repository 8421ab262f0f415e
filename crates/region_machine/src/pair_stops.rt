ghost use Rattle.std.specs.Prelude.{◌≡◌};
ghost use Rattle.region_machine.specs.Pairs.{second_answer};

/// Which of two passers has stopped a turn, and why.
#[derive(Clone, Copy, Drop)]
pub enum PairStop<S, T> {
    First(S),
    Second(T),
}

/// The answer of the second of two passers as that of the pair.
pub(crate) fn of_second<S, T, A>(answer: Result<A, T>) -> Result<A, PairStop<S, T>>
    ensures { result ≡ second_answer S answer }
{
    match answer {
        Ok(answer) => Ok(answer),
        Err(stop) => Err(PairStop::Second(stop)),
    }
}
