// A use of CAVE loads the state from its input, runs eight rounds, and reads its answer off the last state. Each use has an
// input and an answer of its own; the run is written once.
ghost use Rattle.std.specs.Prelude.{◌≡◌};
ghost use Rattle.cave.specs.Law.{AnswersBy};
ghost use Rattle.cave.specs.Rounds.{after_rounds};
ghost use Rattle.cave.specs.declared.state.CaveState.{CaveState as State};

use crate::cave;
use crate::state::{CaveState, Rounds};

pub trait CaveUse {
    type Input;

    type Output;

    // the state that an input loads
    ghost loading: { Self.Input → State };

    // the answer that the last state holds
    ghost reading: { State → Self.Output };

    fn load(input: Self::Input) -> CaveState
        ensures { result ≡ loading input };

    fn read(last: CaveState) -> Self::Output
        ensures { result ≡ reading last };
}

// The eight rounds of every use.
pub fn run<U: CaveUse>(input: U::Input) -> U::Output
    ensures result { result ≡ U.CaveUse.reading (after_rounds 8 (U.CaveUse.loading input)) }
    ensures lawful { AnswersBy (U.CaveUse.loading input) U.CaveUse.reading result }
{
    U::read(cave(U::load(input), Rounds::Eight))
}
