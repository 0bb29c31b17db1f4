// The steps, and which of them a number names.
ghost use Rattle.std.specs.Prelude.{◌≡◌};
ghost use Rattle.std.proofs.Math.Option as option;
ghost use Rattle.stops.specs.Answer.{found_of};
ghost use Rattle.calls.specs.StepNumbers.{step_call};
ghost use Rattle.calls.specs.code.QuietSteps.{call_of_step};

use eliminations::Elimination;
use techniques::Search;

// A step that reports nothing.
#[derive(Clone, Copy)]
pub enum QuietStep {
    Update,
    Eliminate(Elimination),
    Settle,
}

#[derive(Clone, Copy)]
pub enum Step {
    Search(Search),
    Quiet(QuietStep),
}

// The step of a number, 0 to 15.
pub fn step_of(number: u8) -> Option<Step>
    ensures { option.map call_of_step (found_of result) ≡ step_call number }
{
    Some(match number {
        0 => Step::Quiet(QuietStep::Update),
        1 => Step::Quiet(QuietStep::Eliminate(Elimination::NakedPairs)),
        2 => Step::Quiet(QuietStep::Eliminate(Elimination::BoxLine)),
        3 => Step::Quiet(QuietStep::Eliminate(Elimination::XWing)),
        4 => Step::Search(Search::Naked),
        5 => Step::Search(Search::Hidden),
        6 => Step::Search(Search::Advanced),
        7 => Step::Quiet(QuietStep::Eliminate(Elimination::Lone)),
        8 => Step::Quiet(QuietStep::Eliminate(Elimination::Place)),
        9 => Step::Quiet(QuietStep::Eliminate(Elimination::Pair)),
        10 => Step::Quiet(QuietStep::Eliminate(Elimination::Pointing)),
        11 => Step::Quiet(QuietStep::Eliminate(Elimination::Cross)),
        12 => Step::Quiet(QuietStep::Settle),
        13 => Step::Quiet(QuietStep::Eliminate(Elimination::Chains)),
        14 => Step::Quiet(QuietStep::Eliminate(Elimination::Claiming)),
        15 => Step::Quiet(QuietStep::Eliminate(Elimination::XChains)),
        _ => return None,
    })
}
