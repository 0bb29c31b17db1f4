// Lists of step numbers: the first byte that is none, and a list run from a board.
ghost use Rattle.std.specs.Prelude.{◌≡◌, not, position};
ghost use Rattle.steps.specs.Calls.{Admitted, outcome, run};
ghost use Rattle.techniques.specs.code.Searches.{search_call};
ghost use Rattle.board.specs.Boards.{board_of};
ghost use Rattle.calls.specs.Replays.{calls_of};
ghost use Rattle.calls.specs.StepNumbers.{is_step};
ghost use Rattle.calls.specs.code.QuietSteps.{quiet_call};
ghost use Rattle.calls.specs.code.Unchecked.{step_masks};

use crate::kinds::{QuietStep, Step, step_of};
use board::Board;
use board::entries::givens_of;
use board::fresh::fresh_masks;
use eliminations::eliminate;
use passes::settle;
use techniques::{Search, advance};

// Steps are numbered from 0.
const STEPS: u8 = 16;

fn is_step(number: u8) -> bool
    ensures { result ≡ is_step number }
{
    number < STEPS
}

// The index of the first byte that is no step number.
pub fn first_no_step(steps: &[u8]) -> Option<usize>
    ensures { result ≡ position (λ n. not (is_step n)) steps.now }
{
    steps.iter().position(|&number| !is_step(number))
}

// What a step that reports leaves of masks that its check would admit.
#[tactic(auto, unfolding(steps::specs::Calls::outcome))]
fn search_masks(search: Search, givens: &[u8; 81], masks: &mut [u16; 81])
    ensures { masks.new ≡ (outcome (search_call search) givens.now masks.old).masks }
{
    match search {
        Search::Naked => {}
        Search::Hidden => {}
        Search::Advanced => {
            advance(givens, masks);
        }
    }
}

// What any other step leaves of them.
#[tactic(auto, unfolding(steps::specs::Calls::outcome))]
fn quiet_masks(step: QuietStep, givens: &[u8; 81], masks: &mut [u16; 81])
    ensures { masks.new ≡ (outcome (quiet_call step) givens.now masks.old).masks }
{
    match step {
        QuietStep::Update => *masks = fresh_masks(givens),
        QuietStep::Eliminate(elimination) => eliminate(elimination, givens, masks),
        QuietStep::Settle => {
            let mut none: [u8; 0] = [];
            let mut by_pass = [0usize; 6];
            settle(givens, masks, &mut none, &mut by_pass);
        }
    }
}

// A number that is no step's leaves them as they are.
fn step_masks(number: u8, givens: &[u8; 81], masks: &mut [u16; 81])
    ensures { masks.new ≡ step_masks number givens.now masks.old }
{
    let Some(step) = step_of(number) else {
        return;
    };
    match step {
        Step::Search(search) => search_masks(search, givens, masks),
        Step::Quiet(quiet) => quiet_masks(quiet, givens, masks),
    }
}

// The steps one after the other, each on the masks that the last left. No step can be refused on the way, so none checks its board.
pub fn run(steps: &[u8], opened: Board) -> Board
    requires { Admitted (board_of opened) }
    ensures { board_of result ≡ run (calls_of steps.now) (board_of opened) }
{
    let clues = opened.clues;
    let entries = opened.entries;
    let mut masks = opened.masks;
    let givens = givens_of(&clues, &entries);
    for &step in steps {
        step_masks(step, &givens, &mut masks);
    }
    Board {
        clues,
        entries,
        masks,
    }
}
