// Setters' step lists (document 02, F-10): a list of steps, six bytes each, is taken step by step from the fresh board of the handed board's clues and entries. It is accepted
// where each step names an instance of a wide pass whose condition holds at its turn and that removes something.
#![tactic(auto)]

ghost use Rattle.std.specs.Prelude.{◌≡◌, ◌≤◌};
ghost use Rattle.stops.specs.Answer.{answer_of};
ghost use Rattle.steps.specs.StepLists.{count_check, follow, step_count, steps_in, steps_of};
ghost use Rattle.board.specs.Boards.{board_of};
ghost use Rattle.step_lists.specs.StepChecks.{ChecksSteps};

use board::entries::givens_of;
use board::fresh::fresh_masks;
use board::{Board, check};
use stops::Stop;

pub mod kinds;
mod naming;
mod taking;

// How many steps so many bytes are; a shorter last piece is one too.
fn count_steps(bytes: usize) -> usize
    ensures { result ≡ steps_in bytes }
{
    if bytes % 6 == 0 {
        return bytes / 6;
    }
    bytes / 6 + 1
}

// Stop 16 with the number of steps.
fn check_count(bytes: usize) -> Result<(), Stop>
    ensures { answer_of result ≡ count_check (steps_in bytes) }
{
    let count = count_steps(bytes);
    if 729 < count {
        return Err(Stop::TooManySteps(count as i64));
    }
    Ok(())
}

// One step after the other: stop 15 with the index of the first that changes nothing. A step that names no instance, or whose condition does not hold, changes nothing either.
fn follow_steps(givens: &[u8; 81], start: [u16; 81], steps: &[u8]) -> Result<[u16; 81], Stop>
    requires { step_count steps.now ≤ 729 }
    ensures { answer_of result ≡ follow givens.now 0 (steps_of steps.now) start }
{
    let count = count_steps(steps.len());
    let mut masks = start;
    for index in 0..count {
        if !kinds::take_at(givens, &mut masks, steps, 6 * index) {
            return Err(Stop::BadStep(index as i64));
        }
    }
    Ok(masks)
}

// A list of steps, checked from the fresh board: the board's stops, then 16, then 15. The final board of an accepted list takes the place of the handed one, whose masks are checked and
// play no other part.
pub fn check_steps(board: &mut Board, steps: &[u8]) -> Result<(), Stop>
    ensures { ChecksSteps (board_of board.old) steps.now result (board_of board.new) }
{
    check(&board.clues, &board.entries, &board.masks)?;
    check_count(steps.len())?;
    let givens = givens_of(&board.clues, &board.entries);
    board.masks = follow_steps(&givens, fresh_masks(&givens), steps)?;
    Ok(())
}
