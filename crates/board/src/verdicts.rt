// What the masks of a board say of it (module 13, F-4), read cell by cell through the candidate set.
ghost use Rattle.std.specs.Prelude.{◌≡◌};
ghost use Rattle.board.specs.Boards.{verdict_of};

use crate::Verdict;
use candidates::{SingleCandidate, SudokuCandidateSet};
use grid::verify_solution;

// Of any masks; a board that is handed over is checked first.
pub fn verdict_of(masks: &[u16; 81]) -> Verdict
    ensures { result ≡ verdict_of masks.now }
{
    let mut digits = [0i32; 81];
    let mut finished = true;
    for cell in 0..81 {
        let mask = masks[cell];
        match (SudokuCandidateSet { mask }).single_candidate() {
            SingleCandidate::Empty => return Verdict::Dead,
            SingleCandidate::Several => finished = false,
            SingleCandidate::Digit(digit) => digits[cell] = digit,
        }
    }
    if !finished {
        return Verdict::Open;
    }
    if verify_solution(&digits) {
        return Verdict::Finished;
    }
    Verdict::Dead
}
