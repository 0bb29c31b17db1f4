// The set's changing calls with plain parameters: a set is made, lent to the call, and taken back.
ghost use Rattle.std.specs.Prelude.{◌≡◌};
ghost use Rattle.stops.specs.Answer.{answer_of};
ghost use Rattle.candidates.specs.Sets.{contains_of, insert_of, inserted, removed};

use crate::SudokuCandidateSet;
use stops::Stop;

// The mask after a call, and what the call answered: beside a refusal it is the mask as it was, so that it stands outside the `Result`.
#[derive(Clone, Copy)]
pub struct Inserted {
    pub mask: u16,
    pub answer: Result<(), Stop>,
}

#[derive(Clone, Copy)]
pub struct Removed {
    pub mask: u16,
    pub answer: Result<bool, Stop>,
}

pub fn insert(mask: u16, digit: i32) -> Inserted
    ensures { (answer_of result.answer ≡ insert_of digit) × (result.mask ≡ inserted mask digit) }
{
    let mut set = SudokuCandidateSet { mask };
    let answer = set.insert(digit);
    Inserted {
        mask: set.mask,
        answer,
    }
}

pub fn remove(mask: u16, digit: i32) -> Removed
    ensures { (answer_of result.answer ≡ contains_of mask digit) × (result.mask ≡ removed mask digit) }
{
    let mut set = SudokuCandidateSet { mask };
    let answer = set.remove(digit);
    Removed {
        mask: set.mask,
        answer,
    }
}

pub fn clear(mask: u16) -> u16
    ensures { result ≡ 0 }
{
    let mut set = SudokuCandidateSet { mask };
    set.clear();
    set.mask
}
