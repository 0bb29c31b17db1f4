// Answers as four numbers: the stop or 0, what stands beside it, the value, the mask.
ghost use Rattle.std.specs.Prelude.{◌≡◌, pos};
ghost use Rattle.std.specs.Int.{w64};
ghost use Rattle.std.proofs.Common.{SFits};
ghost use Rattle.stops.specs.Answer.{answer_of, map, passing};
ghost use Rattle.sudoku.specs.Codes.{four, given, refused, coded, test_number, unknown};
ghost use Rattle.sudoku.specs.Sets.{new_set, single_code};
ghost use Rattle.sudoku.specs.code.Fitting.{Fitting};

use candidates::{SingleCandidate, SudokuCandidateSet};
use stops::Stop;

pub fn of_test(yes: bool) -> i64
    ensures { result ≡ test_number yes }
{
    if yes {
        return 1;
    }
    0
}

pub fn of_given(value: i64, mask: u16) -> [i64; 4]
    ensures { result ≡ given value mask }
{
    [0, 0, value, mask as i64]
}

// A value that is a count.
pub fn of_count(count: usize) -> [i64; 4]
    requires { SFits w64 (pos count) }
    ensures { result ≡ given (pos count) 0 }
{
    [0, 0, count as i64, 0]
}

// Any stop, by its number and what stands beside it.
pub fn of_stop(stop: Stop, mask: u16) -> [i64; 4]
    ensures { result ≡ refused stop mask }
{
    [
        stops::number(stop) as i64,
        stops::detail(stop),
        0,
        mask as i64,
    ]
}

pub fn of_unknown(call: u8) -> [i64; 4]
    ensures { result ≡ unknown call }
{
    [-1, call as i64, 0, 0]
}

// The value of a call that was checked.
pub fn of_check(check: Result<(), Stop>, value: i64, mask: u16) -> [i64; 4]
    ensures { result ≡ coded (passing (answer_of check) value) mask }
{
    match check {
        Err(stop) => of_stop(stop, mask),
        Ok(()) => of_given(value, mask),
    }
}

// What a call counts, as a writer its bytes.
pub fn of_counted(answer: Result<usize, Stop>) -> [i64; 4]
    requires { Fitting (map pos (answer_of answer)) }
    ensures { result ≡ coded (map pos (answer_of answer)) 0 }
{
    match answer {
        Err(stop) => of_stop(stop, 0),
        Ok(count) => of_count(count),
    }
}

pub fn of_new(new: Result<SudokuCandidateSet, Stop>) -> [i64; 4]
    ensures { result ≡ new_set (map (λ set. set.mask) (answer_of new)) }
{
    match new {
        Err(stop) => of_stop(stop, 0),
        Ok(set) => of_given(0, set.mask),
    }
}

pub fn of_presence(presence: Result<bool, Stop>, mask: u16) -> [i64; 4]
    ensures { result ≡ coded (map test_number (answer_of presence)) mask }
{
    match presence {
        Err(stop) => of_stop(stop, mask),
        Ok(present) => of_given(of_test(present), mask),
    }
}

// A digit, or 0 where there is none, and a number beside it.
pub fn of_digit(digit: i32, beside: u8, mask: u16) -> [i64; 4]
    ensures { result ≡ four (pos 0) (pos beside) digit (pos mask) }
{
    [0, beside as i64, i64::from(digit), mask as i64]
}

// The value is 0 for empty and for several, which the number beside it tells apart.
pub fn of_single(single: SingleCandidate, mask: u16) -> [i64; 4]
    ensures { result ≡ single_code single mask }
{
    match single {
        SingleCandidate::Digit(digit) => of_digit(digit, 1, mask),
        SingleCandidate::Empty => of_digit(0, 0, mask),
        SingleCandidate::Several => of_digit(0, 2, mask),
    }
}
