// Answers as numbers, a different one for each answer of a call and each below `P`, and the checksum of a run of them.
ghost use Rattle.std.specs.Prelude.{◌≤◌};

use candidates::lent::{Inserted, Removed};
use candidates::{SingleCandidate, SudokuCandidateSet};
use stops::Stop;

// The largest prime below 2^56.
const P: u64 = 72057594037927931;

pub fn fold(sum: u64, code: u64) -> u64 {
    (sum % P * 31 + code % P) % P
}

pub fn is_negative(number: i32) -> bool {
    number < 0
}

// The number without its sign.
pub fn size(number: i32) -> u64
    ensures { result ≤ 2147483648 }
{
    if number < 0 {
        return (0 - number as i64) as u64;
    }
    number as u64
}

// A digit: twice its size, and one more where it is negative.
pub fn of_digit(digit: i32) -> u64
    ensures { result ≤ 4294967297 }
{
    if is_negative(digit) {
        return size(digit) * 2 + 1;
    }
    size(digit) * 2
}

// A digit refused: its code. A stop that no call here has: more than any.
fn of_stop(stop: Stop) -> u64
    ensures { result ≤ 4294967298 }
{
    match stop {
        Stop::BadDigit(digit) => of_digit(digit),
        _ => 4294967298,
    }
}

// No 0, yes 1.
pub fn of_test(yes: bool) -> u64
    ensures { result ≤ 1 }
{
    if yes { 1 } else { 0 }
}

// A place; 9 for none.
pub fn of_place(place: Option<usize>) -> u64 {
    place.unwrap_or(9) as u64
}

// The mask; for a digit refused 65,536 more than its code.
pub fn of_new(new: Result<SudokuCandidateSet, Stop>) -> u64 {
    match new {
        Ok(set) => set.mask as u64,
        Err(stop) => of_stop(stop) + 65536,
    }
}

// Absent 0, present 1; for a digit refused 2 more than its code.
pub fn of_presence(presence: Result<bool, Stop>) -> u64
    ensures { result ≤ 4294967300 }
{
    match presence {
        Ok(present) => of_test(present),
        Err(stop) => of_stop(stop) + 2,
    }
}

// Empty 0, several 1; 1 more than the digit's code.
pub fn of_single(single: SingleCandidate) -> u64 {
    match single {
        SingleCandidate::Empty => 0,
        SingleCandidate::Several => 1,
        SingleCandidate::Digit(digit) => of_digit(digit) + 1,
    }
}

// Passed 0; for a digit refused 1 more than its code.
pub fn of_check(check: Result<(), Stop>) -> u64
    ensures { result ≤ 4294967299 }
{
    match check {
        Ok(()) => 0,
        Err(stop) => of_stop(stop) + 1,
    }
}

// 65,536 times the answer, and the mask.
pub fn of_inserted(inserted: Inserted) -> u64 {
    of_check(inserted.answer) * 65536 + inserted.mask as u64
}

pub fn of_removed(removed: Removed) -> u64 {
    of_presence(removed.answer) * 65536 + removed.mask as u64
}
