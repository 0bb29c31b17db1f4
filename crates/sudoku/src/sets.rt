// The calls of the candidate set by their numbers, which callers in C have, and one step of an iterator.
ghost use Rattle.std.specs.Prelude.{◌≡◌};
ghost use Rattle.candidates.specs.Sets.{insert_of, contains_of, inserted, removed};
ghost use Rattle.stops.specs.Answer.{map};
ghost use Rattle.sudoku.specs.Codes.{coded, test_number, no_number};
ghost use Rattle.sudoku.specs.Sets.{set_call, next_call};

use crate::codes;
use candidates::{SudokuCandidateIter, SudokuCandidateSet, lent};

fn insert_call(mask: u16, digit: i32) -> [i64; 4]
    ensures { result ≡ coded (map no_number (insert_of digit)) (inserted mask digit) }
{
    let after = lent::insert(mask, digit);
    codes::of_check(after.answer, 0, after.mask)
}

fn remove_call(mask: u16, digit: i32) -> [i64; 4]
    ensures { result ≡ coded (map test_number (contains_of mask digit)) (removed mask digit) }
{
    let after = lent::remove(mask, digit);
    codes::of_presence(after.answer, after.mask)
}

pub fn set_call(call: u8, mask: u16, digit: i32) -> [i64; 4]
    ensures { result ≡ set_call call mask digit }
{
    let set = SudokuCandidateSet { mask };
    match call {
        0 => codes::of_given(0, SudokuCandidateSet::new().mask),
        1 => codes::of_given(0, SudokuCandidateSet::full().mask),
        2 => codes::of_new(SudokuCandidateSet::single(digit)),
        3 => codes::of_presence(set.contains(digit), mask),
        4 => insert_call(mask, digit),
        5 => remove_call(mask, digit),
        6 => codes::of_given(0, lent::clear(mask)),
        7 => codes::of_given(set.len() as i64, mask),
        8 => codes::of_given(codes::of_test(set.is_empty()), mask),
        9 => codes::of_single(set.single_candidate(), mask),
        10 => codes::of_given(0, set.iter().mask),
        _ => codes::of_unknown(call),
    }
}

pub fn next_call(mask: u16, place: u8) -> [i64; 4]
    ensures { result ≡ next_call mask place }
{
    let mut rest = SudokuCandidateIter {
        mask,
        current: place,
    };
    match rest.next() {
        Some(digit) => codes::of_digit(digit, rest.current, rest.mask),
        None => codes::of_digit(0, place, mask),
    }
}
