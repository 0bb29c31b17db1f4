// The calls, and what each answers on a mask, as a number.
use crate::codes;
use candidates::{SudokuCandidateSet, digits, lent, masks};

// A call with what it is handed beside the mask. `New`, `Full`, `Single`, `PlaceOf`, `DigitMask` and `DigitAt` take no mask.
#[derive(Clone, Copy)]
pub enum Call {
    New,
    Full,
    Single(i32),
    Contains(i32),
    Insert(i32),
    Remove(i32),
    Clear,
    Len,
    IsEmpty,
    SingleCandidate,
    Iter,
    PlaceOf(i32),
    DigitAt(usize),
    HasDigit(usize),
    DigitMask(usize),
    LoseDigit(usize),
    FirstDigit(usize),
    Lose(u16),
    Meet(u16),
    Join(u16),
    DigitCount,
    LowestDigit,
    LoseLowest,
    IsNone,
    IsOne,
    IsTwo,
}

fn set(mask: u16) -> SudokuCandidateSet {
    SudokuCandidateSet { mask }
}

// The digits that `next` gives one after the other, folded: their codes are below 31, so no two lists are alike.
fn digits_of(mask: u16) -> u64 {
    let mut sum: u64 = 0;
    for digit in set(mask).iter() {
        sum = codes::fold(sum, codes::of_digit(digit));
    }
    sum
}

pub fn answer(call: Call, mask: u16) -> u64 {
    match call {
        Call::New => SudokuCandidateSet::new().mask as u64,
        Call::Full => SudokuCandidateSet::full().mask as u64,
        Call::Single(digit) => codes::of_new(SudokuCandidateSet::single(digit)),
        Call::Contains(digit) => codes::of_presence(set(mask).contains(digit)),
        Call::Insert(digit) => codes::of_inserted(lent::insert(mask, digit)),
        Call::Remove(digit) => codes::of_removed(lent::remove(mask, digit)),
        Call::Clear => lent::clear(mask) as u64,
        Call::Len => set(mask).len() as u64,
        Call::IsEmpty => codes::of_test(set(mask).is_empty()),
        Call::SingleCandidate => codes::of_single(set(mask).single_candidate()),
        Call::Iter => digits_of(mask),
        Call::PlaceOf(digit) => codes::of_place(digits::place_of(digit)),
        Call::DigitAt(place) => codes::of_digit(digits::digit_at(place)),
        Call::HasDigit(place) => codes::of_test(masks::has_digit(mask, place)),
        Call::DigitMask(place) => masks::digit_mask(place) as u64,
        Call::LoseDigit(place) => masks::lose_digit(mask, place) as u64,
        Call::FirstDigit(from) => masks::first_digit(mask, from) as u64,
        Call::Lose(lost) => masks::lose(mask, lost) as u64,
        Call::Meet(other) => masks::meet(mask, other) as u64,
        Call::Join(other) => masks::join(mask, other) as u64,
        Call::DigitCount => masks::digit_count(mask) as u64,
        Call::LowestDigit => masks::lowest_digit(mask) as u64,
        Call::LoseLowest => masks::lose_lowest(mask) as u64,
        Call::IsNone => codes::of_test(masks::is_none(mask)),
        Call::IsOne => codes::of_test(masks::is_one(mask)),
        Call::IsTwo => codes::of_test(masks::is_two(mask)),
    }
}
