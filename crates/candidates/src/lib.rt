// The candidate set: the digits that a cell may still take, as a mask of nine bits (module 1).
// The passes work on bare masks by the functions of `masks`; the set is the same masks with the calls of the Rust.
#![tactic(auto)]

ghost use Rattle.std.specs.Prelude.{◌≡◌, ◌-◌, eqb};
ghost use Rattle.std.specs.Iterator.{at_most};
ghost use Rattle.candidates.specs.Masks.{low_nine, count};
ghost use Rattle.stops.specs.Answer.{answer_of, map};
ghost use Rattle.candidates.specs.Sets.{next_answer, stays};
ghost use Rattle.candidates.specs.Sets.{single_of, contains_of, insert_of, inserted, removed, single_candidate_of, next_of};

use stops::Stop;

pub mod digits;
pub mod lent;
pub mod masks;

// A set of digits: bit d - 1 is digit d. Only the nine lowest bits count: an accepted call drops the others first.
#[derive(Clone, Copy)]
pub struct SudokuCandidateSet {
    pub mask: u16,
}

// What `single_candidate` answers.
#[derive(Clone, Copy)]
pub enum SingleCandidate {
    Digit(i32),
    Empty,
    Several,
}

// The digits of `mask` at place `current` and above, rising.
#[derive(Clone, Copy)]
pub struct SudokuCandidateIter {
    pub mask: u16,
    pub current: u8,
}

impl SudokuCandidateSet {
    pub const EMPTY: u16 = 0;

    pub const ALL: u16 = 511;

    pub fn new() -> Self
        ensures { result.mask ≡ 0 }
    {
        Self { mask: Self::EMPTY }
    }

    pub fn full() -> Self
        ensures { result.mask ≡ 511 }
    {
        Self { mask: Self::ALL }
    }

    pub fn single(digit: i32) -> Result<Self, Stop>
        ensures { map (λ set. set.mask) (answer_of result) ≡ single_of digit }
    {
        Ok(Self {
            mask: masks::digit_mask(digits::checked_place(digit)?),
        })
    }

    pub fn contains(self, digit: i32) -> Result<bool, Stop>
        ensures { answer_of result ≡ contains_of self.mask digit }
    {
        digits::presence(self.mask, digit)
    }

    pub fn len(self) -> usize
        ensures { result ≡ count (low_nine self.mask) }
    {
        masks::digit_count(self.mask % 512)
    }

    pub fn is_empty(self) -> bool
        ensures { result ≡ eqb (count (low_nine self.mask)) 0 }
    {
        masks::is_none(self.mask % 512)
    }

    // The digit of a set that holds just one; else whether it holds none or several.
    pub fn single_candidate(self) -> SingleCandidate
        ensures { result ≡ single_candidate_of self.mask }
    {
        let mask = self.mask % 512;
        if masks::is_none(mask) {
            return SingleCandidate::Empty;
        }
        if masks::is_one(mask) {
            return SingleCandidate::Digit(digits::digit_at(masks::lowest_digit(mask)));
        }
        SingleCandidate::Several
    }

    pub fn iter(self) -> SudokuCandidateIter
        ensures { (result.mask ≡ low_nine self.mask) × (result.current ≡ 0) }
    {
        SudokuCandidateIter {
            mask: self.mask % 512,
            current: 0,
        }
    }

    pub fn insert(&mut self, digit: i32) -> Result<(), Stop>
        ensures { (answer_of result ≡ insert_of digit) × (self.new.mask ≡ inserted self.old.mask digit) }
    {
        self.mask = digits::with_digit(self.mask, digit);
        digits::insertion(digit)
    }

    // Says whether the digit was there.
    pub fn remove(&mut self, digit: i32) -> Result<bool, Stop>
        ensures { (answer_of result ≡ contains_of self.old.mask digit) × (self.new.mask ≡ removed self.old.mask digit) }
    {
        let mask = self.mask;
        self.mask = digits::without_digit(mask, digit);
        digits::presence(mask, digit)
    }

    pub fn clear(&mut self)
        ensures { self.new.mask ≡ 0 }
    {
        self.mask = Self::EMPTY;
    }
}

impl Iterator for SudokuCandidateIter {
    type Item = i32;

    ghost next_gives = { λ before digit after. (next_answer digit after ≡ next_of before.mask before.current) × stays digit before after };

    ghost remaining = { λ left. at_most (9 - left.current) };

    fn next(&mut self) -> Option<i32> {
        let place = masks::first_digit(self.mask, self.current as usize);
        if 9 <= place {
            return None;
        }
        self.current = (place + 1) as u8;
        Some(digits::digit_at(place))
    }
}
