// A board as sets of digits for each cell: its clues, its entries, and what its masks lack of the fresh ones.
ghost use Rattle.std.specs.Prelude.{◌≡◌, pos};
ghost use Rattle.record.specs.Records.{digit_sets, lacking, digit_in, digits_in, open_sets, clues_from};

use board::fresh::given_mask;
use candidates::masks;
use cells::open_mask;

pub fn digit_sets(givens: &[u8; 81]) -> [u16; 81]
    ensures { result ≡ digit_sets givens.now }
{
    let mut sets = [0u16; 81];
    for (cell, given) in givens.iter().enumerate() {
        sets[cell] = given_mask(*given);
    }
    sets
}

// What the first masks have and the second lack.
pub fn lacking_sets(have: &[u16; 81], other: &[u16; 81]) -> [u16; 81]
    ensures { result ≡ lacking have.now other.now }
{
    let mut sets = [0u16; 81];
    for cell in 0..81 {
        sets[cell] = masks::lose(have[cell], other[cell]);
    }
    sets
}

// The masks of open cells; nothing for the others.
pub fn open_sets(givens: &[u8; 81], masks: &[u16; 81]) -> [u16; 81]
    ensures { result ≡ open_sets givens.now masks.now }
{
    let mut sets = [0u16; 81];
    for cell in 0..81 {
        sets[cell] = open_mask(givens, masks, cell);
    }
    sets
}

// The lowest digit of a set, 0 of none.
fn digit_in(set: u16) -> u8
    ensures { result ≡ digit_in set }
{
    if set == 0 {
        return 0;
    }
    (masks::lowest_digit(set) + 1) as u8
}

pub fn digits_in(sets: &[u16; 81]) -> [u8; 81]
    ensures { result ≡ digits_in sets.now }
{
    let mut digits = [0u8; 81];
    for (cell, set) in sets.iter().enumerate() {
        digits[cell] = digit_in(*set);
    }
    digits
}

pub fn clues_from(givens: &[u8; 81]) -> [i32; 81]
    ensures { result ≡ clues_from givens.now }
{
    let mut clues = [0i32; 81];
    for (cell, given) in givens.iter().enumerate() {
        clues[cell] = i32::from(*given);
    }
    clues
}
