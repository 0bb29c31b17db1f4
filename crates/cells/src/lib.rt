// The givens and masks of a board as lent arrays: reading cells, and losing digits in place. The passes are loops over these.
// Every function is total: a number above 80 is no cell, has no candidate and is not open.
#![tactic(auto)]

ghost use Rattle.std.specs.Prelude.{◌≡◌, cond, eqb};
ghost use Rattle.steps.specs.Boards.{is_open, total};
ghost use Rattle.steps.specs.Passes.{changed};
ghost use Rattle.cells.specs.code.Places.{mask_at, open_at, lose_in, lose_places, open_mask, unit_masks, all_masks, spots_in, held_places, line_spots, all_but, loose_digits};

use candidates::masks;
use grid::unit_cell;

pub mod meets;
pub mod notes;
pub mod unions;

pub fn is_open(givens: &[u8; 81], cell: usize) -> bool
    ensures { result ≡ open_at givens.now cell }
{
    cell < 81 && givens[cell] == 0
}

pub fn mask_at(masks: &[u16; 81], cell: usize) -> u16
    ensures { result ≡ mask_at masks.now cell }
{
    if cell < 81 {
        return masks[cell];
    }
    0
}

// The cell loses the digits of `lost`, if it is open; whether it held any of them. Most cells hold none, so that is asked first.
pub fn lose_at(givens: &[u8; 81], masks: &mut [u16; 81], cell: usize, lost: u16) -> bool
    ensures masks_after { masks.new ≡ lose_in (is_open givens.now) cell lost masks.old }
    ensures value { result ≡ changed masks.old masks.new }
{
    if cell < 81 {
        let held = masks[cell];
        if masks::meet(held, lost) != 0 {
            if givens[cell] == 0 {
                masks[cell] = masks::lose(held, lost);
                return true;
            }
        }
    }
    false
}

// The open cells at these places of the unit lose the digits of `lost`; whether they held any of them.
pub fn lose_places(
    givens: &[u8; 81],
    masks: &mut [u16; 81],
    unit: usize,
    places: u16,
    lost: u16,
) -> bool
    ensures masks_after { masks.new ≡ lose_places (is_open givens.now) unit places lost masks.old }
    ensures value { result ≡ changed masks.old masks.new }
{
    let mut any = false;
    for place in 0..9 {
        if masks::has_digit(places, place) {
            any |= lose_at(givens, masks, unit_cell(unit, place), lost);
        }
    }
    any
}

// The mask of a cell, 0 for a cell that is not open.
pub fn open_mask(givens: &[u8; 81], masks: &[u16; 81], cell: usize) -> u16
    ensures { result ≡ open_mask givens.now masks.now cell }
{
    if is_open(givens, cell) {
        return mask_at(masks, cell);
    }
    0
}

// All digits for an open cell, none for one that is given a digit.
pub fn door(given: u8) -> u16
    ensures { result ≡ cond (eqb given 0) 511 0 }
{
    if given == 0 {
        return 511;
    }
    0
}

// What the open cells hold.
pub fn loose_digits(givens: &[u8; 81], masks: &[u16; 81]) -> u16
    ensures { result ≡ loose_digits givens.now masks.now }
{
    let mut held: u16 = 0;
    for cell in 0..81 {
        held = masks::join(held, masks::meet(masks[cell], door(givens[cell])));
    }
    held
}

// The masks of the unit's open cells, by place; 0 for the others.
pub fn unit_masks(givens: &[u8; 81], masks: &[u16; 81], unit: usize) -> [u16; 9]
    ensures { result ≡ unit_masks givens.now masks.now unit }
{
    let mut nine = [0u16; 9];
    for place in 0..9 {
        nine[place] = open_mask(givens, masks, unit_cell(unit, place));
    }
    nine
}

// The masks of the unit's cells, clue cells too, by place.
pub fn all_masks(masks: &[u16; 81], unit: usize) -> [u16; 9]
    ensures { result ≡ all_masks masks.now unit }
{
    let mut nine = [0u16; 9];
    for place in 0..9 {
        nine[place] = mask_at(masks, unit_cell(unit, place));
    }
    nine
}

// The places that hold the digit.
pub fn places_of(nine: &[u16; 9], digit: usize) -> u16
    ensures { result ≡ spots_in nine.now digit }
{
    let mut found: u16 = 0;
    for (place, mask) in nine.iter().enumerate() {
        if masks::has_digit(*mask, digit) {
            found = masks::join(found, masks::digit_mask(place));
        }
    }
    found
}

// The places of the unit that hold the digit, clue cells too.
pub fn held_places(masks: &[u16; 81], unit: usize, digit: usize) -> u16
    ensures { result ≡ held_places masks.now unit digit }
{
    let nine = all_masks(masks, unit);
    places_of(&nine, digit)
}

// The places whose open cells hold the digit, for each of the nine units from the first one.
pub fn line_spots(givens: &[u8; 81], masks: &[u16; 81], first: usize, digit: usize) -> [u16; 9]
    ensures { result ≡ line_spots givens.now masks.now first digit }
{
    let mut list = [0u16; 9];
    if 27 <= first {
        return list;
    }
    for line in 0..9 {
        let nine = unit_masks(givens, masks, first + line);
        list[line] = places_of(&nine, digit);
    }
    list
}

// All places but two.
pub fn all_but(first: usize, second: usize) -> u16
    ensures { result ≡ all_but first second }
{
    masks::lose_digit(masks::lose_digit(511, first), second)
}

// Whether any mask differs: "whether it removed anything", once a pass is over. All are compared, with no early end, so that the compiler compares many at once.
pub fn changed(before: [u16; 81], after: [u16; 81]) -> bool
    ensures { result ≡ changed before after }
{
    let mut any = false;
    for cell in 0..81 {
        any |= before[cell] != after[cell];
    }
    any
}

// How many candidates there are in all, summed as wide as the masks are, so that the compiler counts many at once.
pub fn total(masks: [u16; 81]) -> usize
    ensures { result ≡ total masks }
{
    let mut sum: u16 = 0;
    for mask in &masks {
        sum += masks::digit_count(*mask) as u16;
    }
    sum as usize
}
