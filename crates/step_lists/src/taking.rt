// One instance of a wide pass over lent givens and masks: where its condition holds, its open cells lose its digits, and whether any did is told. Digits are places 0 to 8.
ghost use Rattle.std.specs.Prelude.{◌≡◌, ◌&&◌, ◌+◌, ◌<◌};
ghost use Rattle.steps.specs.Boards.{is_open};
ghost use Rattle.steps.specs.Instances as instances;
ghost use Rattle.steps.specs.Instances.{lone, pair, locked_step, cross_step};
ghost use Rattle.steps.specs.Passes.{changed, instance_taken};
ghost use Rattle.steps.specs.Steps.{step_taken};
ghost use Rattle.grid.specs.Units.{unit_cell};
ghost use Rattle.cells.specs.code.Meets.{meetings, met_unit};
ghost use Rattle.cells.specs.code.Places.{mask_at};
ghost use Rattle.step_lists.specs.code.Taking.{Across, confined_to, within_digits};

use candidates::masks;
use cells::meets::lose_met;
use cells::{all_but, held_places, lose_at, lose_places, mask_at};
use grid::unit_cell;
use lone_place::losses::lose_peers;

// Whether a mask has no digit outside these.
fn is_within(mask: u16, digits: u16) -> bool
    ensures { result ≡ within_digits mask digits }
{
    masks::is_none(masks::meet(mask, masks::lose(511, digits)))
}

// Lone: the cell holds nothing but the digit, or nothing: its peers lose it.
pub fn take_lone(givens: &[u8; 81], masks: &mut [u16; 81], cell: usize, digit: usize) -> bool
    requires { (cell < 81) × (digit < 9) }
    ensures masks_after { masks.new ≡ instance_taken givens.now (lone cell digit) masks.old }
    ensures value { result ≡ changed masks.old masks.new }
{
    let one = masks::digit_mask(digit);
    is_within(mask_at(masks, cell), one) && lose_peers(givens, masks, cell, one)
}

// Whether all cells of the unit that hold the digit are at these places.
fn is_confined(masks: &[u16; 81], unit: usize, digit: usize, places: u16) -> bool
    ensures { result ≡ confined_to masks.now unit digit places }
{
    masks::is_none(masks::lose(held_places(masks, unit, digit), places))
}

// Place: no other cell of the unit holds the digit: the cell loses all but it.
pub fn take_place(
    givens: &[u8; 81],
    masks: &mut [u16; 81],
    unit: usize,
    digit: usize,
    place: usize,
) -> bool
    requires { (unit < 27) × (digit < 9) × (place < 9) }
    ensures masks_after { masks.new ≡ instance_taken givens.now (instances.place unit digit place) masks.old }
    ensures value { result ≡ changed masks.old masks.new }
{
    let others = masks::lose_digit(511, digit);
    is_confined(masks, unit, digit, masks::digit_mask(place))
        && lose_at(givens, masks, unit_cell(unit, place), others)
}

// Whether the cells at two places of the unit have no digit outside these.
fn are_within(masks: &[u16; 81], unit: usize, i: usize, j: usize, digits: u16) -> bool
    ensures { result ≡ (within_digits (mask_at masks.now (unit_cell unit i)) digits && within_digits (mask_at masks.now (unit_cell unit j)) digits) }
{
    is_within(mask_at(masks, unit_cell(unit, i)), digits)
        && is_within(mask_at(masks, unit_cell(unit, j)), digits)
}

// Pair: both cells hold nothing outside two digits: the unit's other cells lose both.
pub fn take_pair(
    givens: &[u8; 81],
    masks: &mut [u16; 81],
    unit: usize,
    i: usize,
    j: usize,
    a: usize,
    b: usize,
) -> bool
    requires { (unit < 27) × (i < 9) × (j < 9) × (a < 9) × (b < 9) }
    ensures masks_after { masks.new ≡ instance_taken givens.now (pair unit i j a b) masks.old }
    ensures value { result ≡ changed masks.old masks.new }
{
    let both = masks::join(masks::digit_mask(a), masks::digit_mask(b));
    are_within(masks, unit, i, j, both) && lose_places(givens, masks, unit, all_but(i, j), both)
}

// Pointing and Claiming: all cells of the unit that hold the digit are in the nth unit that meets it: that one's other cells lose it.
pub fn take_locked(
    givens: &[u8; 81],
    masks: &mut [u16; 81],
    unit: usize,
    digit: usize,
    nth: usize,
) -> bool
    requires { (unit < 27) × (digit < 9) × (nth < meetings unit) }
    ensures masks_after { masks.new ≡ step_taken (is_open givens.now) (locked_step unit (met_unit unit nth) digit) masks.old }
    ensures value { result ≡ changed masks.old masks.new }
{
    let held = held_places(masks, unit, digit);
    lose_met(givens, masks, unit, digit, held, nth)
}

// Whether all cells of two units that hold the digit are at these places.
fn are_confined(masks: &[u16; 81], one: usize, other: usize, digit: usize, places: u16) -> bool
    ensures { result ≡ (confined_to masks.now one digit places && confined_to masks.now other digit places) }
{
    is_confined(masks, one, digit, places) && is_confined(masks, other, digit, places)
}

// Cross: all cells of two lines that hold the digit are in two lines across: the other cells of those lose it.
// The lines are the ith and jth from `first` on, those across the ath and bth from `across` on.
pub fn take_cross(
    givens: &[u8; 81],
    masks: &mut [u16; 81],
    first: usize,
    across: usize,
    digit: usize,
    i: usize,
    j: usize,
    a: usize,
    b: usize,
) -> bool
    requires { Across first across × (digit < 9) × (i < 9) × (j < 9) × (a < 9) × (b < 9) }
    ensures masks_after { masks.new ≡ step_taken (is_open givens.now) (cross_step digit (first + i) (first + j) (across + a) (across + b)) masks.old }
    ensures value { result ≡ changed masks.old masks.new }
{
    let both = masks::join(masks::digit_mask(a), masks::digit_mask(b));
    if are_confined(masks, first + i, first + j, digit, both) {
        let lost = masks::digit_mask(digit);
        let one = lose_places(givens, masks, across + a, all_but(i, j), lost);
        let other = lose_places(givens, masks, across + b, all_but(i, j), lost);
        return one | other;
    }
    false
}
