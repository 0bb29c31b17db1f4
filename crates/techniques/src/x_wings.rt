// X-wing (module 5): two lines that hold a digit at the same two places and no others; the two lines across lose it everywhere else.
// The lines are the rows and those across the columns; then rows and columns are exchanged.
ghost use Rattle.std.specs.Prelude.{◌≡◌, ◌<◌};
ghost use Rattle.steps.specs.Loops.{each, up_to};
ghost use Rattle.steps.specs.Ported.{x_wings};
ghost use Rattle.techniques.specs.code.XWings.{lines_from, across_from, wing_at, wings_from, wings_in, wing_digit, twice_of, twice_sets, spots_where, two_spots};

use candidates::masks;
use cells::unions::shared;
use cells::{all_but, lose_places, places_of, unit_masks};

// Which units the lines are; the others lie across.
#[derive(Clone, Copy)]
enum Lines {
    Rows,
    Columns,
}

// Units as grid numbers them: rows from 0, columns from 9.
impl Lines {
    // The unit of the first line.
    fn first(self) -> usize
        ensures { result ≡ lines_from self }
    {
        match self {
            Lines::Rows => 0,
            Lines::Columns => 9,
        }
    }

    // The unit of the first line across.
    fn across(self) -> usize
        ensures { result ≡ across_from self }
    {
        match self {
            Lines::Rows => 9,
            Lines::Columns => 0,
        }
    }
}

// Two lines with their places, the first with two of them.
fn wing_at(
    givens: &[u8; 81],
    masks: &mut [u16; 81],
    lines: Lines,
    digit: usize,
    first: usize,
    second: usize,
    spots: u16,
    others: u16,
)
    ensures { masks.new ≡ wing_at givens.now lines digit first second spots others masks.old }
{
    if spots == others {
        let across = lines.across();
        let rest = all_but(first, second);
        let lost = masks::digit_mask(digit);
        lose_places(
            givens,
            masks,
            across + masks::lowest_digit(spots),
            rest,
            lost,
        );
        lose_places(
            givens,
            masks,
            across + masks::lowest_digit(masks::lose_lowest(spots)),
            rest,
            lost,
        );
    }
}

fn wings_from(
    givens: &[u8; 81],
    masks: &mut [u16; 81],
    lines: Lines,
    digit: usize,
    list: &[u16; 9],
    first: usize,
)
    requires { first < 9 }
    ensures { masks.new ≡ wings_from givens.now lines digit list.now first masks.old }
{
    let spots = list[first];
    if !masks::is_two(spots) {
        return;
    }
    for second in first + 1..9 {
        wing_at(
            givens,
            masks,
            lines,
            digit,
            first,
            second,
            spots,
            list[second],
        );
    }
}

// The digits that just two of the masks hold.
fn held_twice(nine: &[u16; 9]) -> u16
    ensures { result ≡ twice_of nine.now }
{
    let mut once: u16 = 0;
    let mut twice: u16 = 0;
    let mut more: u16 = 0;
    for &mask in nine {
        more = masks::join(more, masks::meet(twice, mask));
        twice = masks::join(twice, masks::meet(once, mask));
        once = masks::join(once, mask);
    }
    masks::lose(twice, more)
}

// For each line the digits that it holds at just two places.
fn twice_sets(givens: &[u8; 81], masks: &[u16; 81], lines: Lines) -> [u16; 9]
    ensures { result ≡ twice_sets givens.now masks.now lines }
{
    let first = lines.first();
    let mut sets = [0u16; 9];
    for line in 0..9 {
        let nine = unit_masks(givens, masks, first + line);
        sets[line] = held_twice(&nine);
    }
    sets
}

// The places of a line that hold the digit, if its set has that.
fn spots_where(givens: &[u8; 81], masks: &[u16; 81], unit: usize, digit: usize, set: u16) -> u16
    ensures { result ≡ spots_where givens.now masks.now unit digit set }
{
    if masks::has_digit(set, digit) {
        let nine = unit_masks(givens, masks, unit);
        return places_of(&nine, digit);
    }
    0
}

// The same for each line.
fn two_spots(
    givens: &[u8; 81],
    masks: &[u16; 81],
    lines: Lines,
    digit: usize,
    sets: &[u16; 9],
) -> [u16; 9]
    ensures { result ≡ two_spots givens.now masks.now lines digit sets.now }
{
    let first = lines.first();
    let mut list = [0u16; 9];
    for line in 0..9 {
        list[line] = spots_where(givens, masks, first + line, digit, sets[line]);
    }
    list
}

// The list is made once, at the digit's start.
fn wing_digit(givens: &[u8; 81], masks: &mut [u16; 81], lines: Lines, digit: usize, sets: &[u16; 9])
    ensures { masks.new ≡ wings_in givens.now lines digit (two_spots givens.now masks.old lines digit sets.now) masks.old }
{
    let list = two_spots(givens, masks, lines, digit, sets);
    for first in 0..9 {
        wings_from(givens, masks, lines, digit, &list, first);
    }
}

// A digit that no two lines hold at just two places is passed over. The sets are made once, since the X-wings of a digit change no other.
fn wings_in(givens: &[u8; 81], masks: &mut [u16; 81], lines: Lines)
    ensures { masks.new ≡ each (wing_digit givens.now lines) (up_to 9) masks.old }
{
    let sets = twice_sets(givens, masks, lines);
    let due = shared(&sets);
    for digit in 0..9 {
        if masks::has_digit(due, digit) {
            wing_digit(givens, masks, lines, digit, &sets);
        }
    }
}

pub fn x_wings(givens: &[u8; 81], masks: &mut [u16; 81])
    ensures { masks.new ≡ x_wings givens.now masks.old }
{
    wings_in(givens, masks, Lines::Rows);
    wings_in(givens, masks, Lines::Columns);
}
