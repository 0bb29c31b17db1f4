// The units that meet a unit: the six lines of a box, three rows and then three columns, and the three boxes of a line. A digit that the unit holds in one of them alone is lost by that one's other cells.
// A box is called `block` here, since `box` is a word of the language.
ghost use Rattle.std.specs.Prelude.{◌≡◌};
ghost use Rattle.steps.specs.Passes.{changed};
ghost use Rattle.cells.specs.code.Meets.{meetings, met_places, met_back, outside, box_unit, line_unit, met_unit, meet_turn};

use crate::lose_places;
use candidates::masks;

const MET: [u16; 6] = [7, 56, 448, 73, 146, 292];

// How many they are.
pub fn meetings(unit: usize) -> usize
    ensures { result ≡ meetings unit }
{
    if unit < 18 {
        return 3;
    }
    6
}

// The places of a unit that are in the nth of them.
pub fn met_places(nth: usize) -> u16
    ensures { result ≡ met_places nth }
{
    if nth < 6 {
        return MET[nth];
    }
    0
}

// The way back: the unit's number among those that meet the nth of them.
fn met_back(unit: usize, nth: usize) -> usize
    ensures { result ≡ met_back unit nth }
{
    if unit < 9 {
        return unit % 3;
    }
    if unit < 18 {
        return 3 + unit % 3;
    }
    if nth < 3 {
        return unit % 3;
    }
    (unit - 18) / 3
}

// The places of the nth of them that are outside the unit.
pub fn outside(unit: usize, nth: usize) -> u16
    ensures { result ≡ outside unit nth }
{
    masks::lose(511, met_places(met_back(unit, nth)))
}

// The unit that a box of a line is; 27, which is no unit, past them.
fn box_unit(line: usize, nth: usize) -> usize
    ensures { result ≡ box_unit line nth }
{
    if 3 <= nth {
        return 27;
    }
    if line < 9 {
        return 18 + (3 * (line / 3) + nth);
    }
    18 + (3 * nth + (line - 9) / 3)
}

// The unit that a line of a box is; 27, which is no unit, past them.
fn line_unit(block: usize, nth: usize) -> usize
    ensures { result ≡ line_unit block nth }
{
    if 9 <= block {
        return 27;
    }
    if nth < 3 {
        return 3 * (block / 3) + nth;
    }
    if nth < 6 {
        return 9 + (3 * (block % 3) + (nth - 3));
    }
    27
}

// The nth of them. No `Option`: 27 has no cells, so no caller has a case for it.
pub fn met_unit(unit: usize, nth: usize) -> usize
    ensures { result ≡ met_unit unit nth }
{
    if unit < 18 {
        return box_unit(unit, nth);
    }
    line_unit(unit - 18, nth)
}

// `held` are the places of the unit that hold the digit: where all are in the nth of them, its open cells outside the unit lose the digit; whether they held it.
pub fn lose_met(
    givens: &[u8; 81],
    masks: &mut [u16; 81],
    unit: usize,
    digit: usize,
    held: u16,
    nth: usize,
) -> bool
    ensures masks_after { masks.new ≡ meet_turn givens.now unit digit held nth masks.old }
    ensures value { result ≡ changed masks.old masks.new }
{
    if masks::is_none(masks::lose(held, met_places(nth))) {
        return lose_places(
            givens,
            masks,
            met_unit(unit, nth),
            outside(unit, nth),
            masks::digit_mask(digit),
        );
    }
    false
}
