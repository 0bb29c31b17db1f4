// Pair and Cross, which are one: a frame has nine lines of nine places each. Where two of its lines hold nothing outside two places, the other lines lose those.
ghost use Rattle.std.specs.Prelude.{◌≡◌, false, [], ◌∷◌, ◌<◌};
ghost use Rattle.steps.specs.Boards.{at, same_masks};
ghost use Rattle.steps.specs.Passes.{changed};
ghost use Rattle.steps.specs.StepLists.{step_bytes};
ghost use Rattle.steps.specs.code.Logs.{noted, log_after};
ghost use Rattle.pair_cross.specs.code.Twos.{Framed, frame_instance, two_held, reach_of, two_lose, two_turn, lines_turned, lines_instances};

use candidates::masks;
use cells::notes::note;
use cells::{all_but, lose_places};
use grid::unit_cell;

// What the lines and places of a search are.
#[derive(Clone, Copy)]
pub enum Frame {
    // The cells of a unit, and their digits: Pair.
    Unit(usize),
    // Nine rows or columns from the first one, 0 or 9, and in each the places that hold a digit: Cross.
    Lines(usize, usize),
}

// All places that the other lines can lose to two lines that hold these: none of more than two, those two, or any.
pub fn reach(held: u16) -> u16
    ensures { result ≡ reach_of held }
{
    let rest = masks::lose_lowest(held);
    if masks::is_none(rest) {
        return 511;
    }
    if masks::is_none(masks::lose_lowest(rest)) {
        return held;
    }
    0
}

// The other lines lose the places a and b; whether they held any of them.
fn lose_two(
    givens: &[u8; 81],
    masks: &mut [u16; 81],
    frame: Frame,
    i: usize,
    j: usize,
    a: usize,
    b: usize,
) -> bool
    requires { Framed frame × (i < 9) × (j < 9) × (a < 9) × (b < 9) }
    ensures masks_after { masks.new ≡ two_lose givens.now frame i j a b masks.old }
    ensures value { result ≡ changed masks.old masks.new }
{
    let others = all_but(i, j);
    match frame {
        Frame::Unit(unit) => {
            let lost = masks::join(masks::digit_mask(a), masks::digit_mask(b));
            lose_places(givens, masks, unit, others, lost)
        }
        Frame::Lines(first, digit) => {
            let lost = masks::digit_mask(digit);
            let one = lose_places(givens, masks, 9 - first + a, others, lost);
            let other = lose_places(givens, masks, 9 - first + b, others, lost);
            one | other
        }
    }
}

// The step of lines i and j and places a and b: Pair, Cross, or Cross exchanged, whose lines are columns. Where nobody asks for steps, its cells are not worked out.
fn note_two(log: &mut [u8], frame: Frame, i: usize, j: usize, a: usize, b: usize)
    requires { Framed frame × (i < 9) × (j < 9) × (a < 9) × (b < 9) }
    ensures { log.new ≡ noted (step_bytes (frame_instance frame i j a b)) log.old }
{
    if log.len() == 0 {
        return;
    }
    match frame {
        Frame::Unit(unit) => {
            let cell = unit_cell(unit, i);
            let other = unit_cell(unit, j);
            note(log, 2, unit, cell, other, a + 1, b + 1);
        }
        Frame::Lines(first, digit) => {
            if first == 0 {
                note(log, 5, digit + 1, i, j, 9 + a, 9 + b);
            } else {
                note(log, 6, digit + 1, 9 + i, 9 + j, a, b);
            }
        }
    }
}

// One instance, where `held` is what the two lines hold.
fn two_at(
    givens: &[u8; 81],
    masks: &mut [u16; 81],
    log: &mut [u8],
    frame: Frame,
    i: usize,
    j: usize,
    held: u16,
    a: usize,
    b: usize,
)
    requires { Framed frame × (i < 9) × (j < 9) × (a < 9) × (b < 9) × (held ≡ two_held masks.old frame i j) }
    ensures masks_after { masks.new ≡ two_turn givens.now frame i j held a b masks.old }
    ensures log_after { log.new ≡ log_after givens.now (frame_instance frame i j a b ∷ []) masks.old log.old }
{
    if masks::is_none(masks::lose(
        held,
        masks::join(masks::digit_mask(a), masks::digit_mask(b)),
    )) {
        if lose_two(givens, masks, frame, i, j, a, b) {
            note_two(log, frame, i, j, a, b);
        }
    }
}

// The instances of two lines, which lose something. None of them changes what the two hold; where they hold two places, only the instance of those two loses anything.
pub fn two_lines(
    givens: &[u8; 81],
    masks: &mut [u16; 81],
    log: &mut [u8],
    frame: Frame,
    i: usize,
    j: usize,
    held: u16,
)
    requires { Framed frame × (i < 9) × (j < 9) × (held ≡ two_held masks.old frame i j) × (same_masks masks.old (lines_turned givens.now frame i j held masks.old) ≡ false) }
    ensures masks_after { masks.new ≡ lines_turned givens.now frame i j held masks.old }
    ensures log_after { log.new ≡ log_after givens.now (lines_instances frame i j) masks.old log.old }
{
    if masks::is_two(held) {
        let a = masks::lowest_digit(held);
        let b = masks::lowest_digit(masks::lose_lowest(held));
        lose_two(givens, masks, frame, i, j, a, b);
        note_two(log, frame, i, j, a, b);
        return;
    }
    for a in 0..9 {
        for b in a + 1..9 {
            two_at(givens, masks, log, frame, i, j, held, a, b);
        }
    }
}
