// The search of a frame for two lines that make the others lose anything. The lines are kept beside the board, as nine sets of places: they tell which two lines are to be asked, and lose what the board loses.
ghost use Rattle.std.specs.Prelude.{◌≡◌, ◌&&◌, ◌||◌, not, ◌<◌, eqb, set};
ghost use Rattle.steps.specs.Loops.{each, above};
ghost use Rattle.steps.specs.code.Logs.{log_after};
ghost use Rattle.lanes.specs.code.Lanes.{doors_of, nines};
ghost use Rattle.pair_cross.specs.code.Twos.{Framed, line_masks, lines_taken, frame_taken, lines_instances, line_instances, frame_instances};
ghost use Rattle.pair_cross.specs.code.Lively.{small, lone};
ghost use Rattle.pair_cross.specs.code.Search.{heat_of, open_held, lines_left, Seen};

use crate::lively::{any_hot, tally_of};
use crate::twos::{Frame, reach, two_lines};
use candidates::masks;

// All places, if any of nine lines is hot.
fn heat_of(held: &[u16; 9]) -> u16
    ensures { result ≡ heat_of held.now }
{
    let tally = tally_of(held);
    any_hot(held, tally.twice)
}

// The doors of the lines other than two.
fn other_doors(doors: &[u16; 9], i: usize, j: usize) -> [u16; 9]
    requires { (i < 9) × (j < 9) }
    ensures { result ≡ set (set doors.now i 0) j 0 }
{
    let mut rest = *doors;
    rest[i] = 0;
    rest[j] = 0;
    rest
}

// What the lines hold where their doors are open.
fn open_held(held: &[u16; 9], doors: &[u16; 9]) -> u16
    ensures { result ≡ open_held held.now doors.now }
{
    let mut found: u16 = 0;
    for line in 0..9 {
        found = masks::join(found, masks::meet(held[line], doors[line]));
    }
    found
}

// The lines without these places where their doors are open.
fn lines_left(held: &[u16; 9], doors: &[u16; 9], lost: u16) -> [u16; 9]
    ensures { result ≡ lines_left held.now doors.now lost }
{
    let mut left = [0u16; 9];
    for (line, places) in left.iter_mut().enumerate() {
        *places = masks::lose(held[line], masks::meet(doors[line], lost));
    }
    left
}

// The instances of two lines, where the open cells of the others hold any place that they can lose.
fn two_turn(
    givens: &[u8; 81],
    masks: &mut [u16; 81],
    log: &mut [u8],
    frame: Frame,
    doors: &[u16; 9],
    held: &mut [u16; 9],
    heat: u16,
    i: usize,
    j: usize,
) -> u16
    requires { Seen givens.now masks.old frame doors.now held.old heat × (i < j) × (j < 9) }
    ensures masks_after { masks.new ≡ lines_taken givens.now frame i j masks.old }
    ensures seen { Seen givens.now masks.new frame doors.now held.new result }
    ensures log_after { log.new ≡ log_after givens.now (lines_instances frame i j) masks.old log.old }
{
    let two = masks::join(held[i], held[j]);
    let lost = reach(two);
    if lost == 0 {
        return heat;
    }
    let rest = other_doors(doors, i, j);
    if masks::meet(open_held(held, &rest), lost) == 0 {
        return heat;
    }
    two_lines(givens, masks, log, frame, i, j, two);
    let left = lines_left(held, &rest, lost);
    *held = left;
    heat_of(&left)
}

// Whether two lines are to be asked: others lose nothing to two that differ, unless a line is hot.
fn asks(x: u16, y: u16, heat: u16) -> bool
    ensures { result ≡ (not (eqb heat 0) || eqb x y) }
{
    if heat == 0 {
        return x == y;
    }
    true
}

// The instances of a line and those above it.
fn line_turns(
    givens: &[u8; 81],
    masks: &mut [u16; 81],
    log: &mut [u8],
    frame: Frame,
    doors: &[u16; 9],
    held: &mut [u16; 9],
    start: u16,
    i: usize,
) -> u16
    requires { Seen givens.now masks.old frame doors.now held.old start × (i < 9) }
    ensures masks_after { masks.new ≡ each (lines_taken givens.now frame i) (above i 9) masks.old }
    ensures seen { Seen givens.now masks.new frame doors.now held.new result }
    ensures log_after { log.new ≡ log_after givens.now (line_instances frame i) masks.old log.old }
{
    let mut heat = start;
    for j in i + 1..9 {
        if asks(held[i], held[j], heat) {
            heat = two_turn(givens, masks, log, frame, doors, held, heat, i, j);
        }
    }
    heat
}

// Whether a line is to be asked with those above it: it has two places, or fewer while a line is hot.
fn leads(held: u16, heat: u16) -> bool
    ensures { result ≡ (small held && (not (eqb heat 0) || not (lone held))) }
{
    let rest = masks::lose_lowest(held);
    if masks::lose_lowest(rest) == 0 {
        if heat == 0 {
            return rest != 0;
        }
        return true;
    }
    false
}

// The instances of a frame, where its lines hold `start`, and their open cells any of `doors`.
pub fn two_frame(
    givens: &[u8; 81],
    masks: &mut [u16; 81],
    log: &mut [u8],
    frame: Frame,
    doors: &[u16; 9],
    start: [u16; 9],
)
    requires { Framed frame × (doors.now ≡ nines (line_masks (doors_of givens.now) frame)) × (start ≡ nines (line_masks masks.old frame)) }
    ensures masks_after { masks.new ≡ frame_taken givens.now frame masks.old }
    ensures log_after { log.new ≡ log_after givens.now (frame_instances frame) masks.old log.old }
{
    let mut held = start;
    let mut heat = heat_of(&held);
    for i in 0..9 {
        if leads(held[i], heat) {
            heat = line_turns(givens, masks, log, frame, doors, &mut held, heat, i);
        }
    }
}
