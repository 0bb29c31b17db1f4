// Where Pair and Cross may lose anything, by a test of one lane in a loop over sixteen: a lane is nine lines, each a set of places. For Pair the lines are the cells of a unit and the places digits.
// For Cross the lines are rows or columns, and the places those that hold a digit.
ghost use Rattle.std.specs.Prelude.{◌≡◌, cond, ◌<◌, ◌≤◌};
ghost use Rattle.steps.specs.Boards.{at};
ghost use Rattle.lanes.specs.code.Lanes.{lane_masks};
ghost use Rattle.pair_cross.specs.code.Lively.{tally_of, hot, pick, twin, twins_above, twins, any_hot, lively_of, lively_sets};

use candidates::masks;
use lanes::lane_masks;

// The places that at least one, two and three lines hold.
#[derive(Clone, Copy)]
pub struct Tally {
    pub once: u16,
    pub twice: u16,
    pub thrice: u16,
}

pub fn tally_of(nine: &[u16; 9]) -> Tally
    ensures { result ≡ tally_of (at nine.now) }
{
    let mut once: u16 = 0;
    let mut twice: u16 = 0;
    let mut thrice: u16 = 0;
    for held in nine {
        thrice = masks::join(thrice, masks::meet(twice, *held));
        twice = masks::join(twice, masks::meet(once, *held));
        once = masks::join(once, *held);
    }
    Tally {
        once,
        twice,
        thrice,
    }
}

// A line of at most two places; none of another.
fn few(held: u16) -> u16
    ensures { result ≡ pick held }
{
    if masks::lose_lowest(masks::lose_lowest(held)) == 0 {
        return held;
    }
    0
}

fn same(held: u16, other: u16) -> u16
    ensures { result ≡ twin held other }
{
    if held == other {
        return held;
    }
    0
}

// All places, if the line has at most one place, which another line holds too.
fn heat(held: u16, twice: u16) -> u16
    ensures { result ≡ cond (hot held twice) 511 0 }
{
    if masks::join(masks::lose_lowest(held), masks::lose(held, twice)) == 0 {
        return 511;
    }
    0
}

// All places, if any of nine lines is hot.
pub fn any_hot(nine: &[u16; 9], twice: u16) -> u16
    ensures { result ≡ any_hot (at nine.now) twice }
{
    let mut any: u16 = 0;
    for held in nine {
        any = masks::join(any, heat(*held, twice));
    }
    any
}

// What a line of at most two places holds that a line above is equal to.
fn same_above(lines: &[u16; 9], line: usize) -> u16
    requires { line < 9 }
    ensures { result ≡ twins_above (at lines.now) line }
{
    let held = few(lines[line]);
    let mut found: u16 = 0;
    for other in line + 1..9 {
        found = masks::join(found, same(held, lines[other]));
    }
    found
}

// What two equal lines of at most two places hold.
fn two_same(lines: &[u16; 9]) -> u16
    ensures { result ≡ twins (at lines.now) }
{
    let mut found: u16 = 0;
    for line in 0..8 {
        found = masks::join(found, same_above(lines, line));
    }
    found
}

// Nothing only if no two lines make the others lose anything of the places that can be lost, `free`.
fn lively(lanes: &[u16; 432], lane: usize, free: u16) -> u16
    requires { lane < 48 }
    ensures { result ≡ lively_of (at (lane_masks lanes.now lane)) free }
{
    let nine = lane_masks(lanes, lane);
    let tally = tally_of(&nine);
    let any = any_hot(&nine, tally.twice);
    let twins = two_same(&nine);
    masks::meet(
        masks::join(
            masks::meet(any, tally.once),
            masks::meet(twins, tally.thrice),
        ),
        free,
    )
}

pub fn lively_lanes(lanes: &[u16; 432], free: &[u16; 16], first: usize) -> [u16; 16]
    requires { first ≤ 32 }
    ensures { result ≡ lively_sets lanes.now free.now first }
{
    let mut sets = [0u16; 16];
    for (nth, set) in sets.iter_mut().enumerate() {
        *set = lively(lanes, first + nth, free[nth]);
    }
    sets
}
