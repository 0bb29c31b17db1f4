// What each unit holds outside the places that it shares with another, read off the lanes: the rests. A line shares three thirds with its boxes, a box six with its lines.
// Where a line and a box meet, a digit that the rest of one holds and the rest of the other does not is due: what the one holds of it outside the other is lost.
// The nth rest of lane l stands at 48 n + l. Of the units that may lose, open cells count alone.
ghost use Rattle.std.specs.Prelude.{◌≡◌, cond, unwrap_or, ◌+◌, ◌*◌, ◌≤◌, ◌<◌};
ghost use Rattle.locked.specs.code.Rests.{loose_masks, nine_of, put_rest, put_lane, put_lanes, put_rests, renewed, due_three, row_due, col_due, box_due, unit_due, nine_due, NoneIn, NoneDue};

use candidates::masks;
use cells::meets::met_places;
use cells::unions::{join_all, join_places};
use lanes::lane_masks;

// The masks of a lane's open cells, and nothing for the others; `doors` are those of the givens, in lanes.
fn loose_masks(lanes: &[u16; 432], doors: &[u16; 432], lane: usize) -> [u16; 9]
    requires { lane < 48 }
    ensures { result ≡ loose_masks lanes.now doors.now lane }
{
    let mut nine = [0u16; 9];
    for (place, held) in nine.iter_mut().enumerate() {
        *held = masks::meet(lanes[48 * place + lane], doors[48 * place + lane]);
    }
    nine
}

fn nine_of(lanes: &[u16; 432], doors: &[u16; 432], loose: bool, lane: usize) -> [u16; 9]
    requires { lane < 48 }
    ensures { result ≡ nine_of lanes.now doors.now loose lane }
{
    if loose {
        return loose_masks(lanes, doors, lane);
    }
    lane_masks(lanes, lane)
}

fn put_rest(nine: &[u16; 9], rests: &mut [u16; 288], lane: usize, nth: usize)
    requires { (lane < 48) × (nth < 6) }
    ensures { rests.new ≡ put_rest nine.now lane nth rests.old }
{
    let rest = join_places(nine, masks::lose(511, met_places(nth)));
    rests[48 * nth + lane] = rest;
}

// The first rests of a lane. How many is known where it is called, so that the compiler writes them out.
fn put_lane<const COUNT: usize>(nine: &[u16; 9], rests: &mut [u16; 288], lane: usize)
    requires { (lane < 48) × (COUNT ≤ 6) }
    ensures { rests.new ≡ put_lane nine.now COUNT lane rests.old }
{
    for nth in 0..COUNT {
        put_rest(nine, rests, lane, nth);
    }
}

// Those of the lanes from the first to before the end.
fn put_lanes<const COUNT: usize, const FIRST: usize, const END: usize>(
    lanes: &[u16; 432],
    doors: &[u16; 432],
    rests: &mut [u16; 288],
    loose: bool,
)
    requires { (COUNT ≤ 6) × (FIRST ≤ END) × (END ≤ 48) }
    ensures { rests.new ≡ put_lanes lanes.now doors.now loose COUNT FIRST END rests.old }
{
    for lane in FIRST..END {
        let nine = nine_of(lanes, doors, loose, lane);
        put_lane::<COUNT>(&nine, rests, lane);
    }
}

// The rests for a pass by boxes, where lines lose, or for one by lines, where boxes lose.
pub fn put_rests(lanes: &[u16; 432], doors: &[u16; 432], rests: &mut [u16; 288], boxes: bool)
    ensures { rests.new ≡ put_rests lanes.now doors.now boxes rests.old }
{
    put_lanes::<3, 0, 32>(lanes, doors, rests, boxes);
    put_lanes::<6, 32, 48>(lanes, doors, rests, !boxes);
}

// What is due where a unit meets three others: its own rests stand from `here` on, theirs from `across` on.
fn due_three(rests: &[u16; 288], here: usize, across: usize, step: usize) -> u16
    requires { (here + 96 < 288) × (across + 2 * step < 288) }
    ensures { result ≡ due_three rests.now here across step }
{
    let first = masks::lose(rests[across], rests[here]);
    let second = masks::lose(rests[across + step], rests[here + 48]);
    let third = masks::lose(rests[across + 2 * step], rests[here + 96]);
    masks::join(masks::join(first, second), third)
}

fn row_due(rests: &[u16; 288], row: usize) -> u16
    requires { row < 9 }
    ensures { result ≡ row_due rests.now row }
{
    due_three(rests, row, 48 * (row % 3) + 32 + 3 * (row / 3), 1)
}

fn col_due(rests: &[u16; 288], col: usize) -> u16
    requires { col < 9 }
    ensures { result ≡ col_due rests.now col }
{
    due_three(rests, 16 + col, 48 * (3 + col % 3) + 32 + col / 3, 3)
}

// A box is called `block`, since `box` is a word of the language.
fn box_due(rests: &[u16; 288], block: usize) -> u16
    requires { block < 9 }
    ensures { result ≡ box_due rests.now block }
{
    let rows = due_three(rests, 32 + block, 48 * (block % 3) + 3 * (block / 3), 1);
    let cols = due_three(
        rests,
        176 + block,
        48 * (block / 3) + 16 + 3 * (block % 3),
        1,
    );
    masks::join(rows, cols)
}

// The digits of a unit whose instances may lose anything.
fn due_digits(rests: &[u16; 288], unit: usize) -> u16
    requires { unit < 27 }
    ensures { result ≡ unit_due rests.now unit }
{
    if unit < 9 {
        return row_due(rests, unit);
    }
    if unit < 18 {
        return col_due(rests, unit - 9);
    }
    box_due(rests, unit - 18)
}

// What is due of nine units, from the first one on.
fn nine_due(rests: &[u16; 288], first: usize) -> [u16; 9]
    requires { first ≤ 18 }
    ensures { result ≡ nine_due rests.now first }
{
    let mut due = [0u16; 9];
    for (nth, digits) in due.iter_mut().enumerate() {
        *digits = due_digits(rests, first + nth);
    }
    due
}

// The first of nine sets that holds anything. Whether one does is asked of all at once.
fn first_some(sets: &[u16; 9]) -> Option<usize>
    ensures { NoneIn sets.now (unwrap_or result 9) }
{
    if join_all(sets) == 0 {
        return None;
    }
    sets.iter().position(|set| *set != 0)
}

// The first of the boxes, or of the lines, of which anything is due; the unit after them where nothing is.
pub fn first_due(rests: &[u16; 288], boxes: bool) -> usize
    ensures { NoneDue rests.now (cond boxes 18 0) result }
{
    if boxes {
        let due = nine_due(rests, 18);
        return 18 + first_some(&due).unwrap_or(9);
    }
    let rows = nine_due(rests, 0);
    if let Some(row) = first_some(&rows) {
        return row;
    }
    let cols = nine_due(rests, 9);
    9 + first_some(&cols).unwrap_or(9)
}

// The unit's own rests anew, from its masks.
fn renew(own: &[u16; 9], rests: &mut [u16; 288], unit: usize)
    requires { unit < 27 }
    ensures { rests.new ≡ renewed own.now unit rests.old }
{
    let lane = 16 * (unit / 9) + unit % 9;
    if 18 <= unit {
        put_lane::<6>(own, rests, lane);
    } else {
        put_lane::<3>(own, rests, lane);
    }
}

// What is due of a unit, its own rests taken anew from its masks. What the others hold only shrinks, so that their rests still tell all that may be due.
pub fn due_now(own: &[u16; 9], rests: &mut [u16; 288], unit: usize) -> u16
    requires { unit < 27 }
    ensures rests_after { rests.new ≡ renewed own.now unit rests.old }
    ensures value { result ≡ unit_due rests.new unit }
{
    renew(own, rests, unit);
    due_digits(rests, unit)
}
