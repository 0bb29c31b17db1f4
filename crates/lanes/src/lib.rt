// The masks of a board in lanes: each stands three times, in the lane of its row, of its column and of its box, so that a test of one lane in a loop over sixteen is a test of sixteen units at once.
// Place i of lane l stands at 48 i + l; the rows are lanes 0 to 8, the columns 16 to 24, the boxes 32 to 40, and the other lanes hold nothing. A lane has the nine digits of a mask and no higher bits.
#![tactic(auto)]

ghost use Rattle.std.specs.Prelude.{◌≡◌, ◌+◌, ◌*◌, ◌<◌, ◌≤◌};
ghost use Rattle.std.specs.Int.Bits.{bit_and};
ghost use Rattle.steps.specs.Boards.{at};
ghost use Rattle.lanes.specs.code.Lanes.{Laid, laid, Partly, put_at, doors_of, loose_of, loose_sets, joined_sets, lane_masks};

use candidates::masks;
use cells::door;
use grid::{col_of, row_of};

// The mask of a cell, at its three places.
fn put(lanes: &mut [u16; 432], row: usize, col: usize, mask: u16)
    requires { (row < 9) × (col < 9) }
    ensures { lanes.new ≡ put_at (9 * row + col) (bit_and mask 511) lanes.old }
{
    let nine = masks::meet(mask, 511);
    lanes[48 * col + row] = nine;
    lanes[48 * row + 16 + col] = nine;
    lanes[48 * (3 * (row % 3) + col % 3) + 32 + 3 * (row / 3) + col / 3] = nine;
}

// The mask of one cell takes the place of the one that stood there.
pub fn lay_cell(masks: &[u16; 81], lanes: &mut [u16; 432], cell: usize)
    requires { cell < 81 }
    ensures { lanes.new ≡ put_at cell (bit_and (at masks.now cell) 511) lanes.old }
{
    put(lanes, row_of(cell), col_of(cell), masks[cell]);
}

fn put_row(masks: &[u16; 81], lanes: &mut [u16; 432], row: usize)
    requires { (row < 9) × Partly masks.now (9 * row) lanes.old }
    ensures { Partly masks.now (9 * row + 9) lanes.new }
{
    for col in 0..9 {
        put(lanes, row, col, masks[9 * row + col]);
    }
}

// The masks take the place of those that the lanes were of.
pub fn lay(masks: &[u16; 81], lanes: &mut [u16; 432])
    requires { Laid lanes.old }
    ensures { lanes.new ≡ laid masks.now }
{
    for row in 0..9 {
        put_row(masks, lanes, row);
    }
}

// Masks, and the lanes in which they stand.
#[derive(Drop)]
pub struct LaidMasks {
    pub masks: [u16; 81],
    pub lanes: [u16; 432],
    pub ghost in_lanes: { lanes ≡ laid masks },
}

impl LaidMasks {
    pub fn of(masks: &[u16; 81]) -> LaidMasks
        ensures { result.masks ≡ masks.now }
    {
        let mut laid = LaidMasks {
            masks: *masks,
            lanes: [0; 432],
        };
        lay(masks, &mut laid.lanes);
        laid
    }
}

// The nine masks of a lane.
pub fn lane_masks(lanes: &[u16; 432], lane: usize) -> [u16; 9]
    requires { lane < 48 }
    ensures { result ≡ lane_masks lanes.now lane }
{
    let mut nine = [0u16; 9];
    for (place, mask) in nine.iter_mut().enumerate() {
        *mask = lanes[48 * place + lane];
    }
    nine
}

// All digits where the cell is open, none where it is not.
fn doors(givens: &[u8; 81]) -> [u16; 81]
    ensures { result ≡ doors_of givens.now }
{
    let mut all = [0u16; 81];
    for (cell, given) in givens.iter().enumerate() {
        all[cell] = door(*given);
    }
    all
}

// The givens of a board, and the lanes in which their doors stand.
#[derive(Drop)]
pub struct LaidGivens {
    pub cells: [u8; 81],
    pub doors: [u16; 432],
    pub ghost in_lanes: { doors ≡ laid (doors_of cells) },
}

impl LaidGivens {
    pub fn of(givens: &[u8; 81]) -> LaidGivens
        ensures { result.cells ≡ givens.now }
    {
        let mut laid = LaidGivens {
            cells: *givens,
            doors: [0; 432],
        };
        lay(&doors(givens), &mut laid.doors);
        laid
    }
}

// What the open cells of a lane hold; `doors` are those of the givens, in lanes.
fn loose_lane(lanes: &[u16; 432], doors: &[u16; 432], lane: usize) -> u16
    requires { lane < 48 }
    ensures { result ≡ loose_of lanes.now doors.now lane }
{
    let mut held: u16 = 0;
    for place in 0..9 {
        held = masks::join(
            held,
            masks::meet(lanes[48 * place + lane], doors[48 * place + lane]),
        );
    }
    held
}

// What the open cells of each of sixteen lanes hold.
pub fn loose(lanes: &[u16; 432], doors: &[u16; 432], first: usize) -> [u16; 16]
    requires { first ≤ 32 }
    ensures { result ≡ loose_sets lanes.now doors.now first }
{
    let mut sets = [0u16; 16];
    for (nth, set) in sets.iter_mut().enumerate() {
        *set = loose_lane(lanes, doors, first + nth);
    }
    sets
}

// What sixteen sets hold together.
pub fn join_sets(sets: &[u16; 16]) -> u16
    ensures { result ≡ joined_sets sets.now }
{
    let mut held: u16 = 0;
    for set in sets {
        held = masks::join(held, *set);
    }
    held
}
