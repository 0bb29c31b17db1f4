// Lone, by rows, cells and instances. What two cells of a unit hold is found for all lanes at once; a row is passed over where by that no cell of it can take anything from a peer.
ghost use Rattle.std.specs.Prelude.{◌≡◌, [], ◌∷◌, ◌<◌};
ghost use Rattle.steps.specs.Instances.{lone};
ghost use Rattle.steps.specs.Passes.{instances, instance_taken, pass, Lone};
ghost use Rattle.steps.specs.code.Logs.{log_after};
ghost use Rattle.lone_place.specs.code.Turns.{lone_cell, lone_row, cell_lones, row_lones};
ghost use Rattle.lone_place.specs.code.Due.{loose_in, loose_near, lone_held, shared_lanes, near_row, lone_due, due_flag, due_row, Near, NearRow, Covers, Kept};

use crate::losses::lose_peers;
use candidates::masks;
use cells::notes::note;
use cells::unions::{join_all, shared};
use cells::{loose_digits, mask_at, unit_masks};
use grid::{box_of, col_of, row_of};
use lanes::{LaidMasks, lane_masks, lay};

// One instance.
fn lone_at(givens: &[u8; 81], masks: &mut [u16; 81], log: &mut [u8], cell: usize, digit: usize)
    requires { (cell < 81) × (digit < 9) }
    ensures masks_after { masks.new ≡ instance_taken givens.now (lone cell digit) masks.old }
    ensures log_after { log.new ≡ log_after givens.now (lone cell digit ∷ []) masks.old log.old }
{
    let one = masks::digit_mask(digit);
    if masks::is_none(masks::meet(mask_at(masks, cell), masks::lose(511, one))) {
        if lose_peers(givens, masks, cell, one) {
            note(log, 0, cell, digit + 1, 0, 0, 0);
        }
    }
}

// What the open cells of a unit hold.
fn loose_in(givens: &[u8; 81], masks: &[u16; 81], unit: usize) -> u16
    ensures { result ≡ loose_in givens.now masks.now unit }
{
    let nine = unit_masks(givens, masks, unit);
    join_all(&nine)
}

// What the open cells of its row, its column and its box hold.
fn loose_near(givens: &[u8; 81], masks: &[u16; 81], cell: usize) -> u16
    requires { cell < 81 }
    ensures { result ≡ loose_near givens.now masks.now cell }
{
    let row = loose_in(givens, masks, row_of(cell));
    let col = loose_in(givens, masks, 9 + col_of(cell));
    let block = loose_in(givens, masks, 18 + box_of(cell));
    masks::join(masks::join(row, col), block)
}

// The digits whose instances may lose anything, at a cell that holds one digit or none.
fn lone_held(givens: &[u8; 81], masks: &[u16; 81], cell: usize) -> u16
    requires { cell < 81 }
    ensures { result ≡ lone_held givens.now masks.now cell }
{
    let mask = masks::meet(masks[cell], 511);
    if mask == 0 {
        return loose_near(givens, masks, cell);
    }
    mask
}

// The instances of a cell, without those that lose nothing.
fn lone_digits(givens: &[u8; 81], masks: &mut [u16; 81], log: &mut [u8], cell: usize)
    requires { cell < 81 }
    ensures masks_after { masks.new ≡ lone_cell givens.now cell masks.old }
    ensures log_after { log.new ≡ log_after givens.now (cell_lones cell) masks.old log.old }
{
    let held = lone_held(givens, masks, cell);
    for digit in 0..9 {
        if masks::has_digit(held, digit) {
            lone_at(givens, masks, log, cell, digit);
        }
    }
}

// Whether a cell's instances may lose anything: it holds no digit, or one that is among these.
fn lone_due(mask: u16, near: u16) -> bool
    ensures { result ≡ lone_due mask near }
{
    masks::is_none(masks::join(masks::lose_lowest(mask), masks::lose(mask, near)))
}

// The instances of a cell, where every digit that it shares with a peer is among `near`.
fn lone_cell(givens: &[u8; 81], masks: &mut [u16; 81], log: &mut [u8], near: u16, cell: usize)
    requires { (cell < 81) × Near masks.old cell near }
    ensures masks_after { masks.new ≡ lone_cell givens.now cell masks.old }
    ensures log_after { log.new ≡ log_after givens.now (cell_lones cell) masks.old log.old }
{
    if lone_due(masks::meet(masks[cell], 511), near) {
        lone_digits(givens, masks, log, cell);
    }
}

fn lone_row(givens: &[u8; 81], masks: &mut [u16; 81], log: &mut [u8], near: &[u16; 16], row: usize)
    requires { (row < 9) × NearRow masks.old row near.now }
    ensures masks_after { masks.new ≡ lone_row givens.now row masks.old }
    ensures log_after { log.new ≡ log_after givens.now (row_lones row) masks.old log.old }
{
    for nth in 0..9 {
        lone_cell(givens, masks, log, near[nth], 9 * row + nth);
    }
}

// 1 where the cell is due.
fn due_flag(mask: u16, near: u16) -> u16
    ensures { result ≡ due_flag mask near }
{
    u16::from(lone_due(masks::meet(mask, 511), near))
}

// Not 0 where a cell of the row is due.
fn due_row(masks: &[u16; 81], near: &[u16; 16], row: usize) -> u16
    requires { row < 9 }
    ensures { result ≡ due_row masks.now near.now row }
{
    let mut due: u16 = 0;
    for nth in 0..9 {
        due = masks::join(due, due_flag(masks[9 * row + nth], near[nth]));
    }
    due
}

// The digits that two or more cells of each lane hold.
fn shared_lanes(lanes: &[u16; 432]) -> [u16; 48]
    ensures { result ≡ shared_lanes lanes.now }
{
    let mut sets = [0u16; 48];
    for (lane, set) in sets.iter_mut().enumerate() {
        *set = shared(&lane_masks(lanes, lane));
    }
    sets
}

// What two cells of its row, its column or its box hold, for each cell of a row.
fn near_row(sets: &[u16; 48], row: usize) -> [u16; 16]
    requires { row < 9 }
    ensures { result ≡ near_row sets.now row }
{
    let mut near = [0u16; 16];
    for (nth, set) in near.iter_mut().enumerate() {
        let lines = masks::join(sets[row], sets[16 + nth]);
        *set = masks::join(lines, sets[32 + 3 * (row / 3) + nth / 3]);
    }
    near
}

// The rows in which a cell is due; whether there are any. The sets may be of earlier masks, since masks only shrink.
fn lone_rows(givens: &[u8; 81], masks: &mut [u16; 81], log: &mut [u8], sets: &[u16; 48]) -> bool
    requires { Covers sets.now masks.old }
    ensures masks_after { masks.new ≡ pass givens.now Lone masks.old }
    ensures kept { Kept result masks.old masks.new }
    ensures log_after { log.new ≡ log_after givens.now (instances Lone) masks.old log.old }
{
    let mut any = false;
    for row in 0..9 {
        let near = near_row(sets, row);
        if due_row(masks, &near, row) != 0 {
            lone_row(givens, masks, log, &near, row);
            any = true;
        }
    }
    any
}

// Lone. Where no open cell holds anything, as on a dead board, nothing can be lost.
pub fn lone_lanes(givens: &[u8; 81], laid: &mut LaidMasks, log: &mut [u8])
    ensures masks_after { laid.new.masks ≡ pass givens.now Lone laid.old.masks }
    ensures log_after { log.new ≡ log_after givens.now (instances Lone) laid.old.masks log.old }
{
    if loose_digits(givens, &laid.masks) == 0 {
        return;
    }
    let sets = shared_lanes(&laid.lanes);
    if lone_rows(givens, &mut laid.masks, log, &sets) {
        lay(&laid.masks, &mut laid.lanes);
    }
}
