// Pointing and Claiming, two of the wide passes (module 8; document 02, F-5), over lent givens and masks. Nothing is asked of either: the contracts hold for any of them. Where the caller has the masks in lanes already, `pointing_lanes` and `claiming_lanes` use these and leave them laid.
// Both are one step over a unit and those that meet it: Pointing a box and its six lines, Claiming a line and its three boxes.
#![tactic(auto)]

ghost use Rattle.std.specs.Prelude.{◌≡◌, cond, [], ◌∷◌, ◌<◌};
ghost use Rattle.steps.specs.Loops.{each, for};
ghost use Rattle.steps.specs.Passes.{pass, instances, Pointing, Claiming};
ghost use Rattle.steps.specs.StepLists.{step_bytes};
ghost use Rattle.steps.specs.code.Logs.{noted, log_after};
ghost use Rattle.cells.specs.code.Meets.{meetings, meet_turn};
ghost use Rattle.cells.specs.code.Places.{all_masks, held_places};
ghost use Rattle.locked.specs.code.Locked.{met_instance, digit_instances, unit_instances, locked_digit, locked_unit, units_of, DigitSkips};

mod rests;

use candidates::masks;
use cells::meets::{lose_met, meetings, met_unit};
use cells::notes::note;
use cells::{all_masks, places_of};
use lanes::{LaidGivens, LaidMasks, lay};

// Claiming is noted of a line, Pointing of a box.
fn note_met(log: &mut [u8], unit: usize, digit: usize, nth: usize)
    requires { (unit < 27) × (digit < 9) × (nth < meetings unit) }
    ensures { log.new ≡ noted (step_bytes (met_instance unit digit nth)) log.old }
{
    if unit < 18 {
        note(log, 4, unit, digit + 1, met_unit(unit, nth), 0, 0);
    } else {
        note(log, 3, unit, digit + 1, met_unit(unit, nth), 0, 0);
    }
}

// One instance. `held` are the places of the unit that hold the digit.
fn locked_at(
    givens: &[u8; 81],
    masks: &mut [u16; 81],
    log: &mut [u8],
    unit: usize,
    digit: usize,
    held: u16,
    nth: usize,
)
    requires { (unit < 27) × (digit < 9) × (nth < meetings unit) × (held ≡ held_places masks.old unit digit) }
    ensures masks_after { masks.new ≡ meet_turn givens.now unit digit held nth masks.old }
    ensures log_after { log.new ≡ log_after givens.now (met_instance unit digit nth ∷ []) masks.old log.old }
{
    if lose_met(givens, masks, unit, digit, held, nth) {
        note_met(log, unit, digit, nth);
    }
}

// The instances of a digit. None of them changes which places of the unit hold it.
fn locked_digit(
    givens: &[u8; 81],
    masks: &mut [u16; 81],
    log: &mut [u8],
    unit: usize,
    digit: usize,
    held: u16,
)
    requires { (unit < 27) × (digit < 9) × (held ≡ held_places masks.old unit digit) }
    ensures masks_after { masks.new ≡ locked_digit givens.now unit digit masks.old }
    ensures log_after { log.new ≡ log_after givens.now (digit_instances unit digit) masks.old log.old }
{
    for nth in 0..meetings(unit) {
        locked_at(givens, masks, log, unit, digit, held, nth);
    }
}

// The due instances of a unit, whose masks are `nine`. Which digits are due, and where the unit holds them, is asked once, since the instances of a digit change no other.
fn locked_unit(
    givens: &[u8; 81],
    masks: &mut [u16; 81],
    log: &mut [u8],
    nine: &[u16; 9],
    unit: usize,
    due: u16,
)
    requires { (unit < 27) × (nine.now ≡ all_masks masks.old unit) × DigitSkips givens.now masks.old unit due }
    ensures masks_after { masks.new ≡ locked_unit givens.now unit masks.old }
    ensures log_after { log.new ≡ log_after givens.now (unit_instances unit) masks.old log.old }
{
    for digit in 0..9 {
        if masks::has_digit(due, digit) {
            let held = places_of(nine, digit);
            locked_digit(givens, masks, log, unit, digit, held);
        }
    }
}

// The unit after the boxes, or after the lines.
fn end_of(boxes: bool) -> usize
    ensures { result ≡ cond boxes 27 18 }
{
    if boxes {
        return 27;
    }
    18
}

// The instances of the boxes, or of the lines. The units before the first of which anything is due are passed over; from there on each is asked anew, since a loss at one may make others due.
fn locked_lanes(givens: &LaidGivens, laid: &mut LaidMasks, log: &mut [u8], boxes: bool)
    ensures masks_after { laid.new.masks ≡ each (locked_unit givens.now.cells) (units_of boxes) laid.old.masks }
    ensures log_after { log.new ≡ log_after givens.now.cells (for (units_of boxes) unit_instances) laid.old.masks log.old }
{
    let mut rests = [0u16; 288];
    rests::put_rests(&laid.lanes, &givens.doors, &mut rests, boxes);
    let start = rests::first_due(&rests, boxes);
    let end = end_of(boxes);
    if end <= start {
        return;
    }
    let masks = &mut laid.masks;
    for unit in start..end {
        let nine = all_masks(masks, unit);
        let due = rests::due_now(&nine, &mut rests, unit);
        if due != 0 {
            locked_unit(&givens.cells, masks, log, &nine, unit, due);
        }
    }
    lay(masks, &mut laid.lanes);
}

// Pointing, over masks that stand in lanes.
pub fn pointing_lanes(givens: &LaidGivens, laid: &mut LaidMasks, log: &mut [u8])
    ensures masks_after { laid.new.masks ≡ pass givens.now.cells Pointing laid.old.masks }
    ensures log_after { log.new ≡ log_after givens.now.cells (instances Pointing) laid.old.masks log.old }
{
    locked_lanes(givens, laid, log, true);
}

// Claiming, likewise.
pub fn claiming_lanes(givens: &LaidGivens, laid: &mut LaidMasks, log: &mut [u8])
    ensures masks_after { laid.new.masks ≡ pass givens.now.cells Claiming laid.old.masks }
    ensures log_after { log.new ≡ log_after givens.now.cells (instances Claiming) laid.old.masks log.old }
{
    locked_lanes(givens, laid, log, false);
}

// Pointing: all cells of a box that hold d are on one line: the line's cells outside the box lose d.
pub fn pointing(givens: &[u8; 81], masks: &mut [u16; 81])
    ensures { masks.new ≡ pass givens.now Pointing masks.old }
{
    let mut laid = LaidMasks::of(masks);
    pointing_lanes(&LaidGivens::of(givens), &mut laid, &mut []);
    *masks = laid.masks;
}

// Claiming: all cells of a row or column that hold d are in one box: the other cells of that box lose d.
pub fn claiming(givens: &[u8; 81], masks: &mut [u16; 81])
    ensures { masks.new ≡ pass givens.now Claiming masks.old }
{
    let mut laid = LaidMasks::of(masks);
    claiming_lanes(&LaidGivens::of(givens), &mut laid, &mut []);
    *masks = laid.masks;
}
