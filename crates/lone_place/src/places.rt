// Place, by units, digits and instances. What a unit holds is read off its lane, which takes each mask that loses something.
ghost use Rattle.std.specs.Prelude.{◌≡◌, cond, [], ◌∷◌, ◌<◌, ◌≤◌, eqb};
ghost use Rattle.candidates.specs.Masks.{minus, single};
ghost use Rattle.steps.specs.Instances as named;
ghost use Rattle.steps.specs.Passes.{instances, instance_taken, pass, Place};
ghost use Rattle.steps.specs.code.Logs.{log_after};
ghost use Rattle.cells.specs.code.Places.{held_places};
ghost use Rattle.lone_place.specs.code.Turns.{place_digit, place_unit, digit_places, unit_places, family_places};
ghost use Rattle.lanes.specs.code.Lanes.{lane_masks, lane_of};
ghost use Rattle.lone_place.specs.code.Due.{turns_of, due_of, place_due, place_sets, place_family, Spares, PlaceSpares};

use candidates::masks;
use cells::notes::note;
use cells::unions::{join_all, several, shared};
use cells::{lose_at, places_of};
use grid::unit_cell;
use lanes::{LaidGivens, LaidMasks, join_sets, lane_masks, lay_cell, loose};

// One instance that passes its test: the cell at this place alone may hold the digit.
fn place_at(
    givens: &[u8; 81],
    laid: &mut LaidMasks,
    log: &mut [u8],
    unit: usize,
    digit: usize,
    place: usize,
)
    requires { (unit < 27) × (digit < 9) × (place < 9) × (minus (held_places laid.old.masks unit digit) (single place) ≡ 0) }
    ensures masks_after { laid.new.masks ≡ instance_taken givens.now (named.place unit digit place) laid.old.masks }
    ensures log_after { log.new ≡ log_after givens.now (named.place unit digit place ∷ []) laid.old.masks log.old }
{
    let others = masks::lose(511, masks::digit_mask(digit));
    let cell = unit_cell(unit, place);
    if lose_at(givens, &mut laid.masks, cell, others) {
        lay_cell(&laid.masks, &mut laid.lanes, cell);
        note(log, 1, unit, digit + 1, cell, 0, 0);
    }
}

// The masks of a unit, clue cells too, off its lane.
fn unit_lane(lanes: &[u16; 432], unit: usize) -> [u16; 9]
    requires { unit < 27 }
    ensures { result ≡ lane_masks lanes.now (lane_of unit) }
{
    lane_masks(lanes, 16 * (unit / 9) + unit % 9)
}

// The places of a unit that hold the digit.
fn held_in(laid: &LaidMasks, unit: usize, digit: usize) -> u16
    requires { (unit < 27) × (digit < 9) }
    ensures { result ≡ held_places laid.now.masks unit digit }
{
    let nine = unit_lane(&laid.lanes, unit);
    places_of(&nine, digit)
}

// The places whose instances pass their test: all of them where none holds the digit, else the one that alone holds it.
fn turns_of(held: u16) -> u16
    requires { held < 512 }
    ensures { result ≡ turns_of held }
{
    if held == 0 {
        return 511;
    }
    if masks::is_one(held) {
        return held;
    }
    0
}

// The instances of a digit that pass their test. None of them changes which places hold it.
fn place_digit(givens: &[u8; 81], laid: &mut LaidMasks, log: &mut [u8], unit: usize, digit: usize)
    requires { (unit < 27) × (digit < 9) }
    ensures masks_after { laid.new.masks ≡ place_digit givens.now unit digit laid.old.masks }
    ensures log_after { log.new ≡ log_after givens.now (digit_places unit digit) laid.old.masks log.old }
{
    let mut left = turns_of(held_in(laid, unit, digit));
    // The mask that is left is the counter: an iterator over its places would be these two calls again.
    while left != 0 {
        place_at(givens, laid, log, unit, digit, masks::lowest_digit(left));
        left = masks::lose_lowest(left);
    }
}

// The digits of nine masks whose instances may lose anything: not held twice, and not held by cells alone that hold nothing else.
fn due_of(nine: &[u16; 9]) -> u16
    ensures { result ≡ due_of nine.now }
{
    let single = masks::lose(join_all(nine), several(nine));
    masks::lose(masks::lose(511, shared(nine)), single)
}

fn due_digits(lanes: &[u16; 432], unit: usize) -> u16
    requires { unit < 27 }
    ensures { result ≡ due_of (lane_masks lanes.now (lane_of unit)) }
{
    let nine = unit_lane(lanes, unit);
    due_of(&nine)
}

// The instances of a unit. Those of a digit are passed over where none of them loses anything; `first` are the digits of which some may, as the masks are.
fn place_unit(givens: &[u8; 81], laid: &mut LaidMasks, log: &mut [u8], unit: usize, first: u16)
    requires { (unit < 27) × Spares givens.now unit first laid.old.masks }
    ensures masks_after { laid.new.masks ≡ place_unit givens.now unit laid.old.masks }
    ensures log_after { log.new ≡ log_after givens.now (unit_places unit) laid.old.masks log.old }
{
    let mut digit = masks::first_digit(first, 0);
    // Not counted: which digit comes next is seen only after this one's losses.
    while digit < 9 {
        place_digit(givens, laid, log, unit, digit);
        digit = masks::first_digit(due_digits(&laid.lanes, unit), digit + 1);
    }
}

// What is due, or nothing where nothing can be lost.
fn if_any(free: u16, due: u16) -> u16
    ensures { result ≡ cond (eqb free 0) 0 due }
{
    if free == 0 {
        return 0;
    }
    due
}

// What is due of a lane, where `free` is what its open cells hold.
fn due_lane(lanes: &[u16; 432], lane: usize, free: u16) -> u16
    requires { lane < 48 }
    ensures { result ≡ place_due (lane_masks lanes.now lane) free }
{
    let nine = lane_masks(lanes, lane);
    if_any(free, due_of(&nine))
}

fn due_lanes(lanes: &[u16; 432], free: &[u16; 16], first: usize) -> [u16; 16]
    requires { first ≤ 32 }
    ensures { result ≡ place_sets lanes.now free.now first }
{
    let mut sets = [0u16; 16];
    for (nth, set) in sets.iter_mut().enumerate() {
        *set = due_lane(lanes, first + nth, free[nth]);
    }
    sets
}

// The units of a family whose sets hold anything.
fn place_due(
    givens: &[u8; 81],
    laid: &mut LaidMasks,
    log: &mut [u8],
    due: &[u16; 16],
    family: usize,
)
    requires { (family < 3) × PlaceSpares givens.now laid.old.masks family due.now }
    ensures masks_after { laid.new.masks ≡ place_family givens.now family laid.old.masks }
    ensures log_after { log.new ≡ log_after givens.now (family_places family) laid.old.masks log.old }
{
    for nth in 0..9 {
        if due[nth] != 0 {
            let unit = 9 * family + nth;
            place_unit(givens, laid, log, unit, due[nth]);
        }
    }
}

fn place_family(givens: &LaidGivens, laid: &mut LaidMasks, log: &mut [u8], family: usize)
    requires { family < 3 }
    ensures masks_after { laid.new.masks ≡ place_family givens.now.cells family laid.old.masks }
    ensures log_after { log.new ≡ log_after givens.now.cells (family_places family) laid.old.masks log.old }
{
    let free = loose(&laid.lanes, &givens.doors, 16 * family);
    let due = due_lanes(&laid.lanes, &free, 16 * family);
    if join_sets(&due) == 0 {
        return;
    }
    place_due(&givens.cells, laid, log, &due, family);
}

// Place. The units of a family are disjoint: where its lane shows at the family's start that a unit loses nothing, it loses nothing when its turn comes.
pub fn place_lanes(givens: &LaidGivens, laid: &mut LaidMasks, log: &mut [u8])
    ensures masks_after { laid.new.masks ≡ pass givens.now.cells Place laid.old.masks }
    ensures log_after { log.new ≡ log_after givens.now.cells (instances Place) laid.old.masks log.old }
{
    for family in 0..3 {
        place_family(givens, laid, log, family);
    }
}
