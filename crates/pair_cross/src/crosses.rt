// Cross by digits, for rows and then, exchanged, for columns. The instances of a digit change no other: where its lane shows at the start that a digit is not lost, it is not lost when its turn comes.
ghost use Rattle.std.specs.Prelude.{◌≡◌, ◌*◌, ◌<◌};
ghost use Rattle.steps.specs.Passes.{pass, instances, Cross};
ghost use Rattle.steps.specs.code.Logs.{log_after};
ghost use Rattle.pair_cross.specs.code.Twos.{cross_lines, cross_instances};
ghost use Rattle.pair_cross.specs.code.Spots.{DigitLanes, CrossSkips};

use crate::lively::lively_lanes;
use crate::search::two_frame;
use crate::spots::{digit_lanes, open_places, places_of_digits};
use crate::twos::Frame;
use lanes::{LaidGivens, LaidMasks, join_sets, lane_masks, lay, loose};

// The digits whose sets hold anything, for rows, half 0, or for columns, half 1.
fn cross_due(
    givens: &LaidGivens,
    laid: &mut LaidMasks,
    log: &mut [u8],
    digits: &[u16; 432],
    due: &[u16; 16],
    half: usize,
)
    requires { (half < 2) × DigitLanes laid.old.lanes (16 * half) digits.now × CrossSkips givens.now.cells laid.old.masks half due.now }
    ensures masks_after { laid.new.masks ≡ cross_lines givens.now.cells (9 * half) laid.old.masks }
    ensures log_after { log.new ≡ log_after givens.now.cells (cross_instances (9 * half)) laid.old.masks log.old }
{
    let first = 9 * half;
    let places = open_places(&givens.doors, 16 * half);
    let masks = &mut laid.masks;
    for digit in 0..9 {
        if due[digit] != 0 {
            two_frame(
                &givens.cells,
                masks,
                log,
                Frame::Lines(first, digit),
                &places,
                lane_masks(digits, digit),
            );
        }
    }
    lay(masks, &mut laid.lanes);
}

fn cross_half(givens: &LaidGivens, laid: &mut LaidMasks, log: &mut [u8], half: usize)
    requires { half < 2 }
    ensures masks_after { laid.new.masks ≡ cross_lines givens.now.cells (9 * half) laid.old.masks }
    ensures log_after { log.new ≡ log_after givens.now.cells (cross_instances (9 * half)) laid.old.masks log.old }
{
    let held = join_sets(&loose(&laid.lanes, &givens.doors, 16 * half));
    let digits = digit_lanes(&laid.lanes, 16 * half);
    let free = places_of_digits(held);
    let due = lively_lanes(&digits, &free, 0);
    if join_sets(&due) == 0 {
        return;
    }
    cross_due(givens, laid, log, &digits, &due, half);
}

// Cross, over masks that stand in lanes.
pub fn cross_lanes(givens: &LaidGivens, laid: &mut LaidMasks, log: &mut [u8])
    ensures masks_after { laid.new.masks ≡ pass givens.now.cells Cross laid.old.masks }
    ensures log_after { log.new ≡ log_after givens.now.cells (instances Cross) laid.old.masks log.old }
{
    cross_half(givens, laid, log, 0);
    cross_half(givens, laid, log, 1);
}
