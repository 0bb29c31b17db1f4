// Pair by families of units, the rows, the columns and the boxes. The units of a family are disjoint: where its lane shows at the family's start that a unit loses nothing, it loses nothing when its turn comes.
ghost use Rattle.std.specs.Prelude.{◌≡◌, ◌<◌};
ghost use Rattle.steps.specs.Passes.{pass, instances, Pair};
ghost use Rattle.steps.specs.code.Logs.{log_after};
ghost use Rattle.pair_cross.specs.code.Lively.{pair_family, family_instances, PairSkips};

use crate::lively::lively_lanes;
use crate::search::two_frame;
use crate::twos::Frame;
use lanes::{LaidGivens, LaidMasks, join_sets, lane_masks, lay, loose};

// The units of a family whose sets hold anything.
fn pair_due(
    givens: &LaidGivens,
    laid: &mut LaidMasks,
    log: &mut [u8],
    due: &[u16; 16],
    family: usize,
)
    requires { (family < 3) × PairSkips givens.now.cells laid.old.masks family due.now }
    ensures masks_after { laid.new.masks ≡ pair_family givens.now.cells family laid.old.masks }
    ensures log_after { log.new ≡ log_after givens.now.cells (family_instances family) laid.old.masks log.old }
{
    let masks = &mut laid.masks;
    let lanes = &mut laid.lanes;
    for nth in 0..9 {
        if due[nth] != 0 {
            let lane = 16 * family + nth;
            two_frame(
                &givens.cells,
                masks,
                log,
                Frame::Unit(9 * family + nth),
                &lane_masks(&givens.doors, lane),
                lane_masks(lanes, lane),
            );
        }
    }
    lay(masks, lanes);
}

fn pair_family(givens: &LaidGivens, laid: &mut LaidMasks, log: &mut [u8], family: usize)
    requires { family < 3 }
    ensures masks_after { laid.new.masks ≡ pair_family givens.now.cells family laid.old.masks }
    ensures log_after { log.new ≡ log_after givens.now.cells (family_instances family) laid.old.masks log.old }
{
    let free = loose(&laid.lanes, &givens.doors, 16 * family);
    let due = lively_lanes(&laid.lanes, &free, 16 * family);
    if join_sets(&due) == 0 {
        return;
    }
    pair_due(givens, laid, log, &due, family);
}

// Pair, over masks that stand in lanes.
pub fn pair_lanes(givens: &LaidGivens, laid: &mut LaidMasks, log: &mut [u8])
    ensures masks_after { laid.new.masks ≡ pass givens.now.cells Pair laid.old.masks }
    ensures log_after { log.new ≡ log_after givens.now.cells (instances Pair) laid.old.masks log.old }
{
    for family in 0..3 {
        pair_family(givens, laid, log, family);
    }
}
