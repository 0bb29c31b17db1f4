// Whether settling is over, by a quick test of masks that hold at most one digit each: a finished grid, or a dead one whose open cells hold nothing.
// On such masks the passes need not be tried once more.
ghost use Rattle.std.specs.Prelude.{◌≡◌};
ghost use Rattle.passes.specs.code.Over.{beside_one, lacked_in, is_over};

use candidates::masks;
use cells::loose_digits;
use cells::unions::join_all;
use lanes::{LaidMasks, lane_masks};

// What cells hold beside their lowest digit.
fn beside_one(masks: &[u16; 81]) -> u16
    ensures { result ≡ beside_one masks.now }
{
    let mut more: u16 = 0;
    for mask in masks {
        more = masks::join(more, masks::lose_lowest(masks::meet(*mask, 511)));
    }
    more
}

// The digits that no cell of some unit holds.
fn lacked(lanes: &[u16; 432]) -> u16
    ensures { result ≡ lacked_in lanes.now }
{
    let mut digits: u16 = 0;
    for unit in 0..27 {
        let nine = lane_masks(lanes, 16 * (unit / 9) + unit % 9);
        digits = masks::join(digits, masks::lose(511, join_all(&nine)));
    }
    digits
}

// `left` is how many candidates there are; with more of them than cells a cell has two.
pub fn is_over(left: usize, givens: &[u8; 81], laid: &LaidMasks) -> bool
    ensures { result ≡ is_over left givens.now laid.now.masks laid.now.lanes }
{
    if 81 < left {
        return false;
    }
    if beside_one(&laid.masks) != 0 {
        return false;
    }
    if loose_digits(givens, &laid.masks) == 0 {
        return true;
    }
    lacked(&laid.lanes) == 0
}
