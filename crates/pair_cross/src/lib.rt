// Pair and Cross, two of the wide passes (module 8), over lent givens and masks. Nothing is asked of either: each contract holds for any of them.
#![tactic(auto)]

ghost use Rattle.std.specs.Prelude.{◌≡◌};
ghost use Rattle.steps.specs.Passes.{pass, Pair, Cross};

pub mod crosses;
mod lively;
pub mod pairs;
mod search;
mod spots;
mod twos;

use lanes::{LaidGivens, LaidMasks};

// Pair: two cells of a unit hold nothing outside two digits: the unit's other cells lose both.
pub fn pair(givens: &[u8; 81], masks: &mut [u16; 81])
    ensures { masks.new ≡ pass givens.now Pair masks.old }
{
    let mut laid = LaidMasks::of(masks);
    pairs::pair_lanes(&LaidGivens::of(givens), &mut laid, &mut []);
    *masks = laid.masks;
}

// Cross: all cells that hold d in two rows are in two columns: the other cells of those columns lose d. Then the same with rows and columns exchanged.
pub fn cross(givens: &[u8; 81], masks: &mut [u16; 81])
    ensures { masks.new ≡ pass givens.now Cross masks.old }
{
    let mut laid = LaidMasks::of(masks);
    crosses::cross_lanes(&LaidGivens::of(givens), &mut laid, &mut []);
    *masks = laid.masks;
}
