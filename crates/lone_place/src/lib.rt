// Lone and Place, two of the wide passes (module 8), over lent givens and masks. Nothing is asked of either: each contract holds for any of them.
#![tactic(auto)]

ghost use Rattle.std.specs.Prelude.{◌≡◌};
ghost use Rattle.steps.specs.Passes.{pass, Lone, Place};

pub mod lones;
pub mod losses;
pub mod places;

use lanes::{LaidGivens, LaidMasks};

// Lone: a cell that holds nothing but d, or nothing: its peers lose d.
pub fn lone(givens: &[u8; 81], masks: &mut [u16; 81])
    ensures { masks.new ≡ pass givens.now Lone masks.old }
{
    let mut laid = LaidMasks::of(masks);
    lones::lone_lanes(givens, &mut laid, &mut []);
    *masks = laid.masks;
}

// Place: no other cell of a unit holds d: the cell loses all but d.
pub fn place(givens: &[u8; 81], masks: &mut [u16; 81])
    ensures { masks.new ≡ pass givens.now Place masks.old }
{
    let mut laid = LaidMasks::of(masks);
    places::place_lanes(&LaidGivens::of(givens), &mut laid, &mut []);
    *masks = laid.masks;
}
