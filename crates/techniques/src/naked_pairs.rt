// Naked pairs (module 3): two open cells of a unit with the same two candidates; the unit's other open cells lose both.
ghost use Rattle.std.specs.Prelude.{◌≡◌, ◌<◌, cond, eqb, IfSome};
ghost use Rattle.steps.specs.Ported.{naked_pairs};
ghost use Rattle.techniques.specs.code.NakedPairs.{twin_of, pair_of, unit_pairs, two_of, pair_masks, no_twins, place_of};

use candidates::masks;
use cells::{all_but, all_masks, lose_places, unit_masks};

// The first place after this one that has its mask.
fn twin_of(nine: &[u16; 9], first: usize) -> Option<usize>
    requires { first < 9 }
    ensures found { place_of result ≡ twin_of nine.now first }
    ensures below { IfSome result (λ second. second < 9) }
{
    let mask = nine[first];
    for second in first + 1..9 {
        if nine[second] == mask {
            return Some(second);
        }
    }
    None
}

// The same for a mask of two digits; none for any other.
fn pair_of(nine: &[u16; 9], first: usize) -> Option<usize>
    requires { first < 9 }
    ensures found { place_of result ≡ pair_of nine.now first }
    ensures below { IfSome result (λ second. second < 9) }
{
    if masks::is_two(nine[first]) {
        return twin_of(nine, first);
    }
    None
}

// `nine` are the masks of the unit's open cells. A pair leaves none of its digits in the other cells, so that its first cell makes no second one;
// after it they are read anew.
fn unit_pairs(givens: &[u8; 81], masks: &mut [u16; 81], unit: usize)
    ensures { masks.new ≡ unit_pairs givens.now unit masks.old }
{
    let mut nine = unit_masks(givens, masks, unit);
    for first in 0..9 {
        if let Some(second) = pair_of(&nine, first) {
            lose_places(givens, masks, unit, all_but(first, second), nine[first]);
            nine = unit_masks(givens, masks, unit);
        }
    }
}

// A mask of two digits, or none.
fn if_two(mask: u16) -> u16
    ensures { result ≡ two_of mask }
{
    if masks::is_two(mask) {
        return mask;
    }
    0
}

// A mask, or none if its cell is given a digit.
fn if_open(given: u8, mask: u16) -> u16
    ensures { result ≡ cond (eqb given 0) mask 0 }
{
    if given == 0 {
        return mask;
    }
    0
}

// The masks of the open cells that have two digits; 0 for the others.
fn pair_masks(givens: &[u8; 81], masks: &[u16; 81]) -> [u16; 81]
    ensures { result ≡ pair_masks givens.now masks.now }
{
    let mut pairs = [0u16; 81];
    for cell in 0..81 {
        pairs[cell] = if_open(givens[cell], if_two(masks[cell]));
    }
    pairs
}

// Whether no two of the masks are the same, but for empty ones.
fn no_twins(nine: &[u16; 9]) -> bool
    ensures { result ≡ no_twins nine.now }
{
    for first in 0..9 {
        if nine[first] != 0 && twin_of(nine, first).is_some() {
            return false;
        }
    }
    true
}

// A unit without twins among its masks of two digits is passed over; after any other those masks are made anew.
pub fn naked_pairs(givens: &[u8; 81], masks: &mut [u16; 81])
    ensures { masks.new ≡ naked_pairs givens.now masks.old }
{
    let mut pairs = pair_masks(givens, masks);
    for unit in 0..27 {
        let nine = all_masks(&pairs, unit);
        if !no_twins(&nine) {
            unit_pairs(givens, masks, unit);
            pairs = pair_masks(givens, masks);
        }
    }
}
