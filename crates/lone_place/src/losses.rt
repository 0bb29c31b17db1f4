// The peers of a cell lose digits in place.
ghost use Rattle.std.specs.Prelude.{◌≡◌, ◌<◌};
ghost use Rattle.steps.specs.Passes.{changed};
ghost use Rattle.lone_place.specs.code.Turns.{peers_lose};

use cells::lose_places;
use grid::{box_of, col_of, row_of};

// The open peers of the cell lose the digits of `lost`; whether they held any of them. Its row, its column and its box lose them, while the cell itself holds nothing.
pub fn lose_peers(givens: &[u8; 81], masks: &mut [u16; 81], cell: usize, lost: u16) -> bool
    requires { cell < 81 }
    ensures masks_after { masks.new ≡ peers_lose givens.now cell lost masks.old }
    ensures value { result ≡ changed masks.old masks.new }
{
    let own = masks[cell];
    masks[cell] = 0;
    let row = lose_places(givens, masks, row_of(cell), 511, lost);
    let col = lose_places(givens, masks, 9 + col_of(cell), 511, lost);
    let block = lose_places(givens, masks, 18 + box_of(cell), 511, lost);
    masks[cell] = own;
    row | col | block
}
