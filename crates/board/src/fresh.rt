// Fresh masks: "an open cell holds d exactly if no peer's clue is d". Each given digit joins the sets of its row, its column
// and its box; an open cell then lacks what its three sets hold, since it adds none of its own. Row by row, so that no cell's
// row and column are worked out anew.
ghost use Rattle.std.specs.Prelude.{◌≡◌, ◌+◌, ◌<◌};
ghost use Rattle.grid.specs.Marks.{seen};
ghost use Rattle.steps.specs.Boards.{fresh};
ghost use Rattle.board.specs.code.Fresh.{digit_mask, join_row, unit_sets, fresh_mask, fresh_row};

use candidates::masks;
use grid::cell_units::CellUnits;

// The mask of a given digit; none for an open cell.
pub fn given_mask(digit: u8) -> u16
    ensures { result ≡ digit_mask digit }
{
    if digit == 0 {
        return 0;
    }
    masks::digit_mask(digit as usize - 1)
}

// The cells of a row join the digits that they are given.
fn join_row(givens: &[u8; 81], sets: &mut [u16; 27], row: usize)
    requires { row < 9 }
    ensures { sets.new ≡ join_row givens.now row sets.old }
{
    for col in 0..9 {
        let digit = givens[9 * row + col];
        if digit != 0 {
            CellUnits::at(row, col).join(sets, given_mask(digit));
        }
    }
}

// The digits that each unit is given.
fn unit_sets(givens: &[u8; 81]) -> [u16; 27]
    ensures { result ≡ unit_sets givens.now }
{
    let mut sets = [0u16; 27];
    for row in 0..9 {
        join_row(givens, &mut sets, row);
    }
    sets
}

// The fresh mask of a cell with the given digit that sees these digits.
fn fresh_mask(digit: u8, seen: u16) -> u16
    ensures { result ≡ fresh_mask digit seen }
{
    if digit != 0 {
        return given_mask(digit);
    }
    masks::lose(511, seen)
}

fn fresh_row(givens: &[u8; 81], sets: &[u16; 27], masks: &mut [u16; 81], row: usize)
    requires { row < 9 }
    ensures { masks.new ≡ fresh_row givens.now sets.now row masks.old }
{
    for col in 0..9 {
        let cell = 9 * row + col;
        masks[cell] = fresh_mask(givens[cell], CellUnits::at(row, col).seen_digits(sets));
    }
}

// The fresh masks of any givens.
pub fn fresh_masks(givens: &[u8; 81]) -> [u16; 81]
    ensures { result ≡ fresh givens.now }
{
    let sets = unit_sets(givens);
    let mut masks = [0u16; 81];
    for row in 0..9 {
        fresh_row(givens, &sets, &mut masks, row);
    }
    masks
}
