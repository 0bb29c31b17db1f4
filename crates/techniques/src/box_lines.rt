// Box-line (module 4): where the open cells of a box that hold a digit, two or more, lie on one line, the line's open cells outside the box lose it.
ghost use Rattle.std.specs.Prelude.{◌≡◌};
ghost use Rattle.candidates.specs.Masks.{minus};
ghost use Rattle.steps.specs.Boards.{is_open};
ghost use Rattle.steps.specs.Ported.{box_lines};
ghost use Rattle.cells.specs.code.Meets.{met_places, met_unit, outside};
ghost use Rattle.cells.specs.code.Places.{lose_places};
ghost use Rattle.cells.specs.code.Unions.{joined_at};
ghost use Rattle.techniques.specs.code.BoxLines.{block_lines};

use candidates::masks;
use cells::meets::{met_places, met_unit, outside};
use cells::unions::{join_places, shared};
use cells::{lose_places, unit_masks};

// Of these digits those that the box holds on its nth line alone. `nine` are the masks of its open cells.
fn on_line(nine: &[u16; 9], digits: u16, nth: usize) -> u16
    ensures { result ≡ minus digits (joined_at nine.now (minus 511 (met_places nth))) }
{
    let off = join_places(nine, masks::lose(511, met_places(nth)));
    masks::lose(digits, off)
}

// The nth line of the box loses these digits outside the box.
fn lose_line(givens: &[u8; 81], masks: &mut [u16; 81], unit: usize, nth: usize, lost: u16)
    ensures { masks.new ≡ lose_places (is_open givens.now) (met_unit unit nth) (outside unit nth) lost masks.old }
{
    if masks::is_none(lost) {
        return;
    }
    lose_places(givens, masks, met_unit(unit, nth), outside(unit, nth), lost);
}

// `unit` is a box and `nine` are the masks of its open cells, which the pass leaves alone: its lines lose all their digits at once. A mask may have
// bits above the nine digits here; those stay.
fn block_lines(givens: &[u8; 81], masks: &mut [u16; 81], unit: usize, nine: &[u16; 9])
    ensures { masks.new ≡ block_lines givens.now unit nine.now masks.old }
{
    let both = masks::meet(shared(nine), 511);
    for nth in 0..6 {
        lose_line(givens, masks, unit, nth, on_line(nine, both, nth));
    }
}

pub fn box_lines(givens: &[u8; 81], masks: &mut [u16; 81])
    ensures { masks.new ≡ box_lines givens.now masks.old }
{
    for block in 0..9 {
        let nine = unit_masks(givens, masks, 18 + block);
        block_lines(givens, masks, 18 + block, &nine);
    }
}
