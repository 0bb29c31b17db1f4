// What cards and refusals have on their lines: numbers after labels, signed numbers and the cells of a grid.
ghost use Rattle.std.specs.Prelude.{◌≡◌};
ghost use Rattle.output.specs.Decimals.{decimal};
ghost use Rattle.output.specs.code.Tapes.{append};
ghost use Rattle.output.specs.code.Pens.{writes};
ghost use Rattle.card.specs.Layout.{line_of, cell_byte, grid_bytes, signed};

use candidates::{SingleCandidate, SudokuCandidateSet};
use output::Pen;

// Room for any card and any refusal.
pub type Lines = [u8; 256];

pub type LinesPen<'a> = Pen<'a, 256>;

// A line of a label and a number.
pub fn number_line(lines: &mut LinesPen, label: &[u8], n: usize)
    ensures { lines.new ≡ writes (append 256 (line_of label.now (decimal n))) lines.old }
{
    lines.push_word(label);
    lines.push_number(n);
    lines.push(b'\n');
}

// A number with its sign.
pub fn push_signed(lines: &mut LinesPen, z: i64)
    ensures { lines.new ≡ writes (append 256 (signed z)) lines.old }
{
    if z < 0 {
        lines.push(b'-');
    }
    lines.push_number(z.unsigned_abs() as usize);
}

// A cell's only digit, `!` where it has no candidate, else `.`.
fn cell_byte(mask: u16) -> u8
    ensures { result ≡ cell_byte mask }
{
    match (SudokuCandidateSet { mask }).single_candidate() {
        SingleCandidate::Digit(digit) => b'0' + digit as u8,
        SingleCandidate::Empty => b'!',
        SingleCandidate::Several => b'.',
    }
}

// The cells of a grid, rising.
pub fn push_grid(lines: &mut LinesPen, masks: &[u16; 81])
    ensures { lines.new ≡ writes (append 256 (grid_bytes masks.now)) lines.old }
{
    for mask in masks {
        lines.push(cell_byte(*mask));
    }
}
