// The candidates of a board as a drawn grid: nine rows of pencil marks, all cells as wide as the widest, with rulings between the boxes.
ghost use Rattle.std.specs.Prelude.{◌<◌};

use crate::lines;
use crate::losses::push_digits;
use candidates::masks;
use card::lines::LinesPen;
use output::Pen;
use std::io;

// How many marks the widest cell has, one at least.
fn widest(masks: &[u16; 81]) -> usize {
    masks
        .iter()
        .fold(1, |width, mask| masks::digit_count(*mask).max(width))
}

// As many of a byte as lead from one number to another.
fn push_up_to(line: &mut LinesPen, byte: u8, from: usize, to: usize) {
    for _ in from..to {
        line.push(byte);
    }
}

// The marks of a cell, `!` where it has none, and spaces beyond the width.
fn push_marks(line: &mut LinesPen, mask: u16, width: usize) {
    if masks::is_none(mask) {
        line.push(b'!');
        push_up_to(line, b' ', 0, width);
        return;
    }
    push_digits(line, mask, false);
    push_up_to(line, b' ', masks::digit_count(mask), width);
    line.push(b' ');
}

// Three cells in a row of a box, from this one on.
fn push_three(line: &mut LinesPen, masks: &[u16; 81], cell: usize, width: usize)
    requires { cell < 79 }
{
    line.push_word(b"| ");
    push_marks(line, masks[cell], width);
    push_marks(line, masks[cell + 1], width);
    push_marks(line, masks[cell + 2], width);
}

fn print_row(rt: &impl Print, masks: &[u16; 81], row: usize, width: usize) -> io::Result<()>
    requires { row < 9 }
{
    let mut room = [0; 256];
    let mut line = Pen::new(&mut room);
    push_three(&mut line, masks, 9 * row, width);
    push_three(&mut line, masks, 9 * row + 3, width);
    push_three(&mut line, masks, 9 * row + 6, width);
    line.push(b'|');
    lines::write_line(rt, &mut line)
}

// The ruling above or below a box.
fn push_ruling(line: &mut LinesPen, width: usize) {
    push_up_to(line, b'-', 0, width);
    push_up_to(line, b'-', 0, width);
    push_up_to(line, b'-', 0, width);
    line.push_word(b"----+");
}

fn print_ruling(rt: &impl Print, width: usize) -> io::Result<()> {
    let mut room = [0; 256];
    let mut line = Pen::new(&mut room);
    line.push(b'+');
    push_ruling(&mut line, width);
    push_ruling(&mut line, width);
    push_ruling(&mut line, width);
    lines::write_line(rt, &mut line)
}

// A ruling, and three rows from this one on.
fn print_band(rt: &impl Print, masks: &[u16; 81], row: usize, width: usize) -> io::Result<()>
    requires { row < 7 }
{
    print_ruling(rt, width)?;
    print_row(rt, masks, row, width)?;
    print_row(rt, masks, row + 1, width)?;
    print_row(rt, masks, row + 2, width)
}

pub fn print_grid(rt: &impl Print, masks: &[u16; 81]) -> io::Result<()> {
    let width = widest(masks);
    print_band(rt, masks, 0, width)?;
    print_band(rt, masks, 3, width)?;
    print_band(rt, masks, 6, width)?;
    print_ruling(rt, width)
}
