// What a step removed, found by comparing the masks before and after it.
use crate::names::push_cell;
use candidates::masks;
use card::lines::LinesPen;

// The digits of a mask, rising, with a comma between two where they are to stand apart.
pub fn push_digits(line: &mut LinesPen, mask: u16, apart: bool) {
    let lowest = masks::lowest_digit(mask);
    for place in 0..9 {
        if masks::has_digit(mask, place) {
            if apart && lowest < place {
                line.push(b',');
            }
            line.push_number(place + 1);
        }
    }
}

// What a cell lost, if anything.
fn push_loss(line: &mut LinesPen, cell: usize, lost: u16) {
    if masks::is_none(lost) {
        return;
    }
    line.push_word(b" -");
    push_cell(line, cell);
    line.push(b'<');
    push_digits(line, lost, true);
    line.push(b'>');
}

// The cells that lost something, rising.
pub fn push_losses(line: &mut LinesPen, before: &[u16; 81], after: &[u16; 81]) {
    for cell in 0..81 {
        push_loss(line, cell, masks::lose(before[cell], after[cell]));
    }
}
