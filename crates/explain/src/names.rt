// The names of cells, units and steps in the field's notation, each after what the line has already. A box is called `block` here, since `box` is a
// word of the language.
use card::lines::LinesPen;

// A cell by its row and its column.
pub fn push_cell(line: &mut LinesPen, cell: usize) {
    line.push(b'r');
    line.push_number(cell / 9 + 1);
    line.push(b'c');
    line.push_number(cell % 9 + 1);
}

// A row, a column or a box by its number among the nine.
fn push_nth(line: &mut LinesPen, word: &[u8], unit: usize) {
    line.push_word(word);
    line.push_number(unit % 9 + 1);
}

fn push_unit(line: &mut LinesPen, unit: usize) {
    match unit {
        0..9 => push_nth(line, b"row ", unit),
        9..18 => push_nth(line, b"column ", unit),
        _ => push_nth(line, b"box ", unit),
    }
}

fn push_lone(line: &mut LinesPen, kind: &[u8], cell: usize, digit: usize) {
    line.push_word(kind);
    push_cell(line, cell);
    line.push(b' ');
    line.push_number(digit);
}

fn push_place(line: &mut LinesPen, unit: usize, digit: usize, cell: usize) {
    push_lone(line, b" Place ", cell, digit);
    line.push_word(b" in ");
    push_unit(line, unit);
}

fn push_pair(line: &mut LinesPen, unit: usize, one: usize, other: usize, a: usize, b: usize) {
    line.push_word(b" Pair ");
    push_cell(line, one);
    line.push(b' ');
    push_cell(line, other);
    line.push_word(b" {");
    line.push_number(a);
    line.push(b',');
    line.push_number(b);
    line.push_word(b"} in ");
    push_unit(line, unit);
}

// Pointing and Claiming: the unit that holds the digit, and the one that loses it.
fn push_locked(
    line: &mut LinesPen,
    kind: &[u8],
    unit: usize,
    digit: usize,
    to: &[u8],
    other: usize,
) {
    line.push_word(kind);
    line.push_number(digit);
    line.push_word(b" in ");
    push_unit(line, unit);
    line.push_word(to);
    push_unit(line, other);
}

// Two lines, and the two across.
fn push_cross(
    line: &mut LinesPen,
    digit: usize,
    of: &[u8],
    one: usize,
    other: usize,
    across: &[u8],
    x: usize,
    y: usize,
) {
    line.push_word(b" Cross ");
    line.push_number(digit);
    push_nth(line, of, one);
    push_nth(line, b" ", other);
    push_nth(line, across, x);
    push_nth(line, b" ", y);
}

// A step by its kind and its five parts, by number as the list's bytes have them; parts that a kind does not have are zeros.
pub fn push_step(line: &mut LinesPen, step: [usize; 6]) {
    let [kind, p, q, r, s, t] = step;
    match kind {
        0 => push_lone(line, b" Lone ", p, q),
        1 => push_place(line, p, q, r),
        2 => push_pair(line, p, q, r, s, t),
        3 => push_locked(line, b" Pointing ", p, q, b" along ", r),
        4 => push_locked(line, b" Claiming ", p, q, b" within ", r),
        5 => push_cross(line, p, b" in rows ", q, r, b" at columns ", s, t),
        _ => push_cross(line, p, b" in columns ", q, r, b" at rows ", s, t),
    }
}
