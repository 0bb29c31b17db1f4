// Which numbers are a step's parts, kind by kind: "Other bytes name no instance". Nothing is asked of the numbers.
// A box is called `block` here, since `box` is a word of the language.
ghost use Rattle.std.specs.Prelude.{◌≡◌, ◌&&◌, leb, ltb};
ghost use Rattle.steps.specs.code.Decoding.{is_digit, are_digits, no_parts, place_in, is_cell_of, line_in, box_in, is_two, is_lone, is_place, is_pair, is_pointing, is_claiming, is_cross};
ghost use Rattle.step_lists.specs.code.Taking.{is_met};

use cells::meets::met_unit;
use grid::unit_cell;

// The digits 1 to 9.
fn is_digit(digit: usize) -> bool
    ensures { result ≡ is_digit digit }
{
    (1..10).contains(&digit)
}

// Bytes that stand for no part are zeros.
fn no_parts(first: usize, second: usize) -> bool
    ensures { result ≡ no_parts first second }
{
    first == 0 && second == 0
}

// Where in its unit a cell stands.
pub fn place_in(unit: usize, cell: usize) -> usize
    ensures { result ≡ place_in unit cell }
{
    if unit < 9 {
        return cell % 9;
    }
    if unit < 18 {
        return cell / 9;
    }
    3 * (cell / 9 % 3) + cell % 9 % 3
}

// Whether it is a cell of the unit.
fn is_cell_of(unit: usize, cell: usize) -> bool
    ensures { result ≡ is_cell_of unit cell }
{
    cell < 81 && unit_cell(unit, place_in(unit, cell)) == cell
}

// Which of a box's six lines a line is.
pub fn line_in(line: usize) -> usize
    ensures { result ≡ line_in line }
{
    if line < 9 {
        return line % 3;
    }
    3 + line % 3
}

// Which of the three boxes of a line a box is.
pub fn box_in(line: usize, block: usize) -> usize
    ensures { result ≡ box_in line block }
{
    if line < 9 {
        return block % 3;
    }
    block / 3 % 3
}

// Two of the nine units from the first one, rising.
fn is_two(first: usize, one: usize, other: usize) -> bool
    ensures { result ≡ is_two first one other }
{
    first <= one && one < other && other - first < 9
}

pub fn is_lone(cell: usize, digit: usize, x: usize, y: usize, z: usize) -> bool
    ensures { result ≡ is_lone cell digit x y z }
{
    cell < 81 && is_digit(digit) && x == 0 && no_parts(y, z)
}

pub fn is_place(unit: usize, digit: usize, cell: usize, y: usize, z: usize) -> bool
    ensures { result ≡ is_place unit digit cell y z }
{
    unit < 27 && is_digit(digit) && is_cell_of(unit, cell) && no_parts(y, z)
}

// Two digits, rising.
fn are_digits(a: usize, b: usize) -> bool
    ensures { result ≡ are_digits a b }
{
    is_digit(a) && is_digit(b) && a < b
}

pub fn is_pair(unit: usize, first: usize, second: usize, a: usize, b: usize) -> bool
    ensures { result ≡ is_pair unit first second a b }
{
    unit < 27
        && is_cell_of(unit, first)
        && is_cell_of(unit, second)
        && first < second
        && are_digits(a, b)
}

// A unit and one that meets it, the nth of those.
fn is_met(unit: usize, nth: usize, other: usize, digit: usize, y: usize, z: usize) -> bool
    ensures { result ≡ is_met unit nth other digit y z }
{
    is_digit(digit) && met_unit(unit, nth) == other && no_parts(y, z)
}

// The boxes are the last nine units.
fn is_box(unit: usize) -> bool
    ensures { result ≡ (leb 18 unit && ltb unit 27) }
{
    (18..27).contains(&unit)
}

pub fn is_pointing(block: usize, digit: usize, line: usize, y: usize, z: usize) -> bool
    ensures { result ≡ is_pointing block digit line y z }
{
    is_box(block) && is_met(block, line_in(line), line, digit, y, z)
}

pub fn is_claiming(line: usize, digit: usize, block: usize, y: usize, z: usize) -> bool
    ensures { result ≡ is_claiming line digit block y z }
{
    line < 18 && is_met(line, box_in(line, block), block, digit, y, z)
}

// Two lines among the nine from the first one on, and two among those that cross them.
pub fn is_cross(
    first: usize,
    across: usize,
    digit: usize,
    one: usize,
    other: usize,
    x: usize,
    y: usize,
) -> bool
    ensures { result ≡ is_cross first across digit one other x y }
{
    is_digit(digit) && is_two(first, one, other) && is_two(across, x, y)
}
