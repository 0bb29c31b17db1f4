// A row of a table.
ghost use Rattle.std.specs.Prelude.{◌≡◌};
ghost use Rattle.output.specs.code.Tapes.{append};
ghost use Rattle.output.specs.code.Pens.{writes};
ghost use Rattle.table_text.specs.Tables.{numbers, row_line};
ghost use Rattle.table_text.specs.code.Pushes.{entry, in_row};

use crate::TextPen;
use grid::scopes::{Scope, in_scope};

// A number; the first of a row has nothing before it.
fn push_entry(text: &mut TextPen, first: bool, n: u8)
    ensures { text.new ≡ writes (append 7515 (entry first n)) text.old }
{
    if !first {
        text.push_word(b", ");
    }
    text.push_number(usize::from(n));
}

// The cells of the row, rising.
fn push_cells(text: &mut TextPen, scope: Scope)
    ensures { text.new ≡ writes (append 7515 (numbers (in_row scope))) text.old }
{
    let mut first = true;
    for cell in 0..81 {
        if in_scope(scope, cell) {
            push_entry(text, first, cell);
            first = false;
        }
    }
}

pub fn push_row(text: &mut TextPen, scope: Scope)
    ensures { text.new ≡ writes (append 7515 (row_line (in_row scope))) text.old }
{
    text.push(b'[');
    push_cells(text, scope);
    text.push_word(b"],\n");
}
