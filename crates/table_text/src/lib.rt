// The unit table and the peer table as Rattle constants, as bytes (document 02, F-12): what the program `tables` prints. Rows, columns, boxes and peers
// are worked out cell by cell; no table of the repository is read.
#![tactic(auto)]

ghost use Rattle.std.specs.Prelude.{◌≡◌, length};
ghost use Rattle.output.specs.Lent.{over};
ghost use Rattle.output.specs.code.Tapes.{append};
ghost use Rattle.output.specs.code.Pens.{writes};
ghost use Rattle.steps.specs.Loops.{for};
ghost use Rattle.table_text.specs.Tables.{row_line, table_lines, tables_text};
ghost use Rattle.table_text.specs.code.Pushes.{scope_of, rows_of};

use grid::scopes::Scope;
use output::Pen;
use rows::push_row;

mod rows;

// Room for the two tables, and no byte more.
pub type Text = [u8; 7515];

type TextPen<'a> = Pen<'a, 7515>;

#[derive(Clone, Copy)]
enum Table {
    Units,
    Peers,
}

impl Table {
    // The cells of a row: those of a unit, or the peers of a cell.
    fn scope(self, row: usize) -> Scope
        ensures { result ≡ scope_of self row }
    {
        match self {
            Table::Units => Scope::Unit(row),
            Table::Peers => Scope::Peers(row),
        }
    }
}

// The rows of a table, the first first.
fn push_rows(text: &mut TextPen, table: Table, rows: usize)
    ensures { text.new ≡ writes (append 7515 (for (rows_of table rows) row_line)) text.old }
{
    for row in 0..rows {
        push_row(text, table.scope(row));
    }
}

// A table: its first line, its rows, and `];`.
fn push_table(text: &mut TextPen, header: &[u8], table: Table, rows: usize)
    ensures { text.new ≡ writes (append 7515 (table_lines header.now (rows_of table rows))) text.old }
{
    text.push_word(header);
    push_rows(text, table, rows);
    text.push_word(b"];\n");
}

// Both tables fill the lent bytes.
pub fn write_tables(text: &mut Text)
    ensures { (text.new ≡ over tables_text text.old) × (length tables_text ≡ 7515) }
{
    let mut pen = Pen::new(text);
    push_table(
        &mut pen,
        b"pub const UNITS: [[u8; 9]; 27] = [\n",
        Table::Units,
        27,
    );
    push_table(
        &mut pen,
        b"pub const PEERS: [[u8; 20]; 81] = [\n",
        Table::Peers,
        81,
    );
}
