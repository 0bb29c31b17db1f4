// Which cells lie in a unit, and which are the peers of a cell, by the rules of the two tables.
ghost use Rattle.std.specs.Prelude.{◌≡◌};
ghost use Rattle.grid.specs.Units.{in_unit};
ghost use Rattle.grid.specs.code.Scopes.{in_scope};

use crate::{are_peers, box_of, col_of, row_of};

// The peers of a cell, or the cells of a unit.
#[derive(Clone, Copy)]
pub enum Scope {
    Peers(usize),
    Unit(usize),
}

pub fn in_unit(unit: usize, cell: usize) -> bool
    ensures { result ≡ in_unit unit cell }
{
    if unit < 9 {
        return row_of(cell) == unit;
    }
    if unit < 18 {
        return col_of(cell) == unit - 9;
    }
    if unit < 27 {
        return box_of(cell) == unit - 18;
    }
    false
}

pub fn in_scope(scope: Scope, cell: u8) -> bool
    ensures { result ≡ in_scope scope cell }
{
    match scope {
        Scope::Peers(of) => are_peers(of, cell as usize),
        Scope::Unit(unit) => in_unit(unit, cell as usize),
    }
}
