// EVENODD: rows, and diagonals that share S, the sum of the one diagonal that has no parity cell.
#![tactic(auto, using(crate::proofs::Bounds::evenodd_bounds))]

ghost use Rattle.std.specs.Prelude.{◌≡◌, ◌-◌, ◌<◌};
ghost use Rattle.codes.specs.Shape.{rows, columns, equations, cell_number, WellFormed};
ghost use Rattle.codes.specs.Geometry.{callers_cell};
ghost use Rattle.codes.specs.Encoded.{parity_cell, is_parity};
ghost use Rattle.codes.specs.Lines.{shares_cell, own_cell, Covers};
ghost use Rattle.codes.specs.Holders.{HeldBy, NamedFrom};

use crate::{Line, Shape};

// The number of the parity cell of equation q, as cells lie: they lie behind the data columns, one after the other.
pub fn parity(shape: Shape, q: usize) -> usize
    requires { WellFormed shape × (shape.code ≡ 4) × (q < equations shape) }
    ensures { result ≡ callers_cell shape (parity_cell shape q) }
{
    shape.p * (shape.p - 1) + q
}

// The line of equation q. A row goes through the data columns. A diagonal, without S, goes up the rows, column after column, from row d of
// column 0 to row 0, then from the last row on.
pub fn line(shape: Shape, q: usize) -> Line
    requires { WellFormed shape × (shape.code ≡ 4) × (q < equations shape) }
    ensures { Covers shape (own_cell shape q) result }
{
    let p = shape.p;
    let n = p - 1;
    if q < n {
        return Line {
            count: p,
            first: q,
            step: n,
            turn: 0,
            second: 0,
            extra: None,
        };
    }
    let d = q - n;
    Line {
        count: n,
        first: d,
        step: n - 1,
        turn: d + 1,
        second: (d + 2) * n + (n - 1),
        extra: None,
    }
}

// The line of S: up the rows from the last row of column 1 on.
pub fn shared(shape: Shape) -> Line
    requires { WellFormed shape × (shape.code ≡ 4) }
    ensures { Covers shape (shares_cell shape) result }
{
    let n = shape.p - 1;
    Line {
        count: n,
        first: n + (n - 1),
        step: n - 1,
        turn: 0,
        second: 0,
        extra: None,
    }
}

// Whether a cell is a parity cell: in the last two columns.
pub fn is_parity(shape: Shape, row: usize, column: usize) -> bool
    requires { WellFormed shape × (shape.code ≡ 4) × (row < rows shape) × (column < columns shape) }
    ensures { result ≡ is_parity shape (cell_number shape row column) }
{
    shape.p <= column
}

// The set of a row and of all diagonals.
fn with_diagonals(shape: Shape, row: usize) -> u64
    requires { WellFormed shape × (shape.code ≡ 4) × (row < rows shape) }
    ensures { NamedFrom shape row (shape.p - 1) result }
{
    let n = shape.p - 1;
    let all = bits::one_bit(n + n) - 1;
    let rows = bits::one_bit(n) - 1;
    bits::one_bit(row) | (all ^ rows)
}

// The equations that hold a cell: a data cell's row and its diagonal, or where it is one of S all diagonals; or the one whose parity cell it is.
pub fn holders(shape: Shape, row: usize, column: usize) -> u64
    requires { WellFormed shape × (shape.code ≡ 4) × (row < rows shape) × (column < columns shape) }
    ensures { HeldBy shape (cell_number shape row column) result }
{
    let p = shape.p;
    let n = p - 1;
    if p < column {
        return crate::pair(shape, n + row, n + row);
    }
    if column == p {
        return crate::pair(shape, row, row);
    }
    if row + column == n {
        return with_diagonals(shape, row);
    }
    crate::pair(shape, row, n + crate::turned(row, column, p))
}
