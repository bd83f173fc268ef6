// RDP: rows of p - 1 data cells and their parity cell, and diagonals, which hold the row parity column too.
#![tactic(auto, using(crate::proofs::Bounds::rdp_bounds))]

ghost use Rattle.std.specs.Prelude.{◌≡◌, cond, eqb, ltb, ◌+◌, ◌-◌, ◌*◌, ◌≤◌, ◌<◌, None, Some};
ghost use Rattle.codes.specs.Shape.{rows, columns, equations, cell_number, WellFormed};
ghost use Rattle.codes.specs.Geometry.{callers_cell};
ghost use Rattle.codes.specs.Encoded.{parity_cell, is_parity};
ghost use Rattle.codes.specs.Lines.{own_cell, Covers};
ghost use Rattle.codes.specs.Depends.{DataCell, DependOn};
ghost use Rattle.codes.specs.Holders.{HeldBy};

use crate::{Line, Shape};

// The number of the parity cell of equation q, as cells lie: they lie behind the data columns, one after the other.
pub fn parity(shape: Shape, q: usize) -> usize
    requires { WellFormed shape × (shape.code ≡ 1) × (q < equations shape) }
    ensures { result ≡ callers_cell shape (parity_cell shape q) }
{
    crate::data_columns(shape) * (shape.p - 1) + q
}

// How many data columns diagonal d meets in a row: all m, but not column d + 1, which it would meet in row p - 1.
fn met(m: usize, d: usize) -> usize
    requires { (1 ≤ m) × (d < 32) }
    ensures { result ≡ cond (ltb (d + 1) m) (m - 1) m }
{
    if d + 1 < m { m - 1 } else { m }
}

// The cell of the row parity column on diagonal d, where n rows and m data columns lie before it; none where it would be in row p - 1.
fn corner(m: usize, n: usize, d: usize) -> Option<usize>
    requires { (m < 32) × (n < 32) × (d < 32) }
    ensures { result ≡ cond (eqb (d + 1) n) None (Some (m * n + (d + 1))) }
{
    if d + 1 == n {
        return None;
    }
    Some(m * n + (d + 1))
}

// The line of equation q. A row goes through the data columns. A diagonal goes up the rows, column after column, from row d of column 0 to row 0,
// then from the last row on; and it holds a cell of the row parity column.
pub fn line(shape: Shape, q: usize) -> Line
    requires { WellFormed shape × (shape.code ≡ 1) × (q < equations shape) }
    ensures { Covers shape (own_cell shape q) result }
{
    let n = shape.p - 1;
    let m = crate::data_columns(shape);
    if q < n {
        return Line {
            count: m,
            first: q,
            step: n,
            turn: 0,
            second: 0,
            extra: None,
        };
    }
    let d = q - n;
    Line {
        count: met(m, d),
        first: d,
        step: n - 1,
        turn: d + 1,
        second: (d + 2) * n + (n - 1),
        extra: corner(m, n, d),
    }
}

// Whether a cell is a parity cell: in the last two columns.
pub fn is_parity(shape: Shape, row: usize, column: usize) -> bool
    requires { WellFormed shape × (shape.code ≡ 1) × (row < rows shape) × (column < columns shape) }
    ensures { result ≡ is_parity shape (cell_number shape row column) }
{
    shape.p - 1 <= column
}

// The equations that hold a cell: its row and its diagonal; in the last column the diagonal whose parity cell it is.
pub fn holders(shape: Shape, row: usize, column: usize) -> u64
    requires { WellFormed shape × (shape.code ≡ 1) × (row < rows shape) × (column < columns shape) }
    ensures { HeldBy shape (cell_number shape row column) result }
{
    let p = shape.p;
    let n = p - 1;
    if column == p {
        return crate::named(shape, n + row, n + row);
    }
    crate::named(shape, row, n + crate::turned(row, column, p))
}

// The equations whose parity cells depend on a data cell: those that hold it, and those that hold its row's parity cell.
pub fn dependents(shape: Shape, row: usize, column: usize) -> u64
    requires { WellFormed shape × (shape.code ≡ 1) × DataCell shape row column }
    ensures { DependOn shape (cell_number shape row column) result }
{
    let parity = shape.p - 1;
    holders(shape, row, column) | holders(shape, row, parity)
}
