// H-Code: rows and anti-diagonals, whose parity cells stand in the last column and beside the diagonal.
#![tactic(auto, using(crate::proofs::Bounds::hcode_bounds))]

ghost use Rattle.std.specs.Prelude.{◌≡◌, ◌<◌};
ghost use Rattle.codes.specs.Shape.{rows, columns, equations, cell_number, WellFormed};
ghost use Rattle.codes.specs.Geometry.{callers_cell};
ghost use Rattle.codes.specs.Encoded.{parity_cell, is_parity};
ghost use Rattle.codes.specs.Lines.{own_cell, Covers};
ghost use Rattle.codes.specs.Holders.{HeldBy};

use crate::{Line, Shape};

// The number of the parity cell of equation q, as cells lie: (q, p) of a row, and (r, r + 1) of an anti-diagonal.
pub fn parity(shape: Shape, q: usize) -> usize
    requires { WellFormed shape × (shape.code ≡ 2) × (q < equations shape) }
    ensures { result ≡ callers_cell shape (parity_cell shape q) }
{
    let n = shape.p - 1;
    if q < n {
        return shape.p * n + q;
    }
    let r = q - n;
    (r + 1) * n + r
}

// The line of equation q: rows first, then the anti-diagonals. Both go through the first p columns but r + 1, one after the other.
pub fn line(shape: Shape, q: usize) -> Line
    requires { WellFormed shape × (shape.code ≡ 2) × (q < equations shape) }
    ensures { Covers shape (own_cell shape q) result }
{
    let n = shape.p - 1;
    if q < n {
        return Line {
            count: n,
            first: q,
            step: n,
            turn: q + 1,
            second: (q + 2) * n + q,
            extra: None,
        };
    }
    let r = q - n;
    Line {
        count: n,
        first: n - 1 - r,
        step: n + 1,
        turn: r + 1,
        second: (r + 2) * n,
        extra: None,
    }
}

// Whether a cell is a parity cell: in the last column, or beside the diagonal.
pub fn is_parity(shape: Shape, row: usize, column: usize) -> bool
    requires { WellFormed shape × (shape.code ≡ 2) × (row < rows shape) × (column < columns shape) }
    ensures { result ≡ is_parity shape (cell_number shape row column) }
{
    column == shape.p || column == row + 1
}

// The equations that hold a cell: a data cell's row and its anti-diagonal, or the one whose parity cell it is.
pub fn holders(shape: Shape, row: usize, column: usize) -> u64
    requires { WellFormed shape × (shape.code ≡ 2) × (row < rows shape) × (column < columns shape) }
    ensures { HeldBy shape (cell_number shape row column) result }
{
    let p = shape.p;
    if column == p {
        return crate::named(shape, row, row);
    }
    let n = p - 1;
    if column == row + 1 {
        return crate::named(shape, n + row, n + row);
    }
    crate::named(shape, row, n + crate::turned(column, p - 2 - row, p))
}
