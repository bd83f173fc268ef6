// X-Code: two families of lines of slopes 1 and -1, whose parity cells stand in the last two rows.
#![tactic(auto, using(crate::proofs::Bounds::xcode_bounds))]

ghost use Rattle.std.specs.Prelude.{◌≡◌, ◌-◌, ◌<◌};
ghost use Rattle.codes.specs.Shape.{rows, columns, equations, cell_number, WellFormed};
ghost use Rattle.codes.specs.Geometry.{callers_cell};
ghost use Rattle.codes.specs.Encoded.{parity_cell, is_parity};
ghost use Rattle.codes.specs.Lines.{own_cell, Covers};
ghost use Rattle.codes.specs.Holders.{HeldBy};

use crate::{Line, Shape};

// The number of the parity cell of equation q, as cells lie: (p - 2, q) of the first family, and (p - 1, c) of the second.
pub fn parity(shape: Shape, q: usize) -> usize
    requires { WellFormed shape × (shape.code ≡ 3) × (q < equations shape) }
    ensures { result ≡ callers_cell shape (parity_cell shape q) }
{
    let p = shape.p;
    if q < p {
        return q * p + (p - 2);
    }
    (q - p) * p + (p - 1)
}

// The line of equation q: the first family goes down the rows from row 0 on, the second up from row p - 3 on, both one column on, round after
// the last. A line of the second that starts in column 0, 1 or 2 has ended by then.
pub fn line(shape: Shape, q: usize) -> Line
    requires { WellFormed shape × (shape.code ≡ 3) × (q < equations shape) }
    ensures { Covers shape (own_cell shape q) result }
{
    let p = shape.p;
    if q < p {
        let column = crate::turned(q, 2, p);
        return Line {
            count: p - 2,
            first: column * p,
            step: p + 1,
            turn: p - column,
            second: p - column,
            extra: None,
        };
    }
    let column = crate::turned(q - p, 1, p);
    Line {
        count: p - 2,
        first: column * p + (p - 3),
        step: p - 1,
        turn: p - column,
        second: column.saturating_sub(3),
        extra: None,
    }
}

// Whether a cell is a parity cell: in the last two rows.
pub fn is_parity(shape: Shape, row: usize, column: usize) -> bool
    requires { WellFormed shape × (shape.code ≡ 3) × (row < rows shape) × (column < columns shape) }
    ensures { result ≡ is_parity shape (cell_number shape row column) }
{
    shape.p - 2 <= row
}

// The equations that hold a cell: a data cell's lines in both families, or the one whose parity cell it is.
pub fn holders(shape: Shape, row: usize, column: usize) -> u64
    requires { WellFormed shape × (shape.code ≡ 3) × (row < rows shape) × (column < columns shape) }
    ensures { HeldBy shape (cell_number shape row column) result }
{
    let p = shape.p;
    if row == p - 1 {
        return crate::pair(shape, p + column, p + column);
    }
    if row == p - 2 {
        return crate::pair(shape, column, column);
    }
    crate::pair(
        shape,
        crate::turned(column, p - 2 - row, p),
        p + crate::turned(column, row + 2, p),
    )
}
