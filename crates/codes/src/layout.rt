// Where the cells of a stripe lie in the lent buffer. What stands behind these functions, and the lines of the codes, is all that knows how
// columns lie.
ghost use Rattle.std.specs.Prelude.{◌≡◌, true, ◌<◌};
ghost use Rattle.codes.specs.Shape.{rows, columns, cells, disks, existing, cell_number, WellFormed};
ghost use Rattle.codes.specs.Geometry.{gap, is_there, cell_there, column_of, lies_at, cell_at, cell_of, place};

use crate::Shape;

// The first column that need not exist: of RDP how many data columns there are.
#[tactic(auto, using(crate::proofs::Shapes::low, crate::proofs::Shapes::data_is))]
pub fn data_columns(shape: Shape) -> usize
    requires { WellFormed shape }
    ensures { result ≡ gap shape }
{
    shape.width.unwrap_or(shape.p - 1)
}

// The column, as the equations number it, that lies at place d.
pub fn column_of(shape: Shape, d: usize) -> usize
    requires { WellFormed shape × (d < disks shape) }
    ensures { result ≡ column_of shape d }
{
    let Some(m) = shape.width else {
        return d;
    };
    if d < m {
        return d;
    }
    d + (shape.p - 1 - m)
}

// Where column j, as the equations number it, lies.
pub fn lies_at(shape: Shape, j: usize) -> usize
    requires { WellFormed shape × (j < columns shape) × (is_there shape j ≡ true) }
    ensures { result ≡ lies_at shape j }
{
    let Some(m) = shape.width else {
        return j;
    };
    if j < m {
        return j;
    }
    j - (shape.p - 1 - m)
}

// The equations' number of the cell that a caller calls c.
#[tactic(auto, using(crate::proofs::Bounds::seen))]
pub fn cell_of(shape: Shape, c: usize) -> usize
    requires { WellFormed shape × (c < existing shape) }
    ensures { result ≡ cell_of shape c }
{
    let n = crate::row_count(shape);
    column_of(shape, c / n) * n + c % n
}

// Where column j starts in the stripe's bytes.
#[tactic(auto, using(crate::proofs::Geometry::column_place_is, crate::proofs::Geometry::column_small))]
pub fn column_place(shape: Shape, j: usize) -> usize
    requires { WellFormed shape × (j < columns shape) × (is_there shape j ≡ true) }
    ensures { result ≡ place shape (cell_number shape 0 j) }
{
    lies_at(shape, j) * (crate::row_count(shape) * shape.cell)
}

// Where the cell in a row and a column starts in the stripe's bytes.
pub fn cell_place(shape: Shape, row: usize, column: usize) -> usize
    requires { WellFormed shape × (row < rows shape) × (column < columns shape) × (is_there shape column ≡ true) }
    ensures { result ≡ place shape (cell_number shape row column) }
{
    column_place(shape, column) + row * shape.cell
}

// Where the cell in a row and in the column that a caller calls d starts in the stripe's bytes.
pub fn lent_place(shape: Shape, row: usize, d: usize) -> usize
    requires { WellFormed shape × (row < rows shape) × (d < disks shape) }
    ensures { result ≡ place shape (cell_at shape row d) }
{
    (d * crate::row_count(shape) + row) * shape.cell
}

// Where cell c, as the equations number it, starts in the stripe's bytes.
#[tactic(auto, using(crate::proofs::Bounds::seen))]
pub fn place_of(shape: Shape, c: usize) -> usize
    requires { WellFormed shape × (c < cells shape) × (cell_there shape c ≡ true) }
    ensures { result ≡ place shape c }
{
    let n = crate::row_count(shape);
    cell_place(shape, c % n, c / n)
}
