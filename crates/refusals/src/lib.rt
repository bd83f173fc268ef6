// Why calls are refused, and the checks that they share: of a shape, of a stripe's length, of a small write, and of calls that name cells or
// columns. Each check gives the first refusal in order that applies.
#![tactic(auto)]

ghost use Rattle.std.specs.Prelude.{◌≡◌, true, ℕ, ◌<◌, ltb, length, get_or};
ghost use Rattle.xor.specs.Runs.{Says};
ghost use Rattle.codes.specs.Shape.{listed, rows, missing, wrong_data, disks, WellFormed};
ghost use Rattle.codes.specs.Geometry.{cell_at};
ghost use Rattle.codes.specs.Encoded.{is_parity};
ghost use Rattle.refusals.specs.Number.{number};
ghost use Rattle.refusals.specs.Refusals.{refusal, code_faults, size_faults, shape_faults, stripe_faults, write_faults, cells_faults, columns_faults};

use codes::{Code, Shape};

mod reason;

pub use reason::Refusal;

// Whether p is one of the ten primes.
fn is_listed(p: usize) -> bool
    ensures { result ≡ listed p }
{
    matches!(p, 3 | 5 | 7 | 11 | 13 | 17 | 19 | 23 | 29 | 31)
}

// Whether a number of data columns is given that can't be: outside 1 to p - 1, or for another code than RDP.
fn data_wrong(shape: Shape) -> bool
    ensures { result ≡ wrong_data shape.code shape.p shape.width }
{
    let Some(m) = shape.width else {
        return false;
    };
    if shape.code != Code::Rdp as usize {
        return true;
    }
    if m == 0 {
        return true;
    }
    shape.p <= m
}

// Checks a code, a prime and a number of data columns.
pub fn check_code(shape: Shape) -> Result<(), Refusal>
    ensures { number result ≡ refusal (code_faults shape) }
{
    Code::try_from(shape.code)?;
    if !is_listed(shape.p) {
        return Err(Refusal::Prime);
    }
    if data_wrong(shape) {
        return Err(Refusal::DataColumns);
    }
    Ok(())
}

// Whether some data column doesn't exist.
pub fn is_short(shape: Shape) -> bool
    requires { listed shape.p ≡ true }
    ensures { result ≡ ltb 0 (missing shape) }
{
    let Some(m) = shape.width else {
        return false;
    };
    m < shape.p - 1
}

// Checks a cell size.
pub fn check_size(shape: Shape) -> Result<(), Refusal>
    ensures { number result ≡ refusal (size_faults shape) }
{
    if shape.cell == 0 {
        return Err(Refusal::CellSize);
    }
    if codes::MOST_CELL < shape.cell {
        return Err(Refusal::CellSize);
    }
    Ok(())
}

// Checks a shape by itself: its code, its prime and its data columns, then its cell size.
pub fn check_shape(shape: Shape) -> Result<(), Refusal>
    ensures { number result ≡ refusal (shape_faults shape) }
{
    check_code(shape)?;
    check_size(shape)
}

// Checks what every call on a lent stripe of so many bytes is told.
pub fn check_stripe(shape: Shape, bytes: usize) -> Result<(), Refusal>
    ensures { number result ≡ refusal (stripe_faults shape bytes) }
{
    check_shape(shape)?;
    if bytes != codes::stripe_bytes(shape) {
        return Err(Refusal::Length);
    }
    Ok(())
}

// Whether the cell in a row and in the column that a caller calls d is a parity cell.
fn parity_at(shape: Shape, row: usize, d: usize) -> bool
    requires { WellFormed shape × (row < rows shape) × (d < disks shape) }
    ensures { result ≡ is_parity shape (cell_at shape row d) }
{
    codes::is_parity(shape, row, codes::column_of(shape, d))
}

// Checks what a small write of so many new bytes is told.
pub fn check_write(
    shape: Shape,
    bytes: usize,
    row: usize,
    column: usize,
    new: usize,
) -> Result<(), Refusal>
    ensures { number result ≡ refusal (write_faults shape bytes row column new) }
{
    check_stripe(shape, bytes)?;
    if codes::row_count(shape) <= row {
        return Err(Refusal::Outside);
    }
    if codes::disk_count(shape) <= column {
        return Err(Refusal::Outside);
    }
    if parity_at(shape, row, column) {
        return Err(Refusal::ParityCell);
    }
    if new != shape.cell {
        return Err(Refusal::NewLength);
    }
    Ok(())
}

// Whether all numbers of a list are below n.
fn all_below(numbers: &[usize], n: usize) -> bool
    ensures { Says ((k : ℕ) → k < length numbers.now → get_or numbers.now k 0 < n) result }
{
    numbers.iter().all(|number| *number < n)
}

// Checks what a rebuild of the cells that a list names is told.
pub fn check_cells(shape: Shape, bytes: usize, lost: &[usize]) -> Result<(), Refusal>
    ensures { number result ≡ refusal (cells_faults shape bytes lost.now) }
{
    check_stripe(shape, bytes)?;
    if !all_below(lost, codes::cell_count(shape)) {
        return Err(Refusal::Outside);
    }
    Ok(())
}

// Checks what a rebuild of two columns is told.
pub fn check_columns(shape: Shape, bytes: usize, a: usize, b: usize) -> Result<(), Refusal>
    ensures { number result ≡ refusal (columns_faults shape bytes a b) }
{
    check_stripe(shape, bytes)?;
    let n = codes::disk_count(shape);
    if n <= a {
        return Err(Refusal::Outside);
    }
    if n <= b {
        return Err(Refusal::Outside);
    }
    Ok(())
}
