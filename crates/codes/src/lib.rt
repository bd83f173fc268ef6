// The shape of a stripe, and the published equations of RDP, H-Code, X-Code and EVENODD.
#![tactic(auto)]

ghost use Rattle.std.specs.Prelude.{◌≡◌, true, false, cond, eqb, ◌+◌, ◌%◌, ◌≤◌, ◌<◌, length};
ghost use Rattle.codes.specs.Shape.{rows, columns, cells, equations, cell_number, disks, existing, stripe_length, WellFormed};
ghost use Rattle.codes.specs.Geometry.{callers_cell, place};
ghost use Rattle.codes.specs.Encoded.{parity_cell, is_parity};
ghost use Rattle.codes.specs.Lines.{shares, takes_shared, Short, Walks, Placed, PlacedAll, Found, Holding, Sharing};
ghost use Rattle.codes.specs.Kinds.{Decodes};
ghost use Rattle.codes.specs.Depends.{DataCell, DependOn};
ghost use Rattle.codes.specs.Holders.{HeldBy, Named};

mod evenodd;
mod hcode;
mod layout;
mod rdp;
mod xcode;

pub use layout::{
    cell_of, cell_place, column_of, column_place, data_columns, lent_place, lies_at, place_of,
};

// Most bytes in a cell.
pub const MOST_CELL: usize = 4096;

// Room for the places of the cells that an equation has by itself.
pub const PLACES: usize = 32;

// The four codes, by their numbers.
#[derive(Clone, Copy, Debug, PartialEq, Eq)]
pub enum Code {
    Rdp = 1,
    HCode = 2,
    XCode = 3,
    Evenodd = 4,
}

// A number that no code has.
#[derive(Clone, Copy, Debug, PartialEq, Eq)]
pub struct UnknownCode(pub usize);

impl TryFrom<usize> for Code {
    type Error = UnknownCode;

    ghost try_from_gives = { Decodes };

    fn try_from(number: usize) -> Result<Self, UnknownCode> {
        match number {
            1 => Ok(Code::Rdp),
            2 => Ok(Code::HCode),
            3 => Ok(Code::XCode),
            4 => Ok(Code::Evenodd),
            _ => Err(UnknownCode(number)),
        }
    }
}

// What describes a stripe: the number of its code, the prime, the bytes in a cell, and how many data columns it has: as many as its code says, or
// of RDP's p - 1 only the first m; those after them don't exist. Any numbers may stand here: one that no code has is refused by the calls.
// That a shape is right stays a clause (`WellFormed`): this crate is one that callers use, and a narrower type would ask more of them.
#[derive(Clone, Copy, Debug, PartialEq, Eq)]
pub struct Shape {
    pub code: usize,
    pub p: usize,
    pub cell: usize,
    pub width: Option<usize>,
}

// The rows, columns and equations of a stripe.
#[derive(Clone, Copy)]
struct Extent {
    rows: usize,
    columns: usize,
    equations: usize,
}

// A line of cells, numbered as they lie: `count` of them from `first` on, each `step` cells past the one before, but cell `turn`, which is
// `second`; and the cell `extra`, if there is one. A line whose `turn` is 0 has no such cell, as its cell 0 is `first`.
#[derive(Clone, Copy)]
struct Line {
    count: usize,
    first: usize,
    step: usize,
    turn: usize,
    second: usize,
    extra: Option<usize>,
}

// The number of an equation's parity cell, as cells lie, and the line of the cells that it sums by itself.
#[derive(Clone, Copy)]
struct Walk {
    to: usize,
    own: Line,
}

// Where in the stripe's bytes an equation's parity cell starts, and how many cells the equation sums by itself.
#[derive(Clone, Copy, Debug, PartialEq, Eq)]
pub struct Sources {
    pub to: usize,
    pub count: usize,
}

// How many rows, columns and equations a stripe has: the one place that tells the codes' sizes apart. The code is tested, here and below: a match
// on `Code` was compiled to a table of jumps, and cost a small write up to 3.8 %, past the 3 % that a row of the benchmark may take.
#[tactic(auto, using(crate::proofs::Bounds::bounds))]
fn extent_of(shape: Shape) -> Extent
    requires { WellFormed shape }
    ensures { (result.rows ≡ rows shape) × (result.columns ≡ columns shape) × (result.equations ≡ equations shape) }
{
    let p = shape.p;
    if shape.code == Code::XCode as usize {
        return Extent {
            rows: p,
            columns: p,
            equations: 2 * p,
        };
    }
    if shape.code == Code::Evenodd as usize {
        return Extent {
            rows: p - 1,
            columns: p + 2,
            equations: 2 * (p - 1),
        };
    }
    Extent {
        rows: p - 1,
        columns: p + 1,
        equations: 2 * (p - 1),
    }
}

// Rows of a stripe.
pub fn row_count(shape: Shape) -> usize
    requires { WellFormed shape }
    ensures { result ≡ rows shape }
{
    extent_of(shape).rows
}

// Columns that exist, each on a disk of its own.
#[tactic(auto, using(crate::proofs::Shapes::high, crate::proofs::Shapes::data_known))]
pub fn disk_count(shape: Shape) -> usize
    requires { WellFormed shape }
    ensures { result ≡ disks shape }
{
    let Some(m) = shape.width else {
        return extent_of(shape).columns;
    };
    m + 2
}

// Equations of a stripe.
pub fn equation_count(shape: Shape) -> usize
    requires { WellFormed shape }
    ensures { result ≡ equations shape }
{
    extent_of(shape).equations
}

// Cells of a stripe as the equations number them.
#[tactic(auto, using(crate::proofs::Shapes::cells_of))]
pub fn cell_numbers(shape: Shape) -> usize
    requires { WellFormed shape }
    ensures { result ≡ cells shape }
{
    extent_of(shape).columns * row_count(shape)
}

// Cells that exist.
#[tactic(auto, using(crate::proofs::Shapes::existing_of))]
pub fn cell_count(shape: Shape) -> usize
    requires { WellFormed shape }
    ensures { result ≡ existing shape }
{
    disk_count(shape) * row_count(shape)
}

// The length of a stripe in bytes.
#[tactic(auto, using(crate::proofs::Shapes::length_of, crate::proofs::Shapes::length_high))]
pub fn stripe_bytes(shape: Shape) -> usize
    requires { WellFormed shape }
    ensures { result ≡ stripe_length shape }
{
    cell_count(shape) * shape.cell
}

// The column that is `step` columns on, from column p - 1 back to 0.
pub fn turned(column: usize, step: usize, p: usize) -> usize
    requires { (column < p) × (step ≤ p) × (p < 32) }
    ensures { result ≡ (column + step) % p }
{
    let next = column + step;
    if p <= next { next - p } else { next }
}

// The parity cell of equation q, and its line.
fn walk_of(shape: Shape, q: usize) -> Walk
    requires { WellFormed shape × (q < equations shape) }
    ensures { Walks shape q result }
{
    if shape.code == Code::HCode as usize {
        return Walk {
            to: hcode::parity(shape, q),
            own: hcode::line(shape, q),
        };
    }
    if shape.code == Code::Rdp as usize {
        return Walk {
            to: rdp::parity(shape, q),
            own: rdp::line(shape, q),
        };
    }
    if shape.code == Code::XCode as usize {
        return Walk {
            to: xcode::parity(shape, q),
            own: xcode::line(shape, q),
        };
    }
    Walk {
        to: evenodd::parity(shape, q),
        own: evenodd::line(shape, q),
    }
}

// Where cell k of a line starts, given where the one before it does; all numbers but k and turn in bytes.
fn next_place(at: usize, step: usize, k: usize, turn: usize, second: usize) -> usize
    requires { (at ≤ 4194304) × (step ≤ 4194304) }
    ensures { result ≡ cond (eqb k turn) second (at + step) }
{
    if k == turn { second } else { at + step }
}

// Fills in where in the stripe's bytes the cells of a line start, but for the extra one.
#[tactic(auto, using(crate::proofs::Stepping::count_most, crate::proofs::Walked::bytes_small))]
fn place_cells(shape: Shape, l: Line, places: &mut [usize; PLACES])
    requires { WellFormed shape × Short l × (length places.old ≡ 32) }
    ensures { Placed shape l places.new }
{
    let cell = shape.cell;
    let step = l.step * cell;
    let second = l.second * cell;
    let mut at = l.first * cell;
    for k in 0..l.count {
        places[k] = at;
        at = next_place(at, step, k + 1, l.turn, second);
    }
}

// Fills in where all cells of a line start, the extra one too, and answers how many they are.
#[tactic(auto, using(crate::proofs::Stepping::count_most, crate::proofs::Walked::bytes_small))]
fn place_line(shape: Shape, l: Line, places: &mut [usize; PLACES]) -> usize
    requires { WellFormed shape × Short l × (length places.old ≡ 32) }
    ensures { PlacedAll shape l result places.new }
{
    place_cells(shape, l, places);
    let Some(extra) = l.extra else {
        return l.count;
    };
    places[l.count] = extra * shape.cell;
    l.count + 1
}

// Where the parity cell of equation q starts; where the cells start that it sums by itself goes into `places`, their count beside it as
// `cells_of` says why.
pub fn sources_of(shape: Shape, q: usize, places: &mut [usize; PLACES]) -> Sources
    requires { WellFormed shape × (q < equations shape) × (length places.old ≡ 32) }
    ensures { Found shape q result places.new }
{
    let walk = walk_of(shape, q);
    let to = walk.to * shape.cell;
    let count = place_line(shape, walk.own, places);
    Sources { to, count }
}

// Fills in where the cells start that equation q has by itself, those that it sums and then its parity cell, and answers how many they are: a
// slice in place of the count would leave nothing to say of the lent array (`Holding` of `places.new`), in which a caller goes on to write.
pub fn cells_of(shape: Shape, q: usize, places: &mut [usize; PLACES]) -> usize
    requires { WellFormed shape × (q < equations shape) × (length places.old ≡ 32) }
    ensures { Holding shape q result places.new }
{
    let Sources { to, count } = sources_of(shape, q, places);
    places[count] = to;
    count + 1
}

// Whether one sum of cells is a part of several equations: EVENODD's S is a part of its diagonals.
pub fn shares(shape: Shape) -> bool
    ensures { result ≡ shares shape }
{
    shape.code == Code::Evenodd as usize
}

// Whether that sum is a part of equation q.
pub fn takes_shared(shape: Shape, q: usize) -> bool
    requires { WellFormed shape }
    ensures { result ≡ takes_shared shape q }
{
    shares(shape) && row_count(shape) <= q
}

// Fills in where the cells of that sum start, the shared ones, and answers how many they are, as `cells_of` does.
pub fn shared_cells(shape: Shape, places: &mut [usize; PLACES]) -> usize
    requires { WellFormed shape × (shares shape ≡ true) × (length places.old ≡ 32) }
    ensures { Sharing shape result places.new }
{
    place_line(shape, evenodd::shared(shape), places)
}

// The number of the parity cell of equation q, as cells lie. The four ways stand in `walk_of` too, which asks for the code once for the cell
// and its line.
fn parity_number(shape: Shape, q: usize) -> usize
    requires { WellFormed shape × (q < equations shape) }
    ensures { result ≡ callers_cell shape (parity_cell shape q) }
{
    if shape.code == Code::XCode as usize {
        return xcode::parity(shape, q);
    }
    if shape.code == Code::Rdp as usize {
        return rdp::parity(shape, q);
    }
    if shape.code == Code::Evenodd as usize {
        return evenodd::parity(shape, q);
    }
    hcode::parity(shape, q)
}

// Where in the stripe's bytes the parity cell of equation q starts.
#[tactic(auto, using(crate::proofs::Walked::parity_at))]
pub fn parity_place(shape: Shape, q: usize) -> usize
    requires { WellFormed shape × (q < equations shape) }
    ensures { result ≡ place shape (parity_cell shape q) }
{
    parity_number(shape, q) * shape.cell
}

// Whether the cell in a row and a column is a parity cell.
pub fn is_parity(shape: Shape, row: usize, column: usize) -> bool
    requires { WellFormed shape × (row < rows shape) × (column < columns shape) }
    ensures { result ≡ is_parity shape (cell_number shape row column) }
{
    if shape.code == Code::Rdp as usize {
        return rdp::is_parity(shape, row, column);
    }
    if shape.code == Code::HCode as usize {
        return hcode::is_parity(shape, row, column);
    }
    if shape.code == Code::Evenodd as usize {
        return evenodd::is_parity(shape, row, column);
    }
    xcode::is_parity(shape, row, column)
}

// The set of the equations numbered a and b, where there are such.
#[tactic(auto, using(crate::proofs::Shapes::small_equations))]
fn named(shape: Shape, a: usize, b: usize) -> u64
    requires { WellFormed shape × (a < 64) × (b < 64) }
    ensures { Named shape a b result }
{
    (bits::one_bit(a) | bits::one_bit(b)) & (bits::one_bit(equation_count(shape)) - 1)
}

// The same where both are known to be there. It stands beside the other since the cut takes eight instructions a cell.
#[tactic(auto, using(crate::proofs::Shapes::small_equations))]
fn pair(shape: Shape, a: usize, b: usize) -> u64
    requires { WellFormed shape × (a < equations shape) × (b < equations shape) }
    ensures { Named shape a b result }
{
    bits::one_bit(a) | bits::one_bit(b)
}

// The set of the equations that hold the cell in a row and a column.
pub fn holders_of(shape: Shape, row: usize, column: usize) -> u64
    requires { WellFormed shape × (row < rows shape) × (column < columns shape) }
    ensures { HeldBy shape (cell_number shape row column) result }
{
    if shape.code == Code::Rdp as usize {
        return rdp::holders(shape, row, column);
    }
    if shape.code == Code::HCode as usize {
        return hcode::holders(shape, row, column);
    }
    if shape.code == Code::Evenodd as usize {
        return evenodd::holders(shape, row, column);
    }
    xcode::holders(shape, row, column)
}

// The set of the equations whose parity cells depend on the data cell in a row and a column: but for RDP, those that hold it.
pub fn dependents_of(shape: Shape, row: usize, column: usize) -> u64
    requires { WellFormed shape × DataCell shape row column }
    ensures { DependOn shape (cell_number shape row column) result }
{
    if shape.code == Code::Rdp as usize {
        return rdp::dependents(shape, row, column);
    }
    if shape.code == Code::HCode as usize {
        return hcode::holders(shape, row, column);
    }
    if shape.code == Code::Evenodd as usize {
        return evenodd::holders(shape, row, column);
    }
    xcode::holders(shape, row, column)
}
