// RDP with one lost column: the rebuild by plan into a spare column.
// Each call takes any numbers and any bytes: what can't be done is refused, with every byte as it was. Callers number columns as
// they lie in the stripe; past the refusals column k is as the equations number it.
#![tactic(auto)]

ghost use Rattle.std.specs.Prelude.{◌≡◌, ◌+◌, ◌-◌, ◌*◌, ◌≤◌, ◌<◌, min, length};
ghost use Rattle.codes.specs.Shape.{rows, missing, WellFormed};
ghost use Rattle.refusals.specs.Number.{number};
ghost use Rattle.refusals.specs.Refusals.{refusal};
ghost use Rattle.plan.specs.Right.{RdpColumn};
ghost use Rattle.spare.specs.Refusals.{spare_faults, run_faults};
ghost use Rattle.spare.specs.Right.{RowsFit};
ghost use Rattle.spare.specs.Places.{LevelPlaces, leader, ColumnPut, SlantPlaces, Aimed, RowReady, RowDone};
ghost use Rattle.spare.specs.Run.{RowsRebuilt, RunsByPlan};

use codes::Shape;
use plan::LostColumn;
use refusals::Refusal;

mod short;

pub use plan::{ReadPlan, plan};

// Where the cells start from which rows are rebuilt is listed for all rows at once: slots 0 to 63 for rows that are taken by diagonal, two for each
// column; slots from this on for those that are taken by row, one for each column.
const LEVEL: usize = 2 * codes::PLACES;

// All slots.
const SLOTS: usize = LEVEL + codes::PLACES;

// Where in the list a row's own places start, and how many cells past them its cells do.
#[derive(Clone, Copy)]
struct Window {
    from: usize,
    ahead: usize,
}

// Checks what every call on a lent stripe and a lent spare of so many bytes is told.
pub fn check_spare(shape: Shape, bytes: usize, spare: usize) -> Result<(), Refusal>
    ensures { number result ≡ refusal (spare_faults shape bytes spare) }
{
    plan::check_rdp(shape)?;
    if bytes != codes::stripe_bytes(shape) {
        return Err(Refusal::Length);
    }
    if spare != codes::row_count(shape) * shape.cell {
        return Err(Refusal::Length);
    }
    Ok(())
}

// Checks what a run for the column at place k by a plan from a first row on is told.
fn check_run(
    shape: Shape,
    bytes: usize,
    spare: usize,
    k: usize,
    plan: u64,
    first: usize,
) -> Result<(), Refusal>
    ensures { number result ≡ refusal (run_faults shape bytes spare k plan first) }
{
    check_spare(shape, bytes, spare)?;
    if codes::disk_count(shape) <= k {
        return Err(Refusal::Outside);
    }
    if shape.p <= first {
        return Err(Refusal::Outside);
    }
    if !plan::is_accepted(shape, codes::column_of(shape, k), plan) {
        return Err(Refusal::PlanNotAccepted);
    }
    Ok(())
}

// The column that leads: the one that lies first, or column 0 where that is the diagonal parity column. No other of the first p columns starts
// less than a column into the stripe.
fn leading(shape: Shape) -> usize
    requires { WellFormed shape × (shape.code ≡ 1) }
    ensures { result ≡ leader shape }
{
    codes::turned(0, codes::column_of(shape, 0), shape.p)
}

// Fills in the two slots of the column that is t past the one that leads: that for a diagonal which meets it in a row t rows above, and p
// slots later that for one which meets it in a row p - t rows below. The places are lent whole, here and below: no heap, by the project's rules.
fn put_column(places: &mut [usize; SLOTS], p: usize, t: usize, above: usize, below: usize)
    requires { (p < 32) × (t < p) × (length places.old ≡ 96) }
    ensures { ColumnPut p t above below places.old places.new }
{
    let slot = p - 1 - t;
    places[slot] = above;
    places[slot + p] = below;
}

// Lists where the first p columns start, for rows, and where the cells of a diagonal do that meets the column that leads in row 0: one that meets it
// in row r has its own, row after row, from slot p - 1 - r on, each r cells further on.
fn list_places(shape: Shape, lead: usize, places: &mut [usize; SLOTS])
    requires { WellFormed shape × (shape.code ≡ 1) × (missing shape ≡ 0) × (lead ≡ leader shape) × (length places.old ≡ 96) }
    ensures { LevelPlaces shape shape.p places.new × SlantPlaces shape shape.p places.new }
{
    let p = shape.p;
    let turn = p * shape.cell;
    let mut back = 0;
    for t in 0..p {
        let column = codes::turned(t, lead, p);
        let start = codes::column_place(shape, column);
        let above = start - back;
        put_column(places, p, t, above, above + turn);
        places[LEVEL + column] = start;
        back += shape.cell;
    }
}

// Puts the place of a row's parity cell in for that of column k's cell, where rows sum that.
fn swap_row_parity(shape: Shape, k: usize, places: &mut [usize; SLOTS])
    requires { RdpColumn shape k × LevelPlaces shape shape.p places.old × SlantPlaces shape shape.p places.old }
    ensures { LevelPlaces shape k places.new × SlantPlaces shape k places.new }
{
    let n = shape.p - 1;
    if k < n {
        places[LEVEL + k] = places[LEVEL + n];
    }
}

// The window of row i: its places by its row, or by its diagonal, which has the place of the diagonal's parity cell put in for column k's.
fn aim(lost: LostColumn, lead: usize, i: usize, places: &mut [usize]) -> Window
    requires { (i < rows lost.shape) × (missing lost.shape ≡ 0) × (lead ≡ leader lost.shape) × LevelPlaces lost.shape lost.k places.old
        × SlantPlaces lost.shape lost.k places.old }
    ensures { Aimed lost.shape lost.k lost.plan i result places.new }
{
    let plan = lost.plan;
    if plan & bits::one_bit(i) == 0 {
        return Window {
            from: LEVEL,
            ahead: i,
        };
    }
    let p = lost.shape.p;
    let d = codes::turned(i, lost.k, p);
    let ahead = codes::turned(d, p - lead, p);
    let from = p - 1 - ahead;
    if lost.k < p {
        places[from + i] = codes::cell_place(lost.shape, d, p) - ahead * lost.shape.cell;
    }
    Window { from, ahead }
}

// Rebuilds row i into its part of the spare: the XOR of the other cells of the equation by which the plan takes it.
fn rebuild_row(
    lost: LostColumn,
    stripe: &[u8],
    places: &mut [usize],
    lead: usize,
    i: usize,
    part: &mut [u8],
)
    requires { RowReady lost.shape (length stripe.now) lead lost.k i places.old (length part.old) }
    ensures { RowDone lost.shape lost.k lost.plan i stripe.now part.old part.new places.new }
{
    let window = aim(lost, lead, i, places);
    let from = window.from;
    let to = from + (lost.shape.p - 1);
    let at = window.ahead * lost.shape.cell;
    let n = part.len();
    xor::put_sum_from(part, 0, stripe, &places[from..to], at, n);
}

// Rebuilds n rows of the spare from the first on, each into its own part: no other byte of the spare changes. Where their cells start is
// listed once, for all of them: every column exists.
fn run_full(lost: LostColumn, stripe: &[u8], spare: &mut [u8], first: usize, n: usize)
    requires { RowsFit lost.shape (length stripe.now) (length spare.old) first n × (missing lost.shape ≡ 0) }
    ensures { RowsRebuilt lost.shape lost.k lost.plan first n stripe.now spare.old spare.new }
{
    let mut places = [0usize; SLOTS];
    let lead = leading(lost.shape);
    list_places(lost.shape, lead, &mut places);
    swap_row_parity(lost.shape, lost.k, &mut places);
    let cell = lost.shape.cell;
    for i in first..first + n {
        let at = i * cell;
        let to = at + cell;
        rebuild_row(lost, stripe, &mut places, lead, i, &mut spare[at..to]);
    }
}

// Rebuilds n rows of the spare from the first on, each into its own part: no other byte of the spare changes. Where some column doesn't exist
// the rows go a way of their own, which cost the others up to 4 % as one; `RowsFit` stays a clause: a value can't hold what is written.
fn run_rows(lost: LostColumn, stripe: &[u8], spare: &mut [u8], first: usize, n: usize)
    requires { RowsFit lost.shape (length stripe.now) (length spare.old) first n }
    ensures { RowsRebuilt lost.shape lost.k lost.plan first n stripe.now spare.old spare.new }
{
    if !refusals::is_short(lost.shape) {
        let full = LostColumn {
            shape: Shape {
                width: None,
                ..lost.shape
            },
            k: lost.k,
            plan: lost.plan,
        };
        run_full(full, stripe, spare, first, n);
        return;
    }
    short::run_rows(lost, stripe, spare, first, n);
}

// How many rows are left from the first on.
fn rows_left(shape: Shape, first: usize) -> usize
    requires { WellFormed shape × (shape.code ≡ 1) × (first < shape.p) }
    ensures { result ≡ rows shape - first }
{
    shape.p - 1 - first
}

// Run by plan: rebuilds the column at place k of an RDP stripe into the spare, from the first row on and at most as many rows as the budget.
// Answers how many: the smaller of the budget and of the rows left. Refusals 1, 2, 14, 3, 4, 5, 6 and 9, with every byte as it was.
pub fn run(
    shape: Shape,
    stripe: &[u8],
    k: usize,
    plan: u64,
    spare: &mut [u8],
    first: usize,
    budget: usize,
) -> Result<usize, Refusal>
    ensures { RunsByPlan shape k plan first budget stripe.now spare.old spare.new result }
{
    check_run(shape, stripe.len(), spare.len(), k, plan, first)?;
    let left = rows_left(shape, first);
    let n = budget.min(left);
    let column = codes::column_of(shape, k);
    let lost = LostColumn {
        shape,
        k: column,
        plan,
    };
    run_rows(lost, stripe, spare, first, n);
    Ok(n)
}
