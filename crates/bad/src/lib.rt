// The search for a bad column: the one whose replacement alone makes the stripe encoded. The call takes any numbers and any bytes: what can't be
// done is refused by its number.
#![tactic(auto)]

ghost use Rattle.std.specs.Prelude.{◌≡◌, true, ◌<◌};
ghost use Rattle.xor.specs.Runs.{Says};
ghost use Rattle.codes.specs.Shape.{rows, columns, equations, WellFormed};
ghost use Rattle.codes.specs.Geometry.{is_there};
ghost use Rattle.equation.specs.InWindow.{bytes_in, is_failing};
ghost use Rattle.bad.specs.Bad.{Finds};
ghost use Rattle.bad.specs.Candidate.{TotalsOf, Without, Candidate, ExplainsIn, FindingIn};

use codes::Shape;
use equation::Window;
use refusals::Refusal;

// What bad column finds: the stripe is encoded; the one column whose replacement makes it encoded; or neither.
#[derive(Clone, Copy, Debug, PartialEq, Eq)]
pub enum BadColumn {
    Clean,
    Column(usize),
    Unexplained,
}

// The totals of all equations in byte i of the window.
fn totals_at(window: &Window, i: usize) -> [u8; bits::ROOM]
    requires { i < window.now.n }
    ensures { TotalsOf window.now.shape (bytes_in window.now i) result }
{
    let n = codes::equation_count(window.shape);
    let shared = window.shared_byte(i);
    let mut totals = [0u8; bits::ROOM];
    for q in 0..n {
        totals[q] = window.total_byte(q, i, shared);
    }
    totals
}

// What is left of the totals when each cell of a column takes in the total of the lowest equation that holds it.
// Where the column alone is wrong, that is how its cells differ from the right ones, and nothing is left.
fn without_column(shape: Shape, totals: [u8; bits::ROOM], column: usize) -> [u8; bits::ROOM]
    requires { WellFormed shape × (column < columns shape) }
    ensures { Without shape totals column (rows shape) result }
{
    let rows = codes::row_count(shape);
    let mut rest = totals;
    for i in 0..rows {
        let held = codes::holders_of(shape, i, column);
        let first = bits::lowest_bit(held) as usize;
        let x = totals[first];
        solve::add_to(&mut rest, held, x);
    }
    rest
}

// The place of the first column without which nothing is left of the totals. A labelled loop, left by `break` with the column: the project's
// rules name this form here.
fn candidate(shape: Shape, totals: [u8; bits::ROOM]) -> Option<usize>
    requires { WellFormed shape }
    ensures { Candidate shape totals result }
{
    let disks = codes::disk_count(shape);
    let equations = codes::equation_count(shape);
    let mut d = 0;
    let found = 'columns: loop {
        if d == disks {
            break 'columns None;
        }
        let rest = without_column(shape, totals, codes::column_of(shape, d));
        for q in 0..equations {
            if rest[q] != 0 {
                d += 1;
                continue 'columns;
            }
        }
        break 'columns Some(d);
    };
    found
}

// Whether one column that exists alone explains the window.
fn column_agrees(window: &Window, column: usize) -> bool
    requires { (column < columns window.now.shape) × (is_there window.now.shape column ≡ true) }
    ensures { let w = window.now in Says (ExplainsIn w.shape w.stripe.now w.at w.n column) result }
{
    let map = decide::mark_columns(window.shape, column, column);
    let mut lost = [decide::NO_CELL; bits::ROOM];
    let mut checks = [0u64; bits::ROOM];
    let Some(way) = decide::decide(window.shape, map, &mut lost, &mut checks) else {
        return false;
    };
    let mut lanes = [0u8; lanes::LANES];
    lanes::survivors_agree(window, way.checks, &mut lanes)
}

// The bad column of a window, in which equation q fails. At the first byte in which it does at most one column can
// explain what fails, and that one is then held to all of them.
fn name_column(window: &Window, q: usize) -> BadColumn
    requires { (q < equations window.now.shape) × (is_failing window.now q ≡ true) }
    ensures { let w = window.now in FindingIn w.shape w.stripe.now w.at w.n result }
{
    let i = window.failing_byte(q);
    let totals = totals_at(window, i);
    let Some(d) = candidate(window.shape, totals) else {
        return BadColumn::Unexplained;
    };
    if column_agrees(window, codes::column_of(window.shape, d)) {
        return BadColumn::Column(d);
    }
    BadColumn::Unexplained
}

// What is found in a window.
fn find(window: &Window) -> BadColumn
    ensures { let w = window.now in FindingIn w.shape w.stripe.now w.at w.n result }
{
    match window.first_failing() {
        None => BadColumn::Clean,
        Some(q) => name_column(window, q),
    }
}

// Bad column: clean if the stripe is encoded; else the one column whose replacement alone makes it encoded; else unexplained.
// It only reads. Refusals 1, 2, 14, 4 and 5.
pub fn bad_column(shape: Shape, stripe: &[u8]) -> Result<BadColumn, Refusal>
    ensures { Finds shape stripe.now result }
{
    refusals::check_stripe(shape, stripe.len())?;
    Ok(find(&Window::whole(shape, stripe)))
}
