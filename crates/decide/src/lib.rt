// Whether the survivors determine the lost cells, and how these are then found.
#![tactic(auto)]

ghost use Rattle.std.specs.Prelude.{◌≡◌, ℕ, ◌≤◌, ◌<◌, length, get_or, MatchOption};
ghost use Rattle.xor.specs.Sets.{count};
ghost use Rattle.bits.specs.Bit.{Within};
ghost use Rattle.codes.specs.Shape.{columns, cells, equations, existing, WellFormed};
ghost use Rattle.codes.specs.Agree.{in_columns};
ghost use Rattle.decide.specs.Survivors.{named};
ghost use Rattle.decide.specs.Solver.{lost_in, OnlyThere, cells_of, sets_of, Listed, Rows, Gathered, Checks};
ghost use Rattle.decide.specs.Deciding.{Decision};

use codes::Shape;

mod way;

pub use way::Way;

// Room in a map of lost cells for all cells that a stripe may have.
pub const MAP: usize = 990;

// A lost cell, and the set of the equations that gives it.
#[derive(Clone, Copy)]
pub struct Lost {
    pub cell: usize,
    pub set: u64,
}

// No lost cell: what fills the room for them.
pub const NO_CELL: Lost = Lost { cell: 0, set: 0 };

// The map of the cells that a caller's list names. The project's rules name this form here.
pub fn mark_cells(shape: Shape, lost: &[usize]) -> [bool; MAP]
    requires { WellFormed shape × ((k : ℕ) → k < length lost.now → get_or lost.now k 0 < existing shape) }
    ensures { (c : ℕ) → lost_in result c ≡ named shape lost.now c }
{
    let mut map = [false; MAP];
    for number in lost {
        let c = codes::cell_of(shape, *number);
        map[c] = true;
    }
    map
}

// The map of the cells in columns a and b, as the equations number them.
pub fn mark_columns(shape: Shape, a: usize, b: usize) -> [bool; MAP]
    requires { WellFormed shape × (a < columns shape) × (b < columns shape) }
    ensures { (c : ℕ) → c < cells shape → lost_in result c ≡ in_columns shape a b c }
{
    let n = codes::row_count(shape);
    let mut map = [false; MAP];
    for i in 0..n {
        map[a * n + i] = true;
        map[b * n + i] = true;
    }
    map
}

// Lists the lost cells by rising number, unless there are more of them than equations. Room for them is lent as an array: no heap, by the
// project's rules.
fn list_lost<'a>(
    shape: Shape,
    map: [bool; MAP],
    lost: &'a mut [Lost; bits::ROOM],
) -> Option<&'a mut [Lost]>
    requires { WellFormed shape }
    ensures { MatchOption result (equations shape < count (cells shape) (lost_in map)) (λ list. Listed shape map list.now) }
{
    let n = codes::cell_numbers(shape);
    let most = codes::equation_count(shape);
    // how many are found: what is handed back ends there, so that the count is needed after the loop
    let mut u = 0;
    for c in 0..n {
        if map[c] {
            if u == most {
                return None;
            }
            lost[u] = Lost { cell: c, set: 0 };
            u += 1;
        }
    }
    Some(&mut lost[..u])
}

// Fills in for each equation the set of the lost cells that it holds: bit k for lost cell number k.
fn hold_lost(shape: Shape, lost: &[Lost], rows: &mut [u64])
    requires { WellFormed shape × (length lost.now ≤ 64) × ((k : ℕ) → k < length lost.now → get_or (cells_of lost.now) k 0 < cells shape)
        × (length rows.old ≡ equations shape) × ((q : ℕ) → get_or rows.old q 0 ≡ 0) }
    ensures { Rows shape (length lost.now) (cells_of lost.now) rows.new }
{
    let height = codes::row_count(shape);
    for (k, one) in lost.iter().enumerate() {
        let c = one.cell;
        let holders = codes::holders_of(shape, c % height, c / height);
        let bit = bits::one_bit(k);
        solve::add_to(rows, holders, bit);
    }
}

// Gives each lost cell the source of the equation chosen for it.
fn give_sets(lost: &mut [Lost], chosen: &[usize], sources: &[u64])
    requires { (length chosen.now ≡ length lost.old) × ((k : ℕ) → k < length chosen.now → get_or chosen.now k 0 < length sources.now) }
    ensures same { cells_of lost.new ≡ cells_of lost.old }
    ensures given { Gathered chosen.now sources.now (length chosen.now) (sets_of lost.new) }
{
    for (k, one) in lost.iter_mut().enumerate() {
        one.set = sources[chosen[k]];
    }
}

// Lists the sources of the equations in a set.
fn list_checks<'a>(unused: u64, sources: &[u64], checks: &'a mut [u64; bits::ROOM]) -> &'a [u64]
    requires { Within (length sources.now) unused }
    ensures { Checks unused sources.now result.now }
{
    // how many are listed: what is handed back ends there, so that the count is needed after the loop
    let mut v = 0;
    for q in bits::members(unused) {
        checks[v] = sources[q];
        v += 1;
    }
    &checks[..v]
}

// Whether the survivors determine the lost cells, and then the way to them, in what is lent.
pub fn decide<'a>(
    shape: Shape,
    map: [bool; MAP],
    lost: &'a mut [Lost; bits::ROOM],
    checks: &'a mut [u64; bits::ROOM],
) -> Option<Way<'a>>
    requires { WellFormed shape × OnlyThere shape (lost_in map) }
    ensures { Decision shape (lost_in map) result }
{
    let listed = list_lost(shape, map, lost)?;
    let n = codes::equation_count(shape);
    let u = listed.len();
    let mut rows = [0u64; bits::ROOM];
    let mut sources = [0u64; bits::ROOM];
    let mut chosen = [0usize; bits::ROOM];
    let rows = &mut rows[..n];
    let sources = &mut sources[..n];
    let chosen = &mut chosen[..u];
    hold_lost(shape, listed, rows);
    let Some(unused) = solve::eliminate(rows, sources, chosen) else {
        return None;
    };
    give_sets(listed, chosen, sources);
    let tests = list_checks(unused, sources, checks);
    Some(Way {
        shape,
        lost: listed,
        checks: tests,
    })
}
