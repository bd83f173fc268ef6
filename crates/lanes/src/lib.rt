// Sums of equations in lanes: the totals of up to 512 bytes of each equation at a time, in lanes on the stack. By them survivors are
// checked and lost cells are mended.
#![tactic(auto)]

ghost use Rattle.std.specs.Prelude.{◌≡◌, ℕ, ◌+◌, ◌*◌, ◌≤◌, ◌<◌, length, get_or};
ghost use Rattle.std.specs.Int.Bits.{bit_and};
ghost use Rattle.xor.specs.Runs.{Says};
ghost use Rattle.bits.specs.Bit.{Within, Union};
ghost use Rattle.codes.specs.Shape.{equations, stripe_length};
ghost use Rattle.equation.specs.Window.{InCells};
ghost use Rattle.equation.specs.InWindow.{SharesIn};
ghost use Rattle.decide.specs.Solver.{cells_of, sets_of, Sets};
ghost use Rattle.lanes.specs.Lanes.{lane, room, lane_sum, InLane, Totals, Failing, Passes, LanesOf, Filled, Mends};

use decide::{Lost, Way};
use equation::Window;

// Bytes in a lane.
const LANE: usize = 512;

// Bytes in the lanes of all equations that there may be. They are lent as one buffer, beside the window or the way: that what is lent fits is a
// clause (`InLane`), since a type of both would be made anew for each lane.
pub const LANES: usize = 32768;

// Sets n bytes of the lane of each equation in a set to its total in the window's n, with what is shared. Answers which of them fail there: the
// lanes of the others are all zero.
fn put_totals_with(window: &Window, set: u64, shared: &[u8], lanes: &mut [u8]) -> u64
    requires { InLane window.now.n lanes.old × Within (equations window.now.shape) set × SharesIn window.now shared.now }
    ensures { let w = window.now in Totals w.shape w.stripe.now set w.at w.n lanes.new × Failing w.shape w.stripe.now set w.at w.n result }
{
    let mut failing = 0u64;
    for q in bits::members(set) {
        if !window.put_total(q, shared, lanes, q * LANE) {
            failing = failing | bits::one_bit(q);
        }
    }
    failing
}

// Sets n bytes of the lane of each equation in a set to its total in the window's n. Answers which of them fail there.
fn put_totals(window: &Window, set: u64, lanes: &mut [u8]) -> u64
    requires { InLane window.now.n lanes.old × Within (equations window.now.shape) set }
    ensures { let w = window.now in Totals w.shape w.stripe.now set w.at w.n lanes.new × Failing w.shape w.stripe.now set w.at w.n result }
{
    if !codes::shares(window.shape) {
        // nothing is shared: any bytes will do for it
        return put_totals_with(window, set, window.stripe, lanes);
    }
    let mut shared = [0u8; LANE];
    window.put_shared(&mut shared);
    put_totals_with(window, set, &shared, lanes)
}

// Whether the lanes of the failing equations in each of the sets sum to zero in n bytes. Those of the others are zero. One list of
// places serves all sets.
fn lanes_agree(lanes: &[u8], checks: &[u64], failing: u64, n: usize) -> bool
    requires { (length lanes.now ≡ room) × (n ≤ lane) }
    ensures { Says ((j : ℕ) → j < length checks.now → (i : ℕ) → i < n
        → lane_sum lanes.now (bit_and (get_or checks.now j 0) failing) i ≡ 0) result }
{
    let mut room = [0usize; bits::ROOM];
    for check in checks {
        let set = *check & failing;
        if set == 0 {
            continue;
        }
        let places = bits::list_members(set, LANE, &mut room);
        if xor::nonzero_at(lanes, places, 0, n).is_some() {
            return false;
        }
    }
    true
}

// Whether the survivors pass the checks in a window that fits in a lane; `set` is the union of the checks.
fn lane_agrees(window: &Window, checks: &[u64], set: u64, lanes: &mut [u8]) -> bool
    requires { InLane window.now.n lanes.old × Sets window.now.shape (length checks.now) checks.now × Union checks.now set }
    ensures { let w = window.now in
        Says ((i : ℕ) → i < w.n → Passes w.shape w.stripe.now (length checks.now) checks.now (w.at + i)) result × (length lanes.new ≡ room) }
{
    let failing = put_totals(window, set, lanes);
    lanes_agree(lanes, checks, failing, window.n)
}

// Whether the survivors pass the checks in a window, lane by lane.
pub fn survivors_agree(window: &Window, checks: &[u64], lanes: &mut [u8]) -> bool
    requires { Sets window.now.shape (length checks.now) checks.now × (length lanes.old ≡ room) }
    ensures { let w = window.now in
        Says ((i : ℕ) → i < w.n → Passes w.shape w.stripe.now (length checks.now) checks.now (w.at + i)) result × (length lanes.new ≡ room) }
{
    if checks.is_empty() {
        // nothing is left over to check by
        return true;
    }
    let set = bits::union(checks);
    for done in (0..window.n).step_by(LANE) {
        let part = Window {
            shape: window.shape,
            stripe: window.stripe,
            at: window.at + done,
            n: (window.n - done).min(LANE),
        };
        if !lane_agrees(&part, checks, set, lanes) {
            return false;
        }
    }
    true
}

// XORs the lanes of its set into each of the lost cells, in n bytes from `at` on. One list of places serves all sets.
fn fill_cells(way: &Way, stripe: &mut [u8], lanes: &[u8], at: usize, n: usize)
    requires { InCells way.now.shape stripe.old at n × InLane n lanes.now
        × LanesOf way.now.shape stripe.old (length way.now.lost.now) (sets_of way.now.lost.now) at n lanes.now }
    ensures { Filled way.now.shape (cells_of way.now.lost.now) (sets_of way.now.lost.now) (length way.now.lost.now) at (at + n)
        stripe.old stripe.new }
{
    let mut room = [0usize; bits::ROOM];
    for one in way.lost {
        let to = codes::place_of(way.shape, one.cell) + at;
        let places = bits::list_members(one.set, LANE, &mut room);
        xor::add_sum(stripe, to, lanes, places, 0, n);
    }
}

// Mends the lost cells in n bytes from `at` on; `set` is the union of their sets.
fn fill_lane(way: &Way, stripe: &mut [u8], set: u64, at: usize, n: usize, lanes: &mut [u8])
    requires { InCells way.now.shape stripe.old at n × InLane n lanes.old × Union (sets_of way.now.lost.now) set }
    ensures { Filled way.now.shape (cells_of way.now.lost.now) (sets_of way.now.lost.now) (length way.now.lost.now) at (at + n)
        stripe.old stripe.new
        × (length lanes.new ≡ room) }
{
    let window = Window {
        shape: way.shape,
        stripe,
        at,
        n,
    };
    put_totals(&window, set, lanes);
    fill_cells(way, stripe, lanes, at, n);
}

// The union of the sets that give the lost cells. Not by `bits::union`: a type parameter for what has a set would say more than the line does.
fn union_of(lost: &[Lost]) -> u64
    ensures { Union (sets_of lost.now) result }
{
    lost.iter().fold(0, |all, one| all | one.set)
}

// Mends the lost cells.
fn fill(way: &Way, stripe: &mut [u8], lanes: &mut [u8])
    requires { (length stripe.old ≡ stripe_length way.now.shape) × (length lanes.old ≡ room) }
    ensures { Filled way.now.shape (cells_of way.now.lost.now) (sets_of way.now.lost.now) (length way.now.lost.now) 0 way.now.shape.cell
        stripe.old stripe.new }
{
    let set = union_of(way.lost);
    let cell = way.shape.cell;
    for at in (0..cell).step_by(LANE) {
        let n = (cell - at).min(LANE);
        fill_lane(way, stripe, set, at, n, lanes);
    }
}

// Mends the lost cells where the survivors agree. Answers whether they do; where they don't, every byte stays as it was.
pub fn mend(way: &Way, stripe: &mut [u8]) -> bool
    requires { length stripe.old ≡ stripe_length way.now.shape }
    ensures { Mends way.now.shape (cells_of way.now.lost.now) (sets_of way.now.lost.now) (length way.now.lost.now)
        way.now.checks.now (length way.now.checks.now) stripe.old result
        stripe.new }
{
    let mut lanes = [0u8; LANES];
    let agree = survivors_agree(&Window::whole(way.shape, stripe), way.checks, &mut lanes);
    if agree {
        fill(way, stripe, &mut lanes);
    }
    agree
}
