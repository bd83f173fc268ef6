// Rows of a stripe some of whose data columns don't exist: where the cells start from which a row is rebuilt is listed anew for each row.
ghost use Rattle.std.specs.Prelude.{◌≡◌, ◌+◌, ◌≤◌, ◌<◌, length, get_or};
ghost use Rattle.xor.specs.Runs.{Put};
ghost use Rattle.codes.specs.Shape.{rows, stripe_length};
ghost use Rattle.spare.specs.Places.{stand_in, OthersPut, OthersListed};
ghost use Rattle.spare.specs.Right.{RowsFit};
ghost use Rattle.spare.specs.Run.{rebuilt_byte, RowsRebuilt};

use plan::LostColumn;

// The place that is summed in a place's stead: for that of the lost cell the last one of the equation. No `From`: three numbers are no
// conversion.
fn stand_in(place: usize, own: usize, last: usize) -> usize
    ensures { result ≡ stand_in own last place }
{
    if place == own { last } else { place }
}

// Puts the place after the first n of an equation in the stead of the lost cell's among them, n beside the array as `codes::cells_of` says why.
fn leave_out(places: &mut [usize; codes::PLACES], n: usize, own: usize)
    requires { (n < 32) × (length places.old ≡ 32) }
    ensures { OthersPut n own (get_or places.old n 0) places.old places.new }
{
    let last = places[n];
    for j in 0..n {
        places[j] = stand_in(places[j], own, last);
    }
}

// Lists where the cells start from which row i is rebuilt, and answers how many they are, as `codes::cells_of` does: those that exist of the
// equation by which the plan takes it, but the lost one.
fn list_row(lost: LostColumn, i: usize, places: &mut [usize; codes::PLACES]) -> usize
    requires { (i < rows lost.shape) × (length places.old ≡ 32) }
    ensures { OthersListed lost.shape lost.k lost.plan i result places.new }
{
    let q = lost.equation_of(i);
    let count = codes::cells_of(lost.shape, q, places) - 1;
    let own = codes::cell_place(lost.shape, i, lost.k);
    leave_out(places, count, own);
    count
}

// Rebuilds row i into its part of the spare: the XOR of the other cells of the equation by which the plan takes it.
fn rebuild_row(lost: LostColumn, stripe: &[u8], i: usize, part: &mut [u8])
    requires { (i < rows lost.shape) × (length stripe.now ≡ stripe_length lost.shape) × (length part.old ≡ lost.shape.cell) }
    ensures { Put part.old 0 lost.shape.cell (rebuilt_byte lost.shape lost.k lost.plan stripe.now i) part.new }
{
    let mut places = [0usize; codes::PLACES];
    let count = list_row(lost, i, &mut places);
    let n = part.len();
    xor::put_sum_from(part, 0, stripe, &places[..count], 0, n);
}

// Rebuilds n rows of the spare from the first on, each into its own part: no other byte of the spare changes. It calls itself for
// all but the last: a loop, which would become part of the run, would cost the run at full width up to 4 %.
pub fn run_rows(lost: LostColumn, stripe: &[u8], spare: &mut [u8], first: usize, n: usize)
    requires { RowsFit lost.shape (length stripe.now) (length spare.old) first n }
    ensures { RowsRebuilt lost.shape lost.k lost.plan first n stripe.now spare.old spare.new }
{
    if n == 0 {
        return;
    }
    let others = n - 1;
    run_rows(lost, stripe, spare, first, others);
    let cell = lost.shape.cell;
    let i = first + others;
    let at = i * cell;
    let to = at + cell;
    rebuild_row(lost, stripe, i, &mut spare[at..to]);
}
