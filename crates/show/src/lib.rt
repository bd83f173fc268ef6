// A look at a cell of an RDP stripe while one column is being rebuilt into a spare. It takes any numbers and any bytes: what can't be done is
// refused. Callers number columns as they lie in the stripe.
#![tactic(auto)]

ghost use Rattle.std.specs.Prelude.{◌≡◌};
ghost use Rattle.refusals.specs.Number.{number, number_if};
ghost use Rattle.refusals.specs.Refusals.{refusal};
ghost use Rattle.show.specs.Refusals.{show_faults};
ghost use Rattle.show.specs.Show.{reason, Shown, Shows};

use codes::Shape;
use refusals::Refusal;

// Where a shown cell starts: in the stripe or in the spare.
#[derive(Clone, Copy, Debug, PartialEq, Eq)]
pub enum ShownAt {
    Stripe(usize),
    Spare(usize),
}

// Checks what a show of a row and a column is told while the one at place k is being rebuilt.
fn check_show(
    shape: Shape,
    bytes: usize,
    spare: usize,
    k: usize,
    done: usize,
    row: usize,
    column: usize,
) -> Result<(), Refusal>
    ensures { number result ≡ refusal (show_faults shape bytes spare k done row column) }
{
    spare::check_spare(shape, bytes, spare)?;
    if codes::row_count(shape) <= row {
        return Err(Refusal::Outside);
    }
    let columns = codes::disk_count(shape);
    if columns <= column {
        return Err(Refusal::Outside);
    }
    if columns <= k {
        return Err(Refusal::Outside);
    }
    if shape.p <= done {
        return Err(Refusal::Outside);
    }
    if column != k {
        return Ok(());
    }
    if done <= row {
        return Err(Refusal::NotRebuilt);
    }
    Ok(())
}

// Where show finds the cell: in the stripe if its column is another than k, in the spare if its row is done; or why it is refused. For callers
// that can't be handed a part.
pub fn shown_at(
    shape: Shape,
    bytes: usize,
    spare: usize,
    k: usize,
    done: usize,
    row: usize,
    column: usize,
) -> Result<ShownAt, Refusal>
    ensures { Shown shape bytes spare k done row column result }
{
    check_show(shape, bytes, spare, k, done, row, column)?;
    if column == k {
        let at = row * shape.cell;
        return Ok(ShownAt::Spare(at));
    }
    let lies = codes::column_of(shape, column);
    Ok(ShownAt::Stripe(codes::cell_place(shape, row, lies)))
}

// Show: the cell in a row and a column while column k is being rebuilt and the rows below `done` are in the spare: that very part of the
// stripe, or of the spare. An empty part where it is refused, as `Shows` promises: show_reason tells why.
pub fn show<'a>(
    shape: Shape,
    stripe: &'a [u8],
    spare: &'a [u8],
    k: usize,
    done: usize,
    row: usize,
    column: usize,
) -> &'a [u8]
    ensures { Shows shape k done row column stripe.entry spare.entry result }
{
    let cell = shape.cell;
    match shown_at(shape, stripe.len(), spare.len(), k, done, row, column) {
        Ok(ShownAt::Stripe(at)) => &stripe[at..at + cell],
        Ok(ShownAt::Spare(at)) => &spare[at..at + cell],
        Err(_) => &stripe[0..0],
    }
}

// Why show gives an empty part: refusal 1, 2, 14, 3, 4, 5, 6 or 10; none where it gives the cell.
pub fn show_reason(
    shape: Shape,
    stripe: &[u8],
    spare: &[u8],
    k: usize,
    done: usize,
    row: usize,
    column: usize,
) -> Option<Refusal>
    ensures { number_if result ≡ reason shape k done row column stripe.entry spare.entry }
{
    check_show(shape, stripe.len(), spare.len(), k, done, row, column).err()
}
