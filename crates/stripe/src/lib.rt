// The calls on a lent stripe. Each takes any numbers and any bytes: what can't be done is refused by its number, with every byte as it was.
#![tactic(auto)]

ghost use Rattle.std.specs.Prelude.{◌≡◌, true, ℕ, ◌<◌, length};
ghost use Rattle.std.specs.Int.Count.{ones};
ghost use Rattle.xor.specs.Sets.{count};
ghost use Rattle.bits.specs.Bit.{bit};
ghost use Rattle.codes.specs.Shape.{equations, cell_number, stripe_length, WellFormed};
ghost use Rattle.codes.specs.Geometry.{place};
ghost use Rattle.codes.specs.Depends.{WriteRight};
ghost use Rattle.codes.specs.Encoded.{broken_equations};
ghost use Rattle.equation.specs.Window.{Shares};
ghost use Rattle.equation.specs.InWindow.{SharesIn, is_failing};
ghost use Rattle.refusals.specs.Number.{number};
ghost use Rattle.stripe.specs.Encode.{EncodingOf, Encodes};
ghost use Rattle.stripe.specs.Broken.{Counts};
ghost use Rattle.stripe.specs.Parts.{differs, Spread, FromCell};
ghost use Rattle.stripe.specs.Write.{Written, Depending, Writes};

use codes::Shape;
use equation::Window;
use refusals::Refusal;

// Sets every parity cell with what is shared, equation by equation: what a later equation sums has been set by then.
fn set_parities_with(shape: Shape, stripe: &mut [u8], shared: &[u8])
    requires { WellFormed shape × (length stripe.old ≡ stripe_length shape) × Shares shape stripe.old 0 shape.cell shared.now }
    ensures { EncodingOf shape stripe.old stripe.new }
{
    let n = codes::equation_count(shape);
    for q in 0..n {
        equation::set_parity(shape, stripe, q, 0, shape.cell, shared);
    }
}

// Sets every parity cell. What several equations share is data, and summed once for all of them.
fn set_parities(shape: Shape, stripe: &mut [u8])
    requires { WellFormed shape × (length stripe.old ≡ stripe_length shape) }
    ensures { EncodingOf shape stripe.old stripe.new }
{
    if !codes::shares(shape) {
        // nothing is shared: any bytes will do for it
        let none = [0u8; 1];
        set_parities_with(shape, stripe, &none);
        return;
    }
    let mut shared = [0u8; codes::MOST_CELL];
    Window::whole(shape, stripe).put_shared(&mut shared);
    set_parities_with(shape, stripe, &shared);
}

// Encode: every parity cell is set so that the stripe is encoded, and data cells stay. Refusals 1, 2, 14, 4 and 5.
pub fn encode(shape: Shape, stripe: &mut [u8]) -> Result<(), Refusal>
    ensures { Encodes shape stripe.old (number result) stripe.new }
{
    refusals::check_stripe(shape, stripe.len())?;
    set_parities(shape, stripe);
    Ok(())
}

// How many equations fail in the window, with what is shared.
fn count_failing(window: &Window, shared: &[u8]) -> usize
    requires { SharesIn window.now shared.now }
    ensures { result ≡ count (equations window.now.shape) (is_failing window.now) }
{
    let n = codes::equation_count(window.shape);
    (0..n).filter(|&q| window.fails_with(q, shared)).count()
}

// How many equations fail in at least one byte.
fn count_broken(shape: Shape, stripe: &[u8]) -> usize
    requires { WellFormed shape × (length stripe.now ≡ stripe_length shape) }
    ensures { result ≡ broken_equations shape stripe.now }
{
    let window = Window::whole(shape, stripe);
    if !codes::shares(shape) {
        // nothing is shared: any bytes will do for it
        return count_failing(&window, stripe);
    }
    let mut shared = [0u8; codes::MOST_CELL];
    window.put_shared(&mut shared);
    count_failing(&window, &shared)
}

// Broken: how many equations fail in at least one byte. It only reads. Refusals 1, 2, 14, 4 and 5.
pub fn broken(shape: Shape, stripe: &[u8]) -> Result<usize, Refusal>
    ensures { Counts shape stripe.now result }
{
    refusals::check_stripe(shape, stripe.len())?;
    Ok(count_broken(shape, stripe))
}

// XORs how the bytes of the data cell at `from` differ from the new ones into the parity cell of every equation of a set.
fn spread(shape: Shape, stripe: &mut [u8], set: u64, from: usize, new: &[u8])
    requires { FromCell shape stripe.old from new.now × ((q : ℕ) → bit q set ≡ true → q < equations shape) }
    ensures { Spread shape (λ q. bit q set) (differs stripe.old from new.now) stripe.old
        stripe.new }
{
    for q in bits::members(set) {
        let to = codes::parity_place(shape, q);
        xor::add_difference(stripe, to, from, new);
    }
}

// How many equations a set has.
fn count_members(set: u64) -> usize
    ensures { result ≡ ones set }
{
    u64::count_ones(set) as usize
}

// Writes new bytes into a data cell, by its row and its column as the equations number it, and where it starts, and brings the parity cells that
// depend on it up to date. Answers how many these are.
fn write_cell(
    shape: Shape,
    stripe: &mut [u8],
    row: usize,
    column: usize,
    from: usize,
    new: &[u8],
) -> usize
    requires { WriteRight shape (length stripe.old) row column (length new.now) × (from ≡ place shape (cell_number shape row column)) }
    ensures { Written shape (cell_number shape row column) stripe.old new.now stripe.new
        × Depending shape (cell_number shape row column) result }
{
    let set = codes::dependents_of(shape, row, column);
    spread(shape, stripe, set, from, new);
    xor::put_run(stripe, from, new);
    count_members(set)
}

// Small write: puts new bytes into a data cell, and into the parity cells that depend on it what the equations say.
// Answers how many parity cells depend on the position. Refusals 1, 2, 14, 4, 5, 6, 7 and 8.
pub fn write(
    shape: Shape,
    stripe: &mut [u8],
    row: usize,
    column: usize,
    new: &[u8],
) -> Result<usize, Refusal>
    ensures { Writes shape row column new.now stripe.old stripe.new result }
{
    refusals::check_write(shape, stripe.len(), row, column, new.len())?;
    let inside = codes::column_of(shape, column);
    let from = codes::lent_place(shape, row, column);
    Ok(write_cell(shape, stripe, row, inside, from, new))
}
