// Rebuild of lost cells and of columns. Each call takes any numbers and any bytes: what can't be done is refused, with every byte as
// it was.
#![tactic(auto)]

ghost use Rattle.std.specs.Prelude.{◌≡◌, length};
ghost use Rattle.codes.specs.Shape.{stripe_length, WellFormed};
ghost use Rattle.refusals.specs.Number.{number};
ghost use Rattle.decide.specs.Solver.{lost_in, OnlyThere};
ghost use Rattle.rebuild.specs.Rebuild.{Decides, RebuildsCells, RebuildsColumns};
ghost use Rattle.rebuild.specs.Clean.{CleanOrNot};

use codes::Shape;
use equation::Window;
use refusals::Refusal;

// Where nothing is lost the survivors disagree unless every equation holds in every byte.
fn clean_or_not(shape: Shape, stripe: &[u8]) -> Result<(), Refusal>
    requires { WellFormed shape × (length stripe.now ≡ stripe_length shape) }
    ensures { CleanOrNot shape stripe.now (number result) }
{
    match Window::whole(shape, stripe).first_failing() {
        None => Ok(()),
        Some(_) => Err(Refusal::Disagree),
    }
}

// Rebuilds the lost cells of a map, unless they are undetermined or no encoded stripe agrees with the survivors.
fn rebuild_lost(shape: Shape, stripe: &mut [u8], map: [bool; decide::MAP]) -> Result<(), Refusal>
    requires { WellFormed shape × (length stripe.old ≡ stripe_length shape) × OnlyThere shape (lost_in map) }
    ensures { Decides shape (lost_in map) stripe.old (number result) stripe.new }
{
    let mut lost = [decide::NO_CELL; bits::ROOM];
    let mut checks = [0u64; bits::ROOM];
    let Some(way) = decide::decide(shape, map, &mut lost, &mut checks) else {
        return Err(Refusal::Undetermined);
    };
    if way.lost.is_empty() {
        return clean_or_not(shape, stripe);
    }
    let agree = lanes::mend(&way, stripe);
    if agree {
        Ok(())
    } else {
        Err(Refusal::Disagree)
    }
}

// Rebuild cells: the cells that the list names come back as the encoded stripe that agrees with all the others has them.
// Refusals 1, 2, 14, 4, 5, 6, 11 (undetermined) and 12 (survivors disagree), with every byte as it was.
pub fn cells(shape: Shape, stripe: &mut [u8], lost: &[usize]) -> Result<(), Refusal>
    ensures { RebuildsCells shape lost.now stripe.old (number result) stripe.new }
{
    refusals::check_cells(shape, stripe.len(), lost)?;
    let map = decide::mark_cells(shape, lost);
    rebuild_lost(shape, stripe, map)
}

// Rebuild columns: all cells of columns a and b, which may be one and the same. Refusals 1, 2, 14, 4, 5, 6 and 12: two columns are never
// undetermined.
pub fn columns(shape: Shape, stripe: &mut [u8], a: usize, b: usize) -> Result<(), Refusal>
    ensures { RebuildsColumns shape a b stripe.old (number result) stripe.new }
{
    refusals::check_columns(shape, stripe.len(), a, b)?;
    let first = codes::column_of(shape, a);
    let second = codes::column_of(shape, b);
    let map = decide::mark_columns(shape, first, second);
    rebuild_lost(shape, stripe, map)
}
