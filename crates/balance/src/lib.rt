// RDP with one lost column: the balanced plan, by which each surviving column below p is read as often as the others.
// Columns are numbered as they lie in the stripe; where all exist, as they have to here, the equations number them alike.
#![tactic(auto)]

ghost use Rattle.std.specs.Prelude.{◌≡◌};
ghost use Rattle.refusals.specs.Number.{number};
ghost use Rattle.refusals.specs.Refusals.{refusal};
ghost use Rattle.balance.specs.Balance.{offered};
ghost use Rattle.balance.specs.Refusals.{balance_faults};
ghost use Rattle.balance.specs.Balances.{Balances};

use codes::{Code, Shape};
use plan::ReadPlan;
use refusals::Refusal;

mod table;

// Whether balanced plans are offered for a prime.
fn is_offered(p: usize) -> bool
    ensures { result ≡ offered p }
{
    matches!(p, 3 | 7 | 11 | 19 | 23 | 31)
}

// Checks what a balanced plan for column k is told.
fn check_balance(shape: Shape, k: usize) -> Result<(), Refusal>
    ensures { number result ≡ refusal (balance_faults shape k) }
{
    refusals::check_code(shape)?;
    if refusals::is_short(shape) {
        return Err(Refusal::DataColumns);
    }
    if shape.code != Code::Rdp as usize {
        return Err(Refusal::OtherCode);
    }
    if !is_offered(shape.p) {
        return Err(Refusal::OtherPrime);
    }
    refusals::check_size(shape)?;
    if shape.p <= k {
        return Err(Refusal::Outside);
    }
    Ok(())
}

// Balanced plan: the rows of the lost column k that go by diagonal, so that each surviving column below p is read as often as the others, and
// how many distinct cells are then read. Refusals 1, 2, 14, 3, 15, 4 and 6.
pub fn balanced_plan(shape: Shape, k: usize) -> Result<ReadPlan, Refusal>
    ensures { Balances shape k result }
{
    check_balance(shape, k)?;
    let n = shape.p - 1;
    Ok(ReadPlan {
        rows: table::plan_of(shape.p, k),
        reads: 3 * n * n / 4,
    })
}
