// RDP with one lost column: a plan of what to read, and which plans are accepted.
// Callers number columns as they lie in the stripe; the rule and the equations number them as published.
#![tactic(auto)]

ghost use Rattle.std.specs.Prelude.{◌≡◌, true};
ghost use Rattle.refusals.specs.Number.{number};
ghost use Rattle.refusals.specs.Refusals.{refusal};
ghost use Rattle.plan.specs.Plan.{ByRule, is_accepted};
ghost use Rattle.plan.specs.Refusals.{rdp_faults, plan_faults};
ghost use Rattle.plan.specs.Right.{RdpColumn};
ghost use Rattle.plan.specs.Plans.{Plans};

use codes::{Code, Shape};
use refusals::Refusal;

mod lost;

pub use lost::LostColumn;

// A plan for one lost column: bit i of `rows` is 1 where row i is taken by its diagonal and 0 where by its row; how many distinct
// cells the plan reads.
#[derive(Clone, Copy, Debug, PartialEq, Eq)]
pub struct ReadPlan {
    pub rows: u64,
    pub reads: usize,
}

// Checks a shape that must be RDP's: its code, its prime and its data columns, that the code is RDP, then its cell size.
pub fn check_rdp(shape: Shape) -> Result<(), Refusal>
    ensures { number result ≡ refusal (rdp_faults shape) }
{
    refusals::check_code(shape)?;
    if shape.code != Code::Rdp as usize {
        return Err(Refusal::OtherCode);
    }
    refusals::check_size(shape)
}

// Checks what a plan for column k is told.
fn check_plan(shape: Shape, k: usize) -> Result<(), Refusal>
    ensures { number result ≡ refusal (plan_faults shape k) }
{
    check_rdp(shape)?;
    if codes::disk_count(shape) <= k {
        return Err(Refusal::Outside);
    }
    Ok(())
}

// Whether a plan is accepted for column k, by the equations' numbers, which callers of this crate may ask of any that lies in a stripe. Row p-1-k of
// a column from 1 to p-1 lies on the missing diagonal and can only be taken by its row; the diagonal parity column can only be taken by its
// diagonals.
pub fn is_accepted(shape: Shape, k: usize, plan: u64) -> bool
    requires { RdpColumn shape k }
    ensures { result ≡ is_accepted shape k plan }
{
    let last = shape.p - 1;
    let bound = bits::one_bit(last);
    if bound <= plan {
        return false;
    }
    if k == shape.p {
        return plan == bound - 1;
    }
    if k == 0 {
        return true;
    }
    plan & bits::one_bit(last - k) == 0
}

// The rows that the rule takes by diagonal: all for column p; else the lowest (p - 1) / 2, or one more of the lowest with row p - 1 - k
// taken out where that is among them.
fn rule_rows(shape: Shape, k: usize) -> u64
    requires { RdpColumn shape k }
    ensures { ByRule shape k result }
{
    let n = shape.p - 1;
    if n < k {
        return bits::one_bit(n) - 1;
    }
    let half = n / 2;
    let left_out = n - k;
    if left_out < half {
        return (bits::one_bit(half + 1) - 1) ^ bits::one_bit(left_out);
    }
    bits::one_bit(half) - 1
}

// Plan: which rows of the lost column at place k to take by diagonal and which by row, and how many distinct cells are then read.
// Refusals 1, 2, 14, 3, 4 and 6.
pub fn plan(shape: Shape, k: usize) -> Result<ReadPlan, Refusal>
    ensures { Plans shape k result }
{
    check_plan(shape, k)?;
    let column = codes::column_of(shape, k);
    let rows = rule_rows(shape, column);
    let lost = LostColumn {
        shape,
        k: column,
        plan: rows,
    };
    let reads = lost.reads();
    Ok(ReadPlan { rows, reads })
}
