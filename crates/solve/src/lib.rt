// Elimination on at most 63 equations and 64 lost cells. Sets of either are the bits of a u64.
#![tactic(auto)]

ghost use Rattle.std.specs.Prelude.{◌≡◌, ◌≤◌, ◌<◌, length, get_or};
ghost use Rattle.bits.specs.Bit.{Within, FindsLowest};
ghost use Rattle.solve.specs.Masked.{first_cell, starts_at, Holding, AddedBy, Added, Own, Eliminates};

use std::ops::BitXor;

// An equation's first unsolved cell: the lowest of the lost cells that it holds; 64 where it holds none, as trailing zeros have it, which the
// project's rules name here.
fn first_cell(row: u64) -> u32
    ensures { result ≡ first_cell row }
{
    u64::trailing_zeros(row)
}

// The lowest unused equation whose first unsolved cell is number k. `Within` stays a clause: its bound differs from call to call.
fn find_equation(rows: &[u64], unused: u64, k: usize) -> Option<usize>
    requires { Within (length rows.now) unused }
    ensures { FindsLowest (starts_at rows.now unused k) result }
{
    bits::members(unused).find(|q| first_cell(rows[*q]) as usize == k)
}

// The set of the equations that hold lost cell number k.
fn holding(rows: &[u64], k: usize) -> u64
    requires { (length rows.now ≤ 64) × (k < 64) }
    ensures { Holding (length rows.now) rows.now k result }
{
    let cell = bits::one_bit(k);
    let mut members = 0;
    for (q, row) in rows.iter().enumerate() {
        if *row & cell != 0 {
            members = members ^ bits::one_bit(q);
        }
    }
    members
}

// XORs `more` into the value of each member of a set.
pub fn add_to<T: Copy + BitXor<Output = T>>(values: &mut [T], members: u64, more: T)
    requires inside { Within (length values.old) members }
    requires can { (x : T) → T.can_bitxor x more }
    ensures { AddedBy T.bitxor_gives values.old members more values.new }
{
    for r in bits::members(members) {
        values[r] = values[r] ^ more;
    }
}

// Equation q is added to the others: what becomes of their masks, be they of lost cells or of original equations.
fn spread(masks: &mut [u64], others: u64, q: usize)
    requires { Within (length masks.old) others × (q < length masks.old) }
    ensures { Added masks.old others (get_or masks.old q 0) masks.new }
{
    let more = masks[q];
    add_to(masks, others, more);
}

// At first every equation is the sum of itself alone.
fn own_sources(sources: &mut [u64])
    requires { length sources.old ≤ 64 }
    ensures { Own (length sources.old) sources.new }
{
    for (q, source) in sources.iter_mut().enumerate() {
        *source = bits::one_bit(q);
    }
}

// The elimination method: it passes all lost cells, and answers the set of the equations that it didn't use; or it stops at one that has no
// equation. Lent: `rows`, at q the set of the lost cells that equation q holds, which is used up; `sources`, left at q: the set of the
// original equations that q is now the sum of; `chosen`, left at k: the equation chosen for lost cell number k.
pub fn eliminate(rows: &mut [u64], sources: &mut [u64], chosen: &mut [usize]) -> Option<u64>
    requires { (length rows.old < 64) × (length sources.old ≡ length rows.old) × (length chosen.old ≤ 64) }
    ensures { Eliminates (length rows.old) (length chosen.old) rows.old sources.new chosen.new result }
{
    own_sources(sources);
    let mut unused = bits::one_bit(rows.len()) - 1;
    for (k, place) in chosen.iter_mut().enumerate() {
        let q = find_equation(rows, unused, k)?;
        let one = bits::one_bit(q);
        let others = holding(rows, k) ^ one;
        spread(rows, others, q);
        spread(sources, others, q);
        *place = q;
        unused = unused ^ one;
    }
    Some(unused)
}
