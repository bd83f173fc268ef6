// Sets of numbers below 64, each set the bits of a u64: their members and unions.
#![tactic(auto)]

ghost use Rattle.std.specs.Prelude.{◌≡◌, ◌≢◌, ◌^◌, ◌≤◌, ◌<◌, length};
ghost use Rattle.std.specs.Iterator.{at_most};
ghost use Rattle.bits.specs.Bit.{bit, IsLowest, TakesLowest, Members, Union};

// Room for the members of a set.
pub const ROOM: usize = 64;

// The members of a set by rising number: `rest` has those that are still to come.
#[derive(Drop)]
pub struct Rising {
    rest: u64,
}

impl Iterator for Rising {
    type Item = usize;

    ghost next_gives = { λ s r t. TakesLowest s.rest r t.rest };

    ghost remaining = { λ s. at_most s.rest };

    fn next(&mut self) -> Option<usize> {
        if self.rest == 0 {
            return None;
        }
        let q = lowest_bit(self.rest) as usize;
        self.rest = self.rest & (self.rest - 1);
        Some(q)
    }
}

// The members of a set, by rising number.
pub fn members(set: u64) -> Rising
    ensures { result.rest ≡ set }
{
    Rising { rest: set }
}

// The lowest member of a set that is not empty.
pub fn lowest_bit(mask: u64) -> u32
    requires { mask ≢ 0 }
    ensures { (result < 64) × IsLowest 64 (λ k. bit k mask) result }
{
    u64::trailing_zeros(mask)
}

// The set of q alone.
pub fn one_bit(q: usize) -> u64
    requires { q < 64 }
    ensures { result ≡ 2 ^ q }
{
    1u64 << q
}

// Lists the members of a set by rising number, each times `apart`.
pub fn list_members<'a>(set: u64, apart: usize, list: &'a mut [usize; ROOM]) -> &'a [usize]
    requires { apart ≤ 512 }
    ensures { Members set apart result.now }
{
    // how many are listed: what is handed back ends there, so that the count is needed after the loop
    let mut n = 0;
    for r in members(set) {
        list[n] = r * apart;
        n += 1;
    }
    &list[..n]
}

// The union of sets.
pub fn union(sets: &[u64]) -> u64
    ensures { Union sets.now result }
{
    sets.iter().fold(0, |all, set| all | *set)
}
