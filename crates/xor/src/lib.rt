// XOR of runs of bytes in slices: what nearly all the work on a stripe is made of.
// A run is summed a block at a time. Whatever stores a sum answers whether the bytes that it stored are all zero.
#![tactic(auto)]

ghost use Rattle.std.specs.Prelude.{◌≡◌, ◌==◌, true, false, not, MatchOption, ℕ, min, ◌+◌, ◌-◌, ◌^◌, ◌≤◌, ◌<◌, length, get_or, position};
ghost use Rattle.std.specs.Iterator.{at_most};
ghost use Rattle.xor.specs.Xor.{◌⊕◌};
ghost use Rattle.xor.specs.Runs.{sum_at, changed_by, added_to, Inside, Apart, Beside, Added, Put, Says, Summed, NonzeroAt};

// The bytes of a block: that many stay in registers. Runs, their places, where in them and how many bytes are parameters of each leaf: a type of
// these would be made anew for every block.
const BLOCK: usize = 128;

// Where the blocks of a run of n bytes start: one after the other, the last less far where it would end past the run. Over a range of
// blocks, by steps or counted, a run took 1.05 times the instructions.
#[derive(Drop)]
struct Blocks {
    done: usize,
    n: usize,
}

impl Iterator for Blocks {
    type Item = usize;

    ghost can_next = { λ s. 128 ≤ s.n };

    ghost next_gives = { λ s r t. MatchOption r (s.n ≤ s.done) (λ at.
        (at ≡ min s.done (s.n - 128)) × (t.done ≡ at + 128) × (t.n ≡ s.n) × (s.done < s.n)) };

    ghost remaining = { λ s. at_most (s.n - s.done) };

    fn next(&mut self) -> Option<usize> {
        if self.n <= self.done {
            return None;
        }
        let at = self.done.min(self.n - BLOCK);
        self.done = at + BLOCK;
        Some(at)
    }
}

// The block `sum` with n bytes of s, from `at` on, XORed in.
fn add_bytes(sum: [u8; BLOCK], s: &[u8], at: usize, n: usize) -> [u8; BLOCK]
    requires { (n ≤ 128) × (at + n ≤ length s.now) }
    ensures { Added sum n (λ i. get_or s.now (at + i) 0) result }
{
    let mut added = sum;
    for i in 0..n {
        added[i] ^= s[at + i];
    }
    added
}

// The block `sum` with n bytes from `at` on of the run at each place XORed in.
fn add_runs(sum: [u8; BLOCK], s: &[u8], places: &[usize], at: usize, n: usize) -> [u8; BLOCK]
    requires { (n ≤ 128) × Inside (length s.now) places.now (at + n) }
    ensures { Added sum n (λ i. sum_at s.now places.now (at + i)) result }
{
    let mut added = sum;
    for place in places {
        // a call's array is given a name: it can't be laid where another stands
        let next = add_bytes(added, s, *place + at, n);
        added = next;
    }
    added
}

// A block with n bytes from `at` on of the XOR of the runs at the places. It starts from the last run, which saves XORing it into zeros.
// With `split_last` the emptiness is asked again for each block: bad column took 1.04 times the instructions.
fn sum_runs(s: &[u8], places: &[usize], at: usize, n: usize) -> [u8; BLOCK]
    requires { (n ≤ 128) × Inside (length s.now) places.now (at + n) }
    ensures { (i : ℕ) → i < n → get_or result i 0 ≡ sum_at s.now places.now (at + i) }
{
    if places.is_empty() {
        return [0u8; BLOCK];
    }
    let last = places.len() - 1;
    let own = add_bytes([0u8; BLOCK], s, places[last] + at, n);
    add_runs(own, s, &places[..last], at, n)
}

// Stores n bytes of a block in s, from `at` on. Answers whether they are all zero.
fn put_bytes(s: &mut [u8], at: usize, block: [u8; BLOCK], n: usize) -> bool
    requires { (n ≤ 128) × (at + n ≤ length s.old) }
    ensures { Summed s.old at n (λ i. get_or block i 0) s.new result }
{
    let mut stored = 0u8;
    for i in 0..n {
        stored |= block[i];
        s[at + i] = block[i];
    }
    stored == 0
}

// Whether the first n bytes of a block are all zero.
fn all_zero(block: [u8; BLOCK], n: usize) -> bool
    requires { n ≤ 128 }
    ensures { Says ((i : ℕ) → i < n → get_or block i 0 ≡ 0) result }
{
    let mut bits = 0u8;
    for i in 0..n {
        bits |= block[i];
    }
    bits == 0
}

// Sets n bytes of the run at `to`, from `at` on, to the XOR of the runs at the places. Answers whether they are all zero.
// From zeros: by sum_runs encode takes 0.85 of the instructions, and broken is above its bar of 1.15 times encode. Beside put_block_from, since
// one slice can't be lent to be read and to be written.
fn put_block(s: &mut [u8], places: &[usize], to: usize, at: usize, n: usize) -> bool
    requires { (n ≤ 128) × Inside (length s.old) places.now (at + n) × (to + at + n ≤ length s.old) }
    ensures { Summed s.old (to + at) n (λ t. sum_at s.old places.now (at + t))
        s.new result }
{
    let sum = add_runs([0u8; BLOCK], s, places, at, n);
    put_bytes(s, to + at, sum, n)
}

// Sets n bytes of the run at `to`, from `at` on, to the XOR of the runs at the places, which it does not meet. Answers whether they are all
// zero.
pub fn put_sum(s: &mut [u8], places: &[usize], to: usize, at: usize, n: usize) -> bool
    requires { Inside (length s.old) places.now (at + n) × Apart places.now to (at + n) × (to + at + n ≤ length s.old) }
    ensures { Summed s.old (to + at) n (λ t. sum_at s.old places.now (at + t)) s.new result }
{
    if n < BLOCK {
        return put_block(s, places, to, at, n);
    }
    let mut zero = true;
    for next in (Blocks { done: 0, n }) {
        zero &= put_block(s, places, to, at + next, BLOCK);
    }
    zero
}

// Sets n bytes of d at `to` to those from `at` on of the XOR of the runs of s at the places. Answers whether they are all zero.
fn put_block_from(d: &mut [u8], to: usize, s: &[u8], places: &[usize], at: usize, n: usize) -> bool
    requires { (n ≤ 128) × Inside (length s.now) places.now (at + n) × (to + n ≤ length d.old) }
    ensures { Summed d.old to n (λ t. sum_at s.now places.now (at + t)) d.new result }
{
    let sum = sum_runs(s, places, at, n);
    put_bytes(d, to, sum, n)
}

// Sets the run of n bytes of d at `to` to those from `at` on of the XOR of the runs of s at the places. Answers whether they are all zero.
// Compiled anew for each caller: shared by two it was seen to cost a run at full width its speed.
#[inline(always)]
pub fn put_sum_from(
    d: &mut [u8],
    to: usize,
    s: &[u8],
    places: &[usize],
    at: usize,
    n: usize,
) -> bool
    requires { Inside (length s.now) places.now (at + n) × (to + n ≤ length d.old) × (at + n < 2 ^ 64) }
    ensures { Summed d.old to n (λ t. sum_at s.now places.now (at + t)) d.new result }
{
    if n < BLOCK {
        return put_block_from(d, to, s, places, at, n);
    }
    let mut zero = true;
    for next in (Blocks { done: 0, n }) {
        zero &= put_block_from(d, to + next, s, places, at + next, BLOCK);
    }
    zero
}

// Whether n bytes of the XOR of the runs at the places, from `at` on, are all zero. Nothing of it is kept, and it stops at the first block
// that is not.
pub fn sums_to_zero(s: &[u8], places: &[usize], at: usize, n: usize) -> bool
    requires { Inside (length s.now) places.now (at + n) × (at + n < 2 ^ 64) }
    ensures { Says ((t : ℕ) → t < n → sum_at s.now places.now (at + t) ≡ 0) result }
{
    if n < BLOCK {
        return all_zero(sum_runs(s, places, at, n), n);
    }
    for next in (Blocks { done: 0, n }) {
        let sum = sum_runs(s, places, at + next, BLOCK);
        if !all_zero(sum, BLOCK) {
            return false;
        }
    }
    true
}

// Byte t of the XOR of the runs at the places.
pub fn sum_byte(s: &[u8], places: &[usize], t: usize) -> u8
    requires { Inside (length s.now) places.now (t + 1) }
    ensures { result ≡ sum_at s.now places.now t }
{
    let mut sum = 0u8;
    for place in places {
        sum ^= s[*place + t];
    }
    sum
}

// The first of some bytes that is not zero.
fn nonzero_byte(bytes: &[u8]) -> Option<usize>
    ensures { result ≡ position (λ byte. not (byte == 0)) bytes.now }
{
    bytes.iter().position(|byte| *byte != 0)
}

// One of n bytes of the XOR of the runs at the places, from `at` on, that is not zero; none where all are.
fn nonzero_block(s: &[u8], places: &[usize], at: usize, n: usize) -> Option<usize>
    requires { (n ≤ 128) × Inside (length s.now) places.now (at + n) }
    ensures { NonzeroAt (λ t. sum_at s.now places.now (at + t)) n result }
{
    let sum = sum_runs(s, places, at, n);
    if all_zero(sum, n) {
        return None;
    }
    nonzero_byte(&sum[..n])
}

// One of n bytes of the XOR of the runs at the places, from `at` on, that is not zero, in blocks; none where all are.
pub fn nonzero_at(s: &[u8], places: &[usize], at: usize, n: usize) -> Option<usize>
    requires { Inside (length s.now) places.now (at + n) × (at + n < 2 ^ 64) }
    ensures { NonzeroAt (λ t. sum_at s.now places.now (at + t)) n result }
{
    if n < BLOCK {
        return nonzero_block(s, places, at, n);
    }
    for next in (Blocks { done: 0, n }) {
        if let Some(i) = nonzero_block(s, places, at + next, BLOCK) {
            return Some(next + i);
        }
    }
    None
}

// XORs into n bytes of d at `to` those from `at` on of the runs of s at the places. Answers whether they are all zero now.
fn add_block_sum(d: &mut [u8], to: usize, s: &[u8], places: &[usize], at: usize, n: usize) -> bool
    requires { (n ≤ 128) × Inside (length s.now) places.now (at + n) × (to + n ≤ length d.old) }
    ensures { Summed d.old to n (added_to d.old to s.now places.now at) d.new result }
{
    let own = add_bytes([0u8; BLOCK], d, to, n);
    let sum = add_runs(own, s, places, at, n);
    put_bytes(d, to, sum, n)
}

// XORs into the run of n bytes of d at `to` those from `at` on of the runs of s at the places. Answers whether it is all zero now.
// Compiled anew for each caller: shared by two it was seen to cost the rebuilds their speed.
#[inline(always)]
pub fn add_sum(d: &mut [u8], to: usize, s: &[u8], places: &[usize], at: usize, n: usize) -> bool
    requires { Inside (length s.now) places.now (at + n) × (to + n ≤ length d.old) }
    ensures { Summed d.old to n (added_to d.old to s.now places.now at) d.new result }
{
    if places.is_empty() {
        // nothing is XORed in: the answer is of the run as it stands
        return nonzero_at(d, &[to], 0, n).is_none();
    }
    let mut zero = true;
    // over a range of blocks two columns of cells of 1,000 bytes took 1.03 times the instructions
    let mut done = 0;
    while BLOCK <= n - done {
        zero &= add_block_sum(d, to + done, s, places, at + done, BLOCK);
        done += BLOCK;
    }
    if done < n {
        zero &= add_block_sum(d, to + done, s, places, at + done, n - done);
    }
    zero
}

// Whether n bytes of the XOR of the runs of s at the places, from `at` on, and of `other` are all zero, up to the first block that is not.
// Beside `sums_to_zero` for speed: joined, the tests for zero took nine instructions a block more.
pub fn sums_to_zero_with(s: &[u8], places: &[usize], at: usize, n: usize, other: &[u8]) -> bool
    requires { Inside (length s.now) places.now (at + n) × (at + n < 2 ^ 64) × (n ≤ length other.now) }
    ensures { Says ((t : ℕ) → t < n → sum_at s.now places.now (at + t) ⊕ get_or other.now t 0 ≡ 0) result }
{
    if n < BLOCK {
        let own = sum_runs(s, places, at, n);
        return all_zero(add_bytes(own, other, 0, n), n);
    }
    for next in (Blocks { done: 0, n }) {
        let own = sum_runs(s, places, at + next, BLOCK);
        let both = add_bytes(own, other, next, BLOCK);
        if !all_zero(both, BLOCK) {
            return false;
        }
    }
    true
}

// XORs into n bytes of the run at `to`, from `at` on, how those of the run at `from` differ from the new ones. Answers whether they are all
// zero now.
fn add_block_difference(
    s: &mut [u8],
    to: usize,
    from: usize,
    new: &[u8],
    at: usize,
    n: usize,
) -> bool
    requires { (n ≤ 128) × (to + at + n ≤ length s.old) × (from + at + n ≤ length s.old) × (at + n ≤ length new.now) }
    ensures { Summed s.old (to + at) n (λ t. changed_by s.old to from new.now (at + t))
        s.new result }
{
    let parity = add_bytes([0u8; BLOCK], s, to + at, n);
    let with_old = add_bytes(parity, s, from + at, n);
    let with_new = add_bytes(with_old, new, at, n);
    put_bytes(s, to + at, with_new, n)
}

// XORs into the run at `to` how the run at `from`, which it does not meet, differs from the new bytes. Answers whether it is all zero now.
pub fn add_difference(s: &mut [u8], to: usize, from: usize, new: &[u8]) -> bool
    requires { (to + length new.now ≤ length s.old) × (from + length new.now ≤ length s.old) × Beside to from (length new.now) }
    ensures { Summed s.old to (length new.now) (changed_by s.old to from new.now)
        s.new result }
{
    let n = new.len();
    let mut zero = true;
    for k in 0..n / BLOCK {
        let done = k * BLOCK;
        zero &= add_block_difference(s, to, from, new, done, BLOCK);
    }
    let whole = n - n % BLOCK;
    zero & add_block_difference(s, to, from, new, whole, n - whole)
}

// Stores new bytes in the run at `to`. By a loop, which is compiled in place: `copy_from_slice` is compiled to memmove, which C callers would have
// to link besides.
pub fn put_run(s: &mut [u8], to: usize, new: &[u8])
    requires { to + length new.now ≤ length s.old }
    ensures { Put s.old to (length new.now) (λ t. get_or new.now t 0) s.new }
{
    for i in 0..new.len() {
        s[to + i] = new[i];
    }
}
