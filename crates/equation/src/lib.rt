// One equation on the bytes of a stripe: its cells are listed, and a leaf of crate xor goes over n bytes of each, from byte `at` on.
// What several equations share (of EVENODD S) is summed before them, once a window, and lent to each as `shared`.
#![tactic(auto, using(crate::proofs::Windows::listed))]

ghost use Rattle.std.specs.Prelude.{◌≡◌, ◌≢◌, true, false, ℕ, ◌+◌, ◌≤◌, ◌<◌, length, get_or};
ghost use Rattle.xor.specs.Xor.{◌⊕◌};
ghost use Rattle.xor.specs.Runs.{Put, Summed};
ghost use Rattle.codes.specs.Shape.{equations, stripe_length, WellFormed};
ghost use Rattle.codes.specs.Encoded.{total};
ghost use Rattle.codes.specs.Lines.{shares, takes_shared, own_cell, sum_where, own_total};
ghost use Rattle.equation.specs.Window.{bytes_at, InCells, Shares, ParityPut, ParitySet, ParityZero};

use codes::{Shape, Sources};

// n bytes of each cell of a lent stripe, from byte `at` on. The two functions that write a stripe, set_own and set_parity, take these four one by
// one: what holds a `&` can't be written through.
#[derive(Clone, Copy)]
pub struct Window<'a> {
    pub shape: Shape,
    pub stripe: &'a [u8],
    pub at: usize,
    pub n: usize,
    pub ghost inside: { InCells shape stripe.now at n },
}

impl<'a> Window<'a> {
    ghost use Rattle.equation.specs.InWindow.{bytes_in, IsWhole, SharesIn, SharedByte, is_failing, FirstFailing};

    // The whole of each cell.
    pub fn whole(shape: Shape, stripe: &'a [u8]) -> Window<'a>
        requires { WellFormed shape × (length stripe.now ≡ stripe_length shape) }
        ensures { IsWhole result shape stripe.now }
    {
        Window {
            shape,
            stripe,
            at: 0,
            n: shape.cell,
        }
    }

    // Puts n bytes of what several equations share into the first n of `shared`, which are zeros.
    pub fn put_shared(&self, shared: &mut [u8])
        requires { (shares self.now.shape ≡ true) × (self.now.n ≤ length shared.old)
            × ((i : ℕ) → i < self.now.n → get_or shared.old i 0 ≡ 0) }
        ensures { SharesIn self.now shared.new × (length shared.new ≡ length shared.old) }
    {
        let mut places = [0usize; codes::PLACES];
        let count = codes::shared_cells(self.shape, &mut places);
        xor::add_sum(shared, 0, self.stripe, &places[..count], self.at, self.n);
    }

    // The XOR of the cells that several equations share, in byte i of the n, where there are such.
    pub fn shared_byte(&self, i: usize) -> u8
        requires { i < self.now.n }
        ensures { SharedByte self.now i result }
    {
        if !codes::shares(self.shape) {
            return 0;
        }
        let mut places = [0usize; codes::PLACES];
        let count = codes::shared_cells(self.shape, &mut places);
        xor::sum_byte(self.stripe, &places[..count], self.at + i)
    }

    // Whether equation q, which nothing shared is a part of, fails in one of n bytes.
    pub fn fails(&self, q: usize) -> bool
        requires { (q < equations self.now.shape) × (takes_shared self.now.shape q ≡ false) }
        ensures { result ≡ is_failing self.now q }
    {
        let mut places = [0usize; codes::PLACES];
        let count = codes::cells_of(self.shape, q, &mut places);
        !xor::sums_to_zero(self.stripe, &places[..count], self.at, self.n)
    }

    // Whether equation q, which what is shared is a part of, fails in one of n bytes. Apart from the other, so that each is compiled by itself.
    fn fails_shared(&self, q: usize, shared: &[u8]) -> bool
        requires { (q < equations self.now.shape) × (takes_shared self.now.shape q ≡ true)
            × SharesIn self.now shared.now }
        ensures { result ≡ is_failing self.now q }
    {
        let mut places = [0usize; codes::PLACES];
        let count = codes::cells_of(self.shape, q, &mut places);
        !xor::sums_to_zero_with(self.stripe, &places[..count], self.at, self.n, shared)
    }

    // Whether equation q fails in one of n bytes, with what is shared, which is lent beside the window, since the window is needed to sum it.
    // Inlined where it is asked, so that the two ways stay apart.
    #[inline(always)]
    pub fn fails_with(&self, q: usize, shared: &[u8]) -> bool
        requires { (q < equations self.now.shape) × SharesIn self.now shared.now }
        ensures { result ≡ is_failing self.now q }
    {
        if codes::takes_shared(self.shape, q) {
            self.fails_shared(q, shared)
        } else {
            self.fails(q)
        }
    }

    // The first equation that fails in one of n bytes, with what is shared.
    fn first_failing_with(&self, shared: &[u8]) -> Option<usize>
        requires { SharesIn self.now shared.now }
        ensures { FirstFailing self.now result }
    {
        (0..codes::equation_count(self.shape)).find(|&q| self.fails_with(q, shared))
    }

    // The first equation that fails in one of n bytes. Here, in stripe and in lanes the two ways to what is shared stand written out: what took
    // the use of it as a closure would say each one's contract again.
    pub fn first_failing(&self) -> Option<usize>
        ensures { FirstFailing self.now result }
    {
        if !codes::shares(self.shape) {
            // nothing is shared: any bytes will do for it
            return self.first_failing_with(self.stripe);
        }
        let mut shared = [0u8; codes::MOST_CELL];
        self.put_shared(&mut shared);
        self.first_failing_with(&shared)
    }

    // Puts n bytes of the XOR of the cells that equation q has by itself into the bytes from `to` on. Answers whether they are all zero.
    fn put_own(&self, q: usize, into: &mut [u8], to: usize) -> bool
        requires { (q < equations self.now.shape) × (to + self.now.n ≤ length into.old) }
        ensures { Summed into.old to self.now.n (λ i. own_total self.now.shape q (bytes_in self.now i)) into.new result }
    {
        let mut places = [0usize; codes::PLACES];
        let count = codes::cells_of(self.shape, q, &mut places);
        xor::put_sum_from(into, to, self.stripe, &places[..count], self.at, self.n)
    }

    // Puts n bytes of the total of equation q, the XOR of all its cells, into the bytes from `to` on. Answers whether they are all zero: the
    // equation holds there.
    pub fn put_total(&self, q: usize, shared: &[u8], into: &mut [u8], to: usize) -> bool
        requires { (q < equations self.now.shape) × (to + self.now.n ≤ length into.old)
            × SharesIn self.now shared.now }
        ensures { Summed into.old to self.now.n (λ i. total self.now.shape q (bytes_in self.now i)) into.new result }
    {
        let own = self.put_own(q, into, to);
        if !codes::takes_shared(self.shape, q) {
            return own;
        }
        let all = add_shared(into, to, shared, self.n);
        all
    }

    // The XOR of the cells that equation q has by itself, in byte i of the n.
    fn own_byte(&self, q: usize, i: usize) -> u8
        requires { (q < equations self.now.shape) × (i < self.now.n) }
        ensures { result ≡ own_total self.now.shape q (bytes_in self.now i) }
    {
        let mut places = [0usize; codes::PLACES];
        let count = codes::cells_of(self.shape, q, &mut places);
        xor::sum_byte(self.stripe, &places[..count], self.at + i)
    }

    // The total of equation q in byte i of the n.
    pub fn total_byte(&self, q: usize, i: usize, shared: u8) -> u8
        requires { (q < equations self.now.shape) × (i < self.now.n) × SharedByte self.now i shared }
        ensures { result ≡ total self.now.shape q (bytes_in self.now i) }
    {
        let own = self.own_byte(q, i);
        if codes::takes_shared(self.shape, q) {
            return own ^ shared;
        }
        own
    }

    // XORs n bytes of the cells that equation q has by itself into the first n of `sum`.
    fn add_own(&self, q: usize, sum: &mut [u8])
        requires { (q < equations self.now.shape) × (self.now.n ≤ length sum.old) }
        ensures { Put sum.old 0 self.now.n
            (λ i. get_or sum.old (0 + i) 0 ⊕ own_total self.now.shape q (bytes_in self.now i)) sum.new }
    {
        let mut places = [0usize; codes::PLACES];
        let count = codes::cells_of(self.shape, q, &mut places);
        xor::add_sum(sum, 0, self.stripe, &places[..count], self.at, self.n);
    }

    // The first of n bytes in which equation q, which what is shared is a part of and which fails in one of them, does.
    fn failing_with_shared(&self, q: usize) -> usize
        requires { (q < equations self.now.shape) × (is_failing self.now q ≡ true)
            × (takes_shared self.now.shape q ≡ true) }
        ensures { (result < self.now.n) × (total self.now.shape q (bytes_in self.now result) ≢ 0) }
    {
        let mut sum = [0u8; codes::MOST_CELL];
        self.put_shared(&mut sum);
        self.add_own(q, &mut sum);
        let places = [0usize; 1];
        xor::nonzero_at(&sum, &places[..1], 0, self.n).unwrap()
    }

    // The first of n bytes in which equation q, which fails in one of them, does.
    pub fn failing_byte(&self, q: usize) -> usize
        requires { (q < equations self.now.shape) × (is_failing self.now q ≡ true) }
        ensures { (result < self.now.n) × (total self.now.shape q (bytes_in self.now result) ≢ 0) }
    {
        if codes::takes_shared(self.shape, q) {
            return self.failing_with_shared(q);
        }
        let mut places = [0usize; codes::PLACES];
        let count = codes::cells_of(self.shape, q, &mut places);
        xor::nonzero_at(self.stripe, &places[..count], self.at, self.n).unwrap()
    }
}

// XORs n bytes of what is shared into those from `to` on. Answers whether they are all zero now.
fn add_shared(into: &mut [u8], to: usize, shared: &[u8], n: usize) -> bool
    requires { (to + n ≤ length into.old) × (n ≤ length shared.now) }
    ensures { Summed into.old to n (λ i. get_or into.old (to + i) 0 ⊕ get_or shared.now i 0)
        into.new result }
{
    let places = [0usize; 1];
    xor::add_sum(into, to, shared, &places[..1], 0, n)
}

// Sets n bytes of the parity cell of equation q to the XOR of the cells that the equation sums by itself. Answers whether they are all zero.
fn set_own(shape: Shape, stripe: &mut [u8], q: usize, at: usize, n: usize) -> bool
    requires { InCells shape stripe.old at n × (q < equations shape) }
    ensures { ParityPut shape q at n (λ i. sum_where shape (own_cell shape q) (bytes_at shape stripe.old (at + i)))
        stripe.old stripe.new × ParityZero shape q at n stripe.new result }
{
    let mut places = [0usize; codes::PLACES];
    let Sources { to, count } = codes::sources_of(shape, q, &mut places);
    xor::put_sum(stripe, &places[..count], to, at, n)
}

// Sets n bytes of the parity cell of equation q to the XOR of the cells that the equation sums. Answers whether they are all zero.
pub fn set_parity(
    shape: Shape,
    stripe: &mut [u8],
    q: usize,
    at: usize,
    n: usize,
    shared: &[u8],
) -> bool
    requires { InCells shape stripe.old at n × (q < equations shape) × Shares shape stripe.old at n shared.now }
    ensures { ParitySet shape q at n stripe.old stripe.new × ParityZero shape q at n stripe.new result }
{
    let zero = set_own(shape, stripe, q, at, n);
    if !codes::takes_shared(shape, q) {
        return zero;
    }
    let to = codes::parity_place(shape, q) + at;
    add_shared(stripe, to, shared, n)
}
