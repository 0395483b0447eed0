// The numbers that a code tells. A code with a flaw tells 0.
//
// That the chain has no flaw, and that a level is there, stand in the clauses: each caller has just asked for it, so a struct that
// kept the fact would be made to be taken apart.
ghost use Rattle.std.specs.Prelude.{◌≡◌, ◌+◌, ◌-◌, ◌*◌, ◌≤◌, None};
ghost use Rattle.chain.specs.Answers.{told};
ghost use Rattle.chain.specs.Meaning.{Level};
ghost use Rattle.code.specs.Held.{meant};
ghost use Rattle.code.specs.One.{Respected};
ghost use Rattle.code.specs.Numbers.{code_flaw, telling, k_of, n_of, d_of, t_of, choices_of, sum_to, least_to, falling, Separates};

use crate::Code;
use chain::Chain;

// A level's size, and its distance: functions of their own, so that the loops see the numbers without a refusal.
pub(crate) fn size_of<C: Chain>(chain: &C, level: usize) -> usize
    requires sound { (C.Chain.meaning chain.now).flaw ≡ None }
    requires level { Level (C.Chain.meaning chain.now) level }
    ensures { result ≡ (C.Chain.meaning chain.now).size level }
{
    chain.size(level).unwrap_or(0)
}

fn distance_of<C: Chain>(chain: &C, level: usize) -> usize
    requires sound { (C.Chain.meaning chain.now).flaw ≡ None }
    requires level { Level (C.Chain.meaning chain.now) level }
    ensures { result ≡ (C.Chain.meaning chain.now).distance level }
{
    chain.distance(level).unwrap_or(0)
}

// The sum of the sizes of all levels. By a loop, as below: with `sum` and `product` over a range,
// which were tried, the goals of their bound and of their value stayed open.
pub(crate) fn total_size<C: Chain>(chain: &C) -> usize
    requires { (C.Chain.meaning chain.now).flaw ≡ None }
    ensures { result ≡ sum_to (C.Chain.meaning chain.now).size (C.Chain.meaning chain.now).s }
{
    let mut sum = 0;
    for level in 1..=chain.levels() {
        sum += size_of(chain, level);
    }
    sum
}

// The least of (l − i + 1)·d_i over the levels.
fn least_distance<C: Chain>(chain: &C, l: usize) -> usize
    requires sound { (C.Chain.meaning chain.now).flaw ≡ None }
    requires wide { (C.Chain.meaning chain.now).s ≤ l }
    requires small { l ≤ 8 }
    ensures { result ≡ least_to (λ i. (l - i + 1) * (C.Chain.meaning chain.now).distance i) (C.Chain.meaning chain.now).s }
{
    let mut least = l * distance_of(chain, 1);
    for level in 1..=chain.levels() {
        least = least.min((l - level + 1) * distance_of(chain, level));
    }
    least
}

// l·(l − 1)···(l − s + 1).
fn count_choices<C: Chain>(chain: &C, l: usize) -> usize
    requires sound { (C.Chain.meaning chain.now).flaw ≡ None }
    requires wide { (C.Chain.meaning chain.now).s ≤ l }
    requires small { l ≤ 8 }
    ensures { result ≡ falling l (C.Chain.meaning chain.now).s }
{
    let mut product = 1;
    for i in 0..chain.levels() {
        product *= l - i;
    }
    product
}

impl<C: Chain> Code<C> {
    // l, the columns of the matrix.
    pub fn columns(&self) -> usize
        ensures { result ≡ told (code_flaw (meant C.Chain.meaning self.now)) self.now.l }
    {
        self.checked().map_or(0, |code| code.l)
    }

    // k, the symbols of a message.
    pub fn message_length(&self) -> usize
        ensures { result ≡ telling k_of (meant C.Chain.meaning self.now) }
    {
        self.checked().map_or(0, |code| total_size(&code.chain))
    }

    // n, the symbols of a codeword.
    pub fn word_length(&self) -> usize
        ensures { result ≡ telling n_of (meant C.Chain.meaning self.now) }
    {
        self.checked()
            .map_or(0, |code| code.chain.length() * code.l)
    }

    // d, the least number of places where two codewords differ.
    pub fn distance(&self) -> usize
        ensures { result ≡ telling d_of (meant C.Chain.meaning self.now) }
    {
        self.checked()
            .map_or(0, |code| least_distance(&code.chain, code.l))
    }

    // t, the number of differences that the code corrects: at most one codeword is so near to a word.
    pub fn radius(&self) -> usize
        ensures value { result ≡ telling t_of (meant C.Chain.meaning self.now) }
        ensures separates { Separates (meant C.Chain.meaning self.now) }
        ensures respected { Respected (meant C.Chain.meaning self.now) }
    {
        self.distance().saturating_sub(1) / 2
    }

    // L, the number of choices of s different columns in order.
    pub fn choices(&self) -> usize
        ensures { result ≡ telling choices_of (meant C.Chain.meaning self.now) }
    {
        self.checked()
            .map_or(0, |code| count_choices(&code.chain, code.l))
    }
}
