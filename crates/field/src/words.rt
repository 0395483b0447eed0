// Functions over words, slices of symbols, that all layers share. Each makes its own checks, but for the total ones.
ghost use Rattle.std.specs.Prelude.{◌≡◌, if◌then◌else◌, count_by, nat_eq, not, zip};
ghost use Rattle.field.specs.Places.{distance as differing};
ghost use Rattle.field.specs.Words.{symbols, totalled, evaluated, addable, done_if, plus_scaled, value_or_0, plus_scaled_or_0};

use crate::Field;
use crate::symbols::{add, multiply};
use refusal::Refusal;

// Whether each is a symbol of the field.
pub fn are_symbols<F: Field>(f: &F, xs: &[u8]) -> bool
    ensures { result ≡ symbols (F.Field.meaning f.now).q xs.now }
{
    let q = f.order();
    xs.iter().all(|x| *x < q)
}

// The number of places where two words differ; a place that only one of them has counts as one.
pub fn distance(a: &[u8], b: &[u8]) -> usize
    ensures { result ≡ differing a.now b.now }
{
    differences(a, b) + a.len().abs_diff(b.len())
}

// The number of places that both words have and where they differ.
fn differences(a: &[u8], b: &[u8]) -> usize
    ensures { result ≡ count_by (λ p. not (nat_eq p.0 p.1)) (zip a.now b.now) }
{
    // By index: `filter` and `count` test one place after another, and here the compiler takes many at once.
    let mut count = 0;
    for i in 0..a.len().min(b.len()) {
        if a[i] != b[i] {
            count += 1;
        }
    }
    count
}

// The sum of all symbols of a word.
pub fn total<F: Field>(f: &F, xs: &[u8]) -> Result<u8, Refusal>
    ensures { result ≡ totalled (F.Field.meaning f.now) xs.now }
{
    if !are_symbols(f, xs) {
        return Err(Refusal::BadArgument);
    }
    Ok(xs.iter().rev().fold(0, |sum, x| add(f, *x, sum)))
}

// The value at x of the polynomial with these coefficients, the lowest first, by Horner's rule; 0 in the place of a refusal.
pub fn value<F: Field>(f: &F, x: u8, coefficients: &[u8]) -> u8
    ensures { result ≡ value_or_0 (F.Field.meaning f.now) x coefficients.now }
{
    coefficients
        .iter()
        .rev()
        .fold(0, |value, c| add(f, *c, multiply(f, x, value)))
}

// The same where x and the coefficients are symbols, refused where they are not.
pub fn evaluate<F: Field>(f: &F, x: u8, coefficients: &[u8]) -> Result<u8, Refusal>
    ensures { result ≡ evaluated (F.Field.meaning f.now) x coefficients.now }
{
    if x >= f.order() || !are_symbols(f, coefficients) {
        return Err(Refusal::BadArgument);
    }
    Ok(value(f, x, coefficients))
}

// Adds `a` times the word `v` to the word `out`, place by place, as far as both go; 0 in the place of a refusal.
pub fn add_multiple<F: Field>(f: &F, out: &mut [u8], a: u8, v: &[u8])
    ensures { out.new ≡ plus_scaled_or_0 (F.Field.meaning f.now) a out.old v.now }
{
    // By index: a loop over `out.iter_mut().zip(v)` leaves open what `out` holds after it, and a test at each place takes the
    // corrector's time.
    for i in 0..out.len().min(v.len()) {
        out[i] = add(f, out[i], multiply(f, a, v[i]));
    }
}

// The same of two words of one length, refused where they are not that. A refusal leaves `out` as it was.
pub fn add_scaled<F: Field>(f: &F, out: &mut [u8], a: u8, v: &[u8]) -> Result<(), Refusal>
    ensures answer { result ≡ done_if (addable (F.Field.meaning f.now) a out.old v.now) }
    ensures after { out.new ≡ (if addable (F.Field.meaning f.now) a out.old v.now then plus_scaled (F.Field.meaning f.now) a out.old v.now else out.old) }
{
    if a >= f.order() || !are_symbols(f, out) || !are_symbols(f, v) || out.len() != v.len() {
        return Err(Refusal::BadArgument);
    }
    add_multiple(f, out, a, v);
    Ok(())
}
