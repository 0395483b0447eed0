// A field's functions for code that has checked its symbols: total, with 0 in the place of a refusal. They are four, and not one
// over the method, since each says what its own method answers.
ghost use Rattle.std.specs.Prelude.{◌≡◌, ◌<◌, ◌≢◌};
ghost use Rattle.field.specs.Meaning.{Exactly};
ghost use Rattle.field.specs.Words.{sum_or_0, product_or_0, opposite_or_0, inverse_or_0};

use crate::Field;

pub fn add<F: Field>(f: &F, a: u8, b: u8) -> u8
    ensures { result ≡ sum_or_0 (F.Field.meaning f.now) a b }
{
    f.sum(a, b).unwrap_or(0)
}

pub fn multiply<F: Field>(f: &F, a: u8, b: u8) -> u8
    ensures { result ≡ product_or_0 (F.Field.meaning f.now) a b }
{
    f.product(a, b).unwrap_or(0)
}

// The opposite, which is the only symbol that adds to 0 with `a`.
pub fn negate<F: Field>(f: &F, a: u8) -> u8
    ensures value { result ≡ opposite_or_0 (F.Field.meaning f.now) a }
    ensures only { a < (F.Field.meaning f.now).q → Exactly (F.Field.meaning f.now).q (λ b. (F.Field.meaning f.now).sum a b ≡ 0) result }
{
    f.opposite(a).unwrap_or(0)
}

// The inverse, which is the only symbol that multiplies to 1 with `a`; 0 at 0.
pub fn invert<F: Field>(f: &F, a: u8) -> u8
    ensures value { result ≡ inverse_or_0 (F.Field.meaning f.now) a }
    ensures only { a < (F.Field.meaning f.now).q → (a ≢ 0) → Exactly (F.Field.meaning f.now).q (λ b. (F.Field.meaning f.now).product a b ≡ 1) result }
{
    f.inverse(a).unwrap_or(0)
}
