// The making of a plain chain, and its flaw.
ghost use Rattle.std.specs.Prelude.{◌≡◌, ◌≤◌, ◌==◌, MatchResult, None, Some, nat_le, zip, drop};
ghost use Rattle.std.specs.List.{list_all};
ghost use Rattle.chain.specs.Held.{held};
ghost use Rattle.field.specs.Words.{symbols};
ghost use Rattle.plain.specs.Kinds.{plain, plain_flaw, kinds_fit, rising, has, ones};

use crate::{Kind, Plain};
use chain::LevelNumbers;
use field::{Field, total};
use refusal::Refusal;

impl<F: Field> Plain<F> {
    // Never refused: whether the numbers are fit is told by the chain's flaw.
    pub fn new(field: F, m: usize, kinds: &[u8]) -> Plain<F>
        ensures { plain (F.Field.meaning result.field) result.m (held result.kinds) ≡ plain (F.Field.meaning field) m kinds.now }
    {
        // More kinds than four have the same flaw as none.
        let kinds = LevelNumbers::of(kinds);
        Plain { field, m, kinds }
    }

    // The least refusal that applies to the chain as it was made.
    pub(crate) fn find_flaw(&self) -> Option<Refusal>
        ensures { result ≡ plain_flaw (F.Field.meaning self.now.field) self.now.m (held self.now.kinds) }
    {
        let kinds = self.kinds.as_slice();
        if self.m < 2 || self.m > 32 {
            Some(Refusal::ChainLength)
        } else if kinds.is_empty() {
            Some(Refusal::LevelCount)
        } else if !do_fit(&self.field, self.m, kinds) {
            Some(Refusal::LevelShape)
        } else {
            None
        }
    }

    // The chain, if it has no flaw. By the chain's own test: over the trait's `flaw` the answer would not tell what that test found.
    pub(crate) fn checked(&self) -> Result<&Self, Refusal>
        ensures { MatchResult result (λ c. (c.now ≡ self.now) × (plain_flaw (F.Field.meaning self.now.field) self.now.m (held self.now.kinds) ≡ None)) (λ flaw. plain_flaw (F.Field.meaning self.now.field) self.now.m (held self.now.kinds) ≡ Some flaw) }
    {
        // The arms say what the flaw is, which a closure handed to `map_or` would not know.
        match self.find_flaw() {
            None => Ok(self),
            Some(flaw) => Err(flaw),
        }
    }
}

fn do_fit<F: Field>(f: &F, m: usize, kinds: &[u8]) -> bool
    requires { m ≤ 32 }
    ensures { result ≡ kinds_fit (F.Field.meaning f.now) m kinds.now }
{
    are_known(kinds)
        && never_fall(kinds)
        && (!(occurs(1, kinds) && occurs(2, kinds)) || adds_to_zero(f, m))
}

fn are_known(kinds: &[u8]) -> bool
    ensures { result ≡ symbols 3 kinds.now }
{
    kinds.iter().all(|k| Kind::try_from(*k).is_ok())
}

fn never_fall(kinds: &[u8]) -> bool
    ensures { result ≡ rising kinds.now }
{
    pairs_rise(kinds)
}

// The same of each kind beside the one after it. A function of its own, since `rising` goes by recursion: with it in these words, the
// check finds no bound of what a chain tells, as `chain.length() + 1`, in code that calls it.
fn pairs_rise(kinds: &[u8]) -> bool
    ensures { result ≡ list_all (λ p. nat_le p.0 p.1) (zip kinds.now (drop 1 kinds.now)) }
{
    kinds.iter().zip(kinds.iter().skip(1)).all(|(k, l)| k <= l)
}

// By number, since the chain keeps the numbers as they were given.
fn occurs(kind: u8, kinds: &[u8]) -> bool
    ensures { result ≡ has kind kinds.now }
{
    kinds.iter().any(|k| kind == *k)
}

// Whether 1 added m times is 0.
fn adds_to_zero<F: Field>(f: &F, m: usize) -> bool
    requires { m ≤ 32 }
    ensures { result ≡ (ones (F.Field.meaning f.now) m == 0) }
{
    let each = [1; 32];
    total(f, &each[..m]).unwrap_or(1) == 0
}
