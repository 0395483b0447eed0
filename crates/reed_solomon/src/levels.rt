// The flaw of a chain, and the sizes of its levels.
ghost use Rattle.std.specs.Prelude.{◌≡◌, ◌&&◌, length, nat_le, MatchResult, None, Some};
ghost use Rattle.chain.specs.Held.{held};
ghost use Rattle.field.specs.Answers.{provided};
ghost use Rattle.reed_solomon.specs.Code.{falling, flaw, size_of};

use crate::ReedSolomon;
use field::Field;
use refusal::Refusal;

impl<F: Field> ReedSolomon<F> {
    // The least refusal that applies to the chain as it was made.
    pub(crate) fn find_flaw(&self) -> Option<Refusal>
        ensures { result ≡ flaw (F.Field.meaning self.now.field) self.now.m (held self.now.sizes) }
    {
        let sizes = self.sizes.as_slice();
        if self.m < 1 || self.m > 32 || self.m > usize::from(self.field.order()) {
            Some(Refusal::ChainLength)
        } else if sizes.is_empty() {
            Some(Refusal::LevelCount)
        } else if !are_falling(self.m, sizes) {
            Some(Refusal::LevelShape)
        } else {
            None
        }
    }

    // The chain, if it has no flaw. By the chain's own test: over the trait's `flaw` the answer would not tell what that test found.
    pub(crate) fn checked(&self) -> Result<&Self, Refusal>
        ensures { MatchResult result (λ c. (c.now ≡ self.now) × (flaw (F.Field.meaning self.now.field) self.now.m (held self.now.sizes) ≡ None)) (λ r. flaw (F.Field.meaning self.now.field) self.now.m (held self.now.sizes) ≡ Some r) }
    {
        // The arms say what the flaw is, which a closure handed to `map_or` would not know.
        match self.find_flaw() {
            None => Ok(self),
            Some(flaw) => Err(flaw),
        }
    }

    // The size of a level that is there.
    pub(crate) fn size_at(&self, level: usize) -> Result<usize, Refusal>
        ensures { result ≡ provided (nat_le 1 level && nat_le level (length (held self.now.sizes))) (size_of (held self.now.sizes) level) }
    {
        let size = self.sizes.at(level).ok_or(Refusal::BadArgument)?;
        Ok(usize::from(size))
    }
}

// Whether each size is from 1 to the one before it, the first from 1 to m.
fn are_falling(m: usize, sizes: &[u8]) -> bool
    ensures { result ≡ falling m sizes.now }
{
    // A loop, since each size is held against the one before it: `try_fold` would carry that one in an `Option`, and say no more.
    let mut most = m;
    for size in sizes {
        let size = usize::from(*size);
        if size < 1 || size > most {
            return false;
        }
        most = size;
    }
    true
}
