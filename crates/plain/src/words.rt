// The words of each kind of level. The facts about a block stand in the clauses: `correct` writes it, and a struct that held it
// would have to say what it lends.
ghost use Rattle.std.specs.Prelude.{◌≡◌, ℕ, ◌<◌, ◌≤◌, T, length, MatchOption, slice_index};
ghost use Rattle.field.specs.Words.{symbols};
ghost use Rattle.chain.specs.Meaning.{Word, radius};
ghost use Rattle.plain.specs.Kinds.{kind_size, kind_word};
ghost use Rattle.plain.specs.Words.{others, fits, Elected, BlockCorrected, BlockStripped};

use crate::Kind;
use field::{Field, negate, total};
use refusal::Refusal;

impl Kind {
    // Writes the word of a message.
    pub(crate) fn write_word<F: Field>(self, f: &F, message: &[u8], out: &mut [u8])
        requires within { 2 ≤ length out.old }
        requires word { Word (F.Field.meaning f.now) (kind_size (length out.old) self) message.now }
        ensures { out.new ≡ kind_word (F.Field.meaning f.now) (length out.old) self message.now }
    {
        match self {
            Kind::Every => out.copy_from_slice(message),
            Kind::ZeroSum => write_zero_sum(f, message, out),
            Kind::Repeated => out.fill(message[0]),
        }
    }

    // Whether a block is a word of the kind.
    pub(crate) fn is_of<F: Field>(self, f: &F, block: &[u8]) -> bool
        requires some { 0 < length block.now }
        requires all { T (symbols (F.Field.meaning f.now).q block.now) }
        ensures { result ≡ fits (F.Field.meaning f.now) self block.now }
    {
        match self {
            Kind::Every => true,
            Kind::ZeroSum => total(f, block).unwrap_or(1) == 0,
            Kind::Repeated => count_others(block, block[0]) == 0,
        }
    }

    // Replaces a block by the word of the kind that is near enough.
    pub(crate) fn correct<F: Field>(self, f: &F, block: &mut [u8]) -> Result<(), Refusal>
        requires within { 2 ≤ length block.old }
        requires all { T (symbols (F.Field.meaning f.now).q block.old) }
        ensures { BlockCorrected (F.Field.meaning f.now) self block.old result block.new }
    {
        match self {
            Kind::Repeated => {
                let Some(x) = majority(block) else {
                    return Err(Refusal::NoLevelWord);
                };
                block.fill(x);
                Ok(())
            }
            // These correct nothing: a word is near enough only to itself.
            Kind::Every | Kind::ZeroSum => {
                if self.is_of(f, block) {
                    Ok(())
                } else {
                    Err(Refusal::NoLevelWord)
                }
            }
        }
    }

    // Writes the message of a word of the kind.
    pub(crate) fn strip<F: Field>(self, f: &F, block: &[u8], out: &mut [u8]) -> Result<(), Refusal>
        requires within { 2 ≤ length block.now }
        requires all { T (symbols (F.Field.meaning f.now).q block.now) }
        requires long { length out.old ≡ kind_size (length block.now) self }
        ensures { BlockStripped (F.Field.meaning f.now) self block.now out.old result out.new }
    {
        if !self.is_of(f, block) {
            return Err(Refusal::NoLevelWord);
        }
        out.copy_from_slice(&block[..out.len()]);
        Ok(())
    }
}

fn write_zero_sum<F: Field>(f: &F, message: &[u8], out: &mut [u8])
    requires within { 2 ≤ length out.old }
    requires word { Word (F.Field.meaning f.now) (kind_size (length out.old) Kind.ZeroSum) message.now }
    ensures { out.new ≡ kind_word (F.Field.meaning f.now) (length out.old) Kind.ZeroSum message.now }
{
    let n = message.len();
    out[..n].copy_from_slice(message);
    out[n] = negate(f, total(f, message).unwrap_or(0));
}

// The number of places that do not hold x. A sum of 0s and 1s: `filter` and `count` test one place after another, and here the
// compiler takes many at once.
#[tactic(auto, using(crate::proofs::Blocks::others_counted))]
fn count_others(block: &[u8], x: u8) -> usize
    ensures { result ≡ others x block.now }
{
    block.iter().map(|y| usize::from(*y != x)).sum()
}

// The symbol whose word is near enough to the block to be the one that was meant.
pub(crate) fn majority(block: &[u8]) -> Option<u8>
    ensures { MatchOption result ((i : ℕ) → i < length block.now → others (slice_index block.now i) block.now ≤ radius (length block.now) → ⊥) (Elected block.now) }
{
    let most = block.len().saturating_sub(1) / 2;
    block
        .iter()
        .copied()
        .find(|x| count_others(block, *x) <= most)
}
