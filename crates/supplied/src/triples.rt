// A chain written as an outside supplier would: one level, whose four words are a fixed table.
ghost use Rattle.std.specs.Prelude.{◌≡◌, ℕ, ◌<◌, ◌≤◌, length, MatchOption};
ghost use Rattle.chain.specs.Answers.{told_of_level, is_level};
ghost use Rattle.field.specs.Places.{distance as differing};
ghost use Rattle.supplied.specs.Triples.{triples, word};
ghost use Rattle.supplied.specs.Lawful.{is_chain};

use crate::Gf4;
use chain::{Chain, SCRATCH_BYTES};
use field::{Field, are_symbols, distance};
use refusal::Refusal;

// At x: the word of x, x times 1 2 3.
const WORDS: [[u8; 3]; 4] = [[0, 0, 0], [1, 2, 3], [2, 3, 1], [3, 1, 2]];

#[derive(Clone, Copy, PartialEq, Eq, Debug)]
pub struct Triples {
    pub field: Gf4,
}

// The message whose word differs from the block in at most `most` places, the first if there are several.
fn nearest(block: &[u8], most: usize) -> Option<u8>
    ensures { MatchOption result ((x : ℕ) → x < 4 → differing (word x) block.now ≤ most → ⊥) (λ x. (x < 4) × (differing (word x) block.now ≤ most)) }
{
    (0..4).find(|x| distance(&WORDS[usize::from(*x)], block) <= most)
}

#[tactic(auto, using(crate::specs::Lawful::word_rule))]
fn write(x: u8, out: &mut [u8])
    requires symbol { x < 4 }
    requires long { length out.old ≡ 3 }
    ensures { out.new ≡ word x }
{
    out.copy_from_slice(&WORDS[usize::from(x)]);
}

// A number that belongs to the one level.
fn at_level(level: usize, number: usize) -> Result<usize, Refusal>
    ensures { result ≡ told_of_level None (is_level triples level) number }
{
    (level == 1).then_some(number).ok_or(Refusal::BadArgument)
}

impl Chain for Triples {
    type Over = Gf4;

    ghost meaning = { λ _. triples };

    ghost lawful = { λ c none. is_chain };

    fn flaw(&self) -> Option<Refusal> {
        None
    }

    fn field(&self) -> &Gf4 {
        &self.field
    }

    fn length(&self) -> usize {
        3
    }

    fn levels(&self) -> usize {
        1
    }

    fn size(&self, level: usize) -> Result<usize, Refusal> {
        at_level(level, 1)
    }

    fn distance(&self, level: usize) -> Result<usize, Refusal> {
        at_level(level, 3)
    }

    fn encode(&self, level: usize, message: &[u8], out: &mut [u8]) -> Result<(), Refusal> {
        if level != 1
            || message.len() != 1
            || !are_symbols(&self.field, message)
            || out.len() != 3
        {
            return Err(Refusal::BadArgument);
        }
        write(message[0], out);
        Ok(())
    }

    fn correct(&self, level: usize, block: &mut [u8], scratch: &mut [u8]) -> Result<(), Refusal> {
        if level != 1 || block.len() != 3 || !are_symbols(&self.field, block) {
            return Err(Refusal::BadArgument);
        }
        if scratch.len() < SCRATCH_BYTES {
            return Err(Refusal::ShortScratch);
        }
        let x = nearest(block, 1).ok_or(Refusal::NoLevelWord)?;
        write(x, block);
        Ok(())
    }

    fn strip(&self, level: usize, block: &[u8], out: &mut [u8]) -> Result<(), Refusal> {
        if level != 1 || block.len() != 3 || !are_symbols(&self.field, block) || out.len() != 1 {
            return Err(Refusal::BadArgument);
        }
        let x = nearest(block, 0).ok_or(Refusal::NoLevelWord)?;
        out[0] = x;
        Ok(())
    }
}
