// What follows of every chain from its laws.
ghost use Rattle.std.specs.Prelude.{◌≡◌};
ghost use Rattle.chain.specs.Answers.{told_of_level, is_level};
ghost use Rattle.chain.specs.Follows.{Follows};
ghost use Rattle.chain.specs.Meaning.{radius as radius_of};

use crate::Chain;
use refusal::Refusal;

// The number of differences that a level corrects: at most one word of the level is so near to a block.
pub fn radius<C: Chain>(c: &C, level: usize) -> Result<usize, Refusal>
    ensures value { result ≡ told_of_level (C.Chain.meaning c.now).flaw (is_level (C.Chain.meaning c.now) level) (radius_of ((C.Chain.meaning c.now).distance level)) }
    ensures follows { Follows (C.Chain.meaning c.now) }
{
    Ok(c.distance(level)?.saturating_sub(1) / 2)
}
