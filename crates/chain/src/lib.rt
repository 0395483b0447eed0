// A chain of nested codes over one field, as the link uses one: what a supplier of a chain shows.
#![tactic(auto)]

ghost use Rattle.std.specs.Prelude.{◌≡◌};
ghost use Rattle.chain.specs.Answers.{told, told_of_level, is_level};
ghost use Rattle.chain.specs.Calls.{Encodes, Corrects, Strips};
ghost use Rattle.chain.specs.Meaning.{Meaning, Lawful};

use field::Field;
use refusal::Refusal;

mod levels;
mod numbers;

pub use levels::radius;
pub use numbers::LevelNumbers;

// The least scratch that `correct` takes.
pub const SCRATCH_BYTES: usize = 4096;

// A ladder of s levels of words of m symbols. Levels are counted from 1.
pub trait Chain {
    type Over: Field;

    ghost meaning: { Self → Meaning };

    // Why the chain cannot be used, if it cannot.
    fn flaw(&self) -> Option<Refusal>
        ensures { result ≡ (meaning self.now).flaw };

    fn field(&self) -> &Self::Over
        ensures { Self.Over.Field.meaning result.now ≡ (meaning self.now).field };

    // m, the symbols of a word.
    fn length(&self) -> usize
        ensures { result ≡ told (meaning self.now).flaw (meaning self.now).m };

    // s, the number of levels.
    fn levels(&self) -> usize
        ensures { result ≡ told (meaning self.now).flaw (meaning self.now).s };

    // The symbols of a level's messages.
    fn size(&self, level: usize) -> Result<usize, Refusal>
        ensures { result ≡ told_of_level (meaning self.now).flaw (is_level (meaning self.now) level) ((meaning self.now).size level) };

    // The least number of places where two words of a level differ.
    fn distance(&self, level: usize) -> Result<usize, Refusal>
        ensures { result ≡ told_of_level (meaning self.now).flaw (is_level (meaning self.now) level) ((meaning self.now).distance level) };

    // Writes the level's word of a message.
    fn encode(&self, level: usize, message: &[u8], out: &mut [u8]) -> Result<(), Refusal>
        ensures { Encodes (meaning self.now) level message.now out.old result out.new };

    // Replaces the block by the level's word within the level's radius. What a search leaves in the scratch is open.
    fn correct(&self, level: usize, block: &mut [u8], scratch: &mut [u8]) -> Result<(), Refusal>
        ensures { Corrects (meaning self.now) level block.old scratch.old result block.new scratch.new };

    // Writes the message of a word of the level.
    fn strip(&self, level: usize, block: &[u8], out: &mut [u8]) -> Result<(), Refusal>
        ensures { Strips (meaning self.now) level block.now out.old result out.new };

    ghost lawful: { (c : Self) → Lawful (meaning c) };
}
