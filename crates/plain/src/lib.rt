// The plain chain: levels of every word, of words whose symbols add to 0, and of one symbol repeated.
#![tactic(auto)]

use chain::LevelNumbers;

mod kinds;
mod levels;
mod making;
mod words;

pub use kinds::Kind;

// A chain of words of m symbols over the field that it holds. A level's kind is 0, 1 or 2; a flaw is told, not refused. The
// flaw is found at each call: a field of the struct that is known to hold it would ask `F: Field` of whoever names the type.
#[derive(Clone, Copy, PartialEq, Eq, Debug)]
pub struct Plain<F> {
    field: F,
    m: usize,
    // As they were given, since the flaw tells of numbers that are no kinds.
    kinds: LevelNumbers,
}
