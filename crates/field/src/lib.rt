// A finite field, as the link uses one: what a supplier of a field shows, and the functions over symbols that all layers share.
#![tactic(auto)]

ghost use Rattle.std.specs.Prelude.{◌≡◌};
ghost use Rattle.field.specs.Answers.{summed, multiplied, opposed, inverted};
ghost use Rattle.field.specs.Meaning.{Meaning, IsField};

use refusal::Refusal;

mod symbols;
mod words;

pub use symbols::{add, invert, multiply, negate};
pub use words::{add_multiple, add_scaled, are_symbols, distance, evaluate, total, value};

// A field of q symbols, the numbers 0 to q − 1.
pub trait Field {
    ghost meaning: { Self → Meaning };

    // q, the number of symbols.
    fn order(&self) -> u8
        ensures { result ≡ (meaning self.now).q };

    fn sum(&self, a: u8, b: u8) -> Result<u8, Refusal>
        ensures { result ≡ summed (meaning self.now) a b };

    fn opposite(&self, a: u8) -> Result<u8, Refusal>
        ensures { result ≡ opposed (meaning self.now) a };

    fn product(&self, a: u8, b: u8) -> Result<u8, Refusal>
        ensures { result ≡ multiplied (meaning self.now) a b };

    fn inverse(&self, a: u8) -> Result<u8, Refusal>
        ensures { result ≡ inverted (meaning self.now) a };

    ghost lawful: { (f : Self) → IsField (meaning f) };
}
