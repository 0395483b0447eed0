// A field and a chain written as an outside supplier would: they rest on the crates of the traits alone, and share no code with GF(16). GF(4), with its whole product as a table.
#![tactic(auto)]

ghost use Rattle.supplied.specs.Quadratic.{four};
ghost use Rattle.supplied.specs.Table.{is_field};

use field::Field;
use refusal::Refusal;

mod triples;

pub use triples::Triples;

// At a and b: the product of a and b.
const PRODUCTS: [[u8; 4]; 4] = [[0, 0, 0, 0], [0, 1, 2, 3], [0, 2, 3, 1], [0, 3, 1, 2]];

#[derive(Clone, Copy, PartialEq, Eq, Debug)]
pub struct Gf4;

impl Field for Gf4 {
    ghost meaning = { λ _. four };

    ghost lawful = { λ f. is_field };

    fn order(&self) -> u8 {
        4
    }

    fn sum(&self, a: u8, b: u8) -> Result<u8, Refusal> {
        if a >= 4 || b >= 4 {
            return Err(Refusal::BadArgument);
        }
        Ok(a ^ b)
    }

    // Every symbol is its own opposite.
    #[tactic(auto, using(crate::specs::Table::opposite_rule))]
    fn opposite(&self, a: u8) -> Result<u8, Refusal> {
        if a >= 4 {
            return Err(Refusal::BadArgument);
        }
        Ok(a)
    }

    #[tactic(auto, using(crate::specs::Table::product_rule, std::proofs::lemmas::Bool::Decides::nat_tests))]
    fn product(&self, a: u8, b: u8) -> Result<u8, Refusal> {
        if a >= 4 || b >= 4 {
            return Err(Refusal::BadArgument);
        }
        Ok(PRODUCTS[usize::from(a)][usize::from(b)])
    }

    // The square: the cube of every symbol but 0 is 1.
    #[tactic(auto, using(crate::specs::Table::inverse_rule))]
    fn inverse(&self, a: u8) -> Result<u8, Refusal> {
        if a == 0 || a >= 4 {
            return Err(Refusal::BadArgument);
        }
        Ok(PRODUCTS[usize::from(a)][usize::from(a)])
    }
}
