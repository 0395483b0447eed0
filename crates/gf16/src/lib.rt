// GF(16): polynomials over two elements modulo x⁴ + x + 1, a symbol's four bits being the coefficients.
#![tactic(auto)]

ghost use Rattle.std.specs.Prelude.{◌≡◌, ◌<◌};
ghost use Rattle.gf16.specs.Product.{sixteen};
ghost use Rattle.gf16.specs.Tables.{is_field, log};

use field::Field;
use refusal::Refusal;

// The powers of 2, from the 0th on; the 15th is 1 again.
const POWERS: [u8; 15] = [1, 2, 4, 8, 3, 6, 12, 11, 5, 10, 7, 14, 15, 13, 9];

// At a − 1: the place of a among the powers.
const LOGS: [u8; 15] = [0, 1, 4, 2, 8, 5, 10, 3, 14, 9, 7, 6, 13, 11, 12];

// The log of a symbol that is not 0.
fn log_of(a: u8) -> usize
    requires some { 0 < a }
    requires symbol { a < 16 }
    ensures value { result ≡ log a }
    ensures small { result < 15 }
{
    usize::from(LOGS[usize::from(a) - 1])
}

#[derive(Clone, Copy, PartialEq, Eq, Debug)]
pub struct Gf16;

impl Field for Gf16 {
    ghost meaning = { λ _. sixteen };

    ghost lawful = { λ f. is_field };

    fn order(&self) -> u8 {
        16
    }

    fn sum(&self, a: u8, b: u8) -> Result<u8, Refusal> {
        if a >= 16 || b >= 16 {
            return Err(Refusal::BadArgument);
        }
        Ok(a ^ b)
    }

    // Every symbol is its own opposite.
    fn opposite(&self, a: u8) -> Result<u8, Refusal> {
        if a >= 16 {
            return Err(Refusal::BadArgument);
        }
        Ok(a)
    }

    fn product(&self, a: u8, b: u8) -> Result<u8, Refusal> {
        if a >= 16 || b >= 16 {
            return Err(Refusal::BadArgument);
        }
        if a == 0 || b == 0 {
            return Ok(0);
        }
        Ok(POWERS[(log_of(a) + log_of(b)) % 15])
    }

    fn inverse(&self, a: u8) -> Result<u8, Refusal> {
        if a == 0 || a >= 16 {
            return Err(Refusal::BadArgument);
        }
        Ok(POWERS[(15 - log_of(a)) % 15])
    }
}
