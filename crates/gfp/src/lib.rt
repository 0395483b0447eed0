// GF(p) for p = 3, 7 and 17: the numbers below p, with sum and product by remainder.
#![tactic(auto)]

ghost use Rattle.std.specs.Prelude.{◌≡◌, ◌*◌, ◌%◌, ◌==◌, T};
ghost use Rattle.std.specs.List.{find, range_with_len};
ghost use Rattle.std.specs.Result.{result_map_both};
ghost use Rattle.gfp.specs.Modulo.{supported, modulo, made};
ghost use Rattle.gfp.specs.Remainders.{is_field};

use field::Field;
use refusal::Refusal;

#[derive(Clone, Copy, PartialEq, Eq, Debug)]
pub struct GfP {
    p: u8,
    ghost prime: { T (supported p) },
}

impl GfP {
    pub fn new(p: u8) -> Result<GfP, Refusal>
        ensures { result_map_both (λ f. f.p) (λ e. e) result ≡ made p }
    {
        if p == 3 || p == 7 || p == 17 {
            Ok(GfP { p })
        } else {
            Err(Refusal::UnsupportedPrime)
        }
    }

    fn times(&self, a: u8, b: u8) -> u8
        ensures { result ≡ a * b % self.now.p }
    {
        // The remainder is below p, so it fits.
        (u16::from(a) * u16::from(b) % u16::from(self.p)) as u8
    }

    // The few symbols are tried one after another.
    fn inverse_of(&self, a: u8) -> Option<u8>
        ensures { result ≡ find (λ b. a * b % self.now.p == 1) (range_with_len 0 self.now.p) }
    {
        (0..self.p).find(|b| self.times(a, *b) == 1)
    }
}

impl Field for GfP {
    ghost meaning = { λ f. modulo f.p };

    ghost lawful = { λ f. is_field f.p f.prime };

    fn order(&self) -> u8 {
        self.p
    }

    fn sum(&self, a: u8, b: u8) -> Result<u8, Refusal> {
        if a >= self.p || b >= self.p {
            return Err(Refusal::BadArgument);
        }
        Ok((a + b) % self.p)
    }

    fn opposite(&self, a: u8) -> Result<u8, Refusal> {
        if a >= self.p {
            return Err(Refusal::BadArgument);
        }
        Ok((self.p - a) % self.p)
    }

    fn product(&self, a: u8, b: u8) -> Result<u8, Refusal> {
        if a >= self.p || b >= self.p {
            return Err(Refusal::BadArgument);
        }
        Ok(self.times(a, b))
    }

    fn inverse(&self, a: u8) -> Result<u8, Refusal> {
        if a == 0 || a >= self.p {
            return Err(Refusal::BadArgument);
        }
        self.inverse_of(a).ok_or(Refusal::BadArgument)
    }
}
