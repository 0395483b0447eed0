// A field of either kind that the link has, chosen when the program runs.
#![tactic(auto)]

ghost use Rattle.std.specs.Prelude.{◌≡◌};
ghost use Rattle.std.specs.Result.{result_map_both};
ghost use Rattle.any_field.specs.Kinds.{meant, of_order};
ghost use Rattle.any_field.specs.Inside.{meant_field};

use field::Field;
use gf16::Gf16;
use gfp::GfP;
use refusal::Refusal;

// The two kinds are closed, so an enum serves, and needs no heap as a trait object would.
#[derive(Clone, Copy, PartialEq, Eq, Debug)]
pub enum AnyField {
    Sixteen(Gf16),
    Prime(GfP),
}

impl AnyField {
    // The field of q symbols: GF(16) at 16, else GF(p) with p = q.
    pub fn of_order(q: u8) -> Result<AnyField, Refusal>
        ensures { result_map_both meant (λ e. e) result ≡ of_order q }
    {
        if q == 16 {
            Ok(AnyField::Sixteen(Gf16))
        } else {
            Ok(AnyField::Prime(GfP::new(q)?))
        }
    }
}

// The same call of the field inside, whichever kind it is.
macro_rules! inside {
    ($any:expr, $field:ident => $call:expr) => {
        match $any {
            AnyField::Sixteen($field) => $call,
            AnyField::Prime($field) => $call,
        }
    };
}

impl Field for AnyField {
    ghost meaning = { meant };

    ghost lawful = { λ f. meant_field f };

    fn order(&self) -> u8 {
        inside!(self, f => f.order())
    }

    fn sum(&self, a: u8, b: u8) -> Result<u8, Refusal> {
        inside!(self, f => f.sum(a, b))
    }

    fn opposite(&self, a: u8) -> Result<u8, Refusal> {
        inside!(self, f => f.opposite(a))
    }

    fn product(&self, a: u8, b: u8) -> Result<u8, Refusal> {
        inside!(self, f => f.product(a, b))
    }

    fn inverse(&self, a: u8) -> Result<u8, Refusal> {
        inside!(self, f => f.inverse(a))
    }
}
