// Numbers: one or more decimal digits, of a value below 2^32.
ghost use Rattle.std.specs.Prelude.{◌≡◌};
ghost use Rattle.script.specs.Numbers.{number};

#[tactic(auto, using(crate::proofs::Digits::too_large))]
pub fn number_of(word: &[u8]) -> Option<u32>
    ensures { result ≡ number word.now }
{
    if word.is_empty() {
        return None;
    }
    // A loop with `?`, which `try_fold` would have in a closure.
    let mut value: u32 = 0;
    for b in word {
        if !b.is_ascii_digit() {
            return None;
        }
        // A digit more makes a value no smaller.
        value = value.checked_mul(10)?.checked_add(u32::from(*b - b'0'))?;
    }
    Some(value)
}
