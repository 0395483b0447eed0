// Symbols and refusals as text.
ghost use Rattle.std.specs.Prelude.{◌≡◌, IfOk, List, ℕ, Result, length, string_bytes};
ghost use Rattle.std.specs.Borrow.{MutBor};
ghost use Rattle.refusal.specs.declared.Refusal.{Refusal};
ghost use Rattle.printing.specs.declared.symbols.Untold.TheVariants.{Refused, OutOfMemory};
ghost use Rattle.printing.specs.Texts.{listed as listed_text, told as told_text};
ghost use Rattle.printing.specs.Told.{IfTold};

use refusal::Refusal;
use std::alloc::{AllocError, Global};

// The symbols with one space between two.
fn listed(heap: Global, symbols: &[u8]) -> Result<String, AllocError>
    ensures { IfOk result (λ s. string_bytes s ≡ listed_text symbols.now) }
{
    let Some((first, rest)) = symbols.split_first() else {
        return Ok(String::new(heap));
    };
    let mut text = format!(in heap; "{first}")?;
    for symbol in rest {
        write!(text, " {symbol}")?;
    }
    Ok(text)
}

// Why a call has no text of symbols: it was refused, which takes no memory to say, or there was none for the text.
#[derive(Clone, Copy, PartialEq, Eq, Debug)]
pub enum Untold {
    Refused(Refusal),
    OutOfMemory(AllocError),
}

impl From<Refusal> for Untold {
    ghost from_gives = { λ e r. r ≡ Refused e };

    fn from(e: Refusal) -> Untold {
        Untold::Refused(e)
    }
}

impl From<AllocError> for Untold {
    ghost from_gives = { λ e r. r ≡ OutOfMemory e };

    fn from(e: AllocError) -> Untold {
        Untold::OutOfMemory(e)
    }
}

// The symbols that a call has written, or its refusal.
pub(crate) fn told(heap: Global, res: Result<(), Refusal>, written: &[u8]) -> Result<String, Untold>
    ensures { IfTold string_bytes result (λ t. t ≡ told_text res written.now) }
{
    res?;
    Ok(listed(heap, written)?)
}

// What a call writes into n places, or its refusal.
pub(crate) fn written<F: FnOnce(&mut [u8]) -> Result<(), Refusal>>(
    heap: Global,
    n: usize,
    call: F,
) -> Result<String, Untold>
    requires { F.IsAlwaysCallable call }
    ensures { IfTold string_bytes result (λ t. (before : MutBor (List ℕ)) × (res : Result (Unit {0}) Refusal) × (after : MutBor (List ℕ)) × (length before.now ≡ n) × F.post call before res after × (t ≡ told_text res after.now)) }
{
    let mut out = vec![in heap; 0u8; n]?;
    let result = call(out.as_mut_slice());
    told(heap, result, out.as_slice())
}

// The same with the refusal written out.
pub(crate) fn shown(heap: Global, told: Result<String, Untold>) -> Result<String, AllocError>
    ensures { (t : List ℕ) → IfTold string_bytes told (λ s. s ≡ t) → IfOk result (λ s. string_bytes s ≡ t) }
{
    match told {
        Ok(text) => Ok(text),
        Err(Untold::Refused(refusal)) => format!(in heap; "{refusal}"),
        Err(Untold::OutOfMemory(error)) => Err(error),
    }
}
