// The chains' calls for programs in other languages: numbers and byte slices, and a refusal as its number.
#![tactic(auto)]

ghost use Rattle.any_field.specs.Kinds.{of_order};
ghost use Rattle.std.specs.Prelude.{◌≡◌};
ghost use Rattle.exports.specs.Exported.{Encoded, Corrected, Stripped, number};
ghost use Rattle.plain.specs.Kinds.{plain};
ghost use Rattle.reed_solomon.specs.Code.{reed_solomon};

use any_field::AnyField;
use chain::Chain;
use plain::Plain;
use reed_solomon::ReedSolomon;
use refusal::Refusal;

// 0, or the number of the refusal: C takes numbers and slices alone.
fn number_of(res: Result<(), Refusal>) -> u8
    ensures { result ≡ number res }
{
    Refusal::number_or_0(res.err())
}

// The same calls stand here for each kind of chain, since C knows a chain by the name of the call.
// The answers are matched, since a closure over the caller's slices would have to say again what the call does to them.

// Over the field of q symbols, a plain chain's `encode`. A field that is refused is answered before anything else.
#[unsafe(no_mangle)]
pub extern "C" fn link_plain_encode(
    q: u8,
    m: usize,
    kinds: &[u8],
    level: usize,
    message: &[u8],
    out: &mut [u8],
) -> u8
    ensures { Encoded plain (of_order q) m kinds.now level message.now out.old result out.new }
{
    match AnyField::of_order(q) {
        Ok(field) => number_of(Plain::new(field, m, kinds).encode(level, message, out)),
        Err(refusal) => refusal.number(),
    }
}

// The same of `correct`.
#[unsafe(no_mangle)]
pub extern "C" fn link_plain_correct(
    q: u8,
    m: usize,
    kinds: &[u8],
    level: usize,
    block: &mut [u8],
    scratch: &mut [u8],
) -> u8
    ensures { Corrected plain (of_order q) m kinds.now level block.old scratch.old result block.new scratch.new }
{
    match AnyField::of_order(q) {
        Ok(field) => number_of(Plain::new(field, m, kinds).correct(level, block, scratch)),
        Err(refusal) => refusal.number(),
    }
}

// The same of `strip`.
#[unsafe(no_mangle)]
pub extern "C" fn link_plain_strip(
    q: u8,
    m: usize,
    kinds: &[u8],
    level: usize,
    block: &[u8],
    out: &mut [u8],
) -> u8
    ensures { Stripped plain (of_order q) m kinds.now level block.now out.old result out.new }
{
    match AnyField::of_order(q) {
        Ok(field) => number_of(Plain::new(field, m, kinds).strip(level, block, out)),
        Err(refusal) => refusal.number(),
    }
}

// Over the field of q symbols, a Reed-Solomon chain's `encode`. A field that is refused is answered before anything else.
#[unsafe(no_mangle)]
pub extern "C" fn link_reed_solomon_encode(
    q: u8,
    m: usize,
    sizes: &[u8],
    level: usize,
    message: &[u8],
    out: &mut [u8],
) -> u8
    ensures { Encoded reed_solomon (of_order q) m sizes.now level message.now out.old result out.new }
{
    match AnyField::of_order(q) {
        // One corrector for each field, so that no field is chosen in its loops.
        Ok(AnyField::Sixteen(f)) => number_of(ReedSolomon::new(f, m, sizes).encode(
            level, message, out,
        )),
        Ok(AnyField::Prime(f)) => number_of(ReedSolomon::new(f, m, sizes).encode(
            level, message, out,
        )),
        Err(refusal) => refusal.number(),
    }
}

// The same of `correct`.
#[unsafe(no_mangle)]
pub extern "C" fn link_reed_solomon_correct(
    q: u8,
    m: usize,
    sizes: &[u8],
    level: usize,
    block: &mut [u8],
    scratch: &mut [u8],
) -> u8
    ensures { Corrected reed_solomon (of_order q) m sizes.now level block.old scratch.old result block.new scratch.new }
{
    match AnyField::of_order(q) {
        // One corrector for each field, so that no field is chosen in its loops.
        Ok(AnyField::Sixteen(f)) => number_of(ReedSolomon::new(f, m, sizes).correct(
            level, block, scratch,
        )),
        Ok(AnyField::Prime(f)) => number_of(ReedSolomon::new(f, m, sizes).correct(
            level, block, scratch,
        )),
        Err(refusal) => refusal.number(),
    }
}

// The same of `strip`.
#[unsafe(no_mangle)]
pub extern "C" fn link_reed_solomon_strip(
    q: u8,
    m: usize,
    sizes: &[u8],
    level: usize,
    block: &[u8],
    out: &mut [u8],
) -> u8
    ensures { Stripped reed_solomon (of_order q) m sizes.now level block.now out.old result out.new }
{
    match AnyField::of_order(q) {
        // One corrector for each field, so that no field is chosen in its loops.
        Ok(AnyField::Sixteen(f)) => number_of(ReedSolomon::new(f, m, sizes).strip(
            level, block, out,
        )),
        Ok(AnyField::Prime(f)) => number_of(ReedSolomon::new(f, m, sizes).strip(level, block, out)),
        Err(refusal) => refusal.number(),
    }
}
