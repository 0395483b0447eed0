// What the calls of a chain and of a code answer, as text. `try_` leaves a refusal as it is, and takes no memory for it.
ghost use Rattle.std.specs.Prelude.{◌≡◌, IfOk, string_bytes};
ghost use Rattle.code.specs.Held.{meant};
ghost use Rattle.printing.specs.Texts.{encoded_text, corrected_text, stripped_text, codeword_text};
ghost use Rattle.printing.specs.Told.{IfTold};

use crate::symbols::{Untold, shown, told, written};
use chain::Chain;
use code::Code;
use std::alloc::{AllocError, Global};

// More scratch than this makes no difference to any call.
const MOST_SCRATCH: usize = 65536;

// The word of a level's message.
// Heap, chain and level stay parameters: each caller makes one call, so a struct of them would be made only to be taken apart.
pub fn try_encode_level<C: Chain>(
    heap: Global,
    chain: &C,
    level: usize,
    message: &[u8],
) -> Result<String, Untold>
    ensures { IfTold string_bytes result (λ t. t ≡ encoded_text (C.Chain.meaning chain.now) level message.now) }
{
    written(
        heap,
        chain.length(),
        |out| chain.encode(level, message, out),
    )
}

pub fn encode_level<C: Chain>(
    heap: Global,
    chain: &C,
    level: usize,
    message: &[u8],
) -> Result<String, AllocError>
    ensures { IfOk result (λ s. string_bytes s ≡ encoded_text (C.Chain.meaning chain.now) level message.now) }
{
    shown(heap, try_encode_level(heap, chain, level, message))
}

// The level's word that is near enough to a block, searched for with so many bytes of scratch.
pub fn try_correct_level<C: Chain>(
    heap: Global,
    chain: &C,
    level: usize,
    block: &[u8],
    scratch: usize,
) -> Result<String, Untold>
    ensures { IfTold string_bytes result (λ t. t ≡ corrected_text (C.Chain.meaning chain.now) level block.now scratch) }
{
    let mut kept = block.to_vec(heap)?;
    let mut spare = vec![in heap; 0u8; scratch.min(MOST_SCRATCH)]?;
    let result = chain.correct(level, kept.as_mut_slice(), spare.as_mut_slice());
    told(heap, result, kept.as_slice())
}

pub fn correct_level<C: Chain>(
    heap: Global,
    chain: &C,
    level: usize,
    block: &[u8],
    scratch: usize,
) -> Result<String, AllocError>
    ensures { IfOk result (λ s. string_bytes s ≡ corrected_text (C.Chain.meaning chain.now) level block.now scratch) }
{
    shown(heap, try_correct_level(heap, chain, level, block, scratch))
}

// The message of a level's word.
pub fn try_strip_level<C: Chain>(
    heap: Global,
    chain: &C,
    level: usize,
    block: &[u8],
) -> Result<String, Untold>
    ensures { IfTold string_bytes result (λ t. t ≡ stripped_text (C.Chain.meaning chain.now) level block.now) }
{
    written(
        heap,
        chain.size(level).unwrap_or(0),
        |out| chain.strip(level, block, out),
    )
}

pub fn strip_level<C: Chain>(
    heap: Global,
    chain: &C,
    level: usize,
    block: &[u8],
) -> Result<String, AllocError>
    ensures { IfOk result (λ s. string_bytes s ≡ stripped_text (C.Chain.meaning chain.now) level block.now) }
{
    shown(heap, try_strip_level(heap, chain, level, block))
}

// The codeword of a message.
pub fn try_encode<C: Chain>(heap: Global, code: &Code<C>, message: &[u8]) -> Result<String, Untold>
    ensures { IfTold string_bytes result (λ t. t ≡ codeword_text (meant C.Chain.meaning code.now) message.now) }
{
    written(heap, code.word_length(), |out| code.encode(message, out))
}

pub fn encode<C: Chain>(heap: Global, code: &Code<C>, message: &[u8]) -> Result<String, AllocError>
    ensures { IfOk result (λ s. string_bytes s ≡ codeword_text (meant C.Chain.meaning code.now) message.now) }
{
    shown(heap, try_encode(heap, code, message))
}
