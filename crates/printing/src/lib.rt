// The texts in which the console shows what the calls of a chain and of a code answer.
#![tactic(auto)]

mod calls;
mod sheet;
mod symbols;

pub use calls::{
    correct_level, encode, encode_level, strip_level, try_correct_level, try_encode,
    try_encode_level, try_strip_level,
};
pub use sheet::{chain_lines, code_lines};
pub use symbols::Untold;
