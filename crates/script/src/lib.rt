// Reads the lines of a console script: their words, their numbers and the commands that they ask for.
#![tactic(auto)]

mod arguments;
mod commands;
mod lines;
mod numbers;
mod words;

pub use commands::Command;
pub use lines::{Line, parse};
pub use numbers::number_of;
pub use words::{echo_of, words_of};
