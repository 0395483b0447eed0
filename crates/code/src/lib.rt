// A code joins a chain over any field with a matrix that is non-singular by columns.
#![tactic(auto)]

mod encoding;
mod making;
mod matrix;
mod numbers;

pub use matrix::Matrix;

// A code over the chain that it holds, with a matrix of l columns. A flaw is told, not refused.
#[derive(Clone, Copy, PartialEq, Eq, Debug)]
pub struct Code<C> {
    chain: C,
    l: usize,
    matrix: Matrix,
}
