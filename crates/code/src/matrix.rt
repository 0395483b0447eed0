// A small matrix: up to four rows of up to eight entries. By value, since elimination works on copies and nothing is allocated.
ghost use Rattle.std.specs.Prelude.{◌≡◌, ℕ, ◌<◌, ◌≤◌, [], length, slice_index_or};

mod elimination;
mod held;

// Clauses see its rows by `held`. No model: to be `Copy` it would owe zeros past the height and the width at each step.
#[derive(Clone, Copy, PartialEq, Eq, Debug)]
pub struct Matrix {
    rows: [[u8; 8]; 4],
    height: usize,
    width: usize,
    ghost tall: { length rows ≡ 4 },
    ghost wide: { (i : ℕ) → i < 4 → length (slice_index_or rows i []) ≡ 8 },
    ghost low: { height ≤ 4 },
    ghost narrow: { width ≤ 8 },
}
