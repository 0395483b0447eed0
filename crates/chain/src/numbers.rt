// Up to four small numbers, one for each level of a chain.
ghost use Rattle.std.specs.Prelude.{◌≡◌, ◌≤◌, length};

mod held;

// The numbers stand in an array, since the library allocates nothing. Clauses see the list by `held`. No model: a chain that holds
// a struct with one gets no proof where the chain is copied and used again.
#[derive(Clone, Copy, PartialEq, Eq, Debug)]
pub struct LevelNumbers {
    count: usize,
    numbers: [u8; 4],
    ghost few: { count ≤ 4 },
    ghost long: { length numbers ≡ 4 },
}
