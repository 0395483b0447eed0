// Making and reading the numbers of a chain's levels.
ghost use Rattle.std.specs.Prelude.{◌≡◌, ◌≤◌, length};
ghost use Rattle.chain.specs.Held.{held};
ghost use Rattle.chain.specs.LevelNumbers.{fitted, at_level};

use crate::numbers::LevelNumbers;

impl LevelNumbers {
    // Holds the numbers, or none if there are more than four. No `From`, which would promise to hold them all, and no `TryFrom`,
    // since making a chain is never refused.
    pub fn of(numbers: &[u8]) -> LevelNumbers
        ensures { held result ≡ fitted numbers.now }
    {
        let fitting = if numbers.len() <= 4 { numbers } else { &[] };
        let mut array = [0; 4];
        array[..fitting.len()].copy_from_slice(fitting);
        LevelNumbers {
            count: fitting.len(),
            numbers: array,
        }
    }

    pub fn as_slice(&self) -> &[u8]
        ensures value { result.now ≡ held self.now }
        ensures few { length (held self.now) ≤ 4 }
    {
        &self.numbers[..self.count]
    }

    // The number of a level that is there, counted from 1.
    pub fn at(&self, level: usize) -> Option<u8>
        ensures { result ≡ at_level (held self.now) level }
    {
        self.as_slice().get(level.checked_sub(1)?).copied()
    }
}
