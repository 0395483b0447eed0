// A received word over its field.
ghost use Rattle.std.specs.Prelude.{◌≤◌, T, length};
ghost use Rattle.field.specs.Words.{symbols as are_symbols};

use field::Field;

// From 1 to 32 symbols, no more than the field has points.
#[derive(Drop)]
pub(crate) struct Received<'a, F: Field> {
    pub(crate) field: &'a F,
    pub(crate) symbols: &'a [u8],
    ghost some: { 1 ≤ length symbols.now },
    ghost few: { length symbols.now ≤ 32 },
    ghost points: { length symbols.now ≤ (F.Field.meaning field.now).q },
    ghost all: { T (are_symbols (F.Field.meaning field.now).q symbols.now) },
}
