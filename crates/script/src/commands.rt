// The commands, by their names and numbers.
ghost use Rattle.std.specs.Prelude.{◌≡◌};
ghost use Rattle.script.specs.Words.{texts};
ghost use Rattle.script.specs.Numbers.{numbers};
ghost use Rattle.script.specs.Arguments.{Reads};
ghost use Rattle.script.specs.Commands.{asked, called, spelled, view};

use crate::arguments::{
    Unread, none_of, numbers_of, one_of, symbols_of, two_of, whole_of, with_rest,
};
use std::alloc::Global;

#[derive(PartialEq, Eq, Debug, Drop)]
pub enum Command {
    Field(u8),
    Sum(u8, u8),
    Product(u8, u8),
    Opposite(u8),
    Inverse(u8),
    Sheet,
    ReedSolomon(u8, Vec<u8>),
    Plain(u8, Vec<u8>),
    EncodeLevel(u8, Vec<u8>),
    CorrectLevel(u8, Vec<u8>),
    StripLevel(u8, Vec<u8>),
    Code(u8, Vec<u8>),
    Encode(Vec<u8>),
    Scratch(u32),
}

#[derive(Clone, Copy, PartialEq, Eq, Debug)]
enum Name {
    Field,
    Sum,
    Product,
    Opposite,
    Inverse,
    Sheet,
    ReedSolomon,
    Plain,
    EncodeLevel,
    CorrectLevel,
    StripLevel,
    Code,
    Encode,
    Scratch,
}

// A `match` on the spellings was tried: it goes byte by byte, and leaves some hundred goals.
const NAMES: [(&[u8], Name); 14] = [
    (b"field", Name::Field),
    (b"sum", Name::Sum),
    (b"product", Name::Product),
    (b"opposite", Name::Opposite),
    (b"inverse", Name::Inverse),
    (b"sheet", Name::Sheet),
    (b"reed-solomon", Name::ReedSolomon),
    (b"plain", Name::Plain),
    (b"encode-level", Name::EncodeLevel),
    (b"correct-level", Name::CorrectLevel),
    (b"strip-level", Name::StripLevel),
    (b"code", Name::Code),
    (b"encode", Name::Encode),
    (b"scratch", Name::Scratch),
];

fn name_of(word: &[u8]) -> Option<Name>
    ensures { result ≡ spelled word.now }
{
    NAMES
        .iter()
        .find(|(spelling, _)| *spelling == word)
        .map(|(_, name)| *name)
}

fn command_of(heap: Global, name: Name, numbers: &[u32]) -> Result<Command, Unread>
    ensures { Reads view result (asked name numbers.now) }
{
    match name {
        Name::Field => one_of(numbers).map(Command::Field),
        Name::Sum => two_of(numbers).map(|(a, b)| Command::Sum(a, b)),
        Name::Product => two_of(numbers).map(|(a, b)| Command::Product(a, b)),
        Name::Opposite => one_of(numbers).map(Command::Opposite),
        Name::Inverse => one_of(numbers).map(Command::Inverse),
        Name::Sheet => none_of(numbers).map(|()| Command::Sheet),
        Name::ReedSolomon => with_rest(heap, numbers, Command::ReedSolomon),
        Name::Plain => with_rest(heap, numbers, Command::Plain),
        Name::EncodeLevel => with_rest(heap, numbers, Command::EncodeLevel),
        Name::CorrectLevel => with_rest(heap, numbers, Command::CorrectLevel),
        Name::StripLevel => with_rest(heap, numbers, Command::StripLevel),
        Name::Code => with_rest(heap, numbers, Command::Code),
        Name::Encode => symbols_of(heap, numbers).map(Command::Encode),
        Name::Scratch => whole_of(numbers).map(Command::Scratch),
    }
}

pub(crate) fn command_in(heap: Global, first: &[u8], others: &[&[u8]]) -> Result<Command, Unread>
    ensures { Reads view result (called (spelled first.now) (numbers (texts others.now))) }
{
    let name = name_of(first).ok_or(Unread::NotUnderstood)?;
    let arguments = numbers_of(heap, others)?;
    command_of(heap, name, &arguments)
}
