// What a line of a script says.
ghost use Rattle.std.specs.Prelude.{◌≡◌, IfOk};
ghost use Rattle.script.specs.Words.{texts};
ghost use Rattle.script.specs.Lines.{comment, heard, parsed, read};

use crate::arguments::Unread;
use crate::commands::{Command, command_in};
use crate::words::words_of;
use std::alloc::{AllocError, Global};

// Three names, where an `Option` of an `Option` would say the same with none.
#[derive(PartialEq, Eq, Debug, Drop)]
pub enum Line {
    // Nothing but white space, or a comment.
    PassedOver,
    Understood(Command),
    NotUnderstood,
}

fn is_comment(word: &[u8]) -> bool
    ensures { result ≡ comment word.now }
{
    matches!(word, [b'#', ..])
}

fn line_of(heap: Global, words: &[&[u8]]) -> Result<Line, AllocError>
    ensures { IfOk result (λ l. heard l ≡ read (texts words.now)) }
{
    let [first, others @ ..] = words else {
        return Ok(Line::PassedOver);
    };
    if is_comment(first) {
        return Ok(Line::PassedOver);
    }
    match command_in(heap, first, others) {
        Ok(command) => Ok(Line::Understood(command)),
        Err(Unread::NotUnderstood) => Ok(Line::NotUnderstood),
        Err(Unread::Memory) => Err(AllocError),
    }
}

// What the line says; it has no newline.
pub fn parse(heap: Global, line: &[u8]) -> Result<Line, AllocError>
    ensures { IfOk result (λ l. heard l ≡ parsed line.now) }
{
    let words = words_of(heap, line)?;
    line_of(heap, &words)
}
