// The words of a line, and the line as it is shown again.
ghost use Rattle.std.specs.Prelude.{◌≡◌, ◌++◌, IfOk, string_bytes, OnOk};
ghost use Rattle.script.specs.Words.{white, texts, words};
ghost use Rattle.script.specs.Echo.{shown, spaced, echoed};

use std::alloc::{AllocError, Global};

fn is_white(b: u8) -> bool
    ensures { result ≡ white b }
{
    matches!(b, b' ' | b'\t' | b'\r')
}

// The parts of the line between its white space.
pub fn words_of<'a>(heap: Global, line: &'a [u8]) -> Result<Vec<&'a [u8]>, AllocError>
    ensures { IfOk result (λ v. texts v.items ≡ words line.now) }
{
    // Byte by byte: `split` and `filter` make and drop a part at each white byte, and take up to three times as long.
    let mut found = Vec::new(heap);
    let mut start = 0;
    for (i, b) in line.iter().enumerate() {
        if is_white(*b) {
            if start < i {
                found.push(&line[start..i])?;
            }
            start = i + 1;
        }
    }
    if start < line.len() {
        found.push(&line[start..])?;
    }
    Ok(found)
}

fn shown_as(b: u8) -> char
    ensures { result ≡ shown b }
{
    match b {
        b' '..=b'~' => char::from(b),
        _ => '?',
    }
}

// Adds a space and the word.
fn push_word(echo: &mut String, word: &[u8]) -> Result<(), AllocError>
    ensures { OnOk result (string_bytes echo.new ≡ string_bytes echo.old ++ spaced word.now) }
{
    echo.push(' ')?;
    for b in word {
        echo.push(shown_as(*b))?;
    }
    Ok(())
}

// `>` and each word after a space, every byte that is not printable ASCII as `?`.
pub fn echo_of(heap: Global, line: &[u8]) -> Result<String, AllocError>
    ensures { IfOk result (λ s. string_bytes s ≡ echoed line.now) }
{
    let words = words_of(heap, line)?;
    let mut echo = String::from_str(heap, ">")?;
    for word in &words {
        push_word(&mut echo, word)?;
    }
    Ok(echo)
}
