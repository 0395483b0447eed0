// Reads a script on standard input, and prints each command with its answer.
#![tactic(auto)]

mod answer;
mod session;

use session::Session;
use std::io;
use std::io::{BufRead, BufReader};

fn main(rt: HostRuntime) -> io::Result<()> {
    let heap = rt.alloc();
    let mut session = Session::new();
    for line in BufReader::new(heap, rt.stdin())?.split(heap, b'\n') {
        let line = line?;
        if let Some(text) = session.reply(heap, line.as_slice())? {
            print!(rt; "{text}")?;
        }
    }
    Ok(())
}
