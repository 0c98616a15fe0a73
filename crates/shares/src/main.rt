// Program `shares`: lists the net that the order on standard input builds. docs/SPECIFICATION.md, Section 13.
#![tactic(auto)]

use input::Typed;
use std::io;
use std::io::{Input, Read, Write};

// The next byte of the input, if it has not ended.
fn read_byte(reader: &mut impl Read) -> io::Result<Option<u8>> {
    let mut byte = [0u8; 1];
    let n = reader.read(&mut byte)?;
    Ok(byte[..n].first().copied())
}

fn list(out: &mut impl Write, typed: Typed) -> io::Result<()> {
    let mut text = [0u8; listing::ROOM];
    let n = listing::print_typed(typed, &mut text);
    out.write_all(&text[..n])
}

// Reads on until the input ends or no further byte could change what is printed.
fn main(rt: HostRuntime) -> io::Result<()> {
    let mut typed = Typed::nothing();
    let mut reader = rt.reader();
    while typed.wants_more()
        && let Some(byte) = read_byte(&mut reader)?
    {
        typed = typed.with_byte(byte);
    }
    list(&mut io::writer(&rt), typed)
}
