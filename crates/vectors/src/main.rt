// Reads rows of code vectors from standard input, works each out anew, and writes how many there were and
// how many agree. A row is what a call is given and what it has to answer:
//     pack p emax sub pattern -> number place code
//     unpack p emax sub code -> number place pattern
// The whole text has to be that of the file stdout. A row that does not agree is written out before the
// counts, so that the text is another one.
#![tactic(auto)]

mod rows;
mod tallies;

use rows::Draft;
use std::fmt;
use tallies::Tally;

// How many blocks of 65,536 bytes are read: more than the rows fill.
const BLOCKS: usize = 8;

// Standard output, by the toolchain's io: what cannot be written is passed over.
#[derive(Drop)]
struct Out;

impl fmt::Write for Out {
    fn write_str(&mut self, s: &str) -> fmt::Result {
        io::write_all(1, s.as_bytes());
        Ok(())
    }
}

// What is counted so far, and the row that is being read.
#[derive(Clone, Copy, Debug, Default)]
struct Reading {
    tally: Tally,
    draft: Draft,
}

impl Reading {
    // One byte further: a line feed ends a row.
    fn read_byte(&mut self, out: &mut impl fmt::Write, byte: u8) -> fmt::Result {
        if byte == b'\n' {
            self.tally.count(out, self.draft.row())?;
            self.draft = Draft::default();
        } else {
            self.draft.push(byte);
        }
        Ok(())
    }

    // One block of standard input further, which a read that fails or gives nothing ends. Each block has a
    // buffer of its own, so that there is one at a time on the stack, and a row that does not agree is
    // written before the next block is read.
    fn read_block(&mut self, out: &mut impl fmt::Write) -> fmt::Result {
        let mut buffer = io::large_buffer();
        let got = io::read_full(0, &mut buffer);
        for byte in &buffer[..got] {
            self.read_byte(out, *byte)?;
        }
        Ok(())
    }
}

// Writes each row that does not agree, and then the counts.
fn write_counts(out: &mut impl fmt::Write) -> fmt::Result {
    let mut reading = Reading::default();
    for _ in 0..BLOCKS {
        reading.read_block(out)?;
    }
    let Reading { mut tally, draft } = reading;
    // a last row that no line feed ends, unless nothing stands in it
    if draft.is_begun() {
        tally.count_strange();
    }
    writeln!(out, "{tally}")
}

fn main() {
    // Out takes all that is written.
    let _ = write_counts(&mut Out);
}
