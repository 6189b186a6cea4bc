//! Reads stored vectors, works each by the library `pair` and compares the complete answer. Prints each line that differs, and per
//! operation how many agree. A line that cannot be read counts as one that differs.
#![tactic(auto)]

mod parts;
mod vector;

use crate::vector::{OPERATIONS, Operation, Vector};
use std::io;
use std::rt::Files;
use trials::Tally;

// Room for any file of vectors, and a byte more.
const ROOM: usize = 65536;

// A line without the byte that ends it.
fn line_of(piece: &[u8]) -> &[u8] {
    match piece {
        [line @ .., end] if *end < b' ' => line,
        _ => piece,
    }
}

// The tallies of the operations, that of what names none of them, and that of all.
#[derive(Drop)]
struct Tallies {
    each: [Tally; OPERATIONS.len()],
    none: Tally,
    all: Tally,
}

impl Tallies {
    fn new() -> Self {
        let none = Tally::new();
        Tallies {
            each: [none; OPERATIONS.len()],
            none,
            all: none,
        }
    }

    // One line of a file, or as line 0 the file: whether it agrees.
    fn count(
        &mut self,
        rt: &impl Print,
        path: &str,
        line: u64,
        operation: Option<Operation>,
        agrees: bool,
    ) -> io::Result<()> {
        if !agrees {
            println!(rt; "{path} line {line} differs")?;
        }
        let one = match operation {
            Some(operation) => &mut self.each[operation as usize],
            None => &mut self.none,
        };
        *one = one.with(false, agrees);
        self.all = self.all.with(false, agrees);
        Ok(())
    }

    // Each line of a file's bytes in turn. Below a space stand the bytes that end a line.
    fn lines(&mut self, rt: &impl Print, path: &str, s: &[u8]) -> io::Result<()> {
        for (i, piece) in s.split_inclusive(|b| *b < b' ').enumerate() {
            let vector = Vector::of(line_of(piece));
            self.count(
                rt,
                path,
                (i as u64).wrapping_add(1),
                vector.map(|v| v.operation),
                vector.is_some_and(|v| v.agrees()),
            )?;
        }
        Ok(())
    }

    // A file that cannot be read, or fills the buffer and so may be cut short, differs as its line 0.
    fn file(&mut self, rt: &(impl Files + Print + Eprint), path: &str) -> io::Result<()> {
        let mut buffer = [0u8; ROOM];
        let n = trials::file(rt, path.as_bytes(), &mut buffer);
        self.lines(rt, path, &buffer[..n])?;
        if 0 < n && n < buffer.len() {
            return Ok(());
        }
        self.count(rt, path, 0, None, false)
    }

    fn results(&self, rt: &impl Print) -> io::Result<()> {
        for (operation, _, name) in &OPERATIONS {
            let tally = self.each[*operation as usize];
            println!(rt;
                "{name} {} agree, {} differ",
                tally.agreeing(),
                tally.failed
            )?;
        }
        println!(rt; "no operation {} differ", self.none.failed)?;
        println!(rt; "total {}, {} differ", self.all.run, self.all.failed)
    }
}

const PATHS: [&str; 10] = [
    "vectors_1",
    "vectors_2",
    "vectors_3",
    "vectors_4",
    "vectors_5",
    "vectors_6",
    "vectors_7",
    "vectors_8",
    "vectors_9",
    "vectors_10",
];

fn main(rt: HostRuntime) -> io::Result<()> {
    let mut tallies = Tallies::new();
    for path in PATHS {
        tallies.file(&rt, path)?;
    }
    tallies.results(&rt)
}
