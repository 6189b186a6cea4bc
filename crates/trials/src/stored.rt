//! Stored files, and the parts of a trial: its head, its bytes and its answer.
ghost use Rattle.std.specs.Prelude.{◌≡◌, ◌≤◌, min, length, take};
ghost use Rattle.std.specs.Io.KnownBytes.{Consumes};
ghost use Rattle.trials.specs.Trials.{column_of, head_of, filled, IsPrefixLen, IsNextHead};

use crate::text::{digits, past};
use std::fs;
use std::io::Read;
use std::rt::Files;

const COLUMNS: usize = 6;

const HEAD_NUMBERS: usize = 5;

// A head: its numbers and a line feed.
const HEAD_LENGTH: usize = COLUMNS * HEAD_NUMBERS + 1;

// The numbers of a head.
pub type Head = [u64; HEAD_NUMBERS];

// The digits behind the spaces of six columns.
#[tactic(auto, unfolding(crate::specs::Trials::column_of))]
fn column(line: &[u8], from: usize) -> Option<u64>
    ensures { result ≡ column_of line.now from }
{
    let part = line.get(from..)?.get(..COLUMNS)?;
    Some(digits(part, past(part, 0, b' ', b' '))?.value)
}

// The numbers of a head, where all five are numbers.
#[tactic(auto, unfolding(crate::specs::Trials::head_of))]
pub fn numbers_in(line: &[u8]) -> Option<Head>
    ensures { result ≡ head_of line.now }
{
    Some([
        column(line, 0)?,
        column(line, COLUMNS)?,
        column(line, 2 * COLUMNS)?,
        column(line, 3 * COLUMNS)?,
        column(line, 4 * COLUMNS)?,
    ])
}

// A file to read; none, and told on standard error, where it cannot be opened, as where its path is no text.
pub fn open<R: Files + Eprint>(rt: &R, path: &[u8]) -> Option<R::File> {
    let Ok(text) = str::from_utf8(path) else {
        let _ = eprintln!(rt; "a path that is no text");
        return None;
    };
    fs::open(rt, text)
        .inspect_err(|error| {
            let _ = eprintln!(rt; "{text}: {error}");
        })
        .ok()
}

// Reads until the buffer is full, the input ends or a read fails, and tells how many bytes were put at the buffer's start. The loop is written
// out: `read_exact` does not tell how many came before the input ended or a read failed, and `read_to_end` needs a heap.
fn read_full<R: Read>(from: &mut R, buffer: &mut [u8]) -> usize
    ensures prefix_len { IsPrefixLen result buffer.new }
    ensures bytes { Consumes (R.remaining from.old) (R.remaining from.new) (take result buffer.new) }
{
    let mut done: usize = 0;
    while done < buffer.len() {
        match from.read(&mut buffer[done..]) {
            Ok(0) => return done,
            Ok(more) => done += more,
            Err(_) => return done,
        }
    }
    done
}

// The bytes of a file, as many as the buffer holds; none where it cannot be opened.
pub fn file<R: Files + Eprint>(rt: &R, path: &[u8], buffer: &mut [u8]) -> usize
    ensures { IsPrefixLen result buffer.new }
{
    match open(rt, path) {
        Some(mut file) => read_full(&mut file, buffer),
        None => 0,
    }
}

// The head that stands next; none where the input ends before.
pub fn next_head<R: Read>(from: &mut R) -> Option<Head>
    ensures { IsNextHead (R.remaining from.old) (R.remaining from.new) result }
{
    let mut line = [0u8; HEAD_LENGTH];
    let got = read_full(from, &mut line);
    if got < HEAD_LENGTH {
        return None;
    }
    numbers_in(&line)
}

// The n bytes that stand next, at the buffer's start; fewer where the input ends before, none where there is no room.
pub fn next_part<R: Read>(from: &mut R, buffer: &mut [u8], n: u64) -> usize
    ensures prefix_len { IsPrefixLen result buffer.new }
    ensures bytes { Consumes (R.remaining from.old) (R.remaining from.new) (take result buffer.new) }
    ensures upper_bound { result ≤ n }
{
    let size = n as usize;
    if buffer.len() < size {
        return 0;
    }
    read_full(from, &mut buffer[..size])
}

// As much of a buffer as a trial asks for, or all of it.
pub fn room(n: u64, buffer: &[u8]) -> usize
    ensures prefix_len { IsPrefixLen result buffer.now }
    ensures value { result ≡ min n (length buffer.now) }
{
    buffer.len().min(n as usize)
}

// What a buffer holds before a call: no zeros, and not the same byte throughout.
#[tactic(auto, unfolding(crate::specs::Trials::filled))]
pub fn fill(buffer: &mut [u8])
    ensures { buffer.new ≡ filled (length buffer.old) }
{
    for (i, byte) in buffer.iter_mut().enumerate() {
        *byte = (i % 251) as u8 + 1;
    }
}
