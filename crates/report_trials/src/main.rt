// Runs the stored decks of the file `decks` through `report::report`, then those of `composites` through `composite::report`, and compares
// each answer, and every byte of the report buffer, with what is stored.
//
// A deck's head: the deck's length, the buffer's, and the number, line and field that the call tells. The deck's bytes follow, then the
// report's: only where the number is 0; the line is then how many.
#![tactic(auto)]

use cases::Told;
use deck::{LINE_WIDTH, MAX_COMPOSITE_LENGTH};
use slots::Sort;
use std::io;
use std::io::{Read, Write};
use std::rt::Files;
use trials::{Head, Tally, said};

// Room for any stored deck, which may have a line too many, and for any stored buffer, which may be 700 bytes longer than the report.
const DECK_ROOM: usize = MAX_COMPOSITE_LENGTH + LINE_WIDTH;

const REPORT_ROOM: usize = report::MAX_REPORT + 700;

// A deck, the buffer that the call writes into, and what that must then be.
#[derive(Drop)]
struct Rooms {
    deck: [u8; DECK_ROOM],
    buffer: [u8; REPORT_ROOM],
    expected: [u8; REPORT_ROOM],
}

// Whether the call was lent the buffer and told what is stored.
fn agrees(head: Head, room: usize, told: Told) -> bool {
    let [_, lent, number, line, field] = head;
    lent == room as u64
        && number == told.number as u64
        && line == told.line as u64
        && field == told.field as u64
}

// How many report bytes follow the deck.
fn report_length(head: Head) -> u64 {
    match head {
        [_, _, 0, line, _] => line,
        _ => 0,
    }
}

// Tells the place of a deck that is not answered as stored, and what the call told.
fn put_difference<W: Write>(to: &mut W, place: u64, told: Told) -> io::Result<()> {
    said(to, b"not as stored: deck ", place, b"\n")?;
    said(to, b"  number ", told.number as u64, b"\n")?;
    said(to, b"  line ", told.line as u64, b"\n")?;
    said(to, b"  field ", told.field as u64, b"\n")
}

// The call on decks of this sort.
fn reported(sort: Sort, deck: &[u8], buffer: &mut [u8]) -> Told {
    match sort {
        Sort::Ordinary => report::report(deck, buffer),
        Sort::Composite => composite::report(deck, buffer),
    }
}

// Runs the deck behind its head in the file, in as much of a filled buffer as the head asks for. The whole buffer must then be the one that is
// expected.
fn next<R: Read, W: Write>(
    rooms: &mut Rooms,
    to: &mut W,
    sort: Sort,
    head: Head,
    file: &mut R,
    tally: Tally,
) -> io::Result<Option<Tally>> {
    let length = report_length(head);
    trials::fill(&mut rooms.expected);
    let n = trials::next_part(file, &mut rooms.deck, head[0]);
    let m = trials::next_part(file, &mut rooms.expected, length);
    if n as u64 != head[0] || m as u64 != length {
        return Ok(None);
    }
    let buffer = &mut rooms.buffer[..];
    trials::fill(buffer);
    let room = trials::room(head[1], buffer);
    let told = reported(sort, &rooms.deck[..n], &mut buffer[..room]);
    let right = agrees(head, room, told) && rooms.buffer == rooms.expected;
    let all = tally.with(told.number != 0, right);
    if !right {
        put_difference(to, all.run, told)?;
    }
    Ok(Some(all))
}

// The file's decks, each one of this sort; none where it cannot be opened.
fn run(rt: &(impl Files + Print + Eprint), path: &str, sort: Sort) -> io::Result<()> {
    let mut rooms = Rooms {
        deck: [0; DECK_ROOM],
        buffer: [0; REPORT_ROOM],
        expected: [0; REPORT_ROOM],
    };
    let mut out = io::writer(rt);
    let all = Tally::of_file(rt, path, |head, file, tally| {
        next(&mut rooms, &mut out, sort, head, file, tally)
    })?;
    said(&mut out, b"decks ", all.run, b"\n")?;
    said(&mut out, b"accepted ", all.accepted(), b"\n")?;
    said(&mut out, b"refused ", all.refused, b"\n")?;
    said(&mut out, b"differing ", all.failed, b"\n")
}

fn main(rt: HostRuntime) -> io::Result<()> {
    run(&rt, "decks", Sort::Ordinary)?;
    run(&rt, "composites", Sort::Composite)
}
