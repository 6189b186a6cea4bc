// Reads the stored decks of the file `decks` as ordinary ones, then those of `composites` as composites', and compares each answer with the one
// stored beside it.
//
// A deck's head: its length; the number, line and field of the refusal, or 0 and how many chemicals and receptors there are; and a checksum of
// the case. Its bytes follow.
#![tactic(auto)]

use cases::{Case, Record, Value};
use deck::{LINE_WIDTH, MAX_COMPOSITE_LENGTH, Reading};
use sizes::{MAX_CHEMICALS, MAX_RECEPTORS, MAX_STAGES, SLOTS};
use slots::Sort;
use std::io;
use std::io::Read;
use std::rt::Files;
use trials::{Head, Tally};

// A line more than the longest deck has.
const ROOM: usize = MAX_COMPOSITE_LENGTH + LINE_WIDTH;

const MODULUS: u64 = 999983;

const NO_RECORD: Record = Record {
    id: 0,
    slots: [Value::Absent; SLOTS],
};

// The remainders first: a sum with all of the digits may not fit.
fn mixed(sum: u64, x: u64) -> u64 {
    (sum % MODULUS * 31 + x % MODULUS) % MODULUS
}

fn mixed_value(sum: u64, value: Value) -> u64 {
    match value {
        Value::Absent => mixed(sum, 1),
        Value::Given { digits, power } => {
            let with_raised = mixed(mixed(sum, digits), powers::raised(power) as u64);
            mixed(with_raised, powers::lowered(power) as u64)
        }
    }
}

fn mixed_record(sum: u64, record: &Record) -> u64 {
    record
        .slots
        .iter()
        .fold(mixed(sum, record.id as u64), |all, value| {
            mixed_value(all, *value)
        })
}

// How many receptors a deck of this sort may have.
fn room(sort: Sort) -> usize {
    match sort {
        Sort::Ordinary => MAX_RECEPTORS,
        Sort::Composite => MAX_STAGES,
    }
}

// Every record that a deck of this sort may have, used or not.
fn mixed_case(case: &Case, sort: Sort) -> u64 {
    let receptors = case.receptors.records.iter().take(room(sort));
    case.chemicals
        .records
        .iter()
        .chain(receptors)
        .fold(mixed_record(0, &case.site), mixed_record)
}

// The same of a case with nothing in it, which the checksum of a stopped deck is taken of. No such case is made: it is large.
fn mixed_no_case(sort: Sort) -> u64 {
    let after_site = (0..MAX_CHEMICALS).chain(0..room(sort));
    after_site.fold(mixed_record(0, &NO_RECORD), |all, _| {
        mixed_record(all, &NO_RECORD)
    })
}

// The line and the field of a refusal, or how many chemicals and receptors the case has.
fn agrees(head: Head, reading: Reading, sort: Sort) -> bool {
    let [_, number, line, field, checksum] = head;
    let (told, mixed) = match reading {
        Ok(case) => (
            [0, case.chemicals.count, case.receptors.count],
            mixed_case(&case, sort),
        ),
        Err(stop) => (
            [stop.number as usize, stop.line, stop.field],
            mixed_no_case(sort),
        ),
    };
    [number, line, field] == told.map(|n| n as u64) && checksum == mixed
}

fn failure(rt: &impl Print, place: u64, head: Head) -> io::Result<()> {
    let [_, number, line, field, _] = head;
    println!(rt; "deck {place} is not answered by {number} {line} {field}")
}

// The deck behind its head in the file, in a lent buffer.
fn next<R: Read>(
    rt: &impl Print,
    bytes: &mut [u8],
    sort: Sort,
    head: Head,
    file: &mut R,
    tally: Tally,
) -> io::Result<Option<Tally>> {
    let [length, number, ..] = head;
    let got = trials::next_part(file, bytes, length);
    if got as u64 != length {
        return Ok(None);
    }
    let right = agrees(head, deck::read(&bytes[..got], sort), sort);
    let all = tally.with(number != 0, right);
    if !right {
        failure(rt, all.run, head)?;
    }
    Ok(Some(all))
}

// The file's decks, each read as one of this sort; none where it cannot be opened.
fn run(rt: &(impl Files + Print + Eprint), path: &str, sort: Sort) -> io::Result<()> {
    let mut bytes = [0u8; ROOM];
    let all = Tally::of_file(rt, path, |head, file, tally| {
        next(rt, &mut bytes, sort, head, file, tally)
    })?;
    println!(rt;
        "{} decks, {} of them stopped, {} answered otherwise",
        all.run, all.refused, all.failed
    )
}

fn main(rt: HostRuntime) -> io::Result<()> {
    run(&rt, "decks", Sort::Ordinary)?;
    run(&rt, "composites", Sort::Composite)
}
