//! What both programs share: a deck from a reader, and what a call on it told to a writer, the report, or number, line and field in 6 columns each.
//! What is read and printed is proved of readers and writers whose bytes are known; of the standard streams no contract can say them.
#![tactic(auto)]

ghost use Rattle.std.specs.Prelude.{◌≡◌, OnOk};
ghost use Rattle.std.specs.Io.KnownBytes.{Appends};
ghost use Rattle.answers.specs.Answers.{refusal_text, answer_text, IsRead};

use cases::Told;
use std::io;
use std::io::{Read, Write};

// Columns of each number of a refusal, and its bytes: three numbers and a line feed.
const COLUMNS: usize = 6;

const REFUSAL_WIDTH: usize = 3 * COLUMNS + 1;

const LINE_FEED: u8 = b'\n';

// Reads the input into the room: how many bytes, to the end of the input or of the room for them; or the failure of a read. The loop is written
// out: `read_exact` does not tell how many bytes an input has that ends before the room, and `read_to_end` needs a heap.
pub fn read_input<R: Read>(from: &mut R, room: &mut [u8]) -> io::Result<usize>
    ensures { IsRead (R.remaining from.old) (R.remaining from.new) result room.new }
{
    let mut done: usize = 0;
    while done < room.len() {
        let more = from.read(&mut room[done..])?;
        if more == 0 {
            break;
        }
        done += more;
    }
    Ok(done)
}

// The three numbers in their columns; the last byte stays the line feed.
fn refusal(told: Told) -> [u8; REFUSAL_WIDTH]
    ensures { result ≡ refusal_text told }
{
    let mut text = [LINE_FEED; REFUSAL_WIDTH];
    spelling::put_number(&mut text[..COLUMNS], told.number as u64);
    spelling::put_number(&mut text[COLUMNS..2 * COLUMNS], told.line as u64);
    spelling::put_number(&mut text[2 * COLUMNS..3 * COLUMNS], told.field as u64);
    text
}

// The bytes to print: the buffer's first, as many as the report has, or the refusal's.
#[tactic(auto, unfolding(crate::specs::Answers::answer_text))]
fn answer_text<'a>(told: Told, buffer: &'a [u8], refusal: &'a [u8]) -> &'a [u8]
    requires { refusal.now ≡ refusal_text told }
    ensures { result.now ≡ answer_text told buffer.now }
{
    if told.number != 0 {
        return refusal;
    }
    spelling::front(buffer, told.line)
}

// After the program's name, which may be any bytes, the rest in one write: a format would write it in parts. Where that cannot be written either,
// nothing is left to say it to.
fn complain<E: Write>(errors: &mut E, program: &[u8], what: &[u8]) {
    let _ = errors.write_all(program);
    let _ = errors.write_all(what);
}

// Writes what the call told, with the buffer that it wrote into.
pub fn write_answer<W: Write>(to: &mut W, told: Told, buffer: &[u8]) -> io::Result<()>
    ensures { OnOk result (Appends (W.contents to.old) (W.contents to.new) (answer_text told buffer.now)) }
{
    let refusal = refusal(told);
    to.write_all(answer_text(told, buffer, &refusal))
}

// Prints what the call told, with the buffer that it wrote into. Where the deck could not be read, or the answer cannot be written, the program of
// this name says so; of a deck that could not be read nothing else is printed.
pub fn answer<W: Write, E: Write>(
    to: &mut W,
    errors: &mut E,
    program: &[u8],
    told: io::Result<Told>,
    buffer: &[u8],
) {
    match told {
        Err(_) => complain(errors, program, b": the deck could not be read\n"),
        Ok(told) if write_answer(to, told, buffer).is_err() => {
            complain(errors, program, b": the report could not be written\n");
        }
        Ok(_) => {}
    }
}
