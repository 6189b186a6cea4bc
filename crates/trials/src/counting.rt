//! How many trials were run, and how they went.
ghost use Rattle.std.specs.Prelude.{◌≡◌, ◌-◌, ◌++◌, OnOk, decimal};
ghost use Rattle.std.specs.Io.KnownBytes.{Appends};
ghost use Rattle.trials.specs.Trials.{no_tally, tallied};

use crate::stored::{Head, next_head, open};
use std::io;
use std::io::Write;
use std::rt::Files;

// Trials of a file at most: a loop over them ends.
pub const MOST: usize = 10000;

// Trials run, those of a refusal among them, and those answered otherwise than stored.
#[derive(Clone, Copy, PartialEq, Eq)]
pub struct Tally {
    pub run: u64,
    pub refused: u64,
    pub failed: u64,
}

impl Tally {
    pub fn new() -> Tally
        ensures { result ≡ no_tally }
    {
        Tally {
            run: 0,
            refused: 0,
            failed: 0,
        }
    }

    // That of a file's trials, none where it cannot be opened: each call is handed the head that stands next, the file behind it and the tally of the
    // trials before, and runs that trial, or tells none where the file ends within it.
    pub fn of_file<R: Files + Eprint, F>(rt: &R, path: &str, mut next: F) -> io::Result<Tally>
    where
        F: FnMut(Head, &mut R::File, Tally) -> io::Result<Option<Tally>>,
        requires { F.IsAlwaysCallable next }
    {
        let mut tally = Tally::new();
        let Some(mut file) = open(rt, path.as_bytes()) else {
            return Ok(tally);
        };
        for _ in 0..MOST {
            let Some(head) = next_head(&mut file) else {
                break;
            };
            let Some(more) = next(head, &mut file, tally)? else {
                break;
            };
            tally = more;
        }
        Ok(tally)
    }

    // With one trial more.
    pub fn with(self, refused: bool, agrees: bool) -> Tally
        ensures { result ≡ tallied self refused agrees }
    {
        Tally {
            run: self.run.wrapping_add(1),
            refused: self.refused.wrapping_add(u64::from(refused)),
            failed: self.failed.wrapping_add(u64::from(!agrees)),
        }
    }

    // Those that were not refused.
    pub fn accepted(self) -> u64
        ensures { result ≡ self.run - self.refused }
    {
        self.run.saturating_sub(self.refused)
    }

    // Those answered as stored.
    pub fn agreeing(self) -> u64
        ensures { result ≡ self.run - self.failed }
    {
        self.run.saturating_sub(self.failed)
    }
}

// A number between two texts. They may be any bytes, which no format takes.
pub fn said<W: Write>(to: &mut W, before: &[u8], n: u64, after: &[u8]) -> io::Result<()>
    ensures { OnOk result (Appends (W.contents to.old) (W.contents to.new) (before.now ++ (decimal n ++ after.now))) }
{
    to.write_all(before)?;
    write!(to, "{n}")?;
    to.write_all(after)
}
