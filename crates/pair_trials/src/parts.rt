//! The parts of a vector: working numbers, pairs and steps as they are written, each after a space. Whether they are numbers and pairs is the
//! library's to say: here a number is any significand and any exponent of 32 bits.
use pair::{Answer, Number, Pair, Step};
use trials::{after, read_signed, read_whole};

// What is written behind a vector's word, read from a place on: of each part its value, or none where another stands.
#[derive(Clone, Copy)]
pub struct Parts<'a> {
    text: &'a [u8],
    at: usize,
}

impl<'a> Parts<'a> {
    pub fn of(text: &'a [u8]) -> Self {
        Parts { text, at: 0 }
    }

    fn byte(&mut self, byte: u8) -> Option<()> {
        self.at = after(self.text, self.at, byte)?;
        Some(())
    }

    pub fn whole(&mut self) -> Option<u64> {
        let part = read_whole(self.text, self.at)?;
        self.at = part.at;
        Some(part.value)
    }

    pub fn signed(&mut self) -> Option<i32> {
        let part = read_signed(self.text, self.at)?;
        self.at = part.at;
        Some(part.value)
    }

    // A significand and an exponent.
    pub fn number(&mut self) -> Option<Number> {
        let significand = u32::try_from(self.whole()?).ok()?;
        let exponent = self.signed()?;
        Some(Number {
            significand,
            exponent,
        })
    }

    // The low number and the high one.
    pub fn pair(&mut self) -> Option<Pair> {
        let low = self.number()?;
        let high = self.number()?;
        Some(Pair { low, high })
    }

    // * or /, and a pair.
    pub fn step(&mut self) -> Option<(Step, Pair)> {
        self.byte(b' ')?;
        let step = match self.byte(b'*') {
            Some(()) => Step::Times,
            None => {
                self.byte(b'/')?;
                Step::Over
            }
        };
        Some((step, self.pair()?))
    }

    // The place behind " =", where the answer begins.
    fn answer(mut self) -> Option<Self> {
        self.byte(b' ')?;
        self.byte(b'=')?;
        Some(self)
    }

    fn is_read(self) -> bool {
        self.at == self.text.len()
    }

    // Whether the answer is this number and nothing more.
    pub fn says(self, n: u64) -> Option<bool> {
        let mut told = self.answer()?;
        Some(told.whole()? == n && told.is_read())
    }

    // Whether it is these two numbers.
    pub fn says_two(self, m: u64, n: u64) -> Option<bool> {
        let mut told = self.answer()?;
        Some(told.whole()? == m && told.whole()? == n && told.is_read())
    }

    // Whether it is the ends of this pair.
    fn says_pair(self, p: Pair) -> Option<bool> {
        let mut told = self.answer()?;
        Some(told.pair()? == p && told.is_read())
    }

    // Whether it is the ends of these two pairs.
    pub fn says_pairs(self, p: Pair, q: Pair) -> Option<bool> {
        let mut told = self.answer()?;
        Some(told.pair()? == p && told.pair()? == q && told.is_read())
    }

    // Whether it is what the library answered.
    pub fn agree(self, answer: Answer) -> Option<bool> {
        match answer {
            Ok(p) => self.says_pair(p),
            Err(_) => self.says(REFUSED),
        }
    }
}

// The number of a refusal.
pub const REFUSED: u64 = 53;
