// A file's lines, byte by byte.

// The line as far as it was read: the last three bytes of its word as a number, the word being
// whole once a blank came, how many of its numbers are whole, how many of them stand before the
// sign `=`, and whether the last byte was a digit. The numbers go into lent space.
#[derive(Clone, Copy)]
pub struct Line {
    pub word: u32,
    pub named: bool,
    pub count: usize,
    pub asked: usize,
    pub open: bool,
}

// The number with one digit more.
fn tenfold(n: u64, b: u8) -> u64 {
    (n % 1844674407370955162 * 10).wrapping_add(u64::from(b % 16))
}

// The byte, if it is a digit, put behind the number that is open; where none is it starts one.
pub fn store(values: &mut [u64], l: Line, b: u8) {
    if !b.is_ascii_digit() {
        return;
    }
    if let Some(n) = values.get_mut(l.count) {
        *n = tenfold(if l.open { *n } else { 0 }, b);
    }
}

impl Line {
    // Gives the last bytes of its word, zeros before a shorter one.
    pub fn last_bytes(self) -> [u8; 3] {
        let [_, a, b, c] = self.word.to_be_bytes();
        [a, b, c]
    }

    // Starts a line.
    pub fn new() -> Line {
        Line {
            word: 0,
            named: false,
            count: 0,
            asked: 0,
            open: false,
        }
    }

    // Gives the line with one byte more.
    pub fn step(self, b: u8) -> Line {
        let mut l = self;
        if !self.named {
            if b == b' ' {
                l.named = true;
            } else {
                l.word = self.word % 65536 * 256 + u32::from(b);
            }
            return l;
        }
        l.open = b.is_ascii_digit();
        if self.open && !l.open {
            l.count = self.count % 1000000 + 1;
        }
        if b == b'=' {
            l.asked = l.count;
        }
        l
    }
}
