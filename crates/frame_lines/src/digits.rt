// Upper-case hexadecimal digits, read and written.
ghost use Rattle.std.specs.Prelude.{◌≡◌, ◌<◌};
ghost use Rattle.frame_lines.specs.Digits.{is_digit, value_of, digit_of};

// A letter less what it counts: 'A' counts ten.
const LETTER: u8 = b'A' - 10;

// Says whether a byte is a digit.
pub fn is_digit(b: u8) -> bool
    ensures { result ≡ is_digit b }
{
    matches!(b, b'0'..=b'9' | b'A'..=b'F')
}

// Gives what a digit counts; 0 for any other byte.
pub fn value(b: u8) -> u8
    ensures { (result ≡ value_of b) × (result < 16) }
{
    match b {
        b'0'..=b'9' => b - b'0',
        b'A'..=b'F' => b - LETTER,
        _ => 0,
    }
}

// Gives the digit that counts n.
pub fn digit(n: u16) -> u8
    requires { n < 16 }
    ensures { result ≡ digit_of n }
{
    if n < 10 {
        b'0' + n as u8
    } else {
        LETTER + n as u8
    }
}
