// Numbers of two bytes, the lower first.
ghost use Rattle.std.specs.Prelude.{◌≡◌, ◌+◌, ◌<◌, length};
ghost use Rattle.promises.specs.Layout.{word_at, set_word};

// Reads the number at an offset.
pub(crate) fn word(m: &[u8], o: usize) -> u16
    requires { o + 1 < length m.now }
    ensures { result ≡ word_at o m.now }
{
    u16::from(m[o]) + 256 * u16::from(m[o + 1])
}

// Writes a number at an offset.
pub(crate) fn set_word(m: &mut [u8], o: usize, v: u16)
    requires { o + 1 < length m.old }
    ensures { m.new ≡ set_word o v m.old }
{
    m[o] = (v % 256) as u8;
    m[o + 1] = (v / 256) as u8;
}
