// Words, low byte first, and double words, high word first, in a run of bytes.
ghost use Rattle.std.specs.Prelude.{◌≡◌, ◌+◌, ◌≤◌, length};
ghost use Rattle.layout.specs.Words.{word_at, double_at, put_word, put_double};

// The word at a place. Asks: that both its bytes are there.
pub fn word_at(bytes: &[u8], at: usize) -> u16
    requires { at + 2 ≤ length bytes.now }
    ensures { result ≡ word_at bytes.now at }
{
    u16::from_le_bytes([bytes[at], bytes[at + 1]])
}

// The double word at a place. It goes by halves, in no byte order that `u32` knows: a trait over both widths would repeat these
// bodies. Asks: that its four bytes are there.
pub fn double_at(bytes: &[u8], at: usize) -> u32
    requires { at + 4 ≤ length bytes.now }
    ensures { result ≡ double_at bytes.now at }
{
    u32::from(word_at(bytes, at)) * 65536 + u32::from(word_at(bytes, at + 2))
}

// Writes a word at a place. Asks: that there is room.
pub fn put_word(bytes: &mut [u8], at: usize, word: u16)
    requires { at + 2 ≤ length bytes.old }
    ensures { bytes.new ≡ put_word bytes.old at word }
{
    [bytes[at], bytes[at + 1]] = word.to_le_bytes();
}

// Writes a double word at a place. Asks: that there is room.
pub fn put_double(bytes: &mut [u8], at: usize, double: u32)
    requires { at + 4 ≤ length bytes.old }
    ensures { bytes.new ≡ put_double bytes.old at double }
{
    put_word(bytes, at, (double / 65536) as u16);
    put_word(bytes, at + 2, (double % 65536) as u16);
}
