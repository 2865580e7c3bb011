// Bytes put into a buffer: a number of 16 bits, and a copy.

ghost use Rattle.std.specs.Prelude.{◌≡◌, [], ◌∷◌, ◌+◌, ◌/◌, ◌%◌, ◌≤◌, length};
ghost use Rattle.common.specs.Window.{placed};

// Puts a number, its lower byte first. The offset stands beside the buffer, and no window of it is lent: the contract
// says what the whole buffer is then (`placed`).
pub fn put_word(bytes: &mut [u8], at: usize, value: u16)
    requires room { at + 2 ≤ length bytes.old }
    ensures put { bytes.new ≡ placed bytes.old at (value % 256 ∷ value / 256 ∷ []) }
{
    bytes[at..at + 2].copy_from_slice(&value.to_le_bytes());
}

// Copies all of a source into the buffer. By index: copy_from_slice calls C's memmove, which the archive for C would then
// need from outside.
pub fn copy_at(bytes: &mut [u8], at: usize, source: &[u8])
    requires room { at + length source.now ≤ length bytes.old }
    ensures copied { bytes.new ≡ placed bytes.old at source.now }
{
    for i in 0..source.len() {
        bytes[at + i] = source[i];
    }
}
