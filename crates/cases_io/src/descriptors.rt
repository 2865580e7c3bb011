// Standard input and output by their numbers, by the kit's crate `io`, which rests on C's `read` and `write` alone. A call
// that fails is the end: nothing is waited for, and no error is told.

ghost use Rattle.std.specs.Prelude.{◌≤◌, length};

const STDIN_FILENO: i32 = 0;

const STDOUT_FILENO: i32 = 1;

// Reads until the buffer is full, the input ends or a read fails, and says how many bytes were read.
pub fn read(buffer: &mut [u8]) -> usize
    ensures within { result ≤ length buffer.new }
{
    io::read_full(STDIN_FILENO, buffer)
}

// Writes the bytes, as far as they can be written.
pub fn write(bytes: &[u8]) {
    io::write_all(STDOUT_FILENO, bytes);
}
