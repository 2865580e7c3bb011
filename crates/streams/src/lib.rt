// Reading and writing by std's `read` and `write`. A call that a signal cut off, or whose other side is not ready yet,
// is made again. A proved loop has to end, so calls are counted, up to a number that no run comes to.

#![tactic(auto)]

ghost use Rattle.std.specs.Prelude.{◌≡◌, ◌≤◌, length, take, OnOk};
ghost use Rattle.std.specs.Io.KnownBytes.{Appends, Consumes};

use std::io::{Error, ErrorKind};
use std::{hint, io};

// What reading left: so many bytes at the buffer's front, and whether a read failed. Both and no Result of the one: the
// bytes that were read before a failure are the caller's too.
#[derive(Drop)]
pub struct Read {
    pub size: usize,
    pub end: io::Result<()>,
}

// Whether to call again after a call that failed so: not after an error that lasts.
fn goes_on(error: &Error) -> bool {
    if error.kind() == ErrorKind::WouldBlock {
        hint::spin_loop();
        return true;
    }
    error.kind() == ErrorKind::Interrupted
}

// Reads until the buffer is full, the input ends or a read fails.
pub fn read_full<R: io::Read>(input: &mut R, buffer: &mut [u8]) -> Read
    ensures within { result.size ≤ length buffer.new }
    ensures length { length buffer.new ≡ length buffer.old }
    ensures read { Consumes (R.remaining input.old) (R.remaining input.new) (take result.size buffer.new) }
{
    let mut size = 0;
    for _ in 0..u64::MAX {
        if size == buffer.len() {
            break;
        }
        match input.read(&mut buffer[size..]) {
            Ok(0) => break,
            Ok(moved) => size += moved,
            Err(error) if goes_on(&error) => {}
            Err(error) => {
                return Read {
                    size,
                    end: Err(error),
                };
            }
        }
    }
    Read { size, end: Ok(()) }
}

// Writes all bytes and flushes them, or answers why it couldn't.
pub fn write_all<W: io::Write>(output: &mut W, bytes: &[u8]) -> io::Result<()>
    ensures written { OnOk result (Appends (W.contents output.old) (W.contents output.new) bytes.now) }
{
    let mut rest = bytes;
    for _ in 0..u64::MAX {
        if rest.is_empty() {
            return output.flush();
        }
        match output.write(rest) {
            Ok(0) => break,
            Ok(moved) => rest = &rest[moved..],
            Err(error) if goes_on(&error) => {}
            Err(error) => return Err(error),
        }
    }
    Err(Error::from(ErrorKind::WriteZero))
}
