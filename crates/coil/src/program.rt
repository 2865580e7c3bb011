// What the program `coils` decides (01, "Route, whole check, program"): which bytes of the map file make the image, and
// what the bytes read for a record print. The contracts speak of every file and input that can have been read into the
// buffers, so that a buffer too small for its rule is refused here.

ghost use Rattle.std.specs.Prelude.{◌≡◌, List, ℕ, ◌≤◌, length};
ghost use Rattle.coil.specs.Program.{map_of, ReadFrom, Turned};

use super::{ROOM, answer_record};
use text::put_text;

// The bytes of the map's buffer: one more than the longest map has, so that a longer file shows.
pub const FILE: usize = 63493;

// The bytes of a record.
pub const RECORD: usize = 8;

// What a turn left: so many bytes to print at the front of the line's buffer, and whether another turn follows. Turns of
// either kind have bytes to print: no Option says it, and a ControlFlow would name the size twice.
#[derive(Clone, Copy, Debug, PartialEq, Eq)]
pub struct Turn {
    pub size: usize,
    pub more: bool,
}

// The image of the map file of which so many bytes were read into the buffer.
pub fn image_of(buffer: &[u8; FILE], size: usize) -> &[u8]
    ensures image { (file : List ℕ) → ReadFrom file buffer.now size → result.now ≡ map_of file }
{
    &buffer[..size.min(FILE)]
}

// Puts what a turn prints at the front of the line's buffer, for the input of which so many bytes were read.
pub fn answer_turn(image: &[u8], bytes: &[u8; RECORD], size: usize, line: &mut [u8; ROOM]) -> Turn
    ensures turn { (input : List ℕ) → ReadFrom input bytes.now size →
        Turned image.now input line.old line.new result.size result.more }
    ensures fits { result.size ≤ length line.new }
{
    match size {
        0 => Turn {
            size: 0,
            more: false,
        },
        1..RECORD => Turn {
            size: put_text(line, 0, b"short\n"),
            more: false,
        },
        _ => Turn {
            size: answer_record(image, bytes, line),
            more: true,
        },
    }
}
