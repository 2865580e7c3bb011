// The line of a record, of an accepted search or of a refused one, in words and decimal numbers, at the front of a
// buffer with room for it.

ghost use Rattle.std.specs.Prelude.{◌≤◌, length};
ghost use Rattle.line.specs.Line.{source_words, accepted_line, refusal_line};
ghost use Rattle.line.specs.Writing.{line_room, Fronted};

use super::records::Record;
use text::{put_number, put_text};

// A line is any slice with room (`line_room`), and no array of a size, which would ask more of callers:
// docs/DECISIONS.md names these functions with the room that they ask.

// `coil C length L from S`
fn put_source(line: &mut [u8], parts: Record) -> usize
    requires room { line_room ≤ length line.old }
    ensures put { Fronted (source_words parts.coil parts.length parts.station)
        line.old line.new result }
    ensures within { result ≤ 79 }
{
    let mut at = put_number(line, 0, b"coil ", parts.coil as u64);
    at = put_number(line, at, b" length ", parts.length as u64);
    put_number(line, at, b" from ", parts.station as u64)
}

// `coil C length L from S pages K reached R`
pub fn put_accepted(line: &mut [u8], parts: Record, count: usize, reached: usize) -> usize
    requires room { line_room ≤ length line.old }
    ensures put { Fronted (accepted_line parts.coil parts.length parts.station count reached)
        line.old line.new result }
    ensures within { result ≤ line_room }
{
    let mut at = put_source(line, parts);
    at = put_number(line, at, b" pages ", count as u64);
    at = put_number(line, at, b" reached ", reached as u64);
    put_text(line, at, b"\n")
}

// `coil C refused N`
// Any number will do, and no type of refusals is asked for: the number is all that is printed.
pub fn put_refusal(line: &mut [u8], coil: u32, number: u8) -> usize
    requires room { line_room ≤ length line.old }
    ensures put { Fronted (refusal_line coil number) line.old line.new result }
    ensures within { result ≤ line_room }
{
    let mut at = put_number(line, 0, b"coil ", coil as u64);
    at = put_number(line, at, b" refused ", number as u64);
    put_text(line, at, b"\n")
}
