// The answer to a coil record: the DF search from the record's station for a strip of its length, as the line of text
// that the program `coils` prints (01, "Route, whole check, program").

#![tactic(auto)]

ghost use Rattle.std.specs.Prelude.{◌≡◌, ◌≤◌, length};
ghost use Rattle.common.specs.Window.{placed};
ghost use Rattle.net.specs.Search.{df_search};
ghost use Rattle.reply.specs.Reply.{asked, blank, reply_of, searched};
ghost use Rattle.line.specs.Writing.{line_room, Fronted};
ghost use Rattle.coil.specs.Program.{line_of, record_line};

use line::lines::{put_accepted, put_refusal};
use line::records::{Record, record_of};
use reply::{Found, TurnedDown};
use search::own::{TABLE, df_times};

pub mod program;

// The bytes of a line's buffer (line/specs/Writing.antt, `line_room`).
pub const ROOM: usize = 160;

// The search from a station for a strip, on tables with room for every map.
fn search_from(image: &[u8], station: u16, strip: u16) -> Result<Found, TurnedDown>
    ensures reply { reply_of result ≡ (searched df_search (asked image.now station strip) blank).reply }
{
    let mut times = [0u32; TABLE];
    df_times(image, station, strip, &mut times)
}

// The line of a record whose search answered so.
fn put_line(line: &mut [u8], parts: Record, answer: Result<Found, TurnedDown>) -> usize
    requires room { line_room ≤ length line.old }
    ensures put { Fronted (line_of parts.coil parts.length parts.station (reply_of answer))
        line.old line.new result }
    ensures within { result ≤ line_room }
{
    match answer {
        Ok(Found { count, reached }) => put_accepted(line, parts, count, reached),
        Err(down) => put_refusal(line, parts.coil, down.refusal.number()),
    }
}

// Puts the record's line at the front of the buffer, and answers how many bytes it has; the bytes behind it are kept.
pub fn answer_record(image: &[u8], bytes: &[u8; 8], line: &mut [u8; ROOM]) -> usize
    ensures line { line.new ≡ placed line.old 0 (record_line image.now bytes.now) }
    ensures size { result ≡ length (record_line image.now bytes.now) }
    ensures fits { result ≤ length line.new }
{
    let parts = record_of(bytes);
    let answer = search_from(image, parts.station, parts.length);
    put_line(line, parts, answer)
}
