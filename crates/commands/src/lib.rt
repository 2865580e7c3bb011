// The commands of a page (01, "Map image"): which one stands at an offset, and how long it is. Only this crate and
// rules, which judges a command, look at the bytes of a page.

#![tactic(auto)]

ghost use Rattle.std.specs.Prelude.{◌≡◌, ◌+◌, ◌≤◌, ◌<◌, length, MatchResult};
ghost use Rattle.commands.specs.Commands.{length_of, move_with, command_at, command_in};

use image::Fault;
use image::bytes::word_within;

// A move of a page: command `02` or `03`. The limit is the longest strip that it takes, in decimetres; 0 is no limit.
#[derive(Clone, Copy, Debug, PartialEq, Eq)]
pub struct Move {
    pub target: u16,
    pub time: u16,
    pub limit: u16,
}

// The command at an offset of a page. A station is an index: docs/DECISIONS.md says why, under "C-11: a move that lacks
// its limit".
#[derive(Clone, Copy, Debug, PartialEq, Eq)]
pub enum Command {
    End,
    Station(usize),
    MoveTo(Move),
    Limited(Move),
}

// The codes are numbers and no enum: length_of, which docs/DECISIONS.md names (C-13), takes a code and computes with it.

// `01` begins a station.
pub const STATION: u8 = 1;

// `02` is a move of the latest station, without a limit.
pub const MOVE: u8 = 2;

// `03` is a move of the latest station, with a limit.
pub const LIMITED: u8 = 3;

// The length of a command of a known code c is 1 + 2·c (02, C-13): a byte for the code, and two for each operand, of
// which it has c. Whatever passes over a command asks here.
pub fn length_of(code: u8) -> usize
    requires known { code < 4 }
    ensures value { result ≡ length_of code }
{
    1 + 2 * (code as usize)
}

// A command of this code, which stands at an offset of a page, ends within it.
fn fits(page: &[u8], at: usize, code: u8) -> Result<(), Fault>
    requires known { code < 4 }
    requires inside { at < length page.now }
    ensures value { MatchResult result (λ done. at + length_of code ≤ length page.now)
        (λ fault. (fault ≡ Fault.PageOverrun) × (length page.now < at + length_of code)) }
{
    if at + length_of(code) <= page.len() {
        Ok(())
    } else {
        Err(Fault::PageOverrun)
    }
}

// The move of a command at an offset, of either code, with a limit that was read or is none.
fn move_with(page: &[u8], at: usize, limit: u16) -> Move
    requires inside { at + 5 ≤ length page.now }
    ensures value { result ≡ move_with page.now at limit }
{
    let target = word_within(page, at + 1);
    let time = word_within(page, at + 3);
    Move {
        target,
        time,
        limit,
    }
}

// The command at an offset, or 8 or 9 as its fault. Each code is tested by itself, so that its length is known when the
// program is compiled; `02`, the most frequent, comes first, then those below it, then those above.
#[tactic(auto, unfolding(crate::specs::Commands::command_at))]
pub fn command_at(page: &[u8], at: usize) -> Result<Command, Fault>
    ensures value { command_in result ≡ command_at page.now at }
{
    // Tested and then read by index: where the byte comes by `get` here, or a slice's iterator in zero_from, the reader
    // carries a pointer beside the offset, and the whole check of a full map takes 7 to 11 percent longer.
    if page.len() <= at {
        return Err(Fault::PageOverrun);
    }
    let code = page[at];
    if code == MOVE {
        fits(page, at, MOVE)?;
        return Ok(Command::MoveTo(move_with(page, at, 0)));
    }
    if code < MOVE {
        if code == STATION {
            fits(page, at, STATION)?;
            return Ok(Command::Station(word_within(page, at + 1) as usize));
        }
        return Ok(Command::End);
    }
    if code == LIMITED {
        fits(page, at, LIMITED)?;
        let limit = word_within(page, at + 5);
        return Ok(Command::Limited(move_with(page, at, limit)));
    }
    Err(Fault::UnknownCode)
}
