// The rules at one command of a page (01, "Map image"), by its kind: each gives the command itself, or its fault. Only
// this crate and commands, which reads a command, look at the bytes of a page.

#![tactic(auto)]

ghost use Rattle.std.specs.Prelude.{◌≡◌, ℕ, ◌≤◌, length, drop};
ghost use Rattle.layout.specs.Places.{Placed};
ghost use Rattle.layout.specs.Due.{OnPage};
ghost use Rattle.commands.specs.Commands.{command_in};
ghost use Rattle.rules.specs.Rules.{judge_end, judge_station, move_fault, judge_move, judge_limited};
ghost use Rattle.rules.specs.Rules.{fault_in, judged_at, next_on};

use commands::{Command, Move, command_at};
use image::Fault;
use image::bytes::zero_from;
use layout::places::slot_of;

// For `00`: 10 if a station is still missing, that is if the slot that is due is below the next page's; then 14.
#[tactic(auto, unfolding(crate::specs::Rules::judge_end))]
fn judge_end(page: &[u8], at: usize, past: usize, due: usize) -> Result<Command, Fault>
    requires short { length page.now ≤ 256 }
    ensures value { command_in result ≡ judge_end past due (drop at page.now) }
{
    if due < past {
        return Err(Fault::StationOrder);
    }
    if zero_from(page, at) {
        Ok(Command::End)
    } else {
        Err(Fault::ByteAfterEnd)
    }
}

// For `01`: 10. The next station is the one whose slot is due, if that is a slot of the page, and so below the next
// page's.
fn judge_station(
    directory: &[u8],
    places: &[u16],
    past: usize,
    due: usize,
    v: usize,
) -> Result<Command, Fault>
    requires placed { Placed directory.now places.now }
    ensures value { (p after : ℕ) → OnPage directory.now places.now p past after due
        → command_in result ≡ judge_station (length directory.now) (next_on directory.now p after) v }
{
    if directory.len() <= v {
        return Err(Fault::StationOrder);
    }
    if past <= due {
        return Err(Fault::StationOrder);
    }
    if slot_of(places, v) == due {
        Ok(Command::Station(v))
    } else {
        Err(Fault::StationOrder)
    }
}

// For `02` and `03`: 11, 12. Any time will do, and 0 too.
#[tactic(auto, unfolding(crate::specs::Rules::move_fault))]
fn move_fault(size: usize, after: usize, least: usize, m: Move) -> Result<(), Fault>
    ensures value { fault_in result ≡ move_fault size after least m }
{
    let target = m.target as usize;
    if after == 0 {
        return Err(Fault::MoveBeforeStation);
    }
    if size <= target || target + 1 == after || target < least {
        return Err(Fault::Target);
    }
    Ok(())
}

// For `02`: these.
#[tactic(auto, unfolding(crate::specs::Rules::judge_move))]
fn judge_move(size: usize, after: usize, least: usize, m: Move) -> Result<Command, Fault>
    ensures value { command_in result ≡ judge_move size after least m }
{
    move_fault(size, after, least, m)?;
    Ok(Command::MoveTo(m))
}

// For `03`: these, then 18.
#[tactic(auto, unfolding(crate::specs::Rules::judge_limited, crate::specs::Rules::move_fault))]
fn judge_limited(size: usize, after: usize, least: usize, m: Move) -> Result<Command, Fault>
    ensures value { command_in result ≡ judge_limited size after least m }
{
    let limit = m.limit;
    move_fault(size, after, least, m)?;
    if limit == 0 {
        return Err(Fault::LimitZero);
    }
    Ok(Command::Limited(m))
}

// The command at an offset, or its fault, of whichever page the slots due and past are. The directory and its places
// are two parameters with a clause on both: docs/DECISIONS.md names this function and read_page with what they ask. A
// page is a slice of at most 256 bytes, and no array: `image::page_of` gives it as far as the image reaches. What the
// reader stands at (`past`, `due`, `after`, `least`) comes in four numbers, as each rule asks for others of them.
#[tactic(auto, using(crate::proofs::Due::judged_end_by_slot), unfolding(crate::specs::Rules::judged_at, crate::specs::Rules::judge))]
pub fn judged_at(
    directory: &[u8],
    places: &[u16],
    past: usize,
    page: &[u8],
    at: usize,
    due: usize,
    after: usize,
    least: usize,
) -> Result<Command, Fault>
    requires placed { Placed directory.now places.now }
    requires short { length page.now ≤ 256 }
    ensures value { (p : ℕ) → OnPage directory.now places.now p past after due
        → command_in result ≡ judged_at page.now at (length directory.now)
        (next_on directory.now p after) after least }
{
    match command_at(page, at)? {
        Command::End => judge_end(page, at, past, due),
        Command::Station(v) => judge_station(directory, places, past, due, v),
        Command::MoveTo(m) => judge_move(directory.len(), after, least, m),
        Command::Limited(m) => judge_limited(directory.len(), after, least, m),
    }
}
