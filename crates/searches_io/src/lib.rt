// A call of search_test: one search on tables of the lengths that the call asks for, and the text of all that it handed
// back, its answer and every entry of the five tables.

#![tactic(auto)]

ghost use Rattle.std.specs.Prelude.{◌≤◌};

mod answers;

use answers::Answered;
use image::bytes::word_at;
use reply::{Found, TurnedDown};
use std::io;
use tables_io::Table;

// The longest table of a case.
const ENTRIES: usize = 2100;

// What stands in the tables before a call. No search writes these, but for page 187 on a map of so many pages.
const TIME_BEFORE: u32 = 2863311530;

const MOVES_BEFORE: u16 = 52428;

const PRED_BEFORE: u16 = 43690;

const MARK_BEFORE: u8 = 170;

const PAGE_BEFORE: u8 = 187;

// The number of a table's entries, at an offset of the call, as far as there is room.
fn length_at(call: &[u8], at: usize) -> usize
    ensures fits { result ≤ 2100 }
{
    usize::from(word_at(call, at)).min(ENTRIES)
}

// One search, on new tables of the lengths that the call asks for, and all that it handed back.
pub fn run_search<
    R: Print,
    S: Fn(
        &[u8],
        u16,
        u16,
        &mut [u32],
        &mut [u16],
        &mut [u16],
        &mut [u8],
        &mut [u8],
    ) -> Result<Found, TurnedDown>,
>(rt: &R, search: S, image: &[u8], call: &[u8]) -> io::Result<()>
    requires { S.IsAlwaysCallable search }
{
    let mut times = [TIME_BEFORE; ENTRIES];
    let mut moves = [MOVES_BEFORE; ENTRIES];
    let mut preds = [PRED_BEFORE; ENTRIES];
    let mut marks = [MARK_BEFORE; ENTRIES];
    let mut list = [PAGE_BEFORE; ENTRIES];
    let times = &mut times[..length_at(call, 4)];
    let moves = &mut moves[..length_at(call, 6)];
    let preds = &mut preds[..length_at(call, 8)];
    let marks = &mut marks[..length_at(call, 10)];
    let list = &mut list[..length_at(call, 12)];
    let source = word_at(call, 0);
    let strip = word_at(call, 2);
    let answer = search(image, source, strip, times, moves, preds, marks, list);
    println!(rt; "{}", Answered(answer))?;
    println!(rt; "   times{}", Table(times))?;
    println!(rt; "   moves{}", Table(moves))?;
    println!(rt; "   predecessors{}", Table(preds))?;
    println!(rt; "   marks{}", Table(marks))?;
    println!(rt; "   list{}", Table(list))
}
