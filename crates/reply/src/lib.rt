// What a search replies to its caller: refusals 1 to 7, and on a map that they let pass what the engine's search found,
// written into the lent tables.

#![tactic(auto)]

ghost use Rattle.std.specs.Prelude.{◌≡◌, ◌||◌, ltb};
ghost use Rattle.net.specs.Run.{search_of};
ghost use Rattle.image.specs.Image.{accepted, outcome_of};
ghost use Rattle.reply.specs.Reply.{lent, reply_of, returned, six_or_seven, call_check, on_map};
ghost use Rattle.reply.specs.Answering.{asked_by, before_pages, reply_to};

use cells::Memory;
use engine::{Ended, search_in};
use image::{Refusal, check_heading, station_count};
use reference::Query;
use tables::finish;

// What a search that is accepted answers: the number of entries of the page list, and of stations reached.
#[derive(Clone, Copy, Debug, PartialEq, Eq)]
pub struct Found {
    pub count: usize,
    pub reached: usize,
}

// What one that is refused answers: the refusal, and the entries of the page list. At 1 to 7 it has none; at a page
// refusal the bad page is its last.
#[derive(Clone, Copy, Debug, PartialEq, Eq)]
pub struct TurnedDown {
    pub refusal: Refusal,
    pub count: usize,
}

// A refusal before any page.
impl From<Refusal> for TurnedDown {
    ghost from_gives = { λ refusal down. down ≡ before_pages refusal };

    fn from(refusal: Refusal) -> TurnedDown {
        TurnedDown { refusal, count: 0 }
    }
}

// Whether a table has no entry for some of n stations: 7.
fn too_short(n: usize, times: usize, moves: usize, preds: usize, marks: usize, list: usize) -> bool
    ensures value { result ≡ ltb times n || (ltb moves n || (ltb preds n || (ltb marks n || ltb list n))) }
{
    times < n || moves < n || preds < n || marks < n || list < n
}

// 6 and 7 for a map of n stations, of the source and the tables' lengths.
fn check_tables(
    n: usize,
    source: u16,
    times: usize,
    moves: usize,
    preds: usize,
    marks: usize,
    list: usize,
) -> Result<(), Refusal>
    ensures outcome { outcome_of result ≡
        six_or_seven n source (ltb times n || (ltb moves n || (ltb preds n || (ltb marks n || ltb list n)))) }
{
    if n <= usize::from(source) {
        return Err(Refusal::Source);
    }
    if too_short(n, times, moves, preds, marks, list) {
        return Err(Refusal::TableTooShort);
    }
    Ok(())
}

// Refusals 1 to 7, in this order.
pub fn check_call(
    query: Query,
    image: &[u8],
    times: &[u32],
    moves: &[u16],
    preds: &[u16],
    marks: &[u8],
    list: &[u8],
) -> Result<(), Refusal>
    ensures outcome { outcome_of result ≡ call_check (asked_by query image.now)
        (lent times.now moves.now preds.now
        marks.now list.now) }
{
    check_heading(image)?;
    check_tables(
        station_count(image),
        query.source,
        times.len(),
        moves.len(),
        preds.len(),
        marks.len(),
        list.len(),
    )
}

// What a search answers, by how the engine's search ended.
fn answer_of(ended: Ended, reached: usize) -> Result<Found, TurnedDown>
    ensures value { reply_of result ≡ reply_to ended.count ended.outcome reached }
{
    let count = ended.count;
    match ended.outcome {
        Ok(()) => Ok(Found { count, reached }),
        Err(bad) => Err(TurnedDown {
            refusal: Refusal::from(bad),
            count,
        }),
    }
}

// The search of a call that 1 to 7 do not refuse: the engine's, on cells of its own and the list lent, written into the
// first N entries of the other tables. The tables stay five slices, as C lends them: a struct of several `&mut` slices
// makes each function promise that every one of them is still the slice that was lent.
pub fn on_map(
    query: Query,
    image: &[u8],
    times: &mut [u32],
    moves: &mut [u16],
    preds: &mut [u16],
    marks: &mut [u8],
    list: &mut [u8],
) -> Result<Found, TurnedDown>
    requires passed { call_check (asked_by query image.now)
        (lent times.old moves.old preds.old marks.old list.old) ≡ accepted }
    ensures outcome { returned result times.new moves.new preds.new
        marks.new list.new ≡
        on_map (search_of query.df) (asked_by query image.now)
        (lent times.old moves.old preds.old
        marks.old list.old) }
{
    let mut memory = Memory::new();
    let ended = search_in(query, image, &mut memory, list);
    let n = station_count(image);
    let reached = finish(
        ended.outcome.is_ok(),
        memory.cells(),
        &mut times[..n],
        &mut moves[..n],
        &mut preds[..n],
        &mut marks[..n],
    );
    answer_of(ended, reached)
}
