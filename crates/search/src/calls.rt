// The two public searches. Each takes an image, a source, the length of a strip in decimetres and five lent tables:
// times, moves, predecessors, marks and page list, with an entry for each station at least (five slices: why, is said at
// `reply::on_map`). What they promise is one record (specs/Promises.antt): the whole outcome, refusals too
// (reply/specs/Reply.antt), demands 2 and 3, that every chain of predecessors ends at the source, and that a longer
// strip is no faster. Image, source and strip are parameters, as C gives them; below they are an image and a `Query`.

ghost use Rattle.std.specs.Prelude.{◌≡◌};
ghost use Rattle.net.specs.Run.{search_of};
ghost use Rattle.net.specs.Search.{plain_search};
ghost use Rattle.reply.specs.Reply.{asked, lent, returned, searched};
ghost use Rattle.reply.specs.Answering.{asked_by};
ghost use Rattle.search.specs.Promises.{Promised, DfPromised};

use reference::Query;
use reply::{Found, TurnedDown, check_call, on_map};

// Either search.
fn search(
    query: Query,
    image: &[u8],
    times: &mut [u32],
    moves: &mut [u16],
    preds: &mut [u16],
    marks: &mut [u8],
    list: &mut [u8],
) -> Result<Found, TurnedDown>
    ensures outcome { returned result times.new moves.new preds.new
        marks.new list.new ≡
        searched (search_of query.df) (asked_by query image.now)
        (lent times.old moves.old preds.old
        marks.old list.old) }
{
    check_call(query, image, times, moves, preds, marks, list)?;
    on_map(query, image, times, moves, preds, marks, list)
}

// The plain search: Dijkstra's. It and `df` stay two functions, as `df` promises the list of demand 3 besides
// (specs/Promises.antt, `DfPromised`), and C calls both.
pub fn plain(
    image: &[u8],
    source: u16,
    strip: u16,
    times: &mut [u32],
    moves: &mut [u16],
    preds: &mut [u16],
    marks: &mut [u8],
    list: &mut [u8],
) -> Result<Found, TurnedDown>
    ensures promised { Promised plain_search (asked image.now source strip)
        (lent times.old moves.old preds.old
        marks.old list.old)
        (returned result times.new moves.new preds.new
        marks.new list.new) }
{
    search(
        Query {
            df: false,
            source,
            strip,
        },
        image,
        times,
        moves,
        preds,
        marks,
        list,
    )
}

// The DF search: while a page is in hand, all its stations are worked through.
pub fn df(
    image: &[u8],
    source: u16,
    strip: u16,
    times: &mut [u32],
    moves: &mut [u16],
    preds: &mut [u16],
    marks: &mut [u8],
    list: &mut [u8],
) -> Result<Found, TurnedDown>
    ensures promised { DfPromised (asked image.now source strip)
        (lent times.old moves.old preds.old
        marks.old list.old)
        (returned result times.new moves.new preds.new
        marks.new list.new) }
{
    search(
        Query {
            df: true,
            source,
            strip,
        },
        image,
        times,
        moves,
        preds,
        marks,
        list,
    )
}
