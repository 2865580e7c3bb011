// What the C interface (include/yard.h) answers, as functions of Rattle: each call of the engine as a C caller sees it.
// The crate `yard_c` exports them to C under the same names. What a call answers becomes its status and the four
// numbers of `answer` (telling/specs/Numbers.antt); what it does to the lent tables is what the engine's call does. A
// search promises a C caller what it promises every caller (specs/Searches.antt), of the reply that the numbers tell
// and of the tables as they are left. The panel's call alone has no numbers: its answer is one float
// (panel/specs/Panel.antt, `outside`). The map writer's two calls stand in writer.rt. Of the order of maps only the
// naming call is here: the other hands back a slice.

#![tactic(auto)]

ghost use Rattle.std.specs.Prelude.{◌≡◌};
ghost use Rattle.net.specs.Search.{plain_search, df_search};
ghost use Rattle.whole.specs.Check.{whole_check};
ghost use Rattle.route.specs.Route.{route_call};
ghost use Rattle.reply.specs.Reply.{asked, lent};
ghost use Rattle.search.specs.Promises.{Promised, DfPromised};
ghost use Rattle.panel.specs.Promises.{OutsidePromised};
ghost use Rattle.telling.specs.Numbers.{told, told_by, of_check, of_route};
ghost use Rattle.yard.specs.Order.{OrderTold};
ghost use Rattle.yard.specs.Replay.{ReplayTold};
ghost use Rattle.yard.specs.Searches.{SearchTold};

pub mod writer;

use telling::Numbers;
use telling::answers::tell;

// The whole check of a map.
pub fn yard_check(image: &[u8], answer: &mut [u32]) -> u32
    ensures outcome { told result answer.new ≡ told_by (of_check (whole_check image.now)) answer.old }
{
    tell(Numbers::from(whole::check(image)), answer)
}

// Which of two maps is less in the order of maps, or that they are equal.
pub fn yard_order(first: &[u8], second: &[u8], answer: &mut [u32]) -> u32
    ensures told { OrderTold first.now second.now result answer.old answer.new }
{
    tell(Numbers::from(order::compare(first, second)), answer)
}

// The reads of a recorded page list in a store of some frames, for a table of page distances and a threshold.
pub fn yard_replay(
    list: &[u8],
    pages: usize,
    frames: usize,
    distances: &[u32],
    threshold: u32,
    answer: &mut [u32],
) -> u32
    ensures told { ReplayTold list.now pages frames distances.now threshold result answer.old
        answer.new }
{
    let answered = store::replay(list, pages, frames, distances, threshold);
    tell(Numbers::from(answered), answer)
}

// The plain search, Dijkstra's, for a strip of a length in decimetres. This and the DF search are two functions, as they
// are two C names.
pub fn yard_plain(
    image: &[u8],
    source: u16,
    strip: u16,
    times: &mut [u32],
    moves: &mut [u16],
    preds: &mut [u16],
    marks: &mut [u8],
    list: &mut [u8],
    answer: &mut [u32],
) -> u32
    ensures told { SearchTold plain_search (Promised plain_search) (asked image.now source strip)
        (lent times.old moves.old preds.old
        marks.old list.old)
        (lent times.new moves.new preds.new
        marks.new list.new)
        result answer.old answer.new }
{
    let answered = search::calls::plain(image, source, strip, times, moves, preds, marks, list);
    tell(Numbers::from(answered), answer)
}

// The DF search for such a strip.
pub fn yard_df(
    image: &[u8],
    source: u16,
    strip: u16,
    times: &mut [u32],
    moves: &mut [u16],
    preds: &mut [u16],
    marks: &mut [u8],
    list: &mut [u8],
    answer: &mut [u32],
) -> u32
    ensures told { SearchTold df_search DfPromised (asked image.now source strip)
        (lent times.old moves.old preds.old
        marks.old list.old)
        (lent times.new moves.new preds.new
        marks.new list.new)
        result answer.old answer.new }
{
    let answered = search::calls::df(image, source, strip, times, moves, preds, marks, list);
    tell(Numbers::from(answered), answer)
}

// The stations from the source to a station, by the predecessors that a search left.
pub fn yard_route(preds: &[u16], station: u16, out: &mut [u16], answer: &mut [u32]) -> u32
    ensures outcome { told result answer.new ≡
        told_by (of_route (route_call preds.now station out.old).answer) answer.old }
    ensures output { out.new ≡ (route_call preds.now station out.old).output }
{
    tell(Numbers::from(route::route(preds, station, out)), answer)
}

// The time to one station for the panel of the crane cabin, as one float.
pub fn yard_panel(image: &[u8], source: u16, strip: u16, station: u16) -> f64
    ensures promised { OutsidePromised (asked image.now source strip) station result }
{
    panel::one_float(panel::time_to(image, source, strip, station))
}
