// The C interface (include/yard.h), as a static library: each function of the crate `yard` as a C function of the same
// name, which does no more than call it, with its clauses word for word: a crate is a library or a static library, and
// never both. A slice passes as a pointer and a length in entries. The map writer's two calls stand in writer.rt.

#![tactic(auto)]

ghost use Rattle.std.specs.Prelude.{◌≡◌};
ghost use Rattle.net.specs.Search.{plain_search, df_search};
ghost use Rattle.whole.specs.Check.{whole_check};
ghost use Rattle.route.specs.Route.{route_call};
ghost use Rattle.reply.specs.Reply.{asked, lent};
ghost use Rattle.search.specs.Promises.{Promised, DfPromised};
ghost use Rattle.panel.specs.Promises.{OutsidePromised};
ghost use Rattle.telling.specs.Numbers.{told, told_by, of_check, of_route};
ghost use Rattle.yard.specs.Order.{OrderTold};
ghost use Rattle.yard.specs.Replay.{ReplayTold};
ghost use Rattle.yard.specs.Searches.{SearchTold};

mod writer;

// The whole check of a map.
#[unsafe(no_mangle)]
pub extern "C" fn yard_check(image: &[u8], answer: &mut [u32]) -> u32
    ensures outcome { told result answer.new ≡ told_by (of_check (whole_check image.now)) answer.old }
{
    yard::yard_check(image, answer)
}

// Which of two maps is less in the order of maps, or that they are equal.
#[unsafe(no_mangle)]
pub extern "C" fn yard_order(first: &[u8], second: &[u8], answer: &mut [u32]) -> u32
    ensures told { OrderTold first.now second.now result answer.old answer.new }
{
    yard::yard_order(first, second, answer)
}

// The reads of a recorded page list in a store of some frames, for a table of page distances and a threshold.
#[unsafe(no_mangle)]
pub extern "C" fn yard_replay(
    list: &[u8],
    pages: usize,
    frames: usize,
    distances: &[u32],
    threshold: u32,
    answer: &mut [u32],
) -> u32
    ensures told { ReplayTold list.now pages frames distances.now threshold result answer.old
        answer.new }
{
    yard::yard_replay(list, pages, frames, distances, threshold, answer)
}

// The plain search, Dijkstra's, for a strip of a length in decimetres.
#[unsafe(no_mangle)]
pub extern "C" fn yard_plain(
    image: &[u8],
    source: u16,
    strip: u16,
    times: &mut [u32],
    moves: &mut [u16],
    preds: &mut [u16],
    marks: &mut [u8],
    list: &mut [u8],
    answer: &mut [u32],
) -> u32
    ensures told { SearchTold plain_search (Promised plain_search) (asked image.now source strip)
        (lent times.old moves.old preds.old
        marks.old list.old)
        (lent times.new moves.new preds.new
        marks.new list.new)
        result answer.old answer.new }
{
    yard::yard_plain(
        image, source, strip, times, moves, preds, marks, list, answer,
    )
}

// The DF search for such a strip.
#[unsafe(no_mangle)]
pub extern "C" fn yard_df(
    image: &[u8],
    source: u16,
    strip: u16,
    times: &mut [u32],
    moves: &mut [u16],
    preds: &mut [u16],
    marks: &mut [u8],
    list: &mut [u8],
    answer: &mut [u32],
) -> u32
    ensures told { SearchTold df_search DfPromised (asked image.now source strip)
        (lent times.old moves.old preds.old
        marks.old list.old)
        (lent times.new moves.new preds.new
        marks.new list.new)
        result answer.old answer.new }
{
    yard::yard_df(
        image, source, strip, times, moves, preds, marks, list, answer,
    )
}

// The stations from the source to a station, by the predecessors that a search left.
#[unsafe(no_mangle)]
pub extern "C" fn yard_route(
    preds: &[u16],
    station: u16,
    out: &mut [u16],
    answer: &mut [u32],
) -> u32
    ensures outcome { told result answer.new ≡
        told_by (of_route (route_call preds.now station out.old).answer) answer.old }
    ensures output { out.new ≡ (route_call preds.now station out.old).output }
{
    yard::yard_route(preds, station, out, answer)
}

// The time to one station for the panel of the crane cabin, as one float.
#[unsafe(no_mangle)]
pub extern "C" fn yard_panel(image: &[u8], source: u16, strip: u16, station: u16) -> f64
    ensures promised { OutsidePromised (asked image.now source strip) station result }
{
    yard::yard_panel(image, source, strip, station)
}
