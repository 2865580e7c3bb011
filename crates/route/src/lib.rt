// The route to a station by the predecessors that a search left (01, "Route, whole check, program"). The chain of
// predecessors is followed twice: once to count its stations, so that a refusal has written nothing, and once to write
// them from the last place back to the first.
#![tactic(auto)]

ghost use Rattle.std.specs.Prelude.{◌≡◌, ◌≤◌, length};
ghost use Rattle.common.specs.Chains.{pred_at};
ghost use Rattle.route.specs.Route.{chain, stations_of, written_to, number_of, returned, route_call};

use common::{NO_PRED, SOURCE};

// The greatest number of stations of a map.
const MOST: usize = 2048;

// Why a call is refused.
#[derive(Clone, Copy, Debug, PartialEq, Eq)]
pub enum RouteRefusal {
    // There are no stations or more than a map has, or the station is none of them.
    Station,
    // The chain of predecessors is broken.
    Chain,
    // The output is shorter than the route.
    Room,
}

impl RouteRefusal {
    // The refusal's number in document 01.
    pub fn number(self) -> u8
        ensures value { result ≡ number_of self }
    {
        match self {
            RouteRefusal::Station => 15,
            RouteRefusal::Chain => 16,
            RouteRefusal::Room => 17,
        }
    }
}

// A number that is no station has no predecessor, so a chain that leaves the table ends there.
fn predecessor_at(preds: &[u16], v: u16) -> u16
    ensures value { result ≡ pred_at preds.now v }
{
    preds.get(v as usize).copied().unwrap_or(NO_PRED)
}

// How many stations the chain has from the source to the station, unless it is broken. A chain of n stations takes
// n - 1 steps, so the n-th station is the last that may be the source.
fn count_stations(preds: &[u16], station: u16) -> Option<usize>
    ensures count { result ≡ stations_of (chain preds.now (length preds.now) station) }
{
    let mut v = station;
    for passed in 1..=preds.len() {
        let before = predecessor_at(preds, v);
        if before == SOURCE {
            return Some(passed);
        }
        if preds.len() <= before as usize {
            return None;
        }
        v = before;
    }
    None
}

// Writes the last `count` stations on the way to the station, in the order of the way, at the front of the output.
fn write_stations(preds: &[u16], station: u16, count: usize, out: &mut [u16])
    requires room { count ≤ length out.old }
    ensures written { out.new ≡ written_to preds.now count station out.old }
{
    let mut v = station;
    // By index: of what is written through iter_mut().rev() a proof keeps only the length.
    for at in (0..count).rev() {
        out[at] = v;
        v = predecessor_at(preds, v);
    }
}

// The stations from the source to the station, written to the front of the output: how many there are, or none where
// no route leads to the station.
pub fn route(preds: &[u16], station: u16, out: &mut [u16]) -> Result<Option<usize>, RouteRefusal>
    ensures handed { returned result out.new ≡ route_call preds.now station out.old }
{
    // With n 0 no station is below n.
    if MOST < preds.len() || preds.len() <= station as usize {
        return Err(RouteRefusal::Station);
    }
    if predecessor_at(preds, station) == NO_PRED {
        return Ok(None);
    }
    let count = count_stations(preds, station).ok_or(RouteRefusal::Chain)?;
    if out.len() < count {
        return Err(RouteRefusal::Room);
    }
    write_stations(preds, station, count, out);
    Ok(Some(count))
}
