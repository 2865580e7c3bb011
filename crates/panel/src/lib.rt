// The panel of the crane cabin (02, C-12): the least time from a source to one station, for a strip of a length, as the
// DF search on tables of its own finds it; and this answer as one float.

#![tactic(auto)]

ghost use Rattle.std.specs.Prelude.{◌≡◌, ◌<◌};
ghost use Rattle.image.specs.Image.{accepted, refused, nowhere, station_count, heading_check, after_heading};
ghost use Rattle.reply.specs.Reply.{asked};
ghost use Rattle.panel.specs.Panel.{answer_by, answer_to, inside, outside};
ghost use Rattle.panel.specs.Promises.{InsidePromised};

use common::NO_TIME;
use image::{Refusal, check_heading, station_count};
use search::own::{TABLE, df_times};

// The answer inside: the time in tenths of a second as a float, no route, or the refusal's number. An enum of its own, as
// document 01 names it with `Tenths(f64)` and `NoRoute`, and with a number: a refusal's place is left out (C-12), and
// `one_float` takes every number.
#[derive(Clone, Copy, Debug, PartialEq)]
pub enum Shown {
    Tenths(f64),
    NoRoute,
    Refused(u8),
}

// What is shown of a station that has this time.
fn of_time(time: u32) -> Shown
    ensures value { result ≡ inside (answer_by accepted time) }
{
    if time < NO_TIME {
        return Shown::Tenths(time as f64);
    }
    Shown::NoRoute
}

// What is shown of a station that the map does not have: 1 to 5, or else 6.
fn no_such_station(image: &[u8]) -> Shown
    ensures value { result ≡ inside (answer_by (after_heading (heading_check image.now) (refused 6 nowhere)) 0) }
{
    match check_heading(image) {
        Ok(()) => Shown::Refused(Refusal::Source.number()),
        Err(refusal) => Shown::Refused(refusal.number()),
    }
}

// What is shown of a station that the map has: its time or no route, or the refusal of the search.
fn on_map(image: &[u8], source: u16, strip: u16, station: u16) -> Shown
    requires inside { station < station_count image.now }
    ensures value { result ≡ inside (answer_to (asked image.now source strip) station) }
{
    let mut times = [0u32; TABLE];
    match df_times(image, source, strip, &mut times) {
        Ok(_) => of_time(times[station as usize]),
        Err(down) => Shown::Refused(down.refusal.number()),
    }
}

// The time from a source to a station for a strip of a length in decimetres.
pub fn time_to(image: &[u8], source: u16, strip: u16, station: u16) -> Shown
    ensures promised { InsidePromised (asked image.now source strip) station result }
{
    if station_count(image) <= station as usize {
        return no_such_station(image);
    }
    on_map(image, source, strip, station)
}

// What the panel shows, as one float.
pub fn one_float(shown: Shown) -> f64
    ensures value { result ≡ outside shown }
{
    match shown {
        Shown::Tenths(tenths) => tenths,
        Shown::NoRoute => -1.0,
        Shown::Refused(number) => -((100 + number as u16) as f64),
    }
}
