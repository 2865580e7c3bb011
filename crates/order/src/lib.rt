// The order of maps (02, C-17): by N, then by their records as lists. What two images have in common is passed, and
// what comes next in each decides. No list of records is kept.

#![tactic(auto)]

ghost use Rattle.std.specs.Prelude.{◌≡◌};
ghost use Rattle.image.specs.Image.{accepted, station_count};
ghost use Rattle.whole.specs.Check.{whole_check};
ghost use Rattle.roundtrip.specs.Records.{records_of};
ghost use Rattle.ordering.specs.Order.{by_records, by_map, naming, lesser_of};
ghost use Rattle.ordering.specs.Promises.{NamingPromised};
ghost use Rattle.order.specs.Answers.{order_in, naming_in};
ghost use Rattle.order.specs.Next.{next_order};

mod passing;

use by_station::Walk;
use image::{Refusal, station_count};
use move_record::MoveRecord;
use passing::pass_stations;
use std::cmp::Ordering;
use whole::check;

// Which of two images is refused by the whole check.
#[derive(Clone, Copy, Debug, PartialEq, Eq)]
pub enum OrderRefusal {
    First(Refusal),
    Second(Refusal),
}

// The order of two lists by the records that come next; a list that is over comes first, as None does.
#[tactic(auto, using(crate::proofs::Ordered::by_next, crate::proofs::Ordered::by_records_cmp))]
fn by_next(first: Option<MoveRecord>, second: Option<MoveRecord>) -> Ordering
    ensures value { order_in result ≡ next_order first second }
{
    first.cmp(&second)
}

// The order of the records of two wholly good images of as many stations.
fn by_records(first: &[u8], second: &[u8]) -> Ordering
    requires first { whole_check first.now ≡ accepted }
    requires second { whole_check second.now ≡ accepted }
    requires stations { station_count first.now ≡ station_count second.now }
    ensures value { order_in result ≡ by_records (records_of first.now) (records_of second.now) }
{
    let mut first = Walk::new(first);
    let mut second = Walk::new(second);
    let u = pass_stations(&mut first, &mut second);
    let r = first.next_record(u);
    let s = second.next_record(u);
    by_next(r, s)
}

fn by_map(first: &[u8], second: &[u8]) -> Ordering
    requires first { whole_check first.now ≡ accepted }
    requires second { whole_check second.now ≡ accepted }
    ensures value { order_in result ≡ by_map first.now second.now }
{
    match station_count(first).cmp(&station_count(second)) {
        Ordering::Equal => by_records(first, second),
        unequal => unequal,
    }
}

// The naming call: how the first of two maps stands to the second. It refuses by the whole check, the first image
// first.
pub fn compare(first: &[u8], second: &[u8]) -> Result<Ordering, OrderRefusal>
    ensures promised { NamingPromised first.now second.now (naming_in result) }
{
    check(first).map_err(OrderRefusal::First)?;
    check(second).map_err(OrderRefusal::Second)?;
    Ok(by_map(first, second))
}

// The lesser of two images itself, not a copy; of equals, or if one is refused, the first.
pub fn lesser<'a>(first: &'a [u8], second: &'a [u8]) -> &'a [u8]
    ensures itself { result ≡ lesser_of (naming first.now second.now) first.entry second.entry }
{
    match compare(first, second) {
        Ok(Ordering::Greater) => second,
        _ => first,
    }
}
