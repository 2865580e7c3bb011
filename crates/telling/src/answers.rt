// Answers told to a C caller: each as its status and four numbers, which are put into the answer where it has room.

ghost use Rattle.std.specs.Prelude.{◌≡◌};
ghost use Rattle.image.specs.Image.{refused, number_of, place_of, outcome_of};
ghost use Rattle.reply.specs.Reply.{reply_of};
ghost use Rattle.route.specs.Route.{meaning};
ghost use Rattle.listing.specs.Found.{outcome_in, count_in};
ghost use Rattle.writing.specs.Answers.{outcome_of_write};
ghost use Rattle.order.specs.Answers.{naming_in};
ghost use Rattle.store.specs.Answers.{replay_in};
ghost use Rattle.telling.specs.Numbers.{told, told_by, of_outcome, of_check, of_search, of_route};
ghost use Rattle.telling.specs.Numbers.{of_read, of_written, of_order, of_replay, Small};

use super::Numbers;
use image::Refusal;
use order::OrderRefusal;
use reply::{Found, TurnedDown};
use route::RouteRefusal;
use std::cmp::Ordering;
use store::ReplayRefusal;
use writing::WriteRefusal;

// What the upper 32 bits of a number count.
const UPPER: usize = 4294967296;

// A refusal, with the place that it names.
impl From<Refusal> for Numbers {
    ghost from_gives = { λ refusal said. said ≡ of_outcome (refused (number_of refusal) (place_of refusal)) 0 0 };

    fn from(refusal: Refusal) -> Numbers {
        let (place, offset) = match refusal {
            Refusal::Directory { station } => (station as u32, 0),
            Refusal::BadPage(bad) => (bad.page as u32, bad.offset),
            _ => (0, 0),
        };
        Numbers {
            status: refusal.number(),
            place,
            offset,
            ..Numbers::default()
        }
    }
}

// The whole check of a map.
impl From<Result<(), Refusal>> for Numbers {
    ghost from_gives = { λ checked said. said ≡ of_check (outcome_of checked) };

    fn from(checked: Result<(), Refusal>) -> Numbers {
        match checked {
            Ok(()) => Numbers::default(),
            Err(refusal) => Numbers::from(refusal),
        }
    }
}

// A search.
impl From<Result<Found, TurnedDown>> for Numbers {
    ghost from_gives = { λ answer said. said ≡ of_search (reply_of answer) };

    fn from(answer: Result<Found, TurnedDown>) -> Numbers {
        match answer {
            Ok(Found { count, reached }) => Numbers {
                count,
                reached,
                ..Numbers::default()
            },
            Err(TurnedDown { refusal, count }) => Numbers {
                count,
                ..Numbers::from(refusal)
            },
        }
    }
}

// A route.
impl From<Result<Option<usize>, RouteRefusal>> for Numbers {
    ghost from_gives = { λ answer said. said ≡ of_route (meaning answer) };

    fn from(answer: Result<Option<usize>, RouteRefusal>) -> Numbers {
        match answer {
            Ok(count) => Numbers {
                count: count.unwrap_or(0),
                ..Numbers::default()
            },
            Err(refusal) => Numbers {
                status: refusal.number(),
                ..Numbers::default()
            },
        }
    }
}

// An image read into records.
impl From<Result<usize, Refusal>> for Numbers {
    ghost from_gives = { λ answer said. said ≡ of_read (outcome_in answer) (count_in answer) };

    fn from(answer: Result<usize, Refusal>) -> Numbers {
        match answer {
            Ok(count) => Numbers {
                count,
                ..Numbers::default()
            },
            Err(refusal) => Numbers::from(refusal),
        }
    }
}

// An image written from records.
impl From<Result<(), WriteRefusal>> for Numbers {
    ghost from_gives = { λ answer said. said ≡ of_written (outcome_of_write answer) };

    fn from(answer: Result<(), WriteRefusal>) -> Numbers {
        match answer {
            Ok(()) => Numbers::default(),
            Err(WriteRefusal::Shape(refusal)) => Numbers::from(refusal),
            Err(WriteRefusal::Record(index)) => Numbers {
                status: 19,
                place: index,
                ..Numbers::default()
            },
            Err(WriteRefusal::Page(page)) => Numbers {
                status: 20,
                place: page as u32,
                ..Numbers::default()
            },
        }
    }
}

// The order of two maps.
impl From<Result<Ordering, OrderRefusal>> for Numbers {
    ghost from_gives = { λ answer said. said ≡ of_order (naming_in answer) };

    fn from(answer: Result<Ordering, OrderRefusal>) -> Numbers {
        match answer {
            Ok(Ordering::Less) => Numbers {
                count: 1,
                ..Numbers::default()
            },
            Ok(Ordering::Equal) => Numbers::default(),
            Ok(Ordering::Greater) => Numbers {
                count: 2,
                ..Numbers::default()
            },
            Err(OrderRefusal::First(refusal)) => Numbers {
                reached: 1,
                ..Numbers::from(refusal)
            },
            Err(OrderRefusal::Second(refusal)) => Numbers {
                reached: 2,
                ..Numbers::from(refusal)
            },
        }
    }
}

// A replay.
impl From<Result<usize, ReplayRefusal>> for Numbers {
    ghost from_gives = { λ answer said. said ≡ of_replay (replay_in answer) };

    fn from(answer: Result<usize, ReplayRefusal>) -> Numbers {
        match answer {
            Ok(reads) => Numbers {
                count: reads % UPPER,
                reached: reads / UPPER,
                ..Numbers::default()
            },
            Err(refusal) => Numbers {
                status: refusal.number(),
                ..Numbers::default()
            },
        }
    }
}

// Puts the numbers into the answer where it has four entries or more, and hands back the status.
#[tactic(auto, using(crate::proofs::Four::put_short, crate::proofs::Four::put_four))]
pub fn tell(n: Numbers, answer: &mut [u32]) -> u32
    requires small { Small n }
    ensures told { told result answer.new ≡ told_by n answer.old }
{
    // One by one: numbers that are put into an array and copied from there are waited for at each call.
    if answer.len() >= 4 {
        answer[0] = n.count as u32;
        answer[1] = n.reached as u32;
        answer[2] = n.place;
        answer[3] = n.offset as u32;
    }
    n.status as u32
}
