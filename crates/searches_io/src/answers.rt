// The text of an answer: `accepted, count 3, reached 7`, or the refusal's number with the place that it names. The
// count stands beside a page: at any other refusal the list has no entry.

use cases_io::Told;
use image::Refusal;
use reply::{Found, TurnedDown};
use std::fmt;

#[derive(Clone, Copy)]
pub struct Answered(pub Result<Found, TurnedDown>);

impl fmt::Display for Answered {
    fn fmt<W: fmt::Write>(&self, f: &mut fmt::Formatter<W>) -> fmt::Result {
        match self.0 {
            Ok(Found { count, reached }) => write!(f, "accepted, count {count}, reached {reached}"),
            Err(TurnedDown { refusal, count }) => {
                write!(f, "{}", Told(refusal))?;
                match refusal {
                    Refusal::BadPage(_) => write!(f, ", count {count}"),
                    _ => Ok(()),
                }
            }
        }
    }
}
