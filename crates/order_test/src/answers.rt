// The text of the naming call's answer: `first less`, `second less` or `equal`, or which image is refused, with the
// refusal's number and the place that it names.

use cases_io::Told;
use order::OrderRefusal;
use std::cmp::Ordering;
use std::fmt;

#[derive(Clone, Copy)]
pub struct Answered(pub Result<Ordering, OrderRefusal>);

impl fmt::Display for Answered {
    fn fmt<W: fmt::Write>(&self, f: &mut fmt::Formatter<W>) -> fmt::Result {
        match self.0 {
            Ok(Ordering::Less) => write!(f, "first less"),
            Ok(Ordering::Equal) => write!(f, "equal"),
            Ok(Ordering::Greater) => write!(f, "second less"),
            Err(OrderRefusal::First(refusal)) => write!(f, "first {}", Told(refusal)),
            Err(OrderRefusal::Second(refusal)) => write!(f, "second {}", Told(refusal)),
        }
    }
}
