// The text of an answer: `listed 8` or `written`, or the refusal's number with the place that it names.

use cases_io::Told;
use image::Refusal;
use std::fmt;
use writing::WriteRefusal;

// What the reader answered.
#[derive(Clone, Copy)]
pub struct Listed(pub Result<usize, Refusal>);

impl fmt::Display for Listed {
    fn fmt<W: fmt::Write>(&self, f: &mut fmt::Formatter<W>) -> fmt::Result {
        match self.0 {
            Ok(count) => write!(f, "listed {count}"),
            Err(refusal) => write!(f, "{}", Told(refusal)),
        }
    }
}

// What the writer answered.
#[derive(Clone, Copy)]
pub struct Written(pub Result<(), WriteRefusal>);

impl fmt::Display for Written {
    fn fmt<W: fmt::Write>(&self, f: &mut fmt::Formatter<W>) -> fmt::Result {
        match self.0 {
            Ok(()) => write!(f, "written"),
            Err(WriteRefusal::Shape(refusal)) => write!(f, "{}", Told(refusal)),
            Err(WriteRefusal::Record(index)) => write!(f, "refused 19, record {index}"),
            Err(WriteRefusal::Page(page)) => write!(f, "refused 20, page {page}"),
        }
    }
}
