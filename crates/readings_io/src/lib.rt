// What page_test prints: the answers of the page reader and of the whole check, and runs of equal ones.

#![tactic(auto)]

ghost use Rattle.image.specs.Image.{directory_of};
ghost use Rattle.layout.specs.Places.{Placed};

use image::{BadPage, Refusal};
use layout::moves::LAYOUT;
use page::{BadCommand, read_page_of};
use std::fmt;

// The longest strip, in decimetres: nearly every move with a limit is closed to it, and is judged all the same.
const LONGEST_STRIP: u16 = 65535;

// What the whole check answers for an image; as text `good`, or the refusal's number with the place that it names.
#[derive(Clone, Copy, PartialEq, Eq)]
pub struct OfImage(pub Result<(), Refusal>);

impl fmt::Display for OfImage {
    fn fmt<W: fmt::Write>(&self, f: &mut fmt::Formatter<W>) -> fmt::Result {
        let Err(refusal) = self.0 else {
            return write!(f, "good");
        };
        write!(f, "refused {}", refusal.number())?;
        match refusal {
            Refusal::Directory { station } => write!(f, " station {station}"),
            Refusal::BadPage(BadPage { page, offset, .. }) => {
                write!(f, " page {page} offset {offset}")
            }
            _ => Ok(()),
        }
    }
}

// What the page reader answers for a page; as text likewise.
#[derive(Clone, Copy, PartialEq, Eq)]
pub struct OfPage(pub Result<(), BadCommand>);

impl fmt::Display for OfPage {
    fn fmt<W: fmt::Write>(&self, f: &mut fmt::Formatter<W>) -> fmt::Result {
        match self.0 {
            Ok(()) => write!(f, "good"),
            Err(bad) => write!(f, "refused {} offset {}", bad.fault.number(), bad.offset),
        }
    }
}

// The page reader's answer for a page of an image and the longest strip.
pub fn read(image: &[u8], places: &[u16], p: u8) -> OfPage
    requires { Placed (directory_of image.now) places.now }
{
    let mut layout = [0u32; LAYOUT];
    OfPage(read_page_of(image, p, places, LONGEST_STRIP, &mut layout))
}

// The answer for a number: a page, or the value of a byte.
#[derive(Clone, Copy)]
pub struct Reading<T> {
    pub at: u8,
    pub answer: T,
}

// Answers for numbers in turn; as text runs of equal ones, such as `0 good, 1-255 refused 14 page 0 offset 3`.
#[derive(Clone, Copy)]
pub struct Runs<'a, T>(pub &'a [Reading<T>]);

impl<T: PartialEq + fmt::Display> fmt::Display for Runs<'_, T> {
    fn fmt<W: fmt::Write>(&self, f: &mut fmt::Formatter<W>) -> fmt::Result {
        let runs = self.0.chunk_by(|a, b| a.answer == b.answer);
        for (i, run) in runs.enumerate() {
            if i > 0 {
                write!(f, ", ")?;
            }
            match run {
                [] => {}
                [one] => write!(f, "{} {}", one.at, one.answer)?,
                [first, .., last] => {
                    write!(f, "{}-{} {}", first.at, last.at, first.answer)?;
                }
            }
        }
        Ok(())
    }
}
