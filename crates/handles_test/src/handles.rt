// Handles that show whether they are read and printed to: one that reads bytes of its own and marks what it prints, and
// one by which printing fails.

use std::alloc::Allocator;
use std::cell::Cell;
use std::fmt::Display;
use std::io;
use std::io::{BufRead, Chain, Error, ErrorKind, Lines, Read};
use std::string::String;

// Reads these bytes, the first of them alone, and begins again for each buffer that is filled. Prints by another
// handle, each text between brackets and of bytes their number.
#[derive(Clone, Copy)]
pub struct Marked<'a, R> {
    pub rt: &'a R,
    pub input: &'a [u8],
}

impl<'a, R> Input for Marked<'a, R> {
    type Reader = Chain<&'a [u8], &'a [u8]>;

    fn read_line<A: Allocator + Clone>(&self, buf: &mut String<A>) -> io::Result<usize> {
        self.reader().read_line(buf)
    }

    fn lines<A: Allocator>(&self, alloc: A) -> Lines<Self::Reader, A> {
        self.reader().lines(alloc)
    }

    fn reader(&self) -> Self::Reader {
        let (first, others) = self.input.split_at(self.input.len().min(1));
        first.chain(others)
    }
}

impl<R: Print> Print for Marked<'_, R> {
    fn print<D: Display + Drop>(&self, value: D) -> io::Result<()> {
        print!(self.rt; "[{value}]")
    }

    fn println<D: Display + Drop>(&self, value: D) -> io::Result<()> {
        println!(self.rt; "[{value}]")
    }

    fn write_all(&self, bytes: &[u8]) -> io::Result<()> {
        print!(self.rt; "[{} bytes]", bytes.len())
    }
}

// Prints nothing. So many prints go well, the next one fails, and those behind it go well again.
#[derive(Drop)]
pub struct Failing {
    before: Cell<u8>,
}

impl Failing {
    pub fn after(before: u8) -> Failing {
        Failing {
            before: Cell::new(before),
        }
    }
}

impl Print for Failing {
    fn print<D: Display + Drop>(&self, value: D) -> io::Result<()> {
        self.write_all(b"")
    }

    fn println<D: Display + Drop>(&self, value: D) -> io::Result<()> {
        self.print(value)
    }

    fn write_all(&self, bytes: &[u8]) -> io::Result<()> {
        let before = self.before.get();
        self.before.set(before.wrapping_sub(1));
        if before == 0 {
            return Err(Error::from(ErrorKind::BrokenPipe));
        }
        Ok(())
    }
}
