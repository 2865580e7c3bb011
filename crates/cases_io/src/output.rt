// Text on its way to standard output, so that a line takes one write.

use crate::descriptors::write;
use std::fmt;

// As much text as is written at once.
const ROOM: usize = 1024;

#[derive(Drop)]
pub struct Output {
    bytes: [u8; ROOM],
    length: usize,
}

impl Output {
    pub fn new() -> Output {
        Output {
            bytes: [0; ROOM],
            length: 0,
        }
    }

    // Writes what is held.
    pub fn flush(&mut self) {
        let held = self.length.min(ROOM);
        write(&self.bytes[..held]);
        self.length = 0;
    }

    fn push(&mut self, byte: u8) {
        if self.length >= ROOM {
            self.flush();
        }
        let at = self.length;
        if at < ROOM {
            self.bytes[at] = byte;
            self.length = at + 1;
        }
    }
}

impl fmt::Write for Output {
    fn write_str(&mut self, s: &str) -> fmt::Result {
        for byte in s.as_bytes() {
            self.push(*byte);
        }
        Ok(())
    }
}
