// The text of a lent table, as search_test, records_test, order_test and panel_test print it: runs of equal entries,
// such as ` 0 4 187*5`. A table of more than 64 runs is printed as its length, a digest of all its entries, and its
// last run. So an entry that a search ought to keep shows if it was written.

#![tactic(auto)]

ghost use Rattle.std.specs.Prelude.{◌≡◌, ◌+◌, ◌*◌, ◌%◌};

use std::fmt;

// The longest table that is printed: of a longer one its first entries are.
pub const LONGEST: usize = 65536;

// A table with more runs is printed by its digest.
const MOST_RUNS: usize = 64;

// The digest is a number below this prime.
const PRIME: u64 = 4294967291;

// The runs of equal entries of a table, as text.
#[derive(Clone, Copy)]
pub struct Runs<'a, T>(pub &'a [T]);

// A table, as text.
#[derive(Clone, Copy)]
pub struct Table<'a, T>(pub &'a [T]);

impl<T: PartialEq + fmt::Display> fmt::Display for Runs<'_, T> {
    fn fmt<W: fmt::Write>(&self, f: &mut fmt::Formatter<W>) -> fmt::Result {
        for run in self.0.chunk_by(|a, b| a == b) {
            match run {
                [] => {}
                [entry] => write!(f, " {entry}")?,
                [entry, ..] => write!(f, " {entry}*{}", run.len())?,
            }
        }
        Ok(())
    }
}

// The digest with 32 bits more.
pub fn mixed(digest: u64, bits: u32) -> u64
    ensures value { result ≡ (digest % 4294967291 * 65599 + bits + 1) % 4294967291 }
{
    (digest % PRIME * 65599 + u64::from(bits) + 1) % PRIME
}

impl<T: Copy + PartialEq + fmt::Display + Into<u32>> fmt::Display for Table<'_, T> {
    fn fmt<W: fmt::Write>(&self, f: &mut fmt::Formatter<W>) -> fmt::Result {
        let length = self.0.len().min(LONGEST);
        let table = &self.0[..length];
        if table.chunk_by(|a, b| a == b).count() <= MOST_RUNS {
            return write!(f, "{}", Runs(table));
        }
        let digest = table
            .iter()
            .fold(0, |digest, entry| mixed(digest, (*entry).into()));
        let last = table.chunk_by(|a, b| a == b).last().unwrap_or(&[]);
        write!(f, " length {length}, digest {digest}, last{}", Runs(last))
    }
}
