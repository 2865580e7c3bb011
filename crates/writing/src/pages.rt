// The bytes that each page of the map to be written needs, its `00` counted (specs/Sums.antt).

ghost use Rattle.std.specs.Prelude.{◌≡◌, ◌≤◌, ◌<◌, length, IfSome};
ghost use Rattle.writing.specs.Sums.{sums_from, sums_of, first_over};

use commands::{STATION, length_of};
use imaging::stations::PAGE;
use layout::places::{PAGES, STATIONS};

// The byte of `00`, which each page ends with.
const END_BYTES: usize = 1;

// The directory is lent, a slice of any length: that it has no more entries than a map has stations is a clause.

// To the sum of each page what its stations need is added.
#[tactic(auto, using(crate::proofs::Sums::sums_turn, crate::proofs::Sums::sums_end))]
fn add_stations(bytes: &[u16; STATIONS], directory: &[u8], sums: &mut [usize; PAGES])
    requires stations { length directory.now ≤ 2048 }
    ensures summed { sums.new ≡ sums_from bytes.now 0 directory.now sums.old }
{
    for (u, &p) in directory.iter().enumerate() {
        let more = length_of(STATION) + bytes[u] as usize;
        sums[p as usize] = sums[p as usize].saturating_add(more);
    }
}

// The lowest page that needs more than its bytes, of so many pages.
pub fn first_full(bytes: &[u16; STATIONS], directory: &[u8], pages: usize) -> Option<usize>
    requires stations { length directory.now ≤ 2048 }
    requires pages { pages ≤ 256 }
    ensures page { result ≡ first_over (sums_of bytes.now directory.now) pages }
    ensures most { IfSome result (λ page. page < pages) }
{
    let mut sums = [END_BYTES; PAGES];
    add_stations(bytes, directory, &mut sums);
    sums[..pages].iter().position(|&sum| PAGE < sum)
}
