// Pages fetched: each is read at its first reference, and then known by its rows, of moves open to the strip.

ghost use Rattle.std.specs.Prelude.{◌≡◌, ◌<◌, length, get_or};
ghost use Rattle.image.specs.Image.{directory_of};
ghost use Rattle.page.specs.Reading.{verdict_in};
ghost use Rattle.layout.specs.Places.{Placed};
ghost use Rattle.reference.specs.Standing.{Known, Fetched};

use layout::moves::{LAYOUT, end_of};
use page::{BadCommand, read_page_of};

// Fetches the page of station u.
pub fn fetch(
    image: &[u8],
    page: u8,
    u: usize,
    places: &[u16],
    strip: u16,
    layout: &mut [u32; LAYOUT],
) -> Result<(), BadCommand>
    requires placed { Placed (directory_of image.now) places.now }
    requires station { u < length (directory_of image.now) }
    requires page { get_or (directory_of image.now) u 0 ≡ page }
    requires known { Known strip image.now layout.old }
    ensures fetched { Fetched strip image.now page layout.new (verdict_in result) }
{
    if 0 < end_of(layout, u) {
        return Ok(());
    }
    read_page_of(image, page, places, strip, layout)
}
