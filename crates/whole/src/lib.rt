// The whole check of an image (01, "Route, whole check, program"): 1 to 5, and then the pages by rising number.

#![tactic(auto)]

ghost use Rattle.std.specs.Prelude.{◌≡◌, ◌≤◌};
ghost use Rattle.image.specs.Image.{station_count, page_count, outcome_of};
ghost use Rattle.whole.specs.Check.{pages_from, whole_check};

use image::{Refusal, check_heading, directory_of, page_count};
use layout::moves::LAYOUT;
use layout::places::{PLACES, place};
use page::read_page_of;

// The pages' own check: every move is judged, whatever its limit. The rows that the reader lays out are not used, so
// that any strip will do.
fn check_pages(image: &[u8]) -> Result<(), Refusal>
    requires { (station_count image.now ≤ 2048) × (page_count image.now ≤ 240) }
    ensures outcome { outcome_of result ≡ pages_from image.now (page_count image.now) 0 }
{
    let mut places = [0u16; PLACES];
    let mut layout = [0u32; LAYOUT];
    place(directory_of(image), &mut places);
    let pages = page_count(image) as u8;
    for page in 0..pages {
        read_page_of(image, page, &places, 0, &mut layout).map_err(|bad| bad.on_page(page))?;
    }
    Ok(())
}

// Whether a map is good as a whole: 1 to 5, then every page.
pub fn check(image: &[u8]) -> Result<(), Refusal>
    ensures outcome { outcome_of result ≡ whole_check image.now }
{
    check_heading(image)?;
    check_pages(image)
}
