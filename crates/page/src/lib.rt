// The page reader (01, "Map image"). What lies above works with a page's content, laid out as rows of moves.

#![tactic(auto)]

ghost use Rattle.std.specs.Prelude.{◌≡◌, List, length};
ghost use Rattle.layout.specs.Places.{Placed};
ghost use Rattle.commands.specs.declared.Move.{Move};
ghost use Rattle.image.specs.Image.{directory_of};
ghost use Rattle.page.specs.Reading.{Leaving, good, reading_of, verdict_in, verdict_of};
ghost use Rattle.page.specs.Laying.{PageLaid, OthersKept};

pub mod reader;

use image::{BadPage, Fault, directory_of, page_of};
use layout::moves::LAYOUT;
use reader::read_page;

// The first command at fault of a page.
#[derive(Clone, Copy, Debug, PartialEq, Eq)]
pub struct BadCommand {
    pub fault: Fault,
    pub offset: usize,
}

impl BadCommand {
    // The same, with the page that it stands on.
    pub fn on_page(self, page: u8) -> BadPage
        ensures fault { result.fault ≡ self.fault }
        ensures page { result.page ≡ page }
        ensures offset { result.offset ≡ self.offset }
    {
        BadPage {
            fault: self.fault,
            page,
            offset: self.offset,
        }
    }
}

// Reads page p of an image whose stations are placed, for a strip of a given length (reader.rt).
pub fn read_page_of(
    image: &[u8],
    p: u8,
    places: &[u16],
    strip: u16,
    layout: &mut [u32; LAYOUT],
) -> Result<(), BadCommand>
    requires placed { Placed (directory_of image.now) places.now }
    ensures verdict { verdict_in result ≡ verdict_of (reading_of image.now p) }
    ensures laid { (moves : List Move) (stations : List Leaving)
        → reading_of image.now p ≡ good moves stations
        → PageLaid (directory_of image.now) p strip stations layout.new }
    ensures others { OthersKept (directory_of image.now) p layout.old layout.new }
{
    read_page(
        directory_of(image),
        places,
        p,
        page_of(image, p),
        strip,
        layout,
    )
}
