// The image of a list of records, written into a buffer once nothing is refused (02, C-16).

#![tactic(auto)]

ghost use Rattle.std.specs.Prelude.{◌≡◌, ◌++◌, ◌+◌, ◌*◌, ◌≤◌, length, drop};
ghost use Rattle.roundtrip.specs.Written.{heading_for, written};
ghost use Rattle.imaging.specs.Shaped.{Shaped, Writable};

pub mod bytes;
pub mod stations;

use bytes::{copy_at, put_word};
use move_record::MoveRecord;
use stations::write_pages;

// Writes heading and directory.
fn write_front(size: u16, pages: u16, directory: &[u8], image: &mut [u8])
    requires room { 4 + length directory.now ≤ length image.old }
    ensures front { image.new
        ≡ heading_for size pages
        (directory.now ++ drop (4 + length directory.now) image.old) }
{
    put_word(image, 0, size);
    put_word(image, 2, pages);
    copy_at(image, 4, directory);
}

// Writes the image.
pub fn write_image(
    records: &[MoveRecord],
    size: u16,
    pages: u16,
    directory: &[u8],
    image: &mut [u8],
)
    requires shaped { Shaped size pages directory.now (length image.old) }
    requires writable { Writable size pages directory.now records.now }
    ensures written { image.new
        ≡ written size pages directory.now records.now }
{
    write_front(size, pages, directory, image);
    write_pages(records, directory, &mut image[4 + directory.len()..]);
}
