// The map image (01, "Map image"): its heading, its directory and where its pages stand; refusals 1 to 5. What lies
// past an image's end reads as 0, or as nothing.

#![tactic(auto)]

ghost use Rattle.std.specs.Prelude.{◌≡◌, ◌≤◌, ◌<◌, ◌||◌, eqb, ltb, length};
ghost use Rattle.image.specs.Image.{station_count, page_count, directory_of, page_bytes, first_not_below};
ghost use Rattle.image.specs.Image.{heading_check, fault_number, number_of, outcome_of};
ghost use Rattle.image.specs.declared.Refusal.TheVariants.{BadPage};

pub mod bytes;

use bytes::{greatest, part_of, word_at};

// The fault of a page's first bad command.
#[derive(Clone, Copy, Debug, PartialEq, Eq)]
pub enum Fault {
    UnknownCode,
    PageOverrun,
    StationOrder,
    MoveBeforeStation,
    Target,
    ByteAfterEnd,
    LimitZero,
}

impl Fault {
    // Document 01's number of it.
    pub fn number(self) -> u8
        ensures value { result ≡ fault_number self }
    {
        match self {
            Fault::UnknownCode => 8,
            Fault::PageOverrun => 9,
            Fault::StationOrder => 10,
            Fault::MoveBeforeStation => 11,
            Fault::Target => 12,
            Fault::ByteAfterEnd => 14,
            Fault::LimitZero => 18,
        }
    }
}

// A page that is at fault, with the offset of its first bad command.
#[derive(Clone, Copy, Debug, PartialEq, Eq)]
pub struct BadPage {
    pub fault: Fault,
    pub page: u8,
    pub offset: usize,
}

// What a check of a call refuses, with the place that it names.
#[derive(Clone, Copy, Debug, PartialEq, Eq)]
pub enum Refusal {
    ImageTooShort,
    StationCount,
    PageCount,
    ImageLength,
    Directory { station: u16 },
    Source,
    TableTooShort,
    BadPage(BadPage),
}

impl Refusal {
    // Document 01's number of it.
    pub fn number(self) -> u8
        ensures value { result ≡ number_of self }
    {
        match self {
            Refusal::ImageTooShort => 1,
            Refusal::StationCount => 2,
            Refusal::PageCount => 3,
            Refusal::ImageLength => 4,
            Refusal::Directory { .. } => 5,
            Refusal::Source => 6,
            Refusal::TableTooShort => 7,
            Refusal::BadPage(bad) => bad.fault.number(),
        }
    }
}

impl From<BadPage> for Refusal {
    ghost from_gives = { λ bad refusal. refusal ≡ BadPage bad };

    fn from(bad: BadPage) -> Refusal {
        Refusal::BadPage(bad)
    }
}

pub fn station_count(image: &[u8]) -> usize
    ensures value { result ≡ station_count image.now }
    ensures most { result < 65536 }
{
    word_at(image, 0) as usize
}

pub fn page_count(image: &[u8]) -> usize
    ensures value { result ≡ page_count image.now }
    ensures most { result < 65536 }
{
    word_at(image, 2) as usize
}

#[tactic(auto, unfolding(crate::specs::Image::directory_of))]
pub fn directory_of(image: &[u8]) -> &[u8]
    ensures part { result.now ≡ directory_of image.now }
{
    part_of(image, 4, station_count(image))
}

#[tactic(auto, using(crate::proofs::Parts::page_short), unfolding(crate::specs::Image::page_bytes))]
pub fn page_of(image: &[u8], p: u8) -> &[u8]
    ensures part { result.now ≡ page_bytes image.now p }
    ensures short { length result.now ≤ 256 }
{
    let from = 4 + station_count(image) + 256 * (p as usize);
    part_of(image, from, 256)
}

// The lowest station whose byte is not below a limit, or the number of stations. As a rule all are below it, which the
// greatest byte tells: then nothing has to be looked for.
pub fn first_not_below(directory: &[u8], limit: usize) -> usize
    ensures value { result ≡ first_not_below limit directory.now }
{
    if (greatest(directory) as usize) < limit {
        return directory.len();
    }
    directory
        .iter()
        .position(|d| limit <= *d as usize)
        .unwrap_or(directory.len())
}

// Whether a count is 0 or above its limit.
pub fn outside(count: usize, limit: usize) -> bool
    ensures value { result ≡ (eqb count 0 || ltb limit count) }
{
    !(1..=limit).contains(&count)
}

// Refusals 1 to 5, in this order.
#[tactic(auto, unfolding(crate::specs::Image::heading_check))]
pub fn check_heading(image: &[u8]) -> Result<(), Refusal>
    ensures outcome { outcome_of result ≡ heading_check image.now }
{
    if image.len() < 4 {
        return Err(Refusal::ImageTooShort);
    }
    let stations = station_count(image);
    if outside(stations, 2048) {
        return Err(Refusal::StationCount);
    }
    let pages = page_count(image);
    if outside(pages, 240) {
        return Err(Refusal::PageCount);
    }
    if image.len() != 4 + stations + 256 * pages {
        return Err(Refusal::ImageLength);
    }
    let station = first_not_below(directory_of(image), pages);
    if station < stations {
        return Err(Refusal::Directory {
            station: station as u16,
        });
    }
    Ok(())
}
