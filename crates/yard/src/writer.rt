// The map writer's two calls as a C caller sees them (02, C-16).

ghost use Rattle.yard.specs.Writer.{ReadTold, WriteTold};

use move_record::MoveRecord;
use telling::Numbers;
use telling::answers::tell;

// The records of an image, put at the front of a list.
pub fn yard_records(image: &[u8], records: &mut [MoveRecord], answer: &mut [u32]) -> u32
    ensures told { ReadTold image.now records.old records.new
        result answer.old answer.new }
{
    let answered = records::read(image, records);
    tell(Numbers::from(answered), answer)
}

// The image of records, written into a buffer for a number of stations and of pages and a directory.
pub fn yard_write(
    records: &[MoveRecord],
    stations: u16,
    pages: u16,
    directory: &[u8],
    image: &mut [u8],
    answer: &mut [u32],
) -> u32
    ensures told { WriteTold stations pages directory.now records.now image.old
        image.new result answer.old answer.new }
{
    let answered = records::write(records, stations, pages, directory, image);
    tell(Numbers::from(answered), answer)
}
