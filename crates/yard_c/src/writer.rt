// The map writer's two calls as C functions (02, C-16). A list of records passes as a pointer to them and their number;
// a record is four numbers of 16 bits (move_record, `MoveRecord`).

ghost use Rattle.yard.specs.Writer.{ReadTold, WriteTold};

use move_record::MoveRecord;

// The records of an image, put at the front of a list.
#[unsafe(no_mangle)]
pub extern "C" fn yard_records(image: &[u8], records: &mut [MoveRecord], answer: &mut [u32]) -> u32
    ensures told { ReadTold image.now records.old records.new
        result answer.old answer.new }
{
    yard::writer::yard_records(image, records, answer)
}

// The image of records, written into a buffer for a number of stations and of pages and a directory.
#[unsafe(no_mangle)]
pub extern "C" fn yard_write(
    records: &[MoveRecord],
    stations: u16,
    pages: u16,
    directory: &[u8],
    image: &mut [u8],
    answer: &mut [u32],
) -> u32
    ensures told { WriteTold stations pages directory.now records.now image.old
        image.new result answer.old answer.new }
{
    yard::writer::yard_write(records, stations, pages, directory, image, answer)
}
