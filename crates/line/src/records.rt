// A coil record, taken apart: 8 bytes of little-endian numbers.

ghost use Rattle.std.specs.Prelude.{◌≡◌};
ghost use Rattle.line.specs.Line.{coil_of, length_of, station_of};

#[derive(Clone, Copy, Debug, PartialEq, Eq)]
pub struct Record {
    pub coil: u32,
    // In decimetres.
    pub length: u16,
    pub station: u16,
}

pub fn record_of(bytes: &[u8; 8]) -> Record
    ensures coil { result.coil ≡ coil_of bytes.now }
    ensures length { result.length ≡ length_of bytes.now }
    ensures station { result.station ≡ station_of bytes.now }
{
    let [a, b, c, d, e, f, g, h] = *bytes;
    Record {
        coil: u32::from_le_bytes([a, b, c, d]),
        length: u16::from_le_bytes([e, f]),
        station: u16::from_le_bytes([g, h]),
    }
}
