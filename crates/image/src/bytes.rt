// Numbers and parts of a byte slice. What lies past the end reads as 0, or as nothing.

ghost use Rattle.std.specs.Prelude.{◌≡◌, ℕ, ◌+◌, ◌*◌, ◌≤◌, ◌<◌, length, get_or, drop};
ghost use Rattle.image.specs.Bytes.{word, part, all_zero};

pub fn byte_at(s: &[u8], at: usize) -> u8
    ensures value { result ≡ get_or s.now at 0 }
{
    s.get(at).copied().unwrap_or(0)
}

// The u16 at an offset, little-endian.
pub fn word_at(s: &[u8], at: usize) -> u16
    ensures value { result ≡ word s.now at }
{
    if s.len() <= at {
        return 0;
    }
    u16::from_le_bytes([byte_at(s, at), byte_at(s, at + 1)])
}

// The same where both of its bytes are there.
pub fn word_within(s: &[u8], at: usize) -> u16
    requires within { at + 1 < length s.now }
    ensures value { result ≡ word s.now at }
{
    u16::from_le_bytes([s[at], s[at + 1]])
}

// The part of `count` bytes from an offset on, as far as the slice reaches.
pub fn part_of(s: &[u8], from: usize, count: usize) -> &[u8]
    ensures part { result.now ≡ part s.now from count }
{
    let rest = &s[from.min(s.len())..];
    &rest[..count.min(rest.len())]
}

// Whether all bytes from an offset on are 0. They are added up and tested once: a branch for each byte costs more. The
// sum is at most 255 for each byte, so that it wraps for no slice of a page's length. By index: an iterator over the
// slice makes the page reader, where this is compiled into it, slower (see command_at).
pub fn zero_from(s: &[u8], at: usize) -> bool
    requires short { length s.now < 65536 }
    ensures value { result ≡ all_zero (drop at s.now) }
{
    let mut sum: u32 = 0;
    for i in at..s.len() {
        sum += u32::from(s[i]);
    }
    sum == 0
}

// The greatest byte of a slice: one of its bytes, and none is above it. There is no branch for a byte here, so that many
// are compared at a time.
pub fn greatest(s: &[u8]) -> u8
    ensures found { (at : ℕ) × (get_or s.now at 0 ≡ result) }
    ensures most { (at : ℕ) → get_or s.now at 0 ≤ result }
{
    let mut most = 0;
    for b in s {
        most = most.max(*b);
    }
    most
}
