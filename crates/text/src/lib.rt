// Text and decimal numbers put into a line. The line is a lent slice with a place beside it, and the digits are spelled
// here: what std's `write!` writes is promised only where it succeeds, and a line that has room for them all takes them.

#![tactic(auto)]

ghost use Rattle.std.specs.Prelude.{◌≡◌, ◌++◌, ◌+◌, ◌%◌, ◌≤◌, length, drop};
ghost use Rattle.common.specs.Window.{placed};
ghost use Rattle.text.specs.Text.{decimal};

// The most digits of a number.
const MOST: usize = 20;

// Puts text into a line, and answers the place behind it.
pub fn put_text(line: &mut [u8], at: usize, text: &[u8]) -> usize
    requires room { at + length text.now ≤ length line.old }
    ensures put { line.new ≡ placed line.old at text.now }
    ensures behind { result ≡ at + length text.now }
{
    let behind = at + text.len();
    line[at..behind].copy_from_slice(text);
    behind
}

// The last digit of a number.
fn last_digit(n: u64) -> u8
    ensures value { result ≡ 48 + n % 10 }
{
    48 + (n % 10) as u8
}

// Spells a number in decimal, from the last digit to the first, at the end of the text, and answers where it begins.
fn spell(n: u64, text: &mut [u8; MOST]) -> usize
    ensures spelled { drop result text.new ≡ decimal n }
    ensures inside { result ≤ 20 }
    ensures size { length text.new ≡ 20 }
{
    let mut rest = n;
    for at in (0..MOST).rev() {
        text[at] = last_digit(rest);
        if rest < 10 {
            return at;
        }
        rest /= 10;
    }
    unreachable!()
}

// Puts a number in decimal behind its name into a line, and answers the place behind it.
pub fn put_number(line: &mut [u8], at: usize, name: &[u8], n: u64) -> usize
    requires room { at + length name.now + 20 ≤ length line.old }
    ensures put { line.new ≡ placed line.old at (name.now ++ decimal n) }
    ensures behind { result ≡ at + length (name.now ++ decimal n) }
    ensures within { result ≤ at + length name.now + 20 }
{
    let behind = put_text(line, at, name);
    let mut text = [0u8; MOST];
    let from = spell(n, &mut text);
    put_text(line, behind, &text[from..])
}
