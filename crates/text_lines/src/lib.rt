// Lines of characters, taken from blocks of input.
#![tactic(auto)]

ghost use Rattle.std.specs.Prelude.{◌≡◌};
ghost use Rattle.text_lines.specs.Lines.{take_line, count_up};
ghost use Rattle.text_lines.specs.LineLaws.{kept_line, kept_count};

use memchr::memchr;

// A whole line: the place after its LF, and how many characters it has. Or how many characters the part has that a block ends in.
#[derive(Clone, Copy)]
pub enum Taken {
    Line(usize, usize),
    Part(usize),
}

// One more, as far as a number goes.
pub fn count_up(n: usize) -> usize
    ensures { result ≡ count_up n }
{
    n.saturating_add(1)
}

// Puts a part of a line after the characters that there are, and returns how many they are then. Those that there is no room for are counted and not kept.
fn keep(line: &mut [u8], chars: usize, part: &[u8]) -> usize
    ensures kept { line.new ≡ kept_line line.old chars part.now }
    ensures count { result ≡ kept_count chars part.now }
{
    let room = line.len().saturating_sub(chars);
    place::put_part(line, chars, part, 0, part.len().min(room));
    chars.saturating_add(part.len())
}

// The characters of a block from a place on, up to LF, put after those that the line has already.
pub fn take_line(block: &[u8], at: usize, line: &mut [u8], chars: usize) -> Taken
    ensures { record { answer = result; line = line.new } ≡ take_line block.now at line.old chars }
{
    let rest = &block[at.min(block.len())..];
    match memchr(b'\n', rest) {
        Some(n) => Taken::Line(at + n + 1, keep(line, chars, &rest[..n])),
        None => Taken::Part(keep(line, chars, rest)),
    }
}
