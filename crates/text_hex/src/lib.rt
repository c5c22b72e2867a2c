// A line's characters read as bytes, two digits a byte.
#![tactic(auto)]

ghost use Rattle.std.specs.Prelude.{◌≡◌, take};
ghost use Rattle.std.proofs.lemmas.List.Edits.{sets};
ghost use Rattle.text_digits.specs.Digits.{digit_of};
ghost use Rattle.text_hex.specs.Frame.{frame_of};
ghost use Rattle.text_hex.specs.Faults.{known_of, all_digits, bytes_in, Decodable};

// The most characters of a frame's line.
pub const LINE_LIMIT: usize = 4_096;

// Why a line has no bytes.
#[derive(Clone, Copy, Debug, PartialEq, Eq)]
pub enum FrameError {
    // More characters than LINE_LIMIT, more than the line has, or more than there is room for.
    TooLong,
    // An odd number of characters, or one that is no digit.
    NotHex,
}

// What a character is worth that is a digit.
fn known(c: u8) -> u8
    ensures { result ≡ known_of c }
{
    c % 16 + c / 64 * 9
}

// What a character is worth as a digit, letters in either case.
#[tactic(auto, using(crate::proofs::Chars::by_runs))]
pub fn digit_of(c: u8) -> Option<u8>
    ensures { result ≡ digit_of c }
{
    match c {
        b'0'..=b'9' => Some(c - b'0'),
        b'A'..=b'F' => Some(c - b'A' + 10),
        b'a'..=b'f' => Some(c - b'a' + 10),
        _ => None,
    }
}

// Whether all characters are digits.
// INLINE: it has no branch to take, so that the compiler tests many characters at a time.
fn all_digits(line: &[u8]) -> bool
    ensures { result ≡ all_digits line.now }
{
    let mut all = true;
    for c in line {
        all &= c.is_ascii_hexdigit();
    }
    all
}

// The bytes of a line that is known to have two digits for each of them.
fn decode(line: &[u8], out: &mut [u8])
    requires { Decodable line.now out.old }
    ensures { out.new ≡ sets out.old 0 (bytes_in line.now) }
{
    for k in 0..line.len() / 2 {
        out[k] = 16 * known(line[2 * k]) + known(line[2 * k + 1]);
    }
}

// The bytes of the first characters of a line, put at the front of out, and how many they are.
pub fn frame_of(line: &[u8], chars: usize, out: &mut [u8]) -> Result<usize, FrameError>
    ensures { record { answer = result; out = out.new } ≡ frame_of line.now chars out.old }
{
    if LINE_LIMIT < chars || line.len() < chars || out.len() < chars / 2 {
        return Err(FrameError::TooLong);
    }
    let part = &line[..chars];
    if chars % 2 != 0 || !all_digits(part) {
        return Err(FrameError::NotHex);
    }
    decode(part, out);
    Ok(chars / 2)
}
