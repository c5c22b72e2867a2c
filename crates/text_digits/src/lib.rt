// Numbers and bytes put as digits at a place of a buffer. Each function returns the place after what it put. Where that has no room, it writes nothing and
// returns the place that it was given.
#![tactic(auto)]

ghost use Rattle.std.specs.Prelude.{◌≡◌, ◌≤◌, ◌<◌};
ghost use Rattle.place.specs.Place.{put_at};
ghost use Rattle.text_digits.specs.Digits.{digits, places_to, decimal, hexed};
ghost use Rattle.text_digits.specs.Digits.{glyph as Digits·glyph};

// The character of a digit, letters as capitals.
fn glyph(d: u8) -> u8
    requires { d < 16 }
    ensures { result ≡ Digits·glyph d }
{
    if d < 10 { b'0' + d } else { b'A' + (d - 10) }
}

// The last `width` digits of a number in a base.
fn put_digits(buf: &mut [u8], at: usize, base: u64, width: usize, v: u64) -> usize
    requires { (0 < base) × (base ≤ 16) }
    ensures { record { next = result; buf = buf.new } ≡ put_at buf.old at (digits base width v) }
{
    if buf.len() < at {
        return at;
    }
    if buf.len() - at < width {
        return at;
    }
    let mut x = v;
    for i in (0..width).rev() {
        buf[at + i] = glyph((x % base) as u8);
        x /= base;
    }
    at + width
}

// The last `width` digits of a number in hexadecimal, with zeros in front.
pub fn put_hex(buf: &mut [u8], at: usize, width: usize, v: u64) -> usize
    ensures { record { next = result; buf = buf.new } ≡ put_at buf.old at (digits 16 width v) }
{
    put_digits(buf, at, 16, width, v)
}

// How many digits a number has in decimal.
fn decimal_len(v: u64) -> usize
    ensures { result ≡ places_to 19 v }
{
    v.max(1).ilog10() as usize + 1
}

// A number in decimal.
pub fn put_decimal(buf: &mut [u8], at: usize, v: u64) -> usize
    ensures { record { next = result; buf = buf.new } ≡ put_at buf.old at (decimal v) }
{
    put_digits(buf, at, 10, decimal_len(v), v)
}

// Bytes in hexadecimal, two digits each.
pub fn put_hex_bytes(buf: &mut [u8], at: usize, bytes: &[u8]) -> usize
    ensures { record { next = result; buf = buf.new } ≡ put_at buf.old at (hexed bytes.now) }
{
    if buf.len() < at {
        return at;
    }
    if (buf.len() - at) / 2 < bytes.len() {
        return at;
    }
    let mut p = at;
    for &b in bytes {
        buf[p] = glyph(b / 16);
        buf[p + 1] = glyph(b % 16);
        p += 2;
    }
    p
}
