// What is printed of a frame, put into a buffer for the output.
#![tactic(auto)]

ghost use Rattle.std.specs.Prelude.{◌≡◌, [], ◌∷◌, ◌++◌, ◌+◌, ◌*◌, ◌≤◌, length};
ghost use Rattle.wire.specs.Fixed.{fixed};
ghost use Rattle.wire.specs.Places.{shown, item_of, items};
ghost use Rattle.wire.specs.Table.{field_in, fields_from};
ghost use Rattle.place.specs.Place.{put_at};
ghost use Rattle.text_digits.specs.Digits.{decimal, hexed};
ghost use Rattle.text_frames.specs.Text.{headed, word_f, word_ok, told, bytes_text, value_text, field_text, fields_text};
ghost use Rattle.text_frames.specs.Print.{print_frame, Roomy, Lined, Valued, Listed, Closed, Framable, Messaged};

use text_hex::FrameError;
use wire::{Read, Record};

// The room in which the text of any frame has place.
pub const FRAME_ROOM: usize = 65_664;

// ---- pieces of text: each has room, and answers the place after it

fn put_char(out: &mut [u8], at: usize, c: u8) -> usize
    requires { Roomy out.old at (c ∷ []) }
    ensures { record { next = result; buf = out.new } ≡ put_at out.old at (c ∷ []) }
{
    out[at] = c;
    at + 1
}

// A space and a number.
fn put_number(out: &mut [u8], at: usize, v: u64) -> usize
    requires { Roomy out.old at (32 ∷ decimal v) }
    ensures { record { next = result; buf = out.new } ≡ put_at out.old at (32 ∷ decimal v) }
{
    let p = put_char(out, at, b' ');
    text_digits::put_decimal(out, p, v)
}

// A line's number and a word.
fn put_head(out: &mut [u8], at: usize, n: u64, word: &[u8]) -> usize
    requires { Roomy out.old at (headed n word.now) }
    ensures { record { next = result; buf = out.new } ≡ put_at out.old at (headed n word.now) }
{
    let p = text_digits::put_decimal(out, at, n);
    place::put_part(out, p, word, 0, word.len())
}

// A line of a number and a word.
fn put_word(out: &mut [u8], at: usize, n: u64, word: &[u8]) -> usize
    requires { Roomy out.old at (told n word.now []) }
    ensures { record { next = result; buf = out.new } ≡ put_at out.old at (told n word.now []) }
{
    let p = put_head(out, at, n, word);
    put_char(out, p, b'\n')
}

// A line of a number, a word and two numbers.
fn put_told(out: &mut [u8], at: usize, n: u64, word: &[u8], a: u64, b: u64) -> usize
    requires { Roomy out.old at (told n word.now (a ∷ b ∷ [])) }
    ensures { record { next = result; buf = out.new } ≡ put_at out.old at (told n word.now (a ∷ b ∷ [])) }
{
    let p = put_head(out, at, n, word);
    let q = put_number(out, p, a);
    let r = put_number(out, q, b);
    put_char(out, r, b'\n')
}

// A line of a number, a word and four numbers.
fn put_refused(
    out: &mut [u8],
    at: usize,
    n: u64,
    word: &[u8],
    a: u64,
    b: u64,
    c: u64,
    d: u64,
) -> usize
    requires { Roomy out.old at (told n word.now (a ∷ b ∷ c ∷ d ∷ [])) }
    ensures { record { next = result; buf = out.new } ≡ put_at out.old at (told n word.now (a ∷ b ∷ c ∷ d ∷ [])) }
{
    let p = put_head(out, at, n, word);
    let q = put_number(out, p, a);
    let r = put_number(out, q, b);
    let u = put_number(out, r, c);
    let v = put_number(out, u, d);
    put_char(out, v, b'\n')
}

// ---- a field

// The bytes of a number on the wire.
fn put_fixed(out: &mut [u8], at: usize, size: usize, v: u64) -> usize
    requires { (size ≤ 8) × Roomy out.old at (hexed (fixed size v)) }
    ensures { record { next = result; buf = out.new } ≡ put_at out.old at (hexed (fixed size v)) }
{
    let mut b = [0u8; 8];
    place::put_fixed(&mut b, 0, size, v);
    text_digits::put_hex_bytes(out, at, &b[0..size])
}

fn put_payload(out: &mut [u8], at: usize, bytes: &[u8]) -> usize
    requires { Roomy out.old at (bytes_text bytes.now) }
    ensures { record { next = result; buf = out.new } ≡ put_at out.old at (bytes_text bytes.now) }
{
    if bytes.len() < 1 {
        return put_char(out, at, b'-');
    }
    text_digits::put_hex_bytes(out, at, bytes)
}

fn put_value(out: &mut [u8], at: usize, message: &[u8], r: Record) -> usize
    requires { Valued out.old at message.now r }
    ensures { record { next = result; buf = out.new } ≡ put_at out.old at (value_text (shown message.now (field_in r).value)) }
{
    let kind = r.kind;
    if kind < 1 {
        return text_digits::put_hex(out, at, 16, r.value);
    }
    if kind < 2 {
        return put_payload(out, at, entry_message::payload_of(message, r));
    }
    if kind < 3 {
        return put_fixed(out, at, 4, r.value);
    }
    put_fixed(out, at, 8, r.value)
}

fn put_field(out: &mut [u8], at: usize, head: &[u8], message: &[u8], r: Record) -> usize
    requires { Lined out.old at head.now message.now r }
    ensures { record { next = result; buf = out.new }
        ≡ put_at out.old at (field_text head.now (item_of message.now (field_in r))) }
{
    let p = place::put_part(out, at, head, 0, head.len());
    let q = put_number(out, p, r.tag);
    let u = put_number(out, q, r.kind);
    let v = put_char(out, u, b' ');
    let w = put_value(out, v, message, r);
    put_char(out, w, b'\n')
}

fn put_fields(
    out: &mut [u8],
    at: usize,
    head: &[u8],
    message: &[u8],
    table: &[u64],
    count: usize,
) -> usize
    requires { Listed out.old at head.now message.now table.now count }
    ensures { record { next = result; buf = out.new }
        ≡ put_at out.old at (fields_text head.now (items message.now (fields_from count table.now 0))) }
{
    let mut p = at;
    let mut i = 0;
    while i < count {
        p = put_field(out, p, head, message, write_record::record_at(table, i));
        i += 1;
    }
    p
}

// ---- a frame

fn put_accepted(
    out: &mut [u8],
    at: usize,
    n: u64,
    message: &[u8],
    table: &[u64],
    count: usize,
) -> usize
    requires { Closed out.old at n message.now table.now count }
    ensures { record { next = result; buf = out.new }
        ≡ put_at out.old at (
        fields_text (headed n word_f) (items message.now (fields_from count table.now 0))
        ++ told n word_ok (count ∷ length message.now ∷ [])) }
{
    let mut head = [0u8; 22];
    let k = put_head(&mut head, 0, n, b" F");
    let p = put_fields(out, at, &head[0..k], message, table, count);
    put_told(out, p, n, b" OK", count as u64, message.len() as u64)
}

// A message read into the table, and printed.
fn put_message(out: &mut [u8], at: usize, n: u64, message: &[u8], table: &mut [u64]) -> usize
    requires { Framable out.old at message.now }
    ensures { Messaged out.old at n message.now table.old result out.new table.new }
{
    match entry_message::read_message(message, 0, message.len(), table) {
        Read::Refused(r, place, _, f) => put_refused(
            out,
            at,
            n,
            b" NO",
            wire::number_of(r),
            place as u64,
            f.place as u64,
            f.bytes as u64,
        ),
        Read::Accepted(_, count) => put_accepted(out, at, n, message, table, count),
    }
}

// What is printed of a line, its number and its first characters, from a place of out on: the place after it. Where there is less room than
// FRAME_ROOM nothing is done, and the place given is answered. The bytes and the table are lent for reading the frame.
pub fn put_frame(
    out: &mut [u8],
    at: usize,
    n: u64,
    line: &[u8],
    chars: usize,
    bytes: &mut [u8],
    table: &mut [u64],
) -> usize
    ensures { record { next = result; out = out.new; bytes = bytes.new; table = table.new }
        ≡ print_frame out.old at n line.now chars bytes.old table.old }
{
    if out.len() < FRAME_ROOM {
        return at;
    }
    if out.len() - FRAME_ROOM < at {
        return at;
    }
    match text_hex::frame_of(line, chars, bytes) {
        Ok(k) => put_message(out, at, n, &bytes[..k], table),
        Err(FrameError::TooLong) => put_word(out, at, n, b" LONG"),
        Err(FrameError::NotHex) => put_word(out, at, n, b" HEX"),
    }
}
