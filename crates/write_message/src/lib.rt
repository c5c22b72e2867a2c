// Records tested and measured, then put at a buffer's front or at its end. How long a source and a message may be is the caller's to say.
// From src/encoding/mod.rs (TagWriter, TagRevWriter, RuntimeTagMeasurer) and opaque.rs (encode_field, prepend_field, value_encoded_len) of bilrost.
#![tactic(auto)]

ghost use Rattle.std.specs.Prelude.{◌≡◌, ◌⊎◌, ◌+◌, ◌-◌, ◌*◌, ◌/◌, ◌≤◌, ◌<◌, ◌^◌, length, take, drop};
ghost use Rattle.std.proofs.lemmas.List.Edits.{sets};
ghost use Rattle.wire.specs.Fixed.{fixed};
ghost use Rattle.place.specs.Spans.{Spans};
ghost use Rattle.wire.specs.Varint.{encode};
ghost use Rattle.wire.specs.Table.{room};
ghost use Rattle.write_record.specs.Records.{tag_before, checked, value_bytes, record_bytes, message};
ghost use Rattle.write_record.specs.RecordLaws.{Sound};
ghost use Rattle.write_message.specs.Writing.{plan, measured, fitted, spent, Writing, front, back};
ghost use Rattle.write_message.specs.WritingLaws.{Ready};

use wire::{RECORD_WORDS, Record, Refusal, Weighed, Weight, Written};

// ---- which way: where types or lengths come in no order that a branch could foresee, a way with no branch is faster

// Whether two records are of different types, or the value of one alone is below a limit.
fn is_unlike(a: Record, b: Record, limit: u64) -> bool {
    if a.kind != b.kind {
        return true;
    }
    if a.value < limit {
        return limit <= b.value;
    }
    b.value < limit
}

// Whether of 32 records at the front, and one more for each 1,024, more than four are unlike the record two before. It decides how fast records are
// measured and put, and nothing else.
// INLINE: fewer than 256 records are never asked. Measuring X, whose types are in random order, takes 0.32 of the time that it takes by branches, writing it
// 0.40, and writing VM 0.76. On V1 the way with no branch would take 1.4 and 1.6 times as long, on F 1.5 and 1.4 times.
fn is_mixed(table: &[u64], count: usize, limit: u64) -> bool {
    if count < 256 {
        return false;
    }
    let many = 34 + count / 1024;
    let mut spare: usize = 4;
    let mut i: usize = 2;
    while i < many {
        let a = write_record::record_at(table, i - 2);
        let b = write_record::record_at(table, i);
        if is_unlike(a, b, limit) {
            if spare == 0 {
                return true;
            }
            spare -= 1;
        }
        i += 1;
    }
    false
}

// ---- measured

// What is left of a budget.
fn spend(left: usize, n: usize) -> usize
    ensures { result ≡ left - n }
{
    if n < left {
        return left - n;
    }
    0
}

// All tests but that of the output, and what the records leave of a budget of one byte more than most. It falls to 0 and stays there,
// so that nothing wraps, however often payloads overlap.
pub fn weigh(source: &[u8], table: &[u64], count: usize, most: u32) -> Weighed
    ensures { result
        ≡ spent (most + 1) (length (message source.now table.now count)) (checked most source.now table.now count) }
{
    if (most as usize) < source.len() {
        return Weighed::First(Refusal::TooLong, 0);
    }
    let records = table.len() / RECORD_WORDS;
    if records < count {
        return Weighed::First(Refusal::BadRecord, records);
    }
    let size = source.len() as u32;
    let mixed = is_mixed(table, count, 0);
    let mut left = most as usize + 1;
    let mut prev: u64 = 0;
    let mut i: usize = 0;
    while i < count {
        let r = write_record::record_at(table, i);
        match write_record::weigh_record(size, prev, r, mixed) {
            Weight::Bad(why) => return Weighed::First(why, i),
            Weight::Bytes(n) => left = spend(left, n),
        }
        prev = r.tag;
        i += 1;
    }
    Weighed::Left(left)
}

// How long the records' message is.
fn measure(source: &[u8], table: &[u64], count: usize, most: u32) -> Written
    ensures { result ≡ measured (plan most source.now table.now count) }
{
    match weigh(source, table, count, most) {
        Weighed::First(why, i) => Written::Refused(why, i, 0),
        Weighed::Left(left) => {
            if left == 0 {
                return Written::Refused(Refusal::TooLong, 0, 0);
            }
            Written::At(0, most as usize + 1 - left)
        }
    }
}

// The same for a buffer of so many bytes. One that is too short is told the length that is needed.
fn fit(source: &[u8], table: &[u64], count: usize, most: u32, bytes: usize) -> Written
    ensures { result ≡ fitted bytes (plan most source.now table.now count) }
{
    match measure(source, table, count, most) {
        Written::Refused(why, start, n) => Written::Refused(why, start, n),
        Written::At(start, n) => {
            if bytes < n {
                return Written::Refused(Refusal::NoRoom, 0, n);
            }
            Written::At(start, n)
        }
    }
}

// ---- put forwards: each function takes the place where its bytes start, and answers the one behind them

fn put_number(buf: &mut [u8], at: usize, v: u64) -> usize
    requires { at + length (encode v) ≤ length buf.old }
    ensures { Spans buf.old at result (encode v) buf.new }
{
    if v < 128 {
        buf[at] = v as u8;
        return at + 1;
    }
    varint_write::put_varint(buf, at, v)
}

// INLINE: a part of the buffer, and of the source, that is as long as what is put says to the compiler that there is room, so that place's tests are left out.
// With them writing S takes 1.17 times the instructions, F 1.09 times.
fn put_exact(buf: &mut [u8], at: usize, size: usize, n: u64)
    requires { at + size ≤ length buf.old }
    ensures { buf.new ≡ sets buf.old at (fixed size n) }
{
    let behind = at + size;
    place::put_fixed(&mut buf[at..behind], 0, size, n);
}

// A longer payload is put at its place in the whole buffer: where the stores lie counts.
fn put_inside(buf: &mut [u8], at: usize, source: &[u8], from: usize, n: usize)
    requires { (from + n ≤ length source.now) × (at + n ≤ length buf.old) }
    ensures { buf.new ≡ sets buf.old at (take n (drop from source.now)) }
{
    if 32 < n {
        place::put_bytes(buf, at, source, from, n);
        return;
    }
    let behind = at + n;
    let end = from + n;
    place::put_part(&mut buf[at..behind], 0, &source[from..end], 0, n);
}

fn put_value(buf: &mut [u8], at: usize, source: &[u8], r: Record) -> usize
    requires { Sound (length source.now) r × (at + length (value_bytes source.now r) ≤ length buf.old) }
    ensures { Spans buf.old at result (value_bytes source.now r) buf.new }
{
    let kind = r.kind;
    if kind < 2 {
        if kind == 0 {
            return put_number(buf, at, r.value);
        }
        let next = put_number(buf, at, r.length);
        let n = r.length as usize;
        put_inside(buf, next, source, r.value as usize, n);
        return next + n;
    }
    if kind == 2 {
        put_exact(buf, at, 4, r.value);
        return at + 4;
    }
    put_exact(buf, at, 8, r.value);
    at + 8
}

// ---- the same with no branch between numbers of one, two and three bytes, nor between fixed values

// 1 from a limit on.
fn over(v: u64, limit: u64) -> u64
    ensures { ((v < limit) → result ≡ 0) × ((limit ≤ v) → result ≡ 1) }
{
    if v < limit {
        return 0;
    }
    1
}

// A number of at most three bytes, a being 1 where there are two or more, b where there are three. The last byte first: where there are fewer, those before it
// lie over it.
fn put_short(buf: &mut [u8], at: usize, v: u64, a: u64, b: u64)
    requires { (v < 0x20_4080) × (at + length (encode v) ≤ length buf.old)
        × (((v < 0x80) → a ≡ 0) × ((0x80 ≤ v) → a ≡ 1)) × (((v < 0x4080) → b ≡ 0) × ((0x4080 ≤ v) → b ≡ 1)) }
    ensures { buf.new ≡ sets buf.old at (encode v) }
{
    let y = v / 128 - a;
    let z = y / 128 - b;
    let last = at + (a + b) as usize;
    let middle = at + a as usize;
    buf[last] = z as u8;
    buf[middle] = ((y + 128 * z) % 256) as u8;
    buf[at] = ((v + 128 * y) % 256) as u8;
}

fn put_varied(buf: &mut [u8], at: usize, v: u64) -> usize
    requires { at + length (encode v) ≤ length buf.old }
    ensures { Spans buf.old at result (encode v) buf.new }
{
    if v < 0x20_4080 {
        let a = over(v, 0x80);
        let b = over(v, 0x4080);
        put_short(buf, at, v, a, b);
        return at + 1 + (a + b) as usize;
    }
    varint_write::put_varint(buf, at, v)
}

// Four bytes of a number or eight, size: its last four, which may be the first.
fn high_of(size: usize, n: u64) -> u64
    ensures { (size ≡ 4 → result ≡ n) × (size ≡ 8 → result ≡ n / 0x1_0000_0000) }
{
    if size == 4 {
        return n;
    }
    n / 0x1_0000_0000
}

fn put_sized(buf: &mut [u8], at: usize, size: usize, n: u64)
    requires { ((size ≡ 4) ⊎ (size ≡ 8)) × (at + size ≤ length buf.old) }
    ensures { buf.new ≡ sets buf.old at (fixed size n) }
{
    put_exact(buf, at + size - 4, 4, high_of(size, n));
    put_exact(buf, at, 4, n);
}

fn put_mixed_value(buf: &mut [u8], at: usize, source: &[u8], r: Record) -> usize
    requires { Sound (length source.now) r × (at + length (value_bytes source.now r) ≤ length buf.old) }
    ensures { Spans buf.old at result (value_bytes source.now r) buf.new }
{
    let kind = r.kind;
    if kind == 0 {
        return put_varied(buf, at, r.value);
    }
    if kind == 1 {
        let next = put_number(buf, at, r.length);
        let n = r.length as usize;
        put_inside(buf, next, source, r.value as usize, n);
        return next + n;
    }
    let size = (4 * kind - 4) as usize;
    put_sized(buf, at, size, r.value);
    at + size
}

// ---- a record

// INLINE: the two ways share so little that the compiler makes a loop of each, and neither asks which it is; asked for each record, writing F took 4 % more
// instructions. So does prepend_record, whose key is put last.
fn put_record(buf: &mut [u8], at: usize, source: &[u8], prev: u64, r: Record, mixed: bool) -> usize
    requires { Sound (length source.now) r × (prev ≤ r.tag) × (at + length (record_bytes source.now prev r) ≤ length buf.old) }
    ensures { Spans buf.old at result (record_bytes source.now prev r) buf.new }
{
    let next = put_number(buf, at, 4 * (r.tag - prev) + r.kind);
    if mixed {
        return put_mixed_value(buf, next, source, r);
    }
    put_value(buf, next, source, r)
}

// INLINE: the part of the table that has the records says to the compiler that each is there, so that record_at's test is left out. With the table itself
// writing takes 1.02 to 1.05 times the instructions, prepending 1.03 to 1.09 times.
fn put_all(buf: &mut [u8], source: &[u8], table: &[u64], count: usize) -> usize
    requires { Ready source.now table.now count × (length (message source.now table.now count) ≤ length buf.old) }
    ensures { Spans buf.old 0 result (message source.now table.now count) buf.new }
{
    let records = &table[0..RECORD_WORDS * count];
    let mixed = is_mixed(records, count, 0x80);
    let mut at: usize = 0;
    let mut prev: u64 = 0;
    let mut i: usize = 0;
    while i < count {
        let r = write_record::record_at(records, i);
        at = put_record(buf, at, source, prev, r, mixed);
        prev = r.tag;
        i += 1;
    }
    at
}

// The records' message at the buffer's front, where no test refuses.
pub fn write_front(source: &[u8], table: &[u64], count: usize, most: u32, buf: &mut [u8]) -> Written
    ensures { record { answer = result; buf = buf.new } ≡ front buf.old (plan most source.now table.now count) }
{
    match fit(source, table, count, most, buf.len()) {
        Written::Refused(why, start, n) => Written::Refused(why, start, n),
        Written::At(_, _) => Written::At(0, put_all(buf, source, table, count)),
    }
}

// ---- put from the end: each function takes the place where its bytes end, and answers the one where they start

fn prepend_number(buf: &mut [u8], end: usize, v: u64) -> usize
    requires { (length (encode v) ≤ end) × (end ≤ length buf.old) }
    ensures { Spans buf.old result end (encode v) buf.new }
{
    if v < 128 {
        let start = end - 1;
        buf[start] = v as u8;
        return start;
    }
    varint_write::prepend_varint(buf, end, v)
}

fn prepend_value(buf: &mut [u8], end: usize, source: &[u8], r: Record) -> usize
    requires { Sound (length source.now) r × (length (value_bytes source.now r) ≤ end) × (end ≤ length buf.old) }
    ensures { Spans buf.old result end (value_bytes source.now r) buf.new }
{
    let kind = r.kind;
    if kind < 2 {
        if kind == 0 {
            return prepend_number(buf, end, r.value);
        }
        let n = r.length as usize;
        let start = end - n;
        put_inside(buf, start, source, r.value as usize, n);
        return prepend_number(buf, start, r.length);
    }
    if kind == 2 {
        put_exact(buf, end - 4, 4, r.value);
        return end - 4;
    }
    put_exact(buf, end - 8, 8, r.value);
    end - 8
}

fn prepend_varied(buf: &mut [u8], end: usize, v: u64) -> usize
    requires { (length (encode v) ≤ end) × (end ≤ length buf.old) }
    ensures { Spans buf.old result end (encode v) buf.new }
{
    if v < 0x20_4080 {
        let a = over(v, 0x80);
        let b = over(v, 0x4080);
        let start = end - 1 - (a + b) as usize;
        put_short(buf, start, v, a, b);
        return start;
    }
    varint_write::prepend_varint(buf, end, v)
}

fn prepend_mixed_value(buf: &mut [u8], end: usize, source: &[u8], r: Record) -> usize
    requires { Sound (length source.now) r × (length (value_bytes source.now r) ≤ end) × (end ≤ length buf.old) }
    ensures { Spans buf.old result end (value_bytes source.now r) buf.new }
{
    let kind = r.kind;
    if kind == 0 {
        return prepend_varied(buf, end, r.value);
    }
    if kind == 1 {
        let n = r.length as usize;
        let start = end - n;
        put_inside(buf, start, source, r.value as usize, n);
        return prepend_number(buf, start, r.length);
    }
    let size = (4 * kind - 4) as usize;
    put_sized(buf, end - size, size, r.value);
    end - size
}

fn prepend_record(
    buf: &mut [u8],
    end: usize,
    source: &[u8],
    prev: u64,
    r: Record,
    mixed: bool,
) -> usize
    requires { Sound (length source.now) r × (prev ≤ r.tag) × (length (record_bytes source.now prev r) ≤ end) × (end ≤ length buf.old) }
    ensures { Spans buf.old result end (record_bytes source.now prev r) buf.new }
{
    let key = 4 * (r.tag - prev) + r.kind;
    if mixed {
        let start = prepend_mixed_value(buf, end, source, r);
        return prepend_number(buf, start, key);
    }
    let start = prepend_value(buf, end, source, r);
    prepend_number(buf, start, key)
}

// The tag before record i: 0 before the first.
fn tag_before(table: &[u64], i: usize) -> u64
    requires { i ≤ room table.now }
    ensures { result ≡ tag_before table.now i }
{
    if i == 0 {
        return 0;
    }
    table[RECORD_WORDS * (i - 1)]
}

fn prepend_all(buf: &mut [u8], source: &[u8], table: &[u64], count: usize) -> usize
    requires { Ready source.now table.now count × (length (message source.now table.now count) ≤ length buf.old) }
    ensures { Spans buf.old result (length buf.old) (message source.now table.now count) buf.new }
{
    let records = &table[0..RECORD_WORDS * count];
    let mixed = is_mixed(records, count, 0x80);
    let mut end = buf.len();
    let mut i = count;
    while 0 < i {
        i -= 1;
        let r = write_record::record_at(records, i);
        let prev = tag_before(table, i);
        end = prepend_record(buf, end, source, prev, r, mixed);
    }
    end
}

// The records' message at the buffer's end, where no test refuses.
pub fn write_back(source: &[u8], table: &[u64], count: usize, most: u32, buf: &mut [u8]) -> Written
    ensures { record { answer = result; buf = buf.new } ≡ back buf.old (plan most source.now table.now count) }
{
    match fit(source, table, count, most, buf.len()) {
        Written::Refused(why, start, n) => Written::Refused(why, start, n),
        Written::At(_, n) => Written::At(prepend_all(buf, source, table, count), n),
    }
}
