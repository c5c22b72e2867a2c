// Bytes put into a lent buffer from a place on: a part of another slice, and a number lowest byte first.
// Each answers the place after them; where they have no room, the place given, and nothing is written.
#![tactic(auto)]

ghost use Rattle.std.specs.Prelude.{◌≡◌, ◌+◌, ◌≤◌, ◌<◌, length};
ghost use Rattle.wire.specs.Fixed.{fixed};
ghost use Rattle.place.specs.Place.{Placed, put_at, put_part, roomy};

// A byte at a time.
fn put_each(buf: &mut [u8], at: usize, bytes: &[u8], from: usize, n: usize) -> usize
    requires { (from + n ≤ length bytes.now) × (at + n ≤ length buf.old) }
    ensures { record { next = result; buf = buf.new } ≡ put_part buf.old at bytes.now from n }
{
    let mut p = at;
    let mut q = from;
    let mut left = n;
    while 0 < left {
        buf[p] = bytes[q];
        p += 1;
        q += 1;
        left -= 1;
    }
    p
}

// INLINE: all bytes are read before one is put: where n is known, the compiler keeps them in registers and makes no array.
fn put_block(buf: &mut [u8], at: usize, bytes: &[u8], from: usize, n: usize) -> usize
    requires { (n ≤ 128) × (from + n ≤ length bytes.now) × (at + n ≤ length buf.old) }
    ensures { record { next = result; buf = buf.new } ≡ put_part buf.old at bytes.now from n }
{
    let mut block = [0u8; 128];
    put_each(&mut block, 0, bytes, from, n);
    put_each(buf, at, &block, 0, n)
}

// k bytes at a time. Where less than k are left, the last k are put: some of them once more.
fn put_steps(buf: &mut [u8], at: usize, bytes: &[u8], from: usize, n: usize, k: usize) -> usize
    requires { (0 < k) × (k ≤ 128) × (k ≤ n) × (from + n ≤ length bytes.now) × (at + n ≤ length buf.old) }
    ensures { record { next = result; buf = buf.new } ≡ put_part buf.old at bytes.now from n }
{
    let mut p = at;
    let mut q = from;
    let mut left = n;
    while k <= left {
        put_block(buf, p, bytes, q, k);
        p += k;
        q += k;
        left -= k;
    }
    if 0 < left {
        return put_block(buf, at + n - k, bytes, from + n - k, k);
    }
    at + n
}

// At least k bytes and at most twice as many: the first k of them and the last k.
fn put_ends(buf: &mut [u8], at: usize, bytes: &[u8], from: usize, n: usize, k: usize) -> usize
    requires { (k ≤ 128) × (k ≤ n) × (n ≤ k + k) × (from + n ≤ length bytes.now) × (at + n ≤ length buf.old) }
    ensures { record { next = result; buf = buf.new } ≡ put_part buf.old at bytes.now from n }
{
    put_block(buf, at, bytes, from, k);
    put_block(buf, at + n - k, bytes, from + n - k, k)
}

// At most 32 bytes.
fn put_few(buf: &mut [u8], at: usize, bytes: &[u8], from: usize, n: usize) -> usize
    requires { (n ≤ 32) × (from + n ≤ length bytes.now) × (at + n ≤ length buf.old) }
    ensures { record { next = result; buf = buf.new } ≡ put_part buf.old at bytes.now from n }
{
    if n < 16 {
        if n < 8 {
            if n < 4 {
                return put_each(buf, at, bytes, from, n);
            }
            return put_ends(buf, at, bytes, from, n, 4);
        }
        return put_ends(buf, at, bytes, from, n, 8);
    }
    put_ends(buf, at, bytes, from, n, 16)
}

// More. Where there are many, sixteen are put first, then 128 at a time from a place that sixteen divides, in blocks of sixteen: a buffer mostly starts at such an
// address too, and stores that do not cross one are faster.
fn put_many(buf: &mut [u8], at: usize, bytes: &[u8], from: usize, n: usize) -> usize
    requires { (16 ≤ n) × (from + n ≤ length bytes.now) × (at + n ≤ length buf.old) }
    ensures { record { next = result; buf = buf.new } ≡ put_part buf.old at bytes.now from n }
{
    if n < 160 {
        return put_steps(buf, at, bytes, from, n, 16);
    }
    put_block(buf, at, bytes, from, 16);
    let skip = 16 - at % 16;
    let mut p = at + skip;
    let mut q = from + skip;
    let mut left = n - skip;
    while 144 <= left {
        put_steps(buf, p, bytes, q, 128, 16);
        p += 128;
        q += 128;
        left -= 128;
    }
    put_steps(buf, p, bytes, q, left, 16)
}

// Whether n bytes from a place on stand in a slice of so many, and n from another place on in a buffer of so many.
fn has_room(len: usize, from: usize, room: usize, at: usize, n: usize) -> bool
    ensures { result ≡ roomy len from room at n }
{
    if len < from {
        return false;
    }
    if len - from < n {
        return false;
    }
    if room < at {
        return false;
    }
    if room - at < n {
        return false;
    }
    true
}

// n bytes of a slice, from a place of it on. A part that runs past the slice is not put.
// INLINE: this one stays a call, because more than one function calls it; `put_part` is folded into its callers.
pub fn put_bytes(buf: &mut [u8], at: usize, bytes: &[u8], from: usize, n: usize) -> usize
    ensures { record { next = result; buf = buf.new } ≡ put_part buf.old at bytes.now from n }
{
    if has_room(bytes.len(), from, buf.len(), at, n) {
        if n <= 32 {
            return put_few(buf, at, bytes, from, n);
        }
        return put_many(buf, at, bytes, from, n);
    }
    at
}

// The same for a part that is mostly short.
pub fn put_part(buf: &mut [u8], at: usize, bytes: &[u8], from: usize, n: usize) -> usize
    ensures { record { next = result; buf = buf.new } ≡ put_part buf.old at bytes.now from n }
{
    if 32 < n {
        return put_bytes(buf, at, bytes, from, n);
    }
    if has_room(bytes.len(), from, buf.len(), at, n) {
        return put_few(buf, at, bytes, from, n);
    }
    at
}

// A number in so many bytes, lowest first.
pub fn put_fixed(buf: &mut [u8], at: usize, size: usize, n: u64) -> usize
    ensures { record { next = result; buf = buf.new } ≡ put_at buf.old at (fixed size n) }
{
    if buf.len() < size {
        return at;
    }
    if buf.len() - size < at {
        return at;
    }
    let mut p = at;
    let mut x = n;
    let mut left = size;
    while 0 < left {
        buf[p] = (x % 256) as u8;
        x = x / 256;
        p += 1;
        left -= 1;
    }
    p
}
