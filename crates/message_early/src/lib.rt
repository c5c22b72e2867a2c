// One tag looked for from a message's front: the search stops at the first key above it, whose value is not read.
// Ours: the Rust has no such lookup.
#![tactic(auto)]

ghost use Rattle.std.specs.Prelude.{◌≡◌};
ghost use Rattle.message_early.specs.Early.{sight_at, told_of, stop, early_of};

use wire::{Early, Field, KeyFound, Refusal, Value, ValueFound};

// What stands at a place: a field and the place after it, or a key above the tag, or why there is neither.
#[derive(Clone, Copy)]
enum Sight {
    Field(Field, usize),
    Above,
    Refused(Refusal),
}

fn look(s: &[u8], at: usize, last: u32, tag: u32) -> Sight
    ensures { result ≡ sight_at tag s.now at last }
{
    match field_key::decode_key(s, at, s.len(), last) {
        KeyFound::Refused(r) => Sight::Refused(r),
        KeyFound::Got(k, next) => {
            let t = k.tag;
            let wire = k.wire;
            if tag < t {
                return Sight::Above;
            }
            match field_value::decode_value(s, next, s.len(), wire) {
                ValueFound::Refused(r) => Sight::Refused(r),
                ValueFound::Got(v, q) => Sight::Field(Field { tag: t, value: v }, q),
            }
        }
    }
}

// What is answered of the first field of the tag, where there are so many, after so many keys.
fn tell(found: Field, many: usize, keys: usize) -> Early
    ensures { result ≡ told_of found many keys }
{
    if many == 0 {
        return Early::Absent(keys);
    }
    if many == 1 {
        return Early::Found(found, keys);
    }
    Early::Refused(Refusal::Repeated)
}

// The only field of a tag before the first key above it, and the number of keys that were read.
pub fn find_early(s: &[u8], tag: u32) -> Early
    ensures { result ≡ early_of tag (stop tag s.now) }
{
    let mut p: usize = 0;
    let mut last: u32 = 0;
    let mut keys: usize = 0;
    let mut many: usize = 0;
    let mut found = Field {
        tag: 0,
        value: Value::Varint(0),
    };
    while p < s.len() {
        match look(s, p, last, tag) {
            Sight::Refused(r) => {
                return Early::Refused(r);
            }
            Sight::Above => {
                return tell(found, many, keys + 1);
            }
            Sight::Field(f, next) => {
                p = next;
                last = f.tag;
                keys += 1;
                if last != tag {
                    continue;
                }
                if many == 0 {
                    found = f;
                }
                many += 1;
            }
        }
    }
    tell(found, many, keys)
}
