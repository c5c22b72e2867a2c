// The only field of a tag, looked up through an index: only the fields that the index counts of the tag are read.
#![tactic(auto)]

ghost use Rattle.std.specs.Prelude.{◌≡◌, ◌-◌, ◌*◌, ◌≤◌, length};
ghost use Rattle.index.specs.Index.{entry, index_words, entries_from};
ghost use Rattle.index_pick.specs.Looked.{follow_from, only_one, look_at, lookup, pick_indexed};

use entry_answer::{Gated, Picked};
use wire::{Field, KeyFound, Refusal, Value, ValueFound};

// Whether all fields that were counted stand there, or why not.
#[derive(Clone, Copy)]
pub enum Followed {
    All,
    Refused(Refusal),
}

// The fields of a tag behind the first one, as many as are counted with it. A message that ends before, and a key of another tag, whose value is
// not read, mean that the index is not of this message.
fn follow(s: &[u8], at: usize, tag: u32, count: u64) -> Followed
    ensures { result ≡ follow_from (count - 1) s.now tag at }
{
    let mut p = at;
    let mut left = count;
    while 1 < left {
        if s.len() <= p {
            return Followed::Refused(Refusal::BadIndex);
        }
        match field_key::decode_key(s, p, s.len(), tag) {
            KeyFound::Refused(r) => {
                return Followed::Refused(r);
            }
            KeyFound::Got(key, q) => {
                if key.tag != tag {
                    return Followed::Refused(Refusal::BadIndex);
                }
                let wire = key.wire;
                match field_value::decode_value(s, q, s.len(), wire) {
                    ValueFound::Refused(why) => {
                        return Followed::Refused(why);
                    }
                    ValueFound::Got(_, next) => {
                        p = next;
                    }
                }
            }
        }
        left -= 1;
    }
    Followed::All
}

// The value that was found, as the field of the tag that was asked for, if it is the only one.
fn alone(tag: u32, v: Value, count: u64, f: Followed) -> Picked
    ensures { result ≡ only_one tag count v f }
{
    match f {
        Followed::Refused(why) => Picked::Refused(why),
        Followed::All => {
            if count == 1 {
                return Picked::Found(Field { tag: tag, value: v });
            }
            Picked::Refused(Refusal::Repeated)
        }
    }
}

// The field at the place of an entry, behind tag 0, if it is the only one; Repeated where more are counted and stand there.
fn look(s: &[u8], tag: u32, place: usize, count: u64) -> Picked
    ensures { result ≡ look_at s.now tag (entry tag place count) }
{
    match field_key::decode_key(s, place, s.len(), 0) {
        KeyFound::Refused(r) => Picked::Refused(r),
        KeyFound::Got(key, q) => {
            let wire = key.wire;
            match field_value::decode_value(s, q, s.len(), wire) {
                ValueFound::Refused(why) => Picked::Refused(why),
                ValueFound::Got(v, next) => alone(tag, v, count, follow(s, next, key.tag, count)),
            }
        }
    }
}

// The entry of a tag, and the field that it speaks of.
fn find(s: &[u8], index: &[u64], tags: usize, tag: u32) -> Picked
    requires { index_words * tags ≤ length index.now }
    ensures { result ≡ lookup s.now tag (entries_from tags index.now 0) }
{
    let mut n: usize = 0;
    let mut i: usize = 0;
    while n < tags {
        if index[i] == tag as u64 {
            return look(s, tag, index[i + 1] as usize, index[i + 2]);
        }
        n += 1;
        i += index::INDEX_WORDS;
    }
    Picked::Absent
}

// The only field of a tag, through an index: BadIndex where the index may not be used, or is found not to be of this message.
pub fn pick_indexed(s: &[u8], index: &[u64], tags: usize, tag: u32) -> Picked
    ensures { result ≡ pick_indexed s.now index.now tags tag }
{
    if !index::sound(index, tags, s.len() as u64, 0xffff_ffff_ffff_ffff) {
        return Picked::Refused(Refusal::BadIndex);
    }
    if let Gated::Shut(r) = entry_answer::gate(s.len(), 0, s.len()) {
        return Picked::Refused(r);
    }
    find(s, index, tags, tag)
}
