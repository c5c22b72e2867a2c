// The index of a message, made and compared. The message is read tag by tag.
#![tactic(auto)]

ghost use Rattle.std.specs.Prelude.{◌≡◌, true, ◌∷◌, [], ◌+◌, ◌*◌, ◌≤◌, length, drop};
ghost use Rattle.std.proofs.lemmas.List.Edits.{sets};
ghost use Rattle.index.specs.Index.{index_words};
ghost use Rattle.index_make.specs.Made.{made, tags_of, into_index, Ready, make_index, index_fits, agrees, starts};
ghost use Rattle.index_make.specs.Groups.{group_at, run_from, steps_in};

use entry_answer::{Gated, Indexed};
use wire::{KeyFound, Refusal, ValueFound};

// The fields of one tag that follow one another: how many, and the place after them.
#[derive(Clone, Copy)]
struct Run {
    count: usize,
    next: usize,
}

// The next tag of a message, how many fields it has, and the place after them.
#[derive(Clone, Copy)]
enum Group {
    Of(u32, usize, usize),
    End,
    Refused(Refusal),
}

// The fields of a tag from behind its first one on, up to the first that is not of that tag, or cannot be read.
fn run_of(s: &[u8], at: usize, tag: u32) -> Run
    ensures { result ≡ run_from (steps_in s.now) s.now tag 1 at }
{
    let mut p = at;
    let mut count: usize = 1;
    while p < s.len() {
        match field_key::decode_key(s, p, s.len(), tag) {
            KeyFound::Refused(_) => {
                break;
            }
            KeyFound::Got(key, q) => {
                if key.tag != tag {
                    break;
                }
                let wire = key.wire;
                match field_value::decode_value(s, q, s.len(), wire) {
                    ValueFound::Refused(_) => {
                        break;
                    }
                    ValueFound::Got(_, next) => {
                        count += 1;
                        p = next;
                    }
                }
            }
        }
    }
    Run {
        count: count,
        next: p,
    }
}

// The fields of the next tag. The key behind them is read again for the next group.
// INLINE: keys and values are read here and above, not by field::step_from, which has one caller in the archive and is folded into it; with these as
// callers too it is not, and a step takes 1.3 times the instructions.
fn next_group(s: &[u8], at: usize, last: u32) -> Group
    requires { at ≤ length s.now }
    ensures { result ≡ group_at s.now at last }
{
    if s.len() <= at {
        return Group::End;
    }
    match field_key::decode_key(s, at, s.len(), last) {
        KeyFound::Refused(r) => Group::Refused(r),
        KeyFound::Got(key, q) => {
            let wire = key.wire;
            match field_value::decode_value(s, q, s.len(), wire) {
                ValueFound::Refused(why) => Group::Refused(why),
                ValueFound::Got(_, next) => {
                    let tag = key.tag;
                    let run = run_of(s, next, tag);
                    Group::Of(tag, run.count, run.next)
                }
            }
        }
    }
}

// How many tags a message has, which is read whole.
fn count_tags(s: &[u8]) -> Indexed
    ensures { result ≡ tags_of (made s.now) }
{
    let mut p: usize = 0;
    let mut last: u32 = 0;
    let mut n: usize = 0;
    loop {
        match next_group(s, p, last) {
            Group::Refused(r) => {
                return Indexed::Refused(r);
            }
            Group::End => {
                return Indexed::Tags(n);
            }
            Group::Of(tag, _, next) => {
                p = next;
                last = tag;
                n += 1;
            }
        }
    }
}

// An entry's words from word i on.
fn store(index: &mut [u64], i: usize, tag: u64, place: u64, count: u64)
    requires { i + index_words ≤ length index.old }
    ensures { index.new ≡ sets index.old i (tag ∷ place ∷ count ∷ []) }
{
    index[i] = tag;
    index[i + 1] = place;
    index[i + 2] = count;
}

// The entries of a message that is known to be good and to have room.
fn fill(s: &[u8], index: &mut [u64])
    requires { Ready s.now index.old }
    ensures { index.new ≡ into_index index.old (made s.now) }
{
    let mut p: usize = 0;
    let mut last: u32 = 0;
    let mut i: usize = 0;
    loop {
        match next_group(s, p, last) {
            Group::Refused(_) => {
                return;
            }
            Group::End => {
                return;
            }
            Group::Of(tag, count, next) => {
                store(index, i, tag as u64, p as u64, count as u64);
                p = next;
                last = tag;
                i += index::INDEX_WORDS;
            }
        }
    }
}

// The index of a message, which is read whole first. A refusal leaves the words as they were.
pub fn make_index(s: &[u8], index: &mut [u64]) -> Indexed
    ensures { record { answer = result; index = index.new } ≡ make_index s.now index.old }
{
    if let Gated::Shut(r) = entry_answer::gate(s.len(), 0, s.len()) {
        return Indexed::Refused(r);
    }
    match count_tags(s) {
        Indexed::Refused(r) => Indexed::Refused(r),
        Indexed::Tags(n) => {
            if index.len() / index::INDEX_WORDS < n {
                return Indexed::Refused(Refusal::NoRoom);
            }
            fill(s, index);
            Indexed::Tags(n)
        }
    }
}

// Whether an entry's words stand from word i on.
fn stands(index: &[u64], i: usize, tag: u64, place: u64, count: u64) -> bool
    requires { i + index_words ≤ length index.now }
    ensures { result ≡ starts (tag ∷ place ∷ count ∷ []) (drop i index.now) }
{
    if index[i] != tag {
        return false;
    }
    if index[i + 1] != place {
        return false;
    }
    index[i + 2] == count
}

// Whether the entries of a message are so many, and are the first of an index that has room for so many.
fn agree(s: &[u8], index: &[u64], tags: usize) -> bool
    requires { index_words * tags ≤ length index.now }
    ensures { result ≡ agrees index.now tags (made s.now) }
{
    let mut p: usize = 0;
    let mut last: u32 = 0;
    let mut n: usize = 0;
    let mut i: usize = 0;
    loop {
        match next_group(s, p, last) {
            Group::Refused(_) => {
                return false;
            }
            Group::End => {
                return n == tags;
            }
            Group::Of(tag, count, next) => {
                if n == tags {
                    return false;
                }
                if !stands(index, i, tag as u64, p as u64, count as u64) {
                    return false;
                }
                p = next;
                last = tag;
                n += 1;
                i += index::INDEX_WORDS;
            }
        }
    }
}

// Whether the first tags of an index are the index of a message.
pub fn index_fits(s: &[u8], index: &[u64], tags: usize) -> bool
    ensures { result ≡ index_fits s.now index.now tags }
{
    if let Gated::Shut(_) = entry_answer::gate(s.len(), 0, s.len()) {
        return false;
    }
    if index.len() / index::INDEX_WORDS < tags {
        return false;
    }
    agree(s, index, tags)
}
