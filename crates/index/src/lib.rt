// An index beside a stored message: a tag, the place of its first key and the number of its fields, three words each. Which of them may be used.
#![tactic(auto)]

ghost use Rattle.std.specs.Prelude.{◌≡◌};
ghost use Rattle.index.specs.Index.{entry, sound_entry, sound_index};

// The words of an entry: the tag, the place of its first key, the number of its fields.
pub const INDEX_WORDS: usize = 3;

// Whether an entry may be used: a tag of a field, not below a least one, a place below a bound, a count that is neither 0 nor above a bound.
fn sound_entry(places: u64, counts: u64, least: u64, tag: u64, place: u64, count: u64) -> bool
    ensures { result ≡ sound_entry places counts least (entry tag place count) }
{
    if tag < least {
        return false;
    }
    if wire::LAST_TAG < tag {
        return false;
    }
    if places <= place {
        return false;
    }
    if count == 0 {
        return false;
    }
    count <= counts
}

// Whether an index may be used: it has room for its tags, each of them is above the one before, and every entry may be used.
pub fn sound(index: &[u64], tags: usize, places: u64, counts: u64) -> bool
    ensures { result ≡ sound_index index.now tags places counts }
{
    if index.len() / INDEX_WORDS < tags {
        return false;
    }
    let mut n: usize = 0;
    let mut i: usize = 0;
    let mut least: u64 = 0;
    while n < tags {
        let tag = index[i];
        if !sound_entry(places, counts, least, tag, index[i + 1], index[i + 2]) {
            return false;
        }
        least = tag + 1;
        n += 1;
        i += INDEX_WORDS;
    }
    true
}
