// A line of the list: its letter and its words.

// The words of a line, or of an answer: a line has at most 4,096 characters, and a word takes two. So no line has this many, and as the number
// of words asked it stands for none yet.
pub(crate) const WORDS: usize = 2_048;

// As the number of words asked: the line is not in the form.
pub(crate) const BAD: usize = 2_049;

pub(crate) type Words = [u64; WORDS];

// A case: its letter, its words, and how many of them are asked.
#[derive(Clone, Copy)]
pub(crate) struct Case {
    pub(crate) letter: u8,
    pub(crate) asked: usize,
    pub(crate) words: usize,
}

// What a line is: a title; a letter that sets something, and its words; a case; none of these.
#[derive(Clone, Copy)]
pub(crate) enum Form {
    Title,
    Sets(u8, usize),
    Asks(Case),
    Bad,
}

// A number, and the place after it.
#[derive(Clone, Copy)]
pub(crate) struct Word {
    pub(crate) value: u64,
    pub(crate) next: usize,
}

pub(crate) fn wide(b: u8) -> u64 {
    b as u64
}

// What a character is worth as a digit; 16 where it is none.
pub(crate) fn digit(c: u8) -> u64 {
    match c {
        b'0'..=b'9' => wide(c - b'0'),
        b'A'..=b'F' => wide(c - b'A' + 10),
        _ => 16,
    }
}

// The number at a place, and the place after it; the place given where no number of 64 bits stands there.
pub(crate) fn word_at(text: &[u8], at: usize) -> Word {
    let mut value: u64 = 0;
    let mut i = at;
    while i < text.len() {
        let d = digit(text[i]);
        if 15 < d {
            break;
        }
        if 0x0fff_ffff_ffff_ffff < value {
            return Word { value: 0, next: at };
        }
        value = value * 16 + d;
        i += 1;
    }
    Word {
        value: value,
        next: i,
    }
}

// How many words are asked, after one more separator: the words so far at the first ':', WORDS before it, BAD at any other character.
pub(crate) fn asked_with(c: u8, asked: usize, words: usize) -> usize {
    if c == b' ' {
        return asked;
    }
    if c == b':' {
        if asked == WORDS {
            return words;
        }
    }
    BAD
}

pub(crate) fn form_of(text: &[u8], words: &mut Words) -> Form {
    if text.len() < 1 {
        return Form::Bad;
    }
    let letter = text[0];
    if letter == b'#' {
        return Form::Title;
    }
    let mut at: usize = 1;
    let mut n: usize = 0;
    let mut asked: usize = WORDS;
    while at < text.len() {
        let w = word_at(text, at + 1);
        let next = w.next;
        asked = asked_with(text[at], asked, n);
        if next <= at + 1 {
            return Form::Bad;
        }
        if WORDS < asked {
            return Form::Bad;
        }
        if WORDS <= n {
            return Form::Bad;
        }
        words[n] = w.value;
        n += 1;
        at = next;
    }
    if asked == WORDS {
        return Form::Sets(letter, n);
    }
    Form::Asks(Case {
        letter: letter,
        asked: asked,
        words: n,
    })
}

// A word of a line or an answer; 0 behind its end, where none is asked for.
pub(crate) fn word_of(words: &Words, i: usize) -> u64 {
    if i < WORDS { words[i] } else { 0 }
}
