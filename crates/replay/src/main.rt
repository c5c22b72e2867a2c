// The program `replay`: the fixed list of the oracle's answers, asked of the entries as C is handed them. It prints each case that is answered
// otherwise, and last how many there were and how many differ. oracle/README.md has the list's form.
#![tactic(auto)]

mod fields;
mod lent;
mod letter;
mod line;
mod messages;

use fields::{ask_field, ask_number, ask_put, ask_varint};
use lent::Copies;
use line::{BAD, Case, Form, WORDS, Words};
use messages::{ask_insert, ask_payload, ask_pick, ask_read, ask_write};
use std::fs::File;
use std::io;
use std::process::ExitCode;

const LIST: &str = "list";

const SOURCE_ROOM: usize = 1_048_576;

const TABLE_ROOM: usize = 163_840;

// The longest buffer that a message is written into.
const BUFFER_ROOM: usize = 1_048_640;

// The line that is being read, what the lines so far have set, and the counts.
#[derive(Clone, Copy)]
struct State {
    chars: usize,
    line: u64,
    source: usize,
    table: usize,
    cases: u64,
    differ: u64,
}

fn counted_on(n: u64) -> u64 {
    if n < u64::MAX { n + 1 } else { n }
}

impl State {
    fn start() -> State {
        State {
            chars: 0,
            line: 1,
            source: 0,
            table: 0,
            cases: 0,
            differ: 0,
        }
    }

    fn at_char(mut self, n: usize) -> State {
        self.chars = n;
        self
    }

    fn next_line(mut self) -> State {
        let n = counted_on(self.line);
        self.line = n;
        self.chars = 0;
        self
    }

    fn with_source(mut self, n: usize) -> State {
        self.source = n;
        self
    }

    fn with_table(mut self, n: usize) -> State {
        self.table = n;
        self
    }

    fn right(mut self) -> State {
        let n = counted_on(self.cases);
        self.cases = n;
        self
    }

    fn wrong(mut self) -> State {
        let n = counted_on(self.cases);
        let d = counted_on(self.differ);
        self.cases = n;
        self.differ = d;
        self
    }
}

fn set_lent(
    rt: &HostRuntime,
    text: &[u8],
    letter: u8,
    n: usize,
    words: &Words,
    source: &mut [u8],
    table: &mut [u64],
    st: State,
) -> State {
    match letter {
        letter::SOURCE => st.with_source(lent::put_bytes(words, Copies::of(0, n, 1), source, 0)),
        letter::MORE_SOURCE => {
            let from = st.source;
            st.with_source(lent::put_bytes(words, Copies::of(1, n, words[0]), source, from))
        }
        letter::TABLE => st.with_table(lent::put_words(words, Copies::of(0, n, 1), table, 0)),
        letter::MORE_TABLE => {
            let from = st.table;
            st.with_table(lent::put_words(words, Copies::of(1, n, words[0]), table, from))
        }
        _ => not_a_line(rt, text, st),
    }
}

// How many words each letter asks.
fn asked_by(letter: u8) -> usize {
    match letter {
        letter::DECODE_VARINT
        | letter::PICK
        | letter::ENCODED_LEN_VARINT
        | letter::TO_SIGNED
        | letter::ENCODE_NO_BUFFER => 1,
        letter::DECODE_VARINT_CAPPED
        | letter::ENCODE_VARINT
        | letter::PREPEND_VARINT
        | letter::TO_UNSIGNED
        | letter::KEY_LEN
        | letter::ENCODE_MESSAGE
        | letter::PREPEND_MESSAGE
        | letter::ENCODE_MESSAGE_SUM
        | letter::PREPEND_MESSAGE_SUM => 2,
        letter::DECODE_KEY
        | letter::DECODE_VALUE
        | letter::SKIP_FIELD
        | letter::STEP_AT
        | letter::READ_MESSAGE
        | letter::READ_MESSAGE_SUM => 3,
        letter::ENCODE_KEY | letter::PREPEND_KEY => 4,
        letter::PAYLOAD_OF | letter::INSERT => 5,
        letter::READ_PAYLOAD => 6,
        _ => BAD,
    }
}

// The words of the table from this case on: those that it has, or those that a read is lent.
fn table_for(letter: u8, words: &Words, now: usize) -> usize {
    match letter {
        letter::READ_MESSAGE | letter::READ_MESSAGE_SUM => words[2] as usize,
        letter::READ_PAYLOAD => words[5] as usize,
        _ => now,
    }
}

fn answer(
    letter: u8,
    s: &[u8],
    table: &mut [u64],
    buf: &mut [u8],
    words: &Words,
    ours: &mut Words,
) -> usize {
    match letter {
        letter::DECODE_VARINT | letter::DECODE_VARINT_CAPPED => ask_varint(letter, s, words, ours),
        letter::ENCODED_LEN_VARINT | letter::TO_UNSIGNED | letter::TO_SIGNED | letter::KEY_LEN =>
            ask_number(letter, words, ours),
        letter::DECODE_KEY | letter::DECODE_VALUE | letter::SKIP_FIELD | letter::STEP_AT =>
            ask_field(letter, s, words, ours),
        letter::ENCODE_VARINT | letter::PREPEND_VARINT => ask_put(letter, words[1], words, ours),
        letter::ENCODE_KEY | letter::PREPEND_KEY => ask_put(letter, words[3], words, ours),
        letter::READ_MESSAGE | letter::READ_MESSAGE_SUM | letter::READ_PAYLOAD => ask_read(
            letter, s, table, words, ours,
        ),
        letter::ENCODE_MESSAGE
        | letter::PREPEND_MESSAGE
        | letter::ENCODE_MESSAGE_SUM
        | letter::PREPEND_MESSAGE_SUM
        | letter::ENCODE_NO_BUFFER => ask_write(letter, s, table, words, buf, ours),
        letter::INSERT => ask_insert(s, table, words, ours),
        letter::PAYLOAD_OF => ask_payload(s, words, ours),
        _ => ask_pick(s, words, ours),
    }
}

// Whether the list's words behind those that are asked are ours.
fn same(words: &Words, asked: usize, end: usize, ours: &Words, n: usize) -> bool {
    let mut i = asked;
    let mut k = 0;
    while i < end {
        if n <= k {
            return false;
        }
        if line::word_of(words, i) != line::word_of(ours, k) {
            return false;
        }
        i += 1;
        k += 1;
    }
    k == n
}

fn print(rt: &HostRuntime, text: &[u8]) {
    let _ = stream::write_all(&mut rt.stdout(), text);
}

// A line of the list that was answered otherwise: its number, the line, and our words.
fn print_difference(rt: &HostRuntime, line: u64, text: &[u8], ours: &Words, n: usize) {
    let _ = print!(rt; "{line}: ");
    print(rt, text);
    print(rt, b" ours");
    print_words(rt, ours, n);
    print(rt, b"\n");
}

fn print_word(rt: &HostRuntime, w: u64) {
    let _ = print!(rt; " {w:x}");
}

fn print_words(rt: &HostRuntime, ours: &Words, n: usize) {
    for i in 0..n {
        print_word(rt, line::word_of(ours, i));
    }
}

fn not_a_line(rt: &HostRuntime, text: &[u8], st: State) -> State {
    let ours: Words = [0; WORDS];
    print_difference(rt, st.line, text, &ours, 0);
    st.wrong()
}

fn ask_case(
    rt: &HostRuntime,
    text: &[u8],
    c: Case,
    words: &Words,
    source: &[u8],
    table: &mut [u64],
    buf: &mut [u8],
    st: State,
) -> State {
    let mut ours: Words = [0; WORDS];
    let letter = c.letter;
    let s = st.source;
    let t = table_for(letter, words, st.table);
    if c.asked != asked_by(letter) {
        return not_a_line(rt, text, st);
    }
    if source.len() < s {
        return not_a_line(rt, text, st);
    }
    if table.len() < t {
        return not_a_line(rt, text, st);
    }
    let n = answer(
        letter,
        &source[0..s],
        &mut table[0..t],
        buf,
        words,
        &mut ours,
    );
    let end = c.words;
    let next = st.with_table(t);
    if same(words, c.asked, end, &ours, n) {
        return next.right();
    }
    print_difference(rt, st.line, text, &ours, n);
    next.wrong()
}

fn take_line(
    rt: &HostRuntime,
    text: &[u8],
    source: &mut [u8],
    table: &mut [u64],
    buf: &mut [u8],
    st: State,
) -> State {
    let mut words: Words = [0; WORDS];
    match line::form_of(text, &mut words) {
        Form::Title => st,
        Form::Sets(letter, n) => set_lent(rt, text, letter, n, &words, source, table, st),
        Form::Asks(c) => ask_case(rt, text, c, &words, source, table, buf, st),
        Form::Bad => not_a_line(rt, text, st),
    }
}

// One character of the list: kept, or at a line's end the line is taken. A line that is too long is in no list.
fn feed(
    rt: &HostRuntime,
    line: &mut [u8],
    source: &mut [u8],
    table: &mut [u64],
    buf: &mut [u8],
    st: State,
    c: u8,
) -> State {
    let n = st.chars;
    if c == b'\n' {
        if n <= line.len() {
            return take_line(rt, &line[0..n], source, table, buf, st).next_line();
        }
        return not_a_line(rt, b"a line that is too long", st).next_line();
    }
    if n < line.len() {
        line[n] = c;
        return st.at_char(n + 1);
    }
    st.at_char(usize::MAX)
}

fn feed_all(
    rt: &HostRuntime,
    block: &[u8],
    line: &mut [u8],
    source: &mut [u8],
    table: &mut [u64],
    buf: &mut [u8],
    st: State,
) -> State {
    let mut now = st;
    for c in block {
        now = feed(rt, line, source, table, buf, now, *c);
    }
    now
}

fn replay(rt: &HostRuntime, list: &mut File) -> io::Result<State> {
    let mut line = [0u8; 4096];
    let mut source = [0u8; SOURCE_ROOM];
    let mut table = [0u64; TABLE_ROOM];
    let mut buf = [0u8; BUFFER_ROOM];
    let mut block = [0u8; 4096];
    let mut st = State::start();
    for _ in 0..u64::MAX {
        let n = stream::read_block(list, &mut block)?;
        if n == 0 {
            break;
        }
        st = feed_all(
            rt,
            &block[0..n],
            &mut line,
            &mut source,
            &mut table,
            &mut buf,
            st,
        );
    }
    Ok(st)
}

// Says what failed, in the system's words without their number.
fn say_failed(rt: &HostRuntime, what: &str, e: io::Error) {
    if let Ok(text) = format!(in rt.alloc(); "{e}") {
        let _ = match text.as_str().split_once(" (os error ") {
            Some((words, _)) => eprintln!(rt; "{what}: {words}"),
            None => eprintln!(rt; "{what}: {text}"),
        };
    }
}

fn replay_list(rt: &HostRuntime) -> io::Result<State> {
    let mut list = File::open(rt, LIST)?;
    replay(rt, &mut list)
}

fn print_counts(rt: &HostRuntime, st: State) -> io::Result<()> {
    let cases = st.cases;
    let differ = st.differ;
    println!(rt; "{cases} cases, {differ} differ")
}

fn main(rt: HostRuntime) -> ExitCode {
    let ended = match replay_list(&rt) {
        Ok(st) => print_counts(&rt, st).map_err(|e| ("standard output", e)),
        Err(e) => Err((LIST, e)),
    };
    match ended {
        Ok(()) => ExitCode::SUCCESS,
        Err((what, e)) => {
            say_failed(&rt, what, e);
            ExitCode::FAILURE
        }
    }
}
