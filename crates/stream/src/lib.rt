// What the programs share: files read in blocks one after the other, text written out, counts said, and how a run ended.
// A call that a signal interrupts is made again, and a write that takes a part goes on after it.
#![tactic(auto)]

ghost use Rattle.std.specs.Prelude.{◌≡◌, ◌≢◌, ◌≤◌, ◌<◌, ◌+◌, length, take, drop, map, slice_set, slice_index_or, false, Ok, IfOk, IfErr, OnOk, OnErr};
ghost use Rattle.std.specs.IoError.{error_kind};
ghost use Rattle.std.specs.Io.{ReadsAtMost, WritesAtMost};
ghost use Rattle.std.specs.Io.KnownBytes.{Keeps, Consumes, Appends, WriteAppends, IsAtEnd};
ghost use Rattle.stream.specs.Inputs.{kind_of, brings_the_standard_input, IsWithin};
ghost use Rattle.stream.specs.Stops.{status_of, IsStopFor};

use std::env::{Env, FillError};
use std::fs::{File, OpenOptions};
use std::io::{ErrorKind, Read, Write};
use std::os::fd::AsFd;
use std::rt::Files;
use std::{array, fs, io, str};
use stream_orders::{Argument, Fault, Orders};

// What a read brought: so many bytes; a file's end; the end of the last file.
#[derive(Clone, Copy, Debug, PartialEq, Eq)]
pub enum Got {
    Bytes(usize),
    FileEnd,
    End,
}

// Why a program ends before all is done: something could not be opened, read or written; the arguments are refused; nobody reads the output any more; a
// buffer has no room for a line. What there is to say of it was said.
#[derive(Clone, Copy, Debug, PartialEq, Eq)]
pub enum Stop {
    Failed,
    Refused,
    Unread,
    NoRoom,
}

impl Stop {
    // The status that the program ends with. The runtime ignores SIGPIPE, so a program has to end by itself, with the status of that signal.
    pub fn status(self) -> u8
        ensures { result ≡ status_of self }
    {
        match self {
            Stop::Failed => 1,
            Stop::Refused => 2,
            Stop::Unread => 141,
            Stop::NoRoom => 1,
        }
    }
}

// The status of a program whose run ended so.
pub fn status_of(done: Result<(), Stop>) -> u8
    ensures whole { OnOk done (result ≡ 0) }
    ensures failed { IfErr done (λ stop. result ≡ status_of stop) }
{
    match done {
        Ok(()) => 0,
        Err(stop) => stop.status(),
    }
}

// A text that was not written whole: how much of it was, and why no more.
#[derive(Clone, Copy)]
pub struct Unwritten {
    pub n: usize,
    pub error: io::Error,
}

impl From<Unwritten> for Stop {
    ghost from_gives = { λ w stop. IsStopFor (error_kind w.error) stop };

    fn from(w: Unwritten) -> Stop {
        if w.error.kind() == ErrorKind::BrokenPipe {
            Stop::Unread
        } else {
            Stop::Failed
        }
    }
}

// What an argument brings: nothing, an open file, the standard input, or the standard input once more, which is closed by then. A file is closed where it is
// dropped. `Nothing` is a variant, since an `Option<Input>` takes 12 bytes where an `Input` takes 8: a list of all arguments would take 16 KiB more of the stack.
#[derive(Drop)]
pub enum Input {
    Nothing,
    Named(File),
    Standard,
    Closed,
}

// The most arguments, the program's name among them.
pub const ARGUMENTS: usize = 4_096;

// What each argument brings, and the argument whose file is read.
#[derive(Drop)]
pub struct Inputs {
    pub files: [Input; ARGUMENTS],
    pub at: usize,
}

// A program: its runtime, its name, and whether it has editions, which soundings have. Bytes that are no text go to the standard error as they are, and the
// standard input is read in blocks: std has both for a `HostRuntime` alone.
#[derive(Clone, Copy)]
pub struct Program<'a> {
    pub rt: &'a HostRuntime,
    pub name: &'a [u8],
    pub editions: bool,
}

// The file of descriptor 3, to which a status is written.
const STATUS_FILE: &str = "/dev/fd/3";

// The file of the standard output.
const OUTPUT_FILE: &str = "/dev/fd/1";

// The longest name of a file; the longest text before a reason, which is the program's name and what failed; and the longest line that has a reason.
const NAME: usize = 4_096;

const LABEL: usize = 4_224;

const LINE: usize = 4_608;

// Room for the system's reason, or for another part of a message that is put together before it is written.
const PART: usize = 256;

// The system's reasons for a descriptor that is closed and for a name that is too long.
const EBADF: i32 = 9;

const ENAMETOOLONG: i32 = 36;

// ---- arguments

// How many arguments there are, the program's name among them.
fn argument_count(rt: &impl Env) -> usize {
    let mut word = [0u8; NAME];
    // Every loop has an end; no run comes to this one's.
    for i in 0..usize::MAX {
        if let Err(FillError::NotPresent) = rt.arg(i, &mut word) {
            return i;
        }
    }
    usize::MAX
}

// What an argument is, after those that ask for so much. One that is longer than any option is a name, and no edition and no grade.
fn argument_at(rt: &impl Env, i: usize, o: Orders) -> Option<Argument> {
    let mut word = [0u8; NAME];
    match rt.arg(i, &mut word) {
        Ok(n) => stream_orders::argument_of(&word[..n], o.names, o.wants),
        Err(_) if o.wants.is_none() => Some(Argument::File),
        Err(_) => None,
    }
}

// ---- what is said

// What failed: a file, by its argument, or a standard stream.
#[derive(Clone, Copy)]
enum Failing {
    Named(usize),
    Input,
    Output,
}

// A line that is said at once.
type Line = io::Cursor<[u8; LINE]>;

// The name is put into the line's own room, and needs no other.
fn put_name(rt: &impl Env, line: &mut Line, i: usize) -> io::Result<()> {
    let at = LABEL.min(line.position() as usize);
    match rt.arg(i, &mut line.get_mut()[at..LABEL]) {
        Ok(n) => {
            line.set_position(line.position().max((at + n) as u64));
            Ok(())
        }
        Err(_) => line.write_all(b"an argument"),
    }
}

fn put_failing(rt: &impl Env, line: &mut Line, what: Failing) -> io::Result<()> {
    match what {
        Failing::Named(i) => put_name(rt, line, i),
        Failing::Input => line.write_all(b"standard input"),
        Failing::Output => line.write_all(b"standard output"),
    }
}

// The system's reason, without its number at the end. It is written without the heap, so none is lost where memory is short.
fn put_reason(line: &mut Line, e: io::Error) -> io::Result<()> {
    let mut reason = io::Cursor::new([0u8; PART]);
    let _ = write!(reason, "{e}");
    let text = str::from_utf8(written(&reason)).unwrap_or("");
    match text.split_once(" (os error ") {
        Some((words, _)) => line.write_all(words.as_bytes()),
        None => line.write_all(text.as_bytes()),
    }
}

// What was written into a cursor's room.
fn written<const N: usize>(cursor: &io::Cursor<[u8; N]>) -> &[u8] {
    let room = cursor.get_ref();
    &room[..N.min(cursor.position() as usize)]
}

// Writes the exit status to descriptor 3, where the arguments ask for that. What others wrote to its file is kept.
fn tell(rt: &impl Files, status: bool, digit: &[u8]) {
    if status {
        if let Ok(mut held) = OpenOptions::new().append(true).open(rt, STATUS_FILE) {
            let _ = write_all(&mut held, digit);
        }
    }
}

// ---- reading

// One read, made again where it was interrupted.
pub fn read_block<R: Read>(reader: &mut R, block: &mut [u8]) -> io::Result<usize>
    ensures same_length { length block.new ≡ length block.old }
    ensures inside { ReadsAtMost result block.new }
    ensures bytes { IfOk result (λ n. Consumes (R.remaining reader.old) (R.remaining reader.new) (take n block.new)) }
    ensures end { IfOk result (λ n. n ≡ 0 → 0 < length block.old → IsAtEnd (R.remaining reader.new)) }
    ensures kept { OnErr result (Keeps (R.remaining reader.old) (R.remaining reader.new)) }
    ensures again { IfErr result (λ e. error_kind e ≢ ErrorKind.Interrupted) }
{
    // Every loop has an end; no run comes to this one's.
    for _ in 0..u64::MAX {
        match reader.read(block) {
            Ok(n) => return Ok(n),
            Err(e) => {
                if e.kind() != ErrorKind::Interrupted {
                    return Err(e);
                }
            }
        }
    }
    Err(io::Error::from(ErrorKind::TimedOut))
}

fn read_input(rt: &HostRuntime, input: &mut Input, block: &mut [u8]) -> io::Result<usize>
    ensures inside { ReadsAtMost result block.new }
    ensures kind { kind_of input.new ≡ kind_of input.old }
{
    match input {
        Input::Nothing => Ok(0),
        Input::Named(file) => read_block(file, block),
        Input::Standard => read_block(&mut rt.stdin(), block),
        Input::Closed => Err(io::Error::from_raw_os_error(EBADF)),
    }
}

// The first argument from one on that brings an input; as many as there are where none does.
fn next_file(files: &[Input], from: usize) -> usize {
    for i in from..files.len() {
        if !matches!(files[i], Input::Nothing) {
            return i;
        }
    }
    files.len()
}

// What a failure of an argument's input is called.
fn failing_at(input: &Input, i: usize) -> Failing {
    match input {
        Input::Standard | Input::Closed => Failing::Input,
        _ => Failing::Named(i),
    }
}

// The next block of the files, from the argument `at` on, which becomes the argument whose file was read: the bytes that one read brings, or that the file is
// at its end. What the other arguments bring stays as it is. This one brings the same kind of input as before, and nothing once its file is at its end.
pub fn next_block(
    program: &Program,
    files: &mut [Input],
    at: &mut usize,
    block: &mut [u8],
) -> Result<Got, Stop>
    ensures inside { IfOk result (IsWithin (length block.new)) }
    ensures failed { IfErr result (λ stop. stop ≡ Stop.Failed) }
    ensures same_length { length files.new ≡ length files.old }
    ensures before { take at.new files.new ≡ take at.new files.old }
    ensures after { drop (at.new + 1) files.new ≡ drop (at.new + 1) files.old }
    ensures kinds { result ≢ Ok Got.FileEnd → map kind_of files.new ≡ map kind_of files.old }
    ensures gone { result ≡ Ok Got.FileEnd → files.new ≡ slice_set files.old at.new Input.Nothing }
{
    let i = next_file(files, *at);
    *at = i;
    if files.len() <= i {
        return Ok(Got::End);
    }
    match read_input(program.rt, &mut files[i], block) {
        Err(e) => {
            program.say_failed(failing_at(&files[i], i), e);
            Err(Stop::Failed)
        }
        Ok(0) => {
            files[i] = Input::Nothing;
            Ok(Got::FileEnd)
        }
        Ok(n) => Ok(Got::Bytes(n)),
    }
}

impl Inputs {
    // No argument brings anything yet.
    pub fn new() -> Inputs
        ensures first { result.at ≡ 0 }
        ensures room { 4096 ≡ length result.files }
    {
        Inputs {
            files: array::from_fn(|_| Input::Nothing),
            at: 0,
        }
    }

    // The next block of these inputs.
    pub fn next_block(&mut self, program: &Program, block: &mut [u8]) -> Result<Got, Stop>
        ensures inside { IfOk result (IsWithin (length block.new)) }
        ensures failed { IfErr result (λ stop. stop ≡ Stop.Failed) }
        ensures same_length { length self.new.files ≡ length self.old.files }
        ensures before { take self.new.at self.new.files ≡ take self.new.at self.old.files }
        ensures after { drop (self.new.at + 1) self.new.files ≡ drop (self.new.at + 1) self.old.files }
        ensures kinds { result ≢ Ok Got.FileEnd → map kind_of self.new.files ≡ map kind_of self.old.files }
        ensures gone { result ≡ Ok Got.FileEnd → self.new.files ≡ slice_set self.old.files self.new.at Input.Nothing }
    {
        next_block(program, &mut self.files, &mut self.at, block)
    }
}

// ---- writing

// One write, made again where it was interrupted.
fn write_some<W: Write>(writer: &mut W, text: &[u8]) -> io::Result<usize>
    ensures inside { WritesAtMost result text.now }
    ensures bytes { WriteAppends (W.contents writer.old) (W.contents writer.new) result text.now }
    ensures again { IfErr result (λ e. error_kind e ≢ ErrorKind.Interrupted) }
{
    // Every loop has an end; no run comes to this one's.
    for _ in 0..u64::MAX {
        match writer.write(text) {
            Ok(n) => return Ok(n),
            Err(e) => {
                if e.kind() != ErrorKind::Interrupted {
                    return Err(e);
                }
            }
        }
    }
    Err(io::Error::from(ErrorKind::TimedOut))
}

// Writes a text, as much of it as the writer takes.
pub fn write_all<W: Write>(writer: &mut W, text: &[u8]) -> Result<(), Unwritten>
    ensures whole { OnOk result (Appends (W.contents writer.old) (W.contents writer.new) text.now) }
    ensures part { IfErr result (λ w. w.n ≤ length text.now) }
    ensures bytes { IfErr result (λ w. Appends (W.contents writer.old) (W.contents writer.new) (take w.n text.now)) }
    ensures again { IfErr result (λ w. error_kind w.error ≢ ErrorKind.Interrupted) }
{
    let mut at = 0;
    // A writer takes as much as it likes, so no `for`.
    while at < text.len() {
        match write_some(writer, &text[at..]) {
            Ok(0) => {
                return Err(Unwritten {
                    n: at,
                    error: io::Error::from(ErrorKind::WriteZero),
                });
            }
            Ok(n) => at += n,
            Err(error) => return Err(Unwritten { n: at, error }),
        }
    }
    Ok(())
}

// ---- a run

// std opens a file by a name that is text.
fn open_file(rt: &impl Files<File = File>, name: &[u8]) -> io::Result<File> {
    match str::from_utf8(name) {
        Ok(path) => File::open(rt, path),
        Err(_) => Err(io::Error::new(
            ErrorKind::InvalidFilename,
            "the name of a file has to be UTF-8",
        )),
    }
}

fn open_named(rt: &(impl Env + Files<File = File>), i: usize) -> io::Result<File> {
    let mut word = [0u8; NAME];
    match rt.arg(i, &mut word) {
        Ok(n) => open_file(rt, &word[..n]),
        Err(_) => Err(io::Error::from_raw_os_error(ENAMETOOLONG)),
    }
}

// What an argument brings; its file is opened. The standard input is read once: where an argument before this one named it, it is closed.
fn input_for(
    rt: &(impl Env + Files<File = File>),
    i: usize,
    a: Argument,
    named_before: bool,
) -> io::Result<Input> {
    match a {
        Argument::File => Ok(Input::Named(open_named(rt, i)?)),
        Argument::Input if named_before => Ok(Input::Closed),
        Argument::Input => Ok(Input::Standard),
        _ => Ok(Input::Nothing),
    }
}

impl<'a> Program<'a> {
    // Each part of what is said is written by itself: where one does not fit, a later one may.
    fn say(&self, text: &[u8]) {
        let _ = write_all(&mut self.rt.stderr(), text);
    }

    // Says in one line what failed, and the system's reason.
    fn say_failed(&self, what: Failing, e: io::Error) {
        let mut line = io::Cursor::new([0u8; LINE]);
        let _ = self.put_failed(&mut line, what, e);
        self.say(written(&line));
    }

    fn put_failed(&self, line: &mut Line, what: Failing, e: io::Error) -> io::Result<()> {
        line.write_all(self.name)?;
        line.write_all(b": ")?;
        put_failing(self.rt, line, what)?;
        line.write_all(b": ")?;
        put_reason(line, e)?;
        line.write_all(b"\n")
    }

    // Ends what is said of arguments that are refused: how the program is called, and the status.
    fn refuse(&self, status: bool) -> Stop
        ensures { result ≡ Stop.Refused }
    {
        self.say(b"\nusage: ");
        self.say(self.name);
        self.say(b" [--count]");
        if self.editions {
            self.say(b" [--edition 1|2] [--least canonical|extensions|any]");
        }
        self.say(b" [FILE..]\n");
        tell(self.rt, status, b"2");
        Stop::Refused
    }

    // Says what option, edition or grade there is not.
    fn refuse_word(&self, i: usize, o: Orders) -> Stop
        ensures { result ≡ Stop.Refused }
    {
        let mut word = [0u8; NAME];
        let mut part = io::Cursor::new([0u8; PART]);
        let _ = match o.wants {
            None => write!(part, ": there is no option "),
            Some(wanted) => write!(part, ": there is no {wanted} "),
        };
        self.say(self.name);
        self.say(written(&part));
        if let Ok(n) = self.rt.arg(i, &mut word) {
            self.say(&word[..n]);
        }
        self.refuse(o.status)
    }

    // Says what is wrong with the arguments together.
    fn refuse_all(&self, fault: Fault, o: Orders) -> Stop
        ensures { result ≡ Stop.Refused }
    {
        let mut part = io::Cursor::new([0u8; PART]);
        let _ = write!(part, ": {fault}");
        self.say(self.name);
        self.say(written(&part));
        self.refuse(o.status)
    }

    // Says why a program ends.
    fn say_why(&self, why: &[u8], stop: Stop) -> Stop
        ensures { result ≡ stop }
    {
        self.say(self.name);
        self.say(why);
        stop
    }

    // Says that there are more arguments than there is room for.
    fn refuse_number(&self) -> Stop
        ensures { result ≡ Stop.Failed }
    {
        self.say_why(b": there are too many arguments\n", Stop::Failed)
    }

    // Says that a buffer has no room for a line.
    pub fn no_room(&self) -> Stop
        ensures { result ≡ Stop.NoRoom }
    {
        self.say_why(b": there is no room for a line\n", Stop::NoRoom)
    }

    // What an argument is; none where the program has no such option. Editions are for programs that print soundings.
    fn argument_at(&self, i: usize, o: Orders) -> Option<Argument> {
        match argument_at(self.rt, i, o) {
            Some(Argument::Edition | Argument::Least) if !self.editions => None,
            found => found,
        }
    }

    // What so many arguments ask for.
    fn read_orders(&self, count: usize) -> Result<Orders, Stop>
        ensures { IfErr result (λ stop. stop ≡ Stop.Refused) }
    {
        let mut o = Orders::new();
        for i in 1..count {
            match self.argument_at(i, o) {
                Some(a) => o = o.with(a),
                None => return Err(self.refuse_word(i, o)),
            }
        }
        match o.check() {
            Ok(()) => Ok(o),
            Err(fault) => Err(self.refuse_all(fault, o)),
        }
    }

    // Opens every file that so many arguments name. Without one the standard input is read, in the place of the program's name.
    fn open_files(&self, files: &mut [Input], count: usize, named: bool) -> Result<(), Stop>
        requires { count ≤ length files.old }
        ensures same_length { length files.new ≡ length files.old }
        ensures failed { IfErr result (λ stop. stop ≡ Stop.Failed) }
        ensures standard { IfOk result (λ _. named ≡ false → kind_of (slice_index_or files.new 0 Input.Nothing) ≡ brings_the_standard_input) }
    {
        let mut o = Orders::new();
        let mut standard = false;
        for i in 1..count {
            if let Some(a) = self.argument_at(i, o) {
                match input_for(self.rt, i, a, standard) {
                    Ok(input) => files[i] = input,
                    Err(e) => {
                        self.say_failed(Failing::Named(i), e);
                        return Err(Stop::Failed);
                    }
                }
                standard = standard || a == Argument::Input;
                o = o.with(a);
            }
        }
        if !named {
            match files.first_mut() {
                Some(first) => *first = Input::Standard,
                None => return Err(Stop::Failed),
            }
        }
        Ok(())
    }

    // Reads the arguments, opens all files into a list in which no argument brings anything yet, and says why there is nothing to do where that fails. Where no
    // file is named the standard input comes first.
    pub fn open(&self, files: &mut [Input]) -> Result<Orders, Stop>
        ensures same_length { length files.new ≡ length files.old }
        ensures failed { IfErr result (λ stop. stop ≢ Stop.Unread) }
        ensures roomy { IfErr result (λ stop. stop ≢ Stop.NoRoom) }
        ensures standard { IfOk result (λ o. o.named ≡ false → kind_of (slice_index_or files.new 0 Input.Nothing) ≡ brings_the_standard_input) }
    {
        let count = argument_count(self.rt);
        let orders = self.read_orders(count)?;
        if files.len() < count {
            return Err(self.refuse_number());
        }
        self.open_files(files, count, orders.named)?;
        Ok(orders)
    }

    // Writes a text to the standard output, and answers its length. A failure is said, but for a pipe that nobody reads any more.
    pub fn write_out(&self, text: &[u8]) -> Result<usize, Unwritten>
        ensures whole { IfOk result (λ n. n ≡ length text.now) }
        ensures part { IfErr result (λ w. w.n ≤ length text.now) }
    {
        match write_all(&mut self.rt.stdout(), text) {
            Ok(()) => Ok(text.len()),
            Err(w) => {
                if w.error.kind() != ErrorKind::BrokenPipe {
                    self.say_failed(Failing::Output, w.error);
                }
                Err(w)
            }
        }
    }

    // Ends a run in which all was read and written: the output is settled, and the status is written to descriptor 3 where the arguments ask for that.
    pub fn finish(&self, status: bool) -> Result<(), Stop>
        ensures { IfErr result (λ stop. stop ≡ Stop.Failed) }
    {
        if let Err(e) = settle_output(self.rt) {
            self.say_failed(Failing::Output, e);
            return Err(Stop::Failed);
        }
        tell(self.rt, status, b"0");
        Ok(())
    }
}

// The output has to be open: a closed descriptor cannot be duplicated. The duplicate is closed after the sync, since closing it could take an error away.
fn settle_output(rt: &HostRuntime) -> io::Result<()> {
    let output = rt.stdout();
    match output.as_fd().try_clone_to_owned() {
        Err(e) if e.raw_os_error() == Some(EBADF) => Err(e),
        _duplicate => sync_output(rt),
    }
}

// What was written to a file has to be on its disk: some file systems report a full disk only then, or when the file is closed. std closes no standard stream,
// so a file that may be opened again is synced.
fn sync_output(rt: &impl Files<File = File>) -> io::Result<()> {
    if is_file_at(rt, OUTPUT_FILE) {
        if let Ok(file) = open_output(rt) {
            return sync(&file);
        }
    }
    Ok(())
}

// The file of the standard output, opened again.
fn open_output(rt: &impl Files<File = File>) -> io::Result<File> {
    match File::open(rt, OUTPUT_FILE) {
        Ok(file) => Ok(file),
        Err(_) => OpenOptions::new().append(true).open(rt, OUTPUT_FILE),
    }
}

// Syncs a file, where its file system can do that.
fn sync(file: &File) -> io::Result<()> {
    match file.sync_data() {
        Err(e) if is_refused(e) => Ok(()),
        done => done,
    }
}

// Whether an error says that a call is not for such a file.
fn is_refused(e: io::Error) -> bool {
    matches!(
        e.kind(),
        ErrorKind::InvalidInput | ErrorKind::Unsupported | ErrorKind::ReadOnlyFilesystem
    )
}

fn is_file_at(rt: &impl Files, path: &str) -> bool {
    fs::metadata(rt, path).is_ok_and(|found| found.is_file())
}

// ---- counting

// Says how many frames were read, and how many of each verdict there were; how many verdicts there were.
pub fn say_counts(rt: &impl Eprint, frames: usize, tally: &[usize]) -> usize
    ensures { result ≤ length tally.now }
{
    let _ = eprintln!(rt; "{frames} frames");
    let mut said = 0;
    for v in 0..tally.len() {
        said += say_verdict(rt, v, tally[v]);
    }
    said
}

// A line in the words of the dump, where there is a frame; 1 if there is.
fn say_verdict(rt: &impl Eprint, v: usize, n: usize) -> usize
    ensures { result ≤ 1 }
{
    if n < 1 {
        return 0;
    }
    let _ = match v {
        0 => eprintln!(rt; "{n} OK"),
        stream_orders::LONG => eprintln!(rt; "{n} LONG"),
        stream_orders::HEX => eprintln!(rt; "{n} HEX"),
        _ => eprintln!(rt; "{n} NO {v}"),
    };
    1
}
