// The loop of the programs: all lines of all files are taken from blocks, each is printed as a program prints it, and the text is written out.
#![tactic(auto)]

ghost use Rattle.std.specs.Prelude.{◌≡◌, ◌≢◌, ◌≤◌, ◌<◌, ◌+◌, ◌-◌, ℕ, List, length, IfOk, IfErr, IfSome};
ghost use Rattle.stream_lines.specs.Turns.{memory, Prints, Ends, Turns};
ghost use Rattle.stream_lines.specs.Sizes.{line_size, block_size, verdict_count};

use stream::{Got, Inputs, Program, Stop};
use text_lines::Taken;

// The characters of a line that are kept: as many as the longest frame has.
const CHARACTERS: usize = 4_096;

// The bytes of one read, at most.
const BLOCK: usize = 65_536;

// What a program prints of a line, and what it counts it as. A line is a buffer and how many characters it has; those that the buffer has no room for are
// counted and not kept.
pub trait Printer {
    // What printing leaves: from the text so far and its length, by the line's number, to the text and its length.
    ghost prints: { List ℕ → ℕ → ℕ → List ℕ → ℕ → List ℕ → ℕ → Type 0 };

    // The verdict that a line may have.
    ghost judges: { List ℕ → ℕ → ℕ → Type 0 };

    ghost ROOM: { ℕ };

    // The room in which the text of any line fits.
    const ROOM: usize;

    // Prints a line after the text so far; the text's length.
    fn print(
        &mut self,
        out: &mut [u8],
        used: usize,
        number: usize,
        line: &[u8],
        chars: usize,
    ) -> usize
        ensures inside { used ≤ length out.old → result ≤ length out.new }
        ensures text { prints out.old used number line.now chars out.new result };

    fn verdict(&mut self, line: &[u8], chars: usize) -> usize
        ensures { judges line.now chars result };
}

// How far a program is: a place in the block, the characters of the line that is not ended yet and its number, and how much text waits.
#[derive(Clone, Copy)]
struct State {
    at: usize,
    chars: usize,
    number: usize,
    used: usize,
}

// The line that is not ended yet, how lines are printed, and the frames of each verdict where they are counted.
#[derive(Drop)]
struct Lines<P: Printer> {
    line: [u8; CHARACTERS],
    printer: P,
    tally: Option<[usize; stream_orders::VERDICTS]>,
}

impl<P: Printer> Lines<P> {
    // Prints a line of so many characters, and counts it where that is asked: it is then read once more.
    fn report(&mut self, out: &mut [u8], s: State, chars: usize, at: usize) -> State
        requires used { s.used ≤ length out.old }
        requires wide { length self.old.line ≡ line_size }
        ensures inside { result.used ≤ length out.new }
        ensures printed { Prints P.prints P.judges (memory self.old.line out.old self.old.tally s) chars
            (memory self.new.line out.new self.new.tally result) }
        ensures place { result.at ≡ at }
    {
        let used = self.printer.print(out, s.used, s.number, &self.line, chars);
        if let Some(tally) = &mut self.tally {
            stream_orders::count_one(tally, self.printer.verdict(&self.line, chars));
        }
        State {
            at,
            chars: 0,
            number: text_lines::count_up(s.number),
            used,
        }
    }

    // Prints a block's lines from a place on, as long as there is room for any line. The characters of a line that is not ended are kept.
    fn print_lines(&mut self, block: &[u8], out: &mut [u8], s: State) -> State
        requires used { s.used ≤ length out.old }
        requires wide { length self.old.line ≡ line_size }
        ensures wide { length self.new.line ≡ line_size }
        ensures inside { result.used ≤ length out.new }
        ensures moves { P.ROOM ≤ length out.old - s.used → s.at < length block.now → s.at < result.at }
        ensures turns { Turns P.prints P.judges P.ROOM block.now (memory self.old.line out.old self.old.tally s)
            (memory self.new.line out.new self.new.tally result) }
    {
        let mut s = s;
        // A line is as long as it is, so no `for`.
        while s.at < block.len() {
            if out.len() - s.used < P::ROOM {
                return s;
            }
            match text_lines::take_line(block, s.at, &mut self.line, s.chars) {
                Taken::Part(chars) => {
                    return State {
                        at: block.len(),
                        chars,
                        ..s
                    };
                }
                Taken::Line(next, chars) => s = self.report(out, s, chars, next),
            }
        }
        s
    }

    // A file's end: its last line without LF counts if it has a character. There is room for it.
    fn end_file(&mut self, out: &mut [u8], s: State) -> State
        requires room { s.used + P.ROOM ≤ length out.old }
        requires wide { length self.old.line ≡ line_size }
        ensures wide { length self.new.line ≡ line_size }
        ensures inside { result.used ≤ length out.new }
        ensures ends { Ends P.prints P.judges (memory self.old.line out.old self.old.tally s)
            (memory self.new.line out.new self.new.tally result) }
    {
        if s.chars < 1 {
            return s;
        }
        self.report(out, s, s.chars, s.at)
    }

    // Prints a whole block, and writes out the text whenever there may be no room for one more line.
    fn print_block(
        &mut self,
        program: &Program,
        block: &[u8],
        out: &mut [u8],
        s: State,
    ) -> Result<State, Stop>
        requires room { P.ROOM ≤ length out.old }
        requires wide { length self.old.line ≡ line_size }
        ensures wide { length self.new.line ≡ line_size }
        ensures none { IfOk result (λ r. r.used ≡ 0) }
        ensures failed { IfErr result (λ stop. stop ≢ Stop.Refused) }
        ensures roomy { IfErr result (λ stop. stop ≢ Stop.NoRoom) }
    {
        let mut s = State {
            at: 0,
            used: 0,
            ..s
        };
        // Printing stops wherever room runs out, so no `for`.
        while s.at < block.len() {
            s = self.print_lines(block, out, s);
            program.write_out(&out[..s.used])?;
            s.used = 0;
        }
        Ok(s)
    }

    // Says how many frames there were, where that is asked.
    fn say_counts(&self, program: &Program, s: State) {
        if let Some(tally) = &self.tally {
            stream::say_counts(program.rt, s.number.saturating_sub(1), tally);
        }
    }

    // Prints the lines of all files, read in blocks, and writes them out.
    fn print_files(
        &mut self,
        program: &Program,
        inputs: &mut Inputs,
        block: &mut [u8],
        out: &mut [u8],
    ) -> Result<(), Stop>
        requires room { P.ROOM ≤ length out.old }
        requires wide { length self.old.line ≡ line_size }
        requires block { length block.old ≡ block_size }
        requires counts { IfSome self.old.tally (λ counts. length counts ≡ verdict_count) }
        ensures size { length out.new ≡ length out.old }
        ensures failed { IfErr result (λ stop. stop ≢ Stop.Refused) }
        ensures roomy { IfErr result (λ stop. stop ≢ Stop.NoRoom) }
    {
        let mut s = State {
            at: 0,
            chars: 0,
            number: 1,
            used: 0,
        };
        // Every loop has an end; no run comes to this one's.
        for _ in 0..u64::MAX {
            match inputs.next_block(program, block)? {
                Got::Bytes(n) => s = self.print_block(program, &block[..n], out, s)?,
                Got::FileEnd => {
                    s = self.end_file(out, s);
                    program.write_out(&out[..s.used])?;
                    s.used = 0;
                }
                Got::End => {
                    self.say_counts(program, s);
                    return Ok(());
                }
            }
        }
        Err(Stop::Failed)
    }
}

// Prints the lines of all files, and writes them out. A buffer without room for a line fails at once.
pub fn print_all<P: Printer + Drop>(
    program: &Program,
    inputs: &mut Inputs,
    printer: P,
    out: &mut [u8],
    counts: bool,
) -> Result<(), Stop>
    ensures size { length out.new ≡ length out.old }
    ensures failed { IfErr result (λ stop. stop ≢ Stop.Refused) }
    ensures roomy { P.ROOM ≤ length out.old → IfErr result (λ stop. stop ≢ Stop.NoRoom) }
{
    if out.len() < P::ROOM {
        return Err(program.no_room());
    }
    let mut lines = Lines {
        line: [0; CHARACTERS],
        printer,
        tally: counts.then_some([0; stream_orders::VERDICTS]),
    };
    let mut block = [0u8; BLOCK];
    lines.print_files(program, inputs, &mut block, out)
}
