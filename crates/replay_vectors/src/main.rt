// Replays the vectors, oracle/vectors: each request is answered from the proved functions and the answer compared with
// the oracle's, topic by topic. Proved is that every text is judged and judging ends, and that each line is counted
// once.
#![tactic(auto)]

ghost use Rattle.std.specs.Prelude.{◌≡◌, ◌+◌, ◌<◌, ◌^◌, ◌≤◌, length};
ghost use Rattle.replay_vectors.specs.Counted.{Counted};

use replay_wire::Cursor;
use std::io::{self, Write};

// What became of a line. One that isn't a vector, or whose request isn't answered, is left out.
#[derive(Clone, Copy)]
pub enum Verdict {
    Equal,
    Differ,
    LeftOut,
}

// How many lines there were, how many of them had each verdict, and where the first one that differs starts.
#[derive(Clone, Copy)]
pub struct Tally {
    pub lines: u64,
    pub equal: u64,
    pub differ: u64,
    pub omitted: u64,
    pub first: usize,
}

// Answers the request of a line and compares.
fn judge_line(line: &[u8], bytes: &mut [u8], scratch: &mut [u8], out: &mut [u8]) -> Verdict {
    let vector = replay_wire::split(line);
    if !vector.good {
        return Verdict::LeftOut;
    }
    let request = vector.request;
    let expected = vector.answer;
    let reply = replay_answers::answer(&line[0..request], bytes, scratch, out);
    if !reply.good {
        return Verdict::LeftOut;
    }
    if check::same(replay_wire::first(out, reply.at), &line[expected..]) {
        return Verdict::Equal;
    }
    Verdict::Differ
}

// Where the first line that differs starts, if this one does.
fn first_of(tally: Tally, start: usize) -> usize {
    if tally.differ == 0 {
        return start;
    }
    tally.first
}

// The tally with one line more, which starts there.
fn counted(tally: Tally, verdict: Verdict, start: usize) -> Tally
    requires { Counted tally × (tally.lines + 1 < 2 ^ 64) }
    ensures { Counted result × (result.lines ≡ tally.lines + 1) }
{
    let mut more = tally;
    more.lines = tally.lines + 1;
    match verdict {
        Verdict::Equal => {
            more.equal = tally.equal + 1;
            return more;
        }
        Verdict::Differ => {
            more.first = first_of(tally, start);
            more.differ = tally.differ + 1;
            return more;
        }
        Verdict::LeftOut => {
            more.omitted = tally.omitted + 1;
            return more;
        }
    }
}

// Judges every line of a text.
pub fn judge(text: &[u8], bytes: &mut [u8], scratch: &mut [u8], out: &mut [u8]) -> Tally
    ensures { Counted result }
{
    let mut tally = Tally {
        lines: 0,
        equal: 0,
        differ: 0,
        omitted: 0,
        first: 0,
    };
    let mut at = 0;
    while at < text.len() {
        let verdict = judge_line(replay_wire::line_at(text, at), bytes, scratch, out);
        tally = counted(tally, verdict, at);
        at = replay_wire::next_line(text, at);
    }
    tally
}

// Writes the counts, as `headers: 9 lines, 9 equal, 0 differ, 0 left out`.
fn write_counts(to: &mut impl Write, name: &[u8], tally: Tally) -> io::Result<()> {
    let mut space = [0u8; 256];
    let out: &mut [u8] = &mut space;
    let mut put = replay_wire::begin(b"", Cursor { at: 0, good: true });
    put = replay_wire::put_text(out, put, name);
    put = replay_wire::put_text(out, put, b": ");
    put = replay_wire::put_decimal(out, put, tally.lines);
    put = replay_wire::put_text(out, put, b" lines, ");
    put = replay_wire::put_decimal(out, put, tally.equal);
    put = replay_wire::put_text(out, put, b" equal, ");
    put = replay_wire::put_decimal(out, put, tally.differ);
    put = replay_wire::put_text(out, put, b" differ, ");
    put = replay_wire::put_decimal(out, put, tally.omitted);
    put = replay_wire::put_text(out, put, b" left out\n");
    to.write_all(replay_wire::first(out, put.at))
}

// Writes the line that starts there, and below it what was answered instead.
fn write_difference(to: &mut impl Write, line: &[u8], answer: &[u8]) -> io::Result<()> {
    to.write_all(line)?;
    to.write_all(b"\nanswered: ")?;
    to.write_all(answer)?;
    to.write_all(b"\n")
}

// Judges a text and writes its counts, and the first line that differs with what was answered.
fn report(
    to: &mut impl Write,
    name: &[u8],
    text: &[u8],
    bytes: &mut [u8],
    scratch: &mut [u8],
    out: &mut [u8],
) -> io::Result<()> {
    let tally = judge(text, bytes, scratch, out);
    write_counts(to, name, tally)?;
    if 0 < tally.differ {
        let line = replay_wire::line_at(text, tally.first);
        let vector = replay_wire::split(line);
        let request = vector.request;
        let reply = replay_answers::answer(&line[0..request], bytes, scratch, out);
        write_difference(to, line, replay_wire::first(out, reply.at))?;
    }
    Ok(())
}

// Whether a line is the heading of a topic: its name, and no vector.
fn is_heading(line: &[u8]) -> bool {
    let vector = replay_wire::split(line);
    !vector.good
}

// Where the topic ends whose first vector starts there: at the next heading, or at the end of the text.
fn topic_end(text: &[u8], start: usize) -> usize
    requires { start ≤ length text.now }
    ensures { (start ≤ result) × (result ≤ length text.now) }
{
    let mut at = start;
    while at < text.len() {
        if is_heading(replay_wire::line_at(text, at)) {
            return at;
        }
        at = replay_wire::next_line(text, at);
    }
    at
}

// Judges the topics of a text, each a heading and its vectors, and writes the counts of each under its name.
fn report_topics(
    to: &mut impl Write,
    text: &[u8],
    bytes: &mut [u8],
    scratch: &mut [u8],
    out: &mut [u8],
) -> io::Result<()> {
    let mut at = 0;
    while at < text.len() {
        let name = replay_wire::line_at(text, at);
        let start = replay_wire::next_line(text, at);
        let end = topic_end(text, start);
        report(to, name, &text[start..end], bytes, scratch, out)?;
        at = end;
    }
    Ok(())
}

// So many zeros. That the number is a parameter, and the `ensures` says no more than the length, keeps the proofs from
// spelling them out.
fn zeros<const N: usize>() -> [u8; N]
    ensures { N ≡ length result }
{
    [0; N]
}

// Replays the vectors on standard input, at most 524,288 bytes, and writes the counts of each topic.
fn main(rt: HostRuntime) -> io::Result<()> {
    let mut text = zeros::<524288>();
    let count = input::read_full(&mut rt.stdin(), &mut text)?;
    let mut bytes = [0u8; 1024];
    let mut scratch = [0u8; 1024];
    let mut out = [0u8; 2048];
    report_topics(
        &mut rt.stdout(),
        &text[..count],
        &mut bytes,
        &mut scratch,
        &mut out,
    )
}
