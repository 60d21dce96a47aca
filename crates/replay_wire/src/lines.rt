// The lines of a file of vectors: a request, ` = `, and its answer.
ghost use Rattle.std.specs.Prelude.{◌<◌, ◌≤◌, length};

// Where a vector's request ends and its answer starts, within its line.
#[derive(Clone, Copy)]
pub struct Vector {
    pub request: usize,
    pub answer: usize,
    pub good: bool,
}

// Where the line that starts there ends: at its line feed, or at the end of the text.
fn line_end(text: &[u8], start: usize) -> usize
    ensures { (start ≤ result) × (start < length text.now → result ≤ length text.now) }
{
    let mut at = start;
    while at < text.len() {
        if text[at] == b'\n' {
            return at;
        }
        at += 1;
    }
    at
}

// The line that starts there, without its line feed.
pub fn line_at(text: &[u8], start: usize) -> &[u8] {
    if start < text.len() {
        let end = line_end(text, start);
        return &text[start..end];
    }
    &text[0..0]
}

// Where the line after the one that starts there starts: past its line feed, or at the end of the text.
pub fn next_line(text: &[u8], start: usize) -> usize
    ensures { (result ≤ length text.now) × (start < length text.now → start < result) }
{
    let end = line_end(text, start);
    if end < text.len() {
        return end + 1;
    }
    text.len()
}

// Where the equals sign of a line stands, and the line's end where it has none.
fn equals_at(line: &[u8]) -> usize
    ensures { result ≤ length line.now }
{
    let mut at = 0;
    while at < line.len() {
        if line[at] == b'=' {
            return at;
        }
        at += 1;
    }
    at
}

// Takes a line apart. The two places are within it, whatever it holds.
pub fn split(line: &[u8]) -> Vector
    ensures { (result.request ≤ length line.now) × (result.answer ≤ length line.now) }
{
    let at = equals_at(line);
    if 1 <= at && at + 2 <= line.len() {
        return Vector {
            request: at - 1,
            answer: at + 2,
            good: true,
        };
    }
    Vector {
        request: 0,
        answer: 0,
        good: false,
    }
}
