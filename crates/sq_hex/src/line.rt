//! Lines of a text.

ghost use Rattle.std.specs.Prelude.{◌≡◌, ◌≢◌, ℕ, ◌+◌, ◌<◌, ◌≤◌, ◌∷◌, length, slice_index};
ghost use Rattle.sq_hex.specs.Lines.{lines_of};
ghost use Rattle.sq_hex.specs.States.{without_return};

/// The line without the carriage return that it may end with.
fn without_return(line: &[u8]) -> &[u8]
    ensures value { result.now ≡ without_return line.now }
    ensures shorter { length result.now ≤ length line.now }
{
    if line.is_empty() || line[line.len() - 1] != b'\r' {
        return line;
    }
    &line[..line.len() - 1]
}

/// Where the first line ends: at a newline, or at the end of the text.
fn line_end(text: &[u8]) -> usize
    ensures within { result ≤ length text.now }
    ensures plain { (k : ℕ) → k < result → slice_index text.now k ≢ 10 }
    ensures newline { result < length text.now → slice_index text.now result ≡ 10 }
{
    for (end, byte) in text.iter().enumerate() {
        if *byte == b'\n' {
            return end;
        }
    }
    text.len()
}

/// The first line of a text, and what stands behind its end.
pub fn first_line(text: &[u8]) -> (&[u8], &[u8])
    requires { 0 < length text.now }
    ensures lines { lines_of text.now ≡ result.0.now ∷ lines_of result.1.now }
    ensures shorter { length result.0.now + length result.1.now ≤ length text.now }
    ensures falls { length result.1.now < length text.now }
{
    let end = line_end(text);
    if end == text.len() {
        (text, &[])
    } else {
        (without_return(&text[..end]), &text[end + 1..])
    }
}

/// How many lines a text has.
pub fn line_count(text: &[u8]) -> usize
    ensures { result ≡ length (lines_of text.now) }
{
    let mut rest = text;
    let mut count = 0;
    while !rest.is_empty() {
        rest = first_line(rest).1;
        count += 1;
    }
    count
}
