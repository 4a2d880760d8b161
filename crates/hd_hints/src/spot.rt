//! Lines and columns of places in a text.
ghost use Rattle.std.specs.Prelude.{◌≡◌, ◌+◌, ◌≤◌, drop, length, take};
ghost use Rattle.std.specs.List.{prefix_len};
ghost use Rattle.hd_lex.specs.Byte.{is_line_byte};
ghost use Rattle.hd_hints.specs.Spots.{column_of, line_of};

/// Where a place stands in a text: its line and column, from 1, and the line's first byte and end,
/// from 0.
#[derive(Clone, Copy, Debug, PartialEq, Eq)]
pub struct Spot {
    pub line: usize,
    pub column: usize,
    /// The place of the line's first byte.
    pub from: usize,
    /// The place of the line feed that ends the line, or the text's length.
    pub to: usize,
}

/// Returns how many line feeds are among bytes.
#[tactic(auto, using(std::proofs::lemmas::List::Sums::count_by_more_yes, std::proofs::lemmas::List::Sums::count_by_more_no))]
fn line_feeds(bytes: &[u8]) -> usize
    ensures count { result + 1 ≡ line_of bytes.now }
    ensures few { result ≤ length bytes.now }
{
    let mut count = 0;
    for byte in bytes {
        if *byte == b'\n' {
            count += 1;
        }
    }
    count
}

/// Returns how many bytes stand at the end of bytes after the last line feed, or in all.
#[tactic(auto, using(crate::proofs::Columns::last_line_more, crate::proofs::Columns::last_line_new))]
fn last_line_len(bytes: &[u8]) -> usize
    ensures len { result + 1 ≡ column_of bytes.now }
    ensures few { result ≤ length bytes.now }
{
    let mut count = 0;
    for byte in bytes {
        if *byte == b'\n' {
            count = 0;
        } else {
            count += 1;
        }
    }
    count
}

/// Returns how many bytes stand at the front before the end of the line.
fn line_len(text: &[u8]) -> usize
    ensures len { result ≡ prefix_len is_line_byte text.now }
    ensures few { result ≤ length text.now }
{
    text.iter().take_while(|byte| **byte != b'\n').count()
}

/// Returns where the place `at` stands in `text`.
pub fn spot_of(text: &[u8], at: usize) -> Spot
    requires within { at ≤ length text.now }
    ensures line { result.line ≡ line_of (take at text.now) }
    ensures column { result.column ≡ column_of (take at text.now) }
    ensures from { result.from + result.column ≡ at + 1 }
    ensures to { result.to ≡ at + prefix_len is_line_byte (drop at text.now) }
{
    let before = last_line_len(&text[..at]);
    Spot {
        line: line_feeds(&text[..at]) + 1,
        column: before + 1,
        from: at - before,
        to: at + line_len(&text[at..]),
    }
}

/// Returns the place of the first byte of a line, counted from 1, that is no blank; or that of the
/// line's end, or of the text's, if there is none.
pub fn place_of_line(text: &[u8], line: u64) -> usize
    ensures { result ≤ length text.now }
{
    let mut at = 0;
    let mut left = line;
    while at < text.len() && left > 1 {
        if text[at] == b'\n' {
            left -= 1;
        }
        at += 1;
    }
    while at < text.len() && matches!(text[at], b' ' | b'\t' | b'\r') {
        at += 1;
    }
    at
}
