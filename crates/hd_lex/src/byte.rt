//! What single bytes do.

ghost use Rattle.std.specs.Prelude.{◌≡◌};
ghost use Rattle.std.specs.List.{prefix_len};
ghost use Rattle.hd_lex.specs.Byte.{class_of, is_word_byte, is_name_byte, is_line_byte};

/// What a byte outside of a comment does.
#[derive(Clone, Copy, Debug, PartialEq, Eq)]
pub enum Class {
    /// It stands between words.
    Blank,
    /// It begins a comment.
    Semicolon,
    /// It is a word of its own.
    Parenthesis,
    /// It begins a word or goes on with one.
    Word,
}

/// Returns what this byte does.
pub fn class_of(byte: u8) -> Class
    ensures { result ≡ class_of byte }
{
    match byte {
        b' ' | b'\t' | b'\r' | b'\n' => Class::Blank,
        b';' => Class::Semicolon,
        b'(' | b')' => Class::Parenthesis,
        _ => Class::Word,
    }
}

/// Reports whether the byte is part of a word.
fn is_word_byte(byte: u8) -> bool
    ensures { result ≡ is_word_byte byte }
{
    matches!(class_of(byte), Class::Word)
}

/// Reports whether the byte may stand in a name after its first letter.
pub fn is_name_byte(byte: u8) -> bool
    ensures { result ≡ is_name_byte byte }
{
    byte.is_ascii_alphanumeric() || byte == b'-' || byte == b'_'
}

/// Returns how many bytes at the front go on with a word.
pub fn word_len(text: &[u8]) -> usize
    ensures { result ≡ prefix_len is_word_byte text.now }
{
    text.iter().take_while(|byte| is_word_byte(**byte)).count()
}

/// Returns how many bytes at the front stand before the end of the line.
pub fn line_len(text: &[u8]) -> usize
    ensures { result ≡ prefix_len is_line_byte text.now }
{
    text.iter().take_while(|byte| **byte != b'\n').count()
}
