//! Words of a text, and how they are shown.

use hd_base::NoMemory;

/// The most bytes of a word that are shown.
const MOST_OF_WORD: usize = 40;

/// Returns what is shown of a byte: itself, or a dot for what a terminal does not show.
fn shown_of(byte: u8) -> char {
    if byte < b' ' || byte > b'~' {
        '.'
    } else {
        byte as char
    }
}

/// Appends bytes to a text, as they are shown.
pub fn push_shown(out: &mut String, bytes: &[u8]) -> Result<(), NoMemory> {
    for byte in bytes {
        out.push(shown_of(*byte))?;
    }
    Ok(())
}

/// Reports whether a byte ends a word.
fn is_end(byte: u8) -> bool {
    matches!(byte, b' ' | b'\t' | b'\r' | b'\n' | b'(' | b')' | b';')
}

/// Returns the word at the front of a text: a parenthesis, or a run of other bytes.
pub fn word_of(text: &[u8]) -> &[u8] {
    match text {
        [] => text,
        [b'(' | b')', ..] => &text[..1],
        _ => {
            let len = text.iter().take_while(|byte| !is_end(**byte)).count();
            &text[..len]
        }
    }
}

/// Appends a word in quotes, or that the text ends there.
pub fn push_word(out: &mut String, word: &[u8]) -> Result<(), NoMemory> {
    if word.is_empty() {
        return out.push_str("the end of the text");
    }
    out.push_str("`")?;
    if word.len() > MOST_OF_WORD {
        let (front, _) = word.split_at(MOST_OF_WORD);
        push_shown(out, front)?;
        out.push_str("..")?;
    } else {
        push_shown(out, word)?;
    }
    out.push_str("`")
}
