//! The words that the grammar goes on with at a place.

use hd_base::NoMemory;
use hd_check::Source;
use hd_lex::LexError;
use hd_pddl::{ReadError, read_domain, read_problem};
use std::alloc::{AllocError, Global};

/// The most bytes of a text before a place that are read once more for each word that is tried.
const MOST_TRIED: usize = 1 << 20;

/// The words that are tried, and how they are shown. Those with an article stand for others like
/// them. From [`FIRST_NAME`] on they are names.
const WORDS: [(&str, &str); 32] = [
    ("x", "a name"),
    ("?x", "a variable"),
    ("1", "a number"),
    (":strips", "a requirement"),
    ("-", "`-`"),
    ("and", "`and`"),
    ("not", "`not`"),
    ("=", "`=`"),
    ("<", "a comparison"),
    ("+", "`+`"),
    ("increase", "a change as `increase`"),
    (":requirements", "`:requirements`"),
    (":types", "`:types`"),
    (":constants", "`:constants`"),
    (":predicates", "`:predicates`"),
    (":functions", "`:functions`"),
    (":action", "`:action`"),
    (":parameters", "`:parameters`"),
    (":precondition", "`:precondition`"),
    (":effect", "`:effect`"),
    (":domain", "`:domain`"),
    (":objects", "`:objects`"),
    (":init", "`:init`"),
    (":goal", "`:goal`"),
    (":metric", "`:metric`"),
    ("(", "`(`"),
    (")", "`)`"),
    ("define", "`define`"),
    ("domain", "`domain`"),
    ("problem", "`problem`"),
    ("minimize", "`minimize`"),
    ("number", "`number`"),
];

/// The number of the first word that is a name as any other: it is told only where no name is.
const FIRST_NAME: usize = 27;

/// Returns the place of a reader's error.
pub fn place_of(error: &ReadError) -> Option<usize> {
    match error {
        ReadError::Lex(
            LexError::BadByte(at) | LexError::BadNumber(at) | LexError::NameTooLong(at),
        ) => Some(*at),
        ReadError::Unbalanced(at)
        | ReadError::Unexpected(at)
        | ReadError::Unsupported(_, at)
        | ReadError::TooDeep(at) => Some(*at),
        ReadError::Lex(LexError::NoMemory) | ReadError::NoMemory => None,
    }
}

/// Returns the reader's error in a text, if it has one.
fn error_of(alloc: Global, source: Source, text: &[u8]) -> Option<ReadError> {
    match source {
        Source::Domain => match read_domain(alloc, text) {
            Ok(tree) => {
                drop(tree);
                None
            }
            Err(error) => Some(error),
        },
        Source::Problem => match read_problem(alloc, text) {
            Ok(tree) => {
                drop(tree);
                None
            }
            Err(error) => Some(error),
        },
    }
}

/// Reports whether the reader goes on with a word after a text in which so many forms are open.
fn goes_on(
    alloc: Global,
    source: Source,
    before: &[u8],
    depth: usize,
    word: &str,
) -> Result<bool, NoMemory> {
    if depth == 0 && word == ")" {
        return Ok(false);
    }
    let mut text = Vec::from_slice(alloc, before)?;
    text.push(b'\n')?;
    let at = text.len();
    text.extend_from_slice(word.as_bytes())?;
    let open = match word {
        "(" => depth.saturating_add(1),
        ")" => depth.saturating_sub(1),
        _ => depth,
    };
    for _ in 0..open {
        text.push(b')')?;
    }
    match error_of(alloc, source, &text) {
        None => Ok(true),
        Some(error) => match place_of(&error) {
            Some(place) => Ok(place > at),
            None => Err(AllocError),
        },
    }
}

/// Returns the numbers of the words with which the reader goes on after a text in which so many
/// forms are open; none for a long text.
pub fn wanted_after(
    alloc: Global,
    source: Source,
    before: &[u8],
    depth: usize,
) -> Result<Vec<usize>, NoMemory> {
    let mut wanted = Vec::new(alloc);
    if before.len() > MOST_TRIED {
        return Ok(wanted);
    }
    for number in 0..WORDS.len() {
        let is_one_of_names = number >= FIRST_NAME && matches!(wanted.as_slice(), [0, ..]);
        if !is_one_of_names && goes_on(alloc, source, before, depth, WORDS[number].0)? {
            wanted.push(number)?;
        }
    }
    Ok(wanted)
}

/// Returns how a word is shown.
fn shown_of(number: usize) -> &'static str {
    match WORDS.as_slice().get(number) {
        Some((_, shown)) => shown,
        None => "",
    }
}

/// Appends what is wanted: `, wanted A, B or C`; nothing if nothing is known of it.
pub fn push_wanted(out: &mut String, wanted: &[usize]) -> Result<(), NoMemory> {
    let mut left = wanted.len();
    for number in wanted {
        out.push_str(if left == wanted.len() {
            ", wanted "
        } else if left == 1 {
            " or "
        } else {
            ", "
        })?;
        out.push_str(shown_of(*number))?;
        left = left.saturating_sub(1);
    }
    Ok(())
}
