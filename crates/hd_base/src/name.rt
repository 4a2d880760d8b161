//! Names from texts.
ghost use Rattle.std.specs.Prelude.{◌≡◌, ◌≤◌, Some, IfOk, length, map, nat_eq, string_bytes};
ghost use Rattle.std.specs.Str.{IsAscii};
ghost use Rattle.std.specs.Char.{to_ascii_lowercase};
ghost use Rattle.std.specs.Cmp.{partial_equiv_from_equiv};
ghost use Rattle.std.specs.Cmp.Lexicographic.{pointwise, nat_list_eq_equiv};
ghost use Rattle.hd_base.specs.Spelling.{bytes_of, IsText};

use std::alloc::{AllocError, Global};
use std::fmt;
use std::marker::Model;

/// The most bytes of a name that lie in the name itself, so that a short name does not allocate
/// beside it, and a name is 16 bytes.
const MOST_INSIDE: usize = 14;

/// Where the bytes of a name lie.
#[derive(Drop)]
enum Spelling {
    /// In the name itself: the first `len` of these.
    Inside { len: u8, bytes: [u8; MOST_INSIDE] },
    /// In memory of their own.
    Outside(Box<String>),
}

/// A name from a text, which contracts see as the list of its bytes.
#[derive(Drop)]
pub struct Name {
    spelling: Spelling,
}

impl Model for Name {
    ghost use Rattle.std.specs.Prelude.{List, ℕ};

    ghost Value = { List ℕ };

    ghost use Rattle.hd_base.specs.Spelling.{bytes_of, IsText};

    ghost view = { λ n. bytes_of n.spelling };

    ghost invariant = { λ n. IsText n.spelling };
}

/// Returns the bytes of a text that is short enough, as the name itself holds them.
fn inside(text: &str) -> Spelling
    requires { length text.now ≤ MOST_INSIDE }
    ensures bytes { bytes_of result ≡ text.now }
    ensures text { IsText result }
{
    let mut bytes = [0; MOST_INSIDE];
    bytes[..text.len()].copy_from_slice(text.as_bytes());
    Spelling::Inside {
        len: text.len() as u8,
        bytes,
    }
}

/// Returns the same of a text of ASCII alone, with its letters folded to lower case.
fn folded_inside(text: &str) -> Spelling
    requires short { length text.now ≤ MOST_INSIDE }
    requires ascii { IsAscii text.now }
    ensures bytes { bytes_of result ≡ map to_ascii_lowercase text.now }
    ensures text { IsText result }
{
    let mut bytes = [0; MOST_INSIDE];
    let folded = &mut bytes[..text.len()];
    folded.copy_from_slice(text.as_bytes());
    folded.make_ascii_lowercase();
    Spelling::Inside {
        len: text.len() as u8,
        bytes,
    }
}

/// Returns a text in memory of its own.
fn outside(alloc: Global, text: String) -> Result<Spelling, AllocError>
    ensures bytes { IfOk result (λ s. bytes_of s ≡ string_bytes text) }
    ensures text { IfOk result IsText }
{
    Ok(Spelling::Outside(Box::new(alloc, text)?))
}

impl Name {
    /// Returns the name that this text spells.
    ///
    /// # Errors
    /// - Lack of memory.
    pub fn of(alloc: Global, text: &str) -> Result<Name, AllocError>
        ensures { IfOk result (λ n. n ≡ text.now) }
    {
        let spelling = if text.len() <= MOST_INSIDE {
            inside(text)
        } else {
            outside(alloc, String::from_str(alloc, text)?)?
        };
        Ok(Name { spelling })
    }

    /// Returns the name that this text of ASCII alone spells once its letters are folded to lower
    /// case.
    ///
    /// # Errors
    /// - Lack of memory.
    pub fn folded(alloc: Global, text: &str) -> Result<Name, AllocError>
        requires { IsAscii text.now }
        ensures { IfOk result (λ n. n ≡ map to_ascii_lowercase text.now) }
    {
        let spelling = if text.len() <= MOST_INSIDE {
            folded_inside(text)
        } else {
            let mut text = String::from_str(alloc, text)?;
            text.make_ascii_lowercase();
            outside(alloc, text)?
        };
        Ok(Name { spelling })
    }

    /// Returns the text that spells the name.
    pub fn as_str(&self) -> &str
        ensures { result.now ≡ self.now }
    {
        match &self.spelling {
            Spelling::Inside { len, bytes } => {
                let Ok(text) = str::from_utf8(&bytes[..*len as usize]) else {
                    unreachable!()
                };
                text
            }
            Spelling::Outside(text) => text.as_str(),
        }
    }

    /// Returns the same name, in memory of its own.
    ///
    /// # Errors
    /// - Lack of memory.
    pub fn copied(&self, alloc: Global) -> Result<Name, AllocError>
        ensures { IfOk result (λ n. n ≡ self.now) }
    {
        match &self.spelling {
            Spelling::Inside { len, bytes } => Ok(Name {
                spelling: Spelling::Inside {
                    len: *len,
                    bytes: *bytes,
                },
            }),
            Spelling::Outside(text) => Name::of(alloc, text.as_str()),
        }
    }
}

impl fmt::Display for Name {
    ghost output = { λ n. Some n };

    fn fmt<W: fmt::Write>(&self, f: &mut fmt::Formatter<W>) -> fmt::Result {
        write!(f, "{}", self.as_str())
    }
}

impl fmt::Debug for Name {
    fn fmt<W: fmt::Write>(&self, f: &mut fmt::Formatter<W>) -> fmt::Result {
        write!(f, "{:?}", self.as_str())
    }
}

impl PartialEq for Name {
    ghost eq = { λ m n. pointwise nat_eq m n };

    ghost laws = { partial_equiv_from_equiv nat_list_eq_equiv };

    fn eq(&self, other: &Self) -> bool {
        self.as_str() == other.as_str()
    }
}

impl Eq for Name {
    ghost laws = { nat_list_eq_equiv };
}
