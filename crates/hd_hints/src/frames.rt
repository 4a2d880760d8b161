//! The forms that are open at a place of a text.

use hd_base::NoMemory;
use hd_lex::{Token, Word};
use std::alloc::Global;

/// An open form, or the text itself.
#[derive(Clone, Copy, Debug)]
pub struct Frame<'t> {
    /// The place of its parenthesis.
    pub from: usize,
    /// How many words and forms stand in it so far.
    pub items: usize,
    /// The first of them, if it is a word.
    pub head: Option<&'t Word>,
    /// The last keyword among them.
    pub keyword: Option<&'t Word>,
    /// The first word of the last form among them.
    pub child: Option<&'t Word>,
}

/// The forms that are open at a place.
#[derive(Drop)]
pub struct Frames<'t> {
    /// From the text itself to the innermost form.
    open: Vec<Frame<'t>>,
    /// The place of a form in which a section begins that stands in a definition, if there is one.
    pub unclosed: Option<usize>,
}

/// Returns the name of a keyword, and of a word that is none the empty one.
pub fn keyword_of(word: Option<&Word>) -> &str {
    match word {
        Some(Word::Keyword(name)) => name.as_str(),
        _ => "",
    }
}

/// Returns the text of a name, and of a word that is none the empty one.
pub fn name_of(word: Option<&Word>) -> &str {
    match word {
        Some(Word::Name(name)) => name.as_str(),
        _ => "",
    }
}

/// Reports whether a keyword of this name begins a section.
pub fn is_section(name: &str) -> bool {
    matches!(
        name,
        "types" | "constants" | "predicates" | "functions" | "action" | "objects" | "init" | "goal"
    ) || matches!(name, "requirements" | "metric" | "domain")
}

impl<'t> Frame<'t> {
    /// Returns a form that begins at a place.
    fn at(from: usize) -> Frame<'t> {
        Frame {
            from,
            items: 0,
            head: None,
            keyword: None,
            child: None,
        }
    }

    /// Returns the form with a word more.
    fn with_word(self, word: &'t Word) -> Frame<'t> {
        let head = if self.items == 0 {
            Some(word)
        } else {
            self.head
        };
        let keyword = match word {
            Word::Keyword(_) => Some(word),
            _ => self.keyword,
        };
        Frame {
            from: self.from,
            items: self.items.saturating_add(1),
            head,
            keyword,
            child: self.child,
        }
    }

    /// Returns the form with a form more, which begins with this word.
    fn with_form(self, child: Option<&'t Word>) -> Frame<'t> {
        Frame {
            from: self.from,
            items: self.items.saturating_add(1),
            head: self.head,
            keyword: self.keyword,
            child,
        }
    }
}

impl<'t> Frames<'t> {
    /// Returns the innermost open form.
    pub fn innermost(&self) -> Frame<'t> {
        match self.open.as_slice() {
            [.., last] => *last,
            [] => Frame::at(0),
        }
    }

    /// Returns the form around the innermost one.
    pub fn around(&self) -> Frame<'t> {
        match self.open.as_slice() {
            [.., around, _] => *around,
            _ => Frame::at(0),
        }
    }

    /// Returns how many forms are open.
    pub fn depth(&self) -> usize {
        self.open.len().saturating_sub(1)
    }

    /// Puts a form in the place of the innermost one.
    fn put(&mut self, frame: Frame<'t>) {
        if let Some(last) = self.open.last_mut() {
            *last = frame;
        }
    }

    /// Notes a form in which a section begins that stands in a definition.
    fn look_at(&mut self, word: &Word) {
        let is_new = self.unclosed.is_none() && self.innermost().items == 0;
        if is_new && self.depth() > 2 && is_section(keyword_of(Some(word))) {
            self.unclosed = Some(self.around().from);
        }
    }

    /// Takes a token.
    fn take(&mut self, token: &'t Token) -> Result<(), NoMemory> {
        match &token.word {
            Word::OpenParenthesis => {
                self.open.push(Frame::at(token.from))?;
            }
            Word::CloseParenthesis => {
                let closed = self.innermost();
                if self.open.len() > 1 {
                    let _ = self.open.pop();
                    let around = self.innermost();
                    self.put(around.with_form(closed.head));
                }
            }
            word => {
                self.look_at(word);
                let frame = self.innermost();
                self.put(frame.with_word(word));
            }
        }
        Ok(())
    }
}

/// Returns the forms that are open after tokens.
pub fn frames_of<'t>(alloc: Global, tokens: &'t [Token]) -> Result<Frames<'t>, NoMemory> {
    let mut open = Vec::new(alloc);
    open.push(Frame::at(0))?;
    let mut frames = Frames {
        open,
        unclosed: None,
    };
    for token in tokens {
        frames.take(token)?;
    }
    Ok(frames)
}
