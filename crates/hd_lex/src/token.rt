//! What a text is made of.

use hd_base::Name;

/// A sign of arithmetic or of a comparison, or `-` before a type.
#[derive(Clone, Copy, Debug, PartialEq, Eq)]
pub enum Operator {
    Plus,
    Minus,
    Times,
    Divide,
    Less,
    LessOrEqual,
    Equal,
    GreaterOrEqual,
    Greater,
}

/// What a word is. Names are in lower case, at most 255 bytes long, without their `?` or `:`.
#[derive(Debug, PartialEq, Eq, Drop)]
pub enum Word {
    OpenParenthesis,
    CloseParenthesis,
    /// A letter, then letters, digits, `-` and `_`.
    Name(Name),
    /// A name after `?`.
    Variable(Name),
    /// A name after `:`.
    Keyword(Name),
    /// 1 to 18 digits.
    Number(i64),
    /// `-` and 1 to 18 digits: the number below zero, or zero for `-0`.
    SignedNumber(i64),
    Operator(Operator),
}

/// A word and where it stands: from the byte `from` up to, and without, the byte `to`, counted from
/// 0.
#[derive(Debug, PartialEq, Eq, Drop)]
pub struct Token {
    pub from: usize,
    pub to: usize,
    pub word: Word,
}

/// What stands at the front of a text: a token, or none where a blank or a comment stands there;
/// and how many bytes it has.
#[derive(Debug, PartialEq, Eq, Drop)]
pub struct Front {
    pub token: Option<Token>,
    pub len: usize,
}
