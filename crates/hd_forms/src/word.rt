//! What words say to the grammar.

ghost use Rattle.std.specs.Prelude.{◌≡◌};
ghost use Rattle.hd_forms.specs.Word.{is_unsupported_name, name_word};

use hd_base::Name;
use hd_lex::Operator;

/// How an effect changes a number.
#[derive(Clone, Copy, Debug, PartialEq, Eq)]
pub enum ChangeWord {
    Assign,
    Increase,
    Decrease,
    ScaleUp,
}

/// A word that is no parenthesis.
#[derive(Drop)]
pub enum FormWord {
    And,
    Not,
    /// The word that begins an effect on a number.
    Change(ChangeWord),
    /// A word spelled as a name that belongs to a part of PDDL that is not read, so that nothing
    /// can be named by it.
    Unsupported(Name),
    Name(Name),
    /// A name after `:`, without it.
    Keyword(Name),
    /// A name after `?`, without it.
    Variable(Name),
    Operator(Operator),
    /// A number, with its sign.
    Number(i64),
}

/// Reports whether the word, spelled as a name, belongs to a part of PDDL that is not read.
fn is_unsupported_name(word: &str) -> bool
    ensures { result ≡ is_unsupported_name word.now }
{
    word == "or"
        || word == "imply"
        || word == "forall"
        || word == "exists"
        || word == "when"
        || word == "either"
        || word == "preference"
        || word == "scale-down"
        || word == "maximize"
        || word == "total-time"
}

/// Reports whether the keyword, without its `:`, belongs to a part of PDDL that is not read.
pub fn is_unsupported_keyword(word: &str) -> bool {
    word == "durative-action" || word == "derived" || word == "constraints"
}

/// Returns what a word spelled as a name says.
pub fn name_word(name: Name) -> FormWord
    ensures { result ≡ name_word name }
{
    let text = name.as_str();
    if text == "and" {
        FormWord::And
    } else if text == "not" {
        FormWord::Not
    } else if text == "assign" {
        FormWord::Change(ChangeWord::Assign)
    } else if text == "increase" {
        FormWord::Change(ChangeWord::Increase)
    } else if text == "decrease" {
        FormWord::Change(ChangeWord::Decrease)
    } else if text == "scale-up" {
        FormWord::Change(ChangeWord::ScaleUp)
    } else if is_unsupported_name(text) {
        FormWord::Unsupported(name)
    } else {
        FormWord::Name(name)
    }
}
