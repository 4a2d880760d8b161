//! Laws of words and of texts: what `tokens` answers is always there, and is always one.

ghost use Rattle.std.specs.Prelude.{◌≡◌, ◌⊎◌, ℕ, List};
ghost use Rattle.hd_lex.specs.Text.{Placed, AreWords, AreTokens, IsFault};
ghost use Rattle.hd_lex.specs.Word.{IsWord, IsBad};
ghost use Rattle.hd_lex.specs.declared.error.LexError.{LexError};
ghost use Rattle.hd_lex.specs.declared.token.Token.{Token};
ghost use Rattle.hd_lex.specs.declared.token.Word.{Word};
ghost use Rattle.hd_lex.specs.declared.word.TheConstants.{LONGEST_NAME, MOST_DIGITS};

/// Law: any bytes are one word of the table or have one fault, and never both.
pub fn each_word_is_good_or_bad()
    ensures good_or_bad { (at : ℕ) (bytes : List ℕ)
        → ((word : Word) × IsWord bytes word) ⊎ ((fault : LexError) × IsBad at bytes fault) }
    ensures one_word { (bytes : List ℕ) (a b : Word) → IsWord bytes a → IsWord bytes b → a ≡ b }
    ensures one_fault { (at : ℕ) (bytes : List ℕ) (a b : LexError)
        → IsBad at bytes a → IsBad at bytes b → a ≡ b }
    ensures not_both { (at : ℕ) (bytes : List ℕ) (word : Word) (fault : LexError)
        → IsWord bytes word → IsBad at bytes fault → ⊥ }
{}

/// Law: every text has exactly one list of words.
pub fn each_text_has_its_words()
    ensures words { (at : ℕ) (text : List ℕ) → (words : List Placed) × AreWords at text words }
    ensures no_others { (at : ℕ) (text : List ℕ) (a b : List Placed)
        → AreWords at text a → AreWords at text b → a ≡ b }
{}

/// Law: every text has its tokens, just these, or the fault of its first bad word, just this, and
/// never both.
pub fn each_text_is_good_or_bad()
    ensures good_or_bad { (text : List ℕ)
        → ((tokens : List Token) × AreTokens text tokens)
        ⊎ ((fault : LexError) × IsFault text fault) }
    ensures one_answer { (text : List ℕ) (a b : List Token)
        → AreTokens text a → AreTokens text b → a ≡ b }
    ensures one_fault { (text : List ℕ) (a b : LexError) → IsFault text a → IsFault text b → a ≡ b }
    ensures not_both { (text : List ℕ) (tokens : List Token) (fault : LexError)
        → AreTokens text tokens → IsFault text fault → ⊥ }
{}

/// Law: the longest name has 255 bytes, and the longest number 18 digits.
pub fn words_are_short()
    ensures name { LONGEST_NAME ≡ 255 }
    ensures number { MOST_DIGITS ≡ 18 }
{}
