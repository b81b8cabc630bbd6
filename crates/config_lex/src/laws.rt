//! Laws of the lexer, each the contract of a function that does nothing.

ghost use Rattle.std.specs.Prelude.{ℕ, List};
ghost use Rattle.config_lex.specs.Laws.{IsLaid, IsNumberText, HasValueOf};
ghost use Rattle.config_lex.specs.Bytes.{number_of};
ghost use Rattle.config_lex.specs.Lexemes.{lexemes as tokens_of, start};

/// A text is its tokens as they are written, each at its place, with blanks and comments alone before each and behind
/// the last: up to its end, or to the first bytes that begin no token, which are the last token, an unreadable one.
pub fn tokens_are_the_text()
    ensures { (text : List ℕ) → IsLaid 0 start text (tokens_of text) }
{}

/// The number that a text stands for has the value that its digits write. It is none exactly where no number that
/// `Number` can hold has that value.
pub fn numbers_have_the_value_of_their_digits()
    ensures { (s : List ℕ) → IsNumberText s → HasValueOf s (number_of s) }
{}
