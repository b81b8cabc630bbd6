// Where the tokens of a text come from.
use crate::passing::passed;
use json::{Invalid, Reader, Token};

/// What a token is that was passed.
#[derive(Clone, Copy)]
pub(crate) enum PassedToken {
    /// A whole value.
    Value,
    /// The bracket that opens a list.
    List,
    /// The brace that opens an object.
    Object,
}

/// Passes the tokens of a JSON text, one after another.
pub(crate) trait Passes {
    ghost use Rattle.std.specs.Prelude.{◌≡◌, ℕ, List, MatchResult, Some, None};
    ghost use Rattle.std.specs.Bool.{MatchBool};
    ghost use Rattle.json.specs.Token.{Token as SpecToken};
    ghost use Rattle.json.specs.Json.{after_end_array, read_key};
    ghost use Rattle.bulk_replies.specs.Passed.{IsPassed};
    ghost use Rattle.bulk_replies.specs.Taken.{Refuses};

    /// The tokens that are still to come.
    ghost left: { Self → List SpecToken };

    /// Whether an error tells of a fault. Where it doesn't, an error says nothing of the text.
    ghost sure: { Type 0 };

    /// Passes what a value begins with.
    fn pass_token(&mut self) -> Result<PassedToken, Invalid>
        ensures { MatchResult result (λ passed. IsPassed passed (left self.old) (left self.new))
            (λ _. sure → (depth : ℕ) → Refuses depth (left self.old)) };

    /// Passes a key, or else the brace that closes an object: then it is false.
    fn pass_key(&mut self) -> Result<bool, Invalid>
        ensures { MatchResult result
            (λ goes_on. MatchBool goes_on
            ((key : List ℕ) × (read_key (left self.old) ≡ Some (Some key, left self.new)))
            (read_key (left self.old) ≡ Some (None, left self.new)))
            (λ _. sure → read_key (left self.old) ≡ None) };

    /// Takes the bracket that closes an array, if it is next.
    fn take_end_array(&mut self) -> Result<bool, Invalid>
        ensures { MatchResult result
            (λ ends. MatchBool ends (after_end_array (left self.old) ≡ Some (left self.new))
            ((after_end_array (left self.old) ≡ None) × (left self.new ≡ left self.old)))
            (λ _. sure → ⊥) };
}

/// Hands out the tokens of a JSON text, one after another.
pub(crate) trait Tokens<'a>: Passes {
    ghost use Rattle.std.specs.Prelude.{◌≡◌, List, MatchResult, option_map, Some, None};
    ghost use Rattle.json.specs.Json.{read_key};
    ghost use Rattle.json.specs.Reads.{Yields};

    fn next(&mut self) -> Result<Option<Token<'a>>, Invalid>
        ensures { MatchResult result
            (λ token. Yields (Self.left self.old) token (Self.left self.new))
            (λ _. Self.sure → ⊥) };

    /// A key, or None at the brace that closes an object.
    fn next_key(&mut self) -> Result<Option<&'a str>, Invalid>
        ensures { MatchResult result
            (λ key. read_key (Self.left self.old)
            ≡ Some (option_map (λ s. s.now) key, Self.left self.new))
            (λ _. Self.sure → read_key (Self.left self.old) ≡ None) };
}

impl<'a> Passes for Reader<'a> {
    ghost use Rattle.std.specs.Prelude.{⊤};

    ghost left = { λ tokens. tokens };

    ghost sure = { ⊤ };

    #[inline(never)]
    fn pass_token(&mut self) -> Result<PassedToken, Invalid> {
        passed(self.next())
    }

    #[inline(never)]
    fn pass_key(&mut self) -> Result<bool, Invalid> {
        Ok(self.next_key()?.is_some())
    }

    #[inline(never)]
    fn take_end_array(&mut self) -> Result<bool, Invalid> {
        Ok(self.take_end_array())
    }
}

impl<'a> Tokens<'a> for Reader<'a> {
    #[inline(never)]
    fn next(&mut self) -> Result<Option<Token<'a>>, Invalid> {
        Ok(self.next())
    }

    #[inline(never)]
    fn next_key(&mut self) -> Result<Option<&'a str>, Invalid> {
        self.next_key()
    }
}
