//! The law of reading by descent.

ghost use Rattle.std.specs.Prelude.{◌≡◌, ℕ, List};
ghost use Rattle.config_lex.specs.declared.token.Token.{Token as Tokens};
ghost use Rattle.config_parse.specs.Trees.{made};
ghost use Rattle.config_parse.specs.Read.{descended};

/// Reading by descent makes the configuration that the machine makes, or gives the same fault.
pub fn reading_is_right()
    ensures { (levels : ℕ) (tokens : List Tokens) → made levels tokens ≡ descended levels tokens }
{}
