//! The laws, each the contract of a function that does nothing.

ghost use Rattle.std.specs.Prelude.{◌≢◌, ℕ, List, Err};
ghost use Rattle.config_lex.specs.declared.token.Token.{Token as Tokens};
ghost use Rattle.config_parse.specs.Grammar.{ReadsConfig};
ghost use Rattle.config_parse.specs.Texts.{Reads, IsSyntaxAt, IsDeepAt};
ghost use Rattle.config_parse.specs.GrammarAnswers.{Answer};
ghost use Rattle.config_parse.specs.Laws as law;
ghost use Rattle.config_parse.specs.Trees.{made};
ghost use Rattle.config_parse.specs.Verdicts as is;

/// A text that reads, reads as one configuration.
pub fn reads_once()
    ensures text { (levels : ℕ) (text : List ℕ) → law.AtMostOne (Reads levels text) }
    ensures tokens { (levels : ℕ) (ts : List Tokens) → law.AtMostOne (ReadsConfig levels ts) }
{}

/// Every text reads, or has a syntax fault, or is too deep.
pub fn has_an_answer()
    ensures { (levels : ℕ) (text : List ℕ) → Answer levels text }
{}

/// These three exclude one another, and a fault has one place.
pub fn one_answer()
    ensures syntax { (levels : ℕ) (text : List ℕ) → law.AtMostOne (IsSyntaxAt levels text) }
    ensures deep { (levels : ℕ) (text : List ℕ) → law.AtMostOne (IsDeepAt levels text) }
    ensures apart { law.Exclude IsSyntaxAt IsDeepAt }
    ensures not_syntax { law.Exclude Reads IsSyntaxAt }
    ensures not_deep { law.Exclude Reads IsDeepAt }
{}

/// What the stack machine makes of a list of tokens is the configuration that it is, or its fault.
pub fn machine_is_right()
    ensures reads { (levels : ℕ) (tokens : List Tokens) → law.MakesWhatReads levels tokens }
    ensures config { (levels : ℕ) (tokens : List Tokens) → law.ReadsWhatIsMade levels tokens }
    ensures syntax { (levels : ℕ) (tokens : List Tokens) → law.IsSyntaxWhereTold levels tokens }
    ensures deep { (levels : ℕ) (tokens : List Tokens) → law.IsDeepWhereTold levels tokens }
    ensures fault { (levels : ℕ) (tokens : List Tokens) → made levels tokens ≢ Err is.Reads }
{}

/// Each branch of what was read, also within blocks, has an arm with a condition first, and of the arms behind it the last alone
/// may have none.
pub fn branches_have_arms()
    ensures { (levels : ℕ) (tokens : List Tokens) → law.ReadsBranches levels tokens }
{}
