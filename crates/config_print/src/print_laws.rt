//! The laws, each the contract of a function that does nothing.

ghost use Rattle.std.specs.Prelude.{ℕ, List};
ghost use Rattle.config_lex.specs.declared.token.Token.{Token};
ghost use Rattle.config_print.specs.Laws as law;
ghost use Rattle.config_print.specs.Respaced.{GapsChangeNoToken};

/// The tokens that a condition is printed as read as that condition, with no more levels than the tokens that
/// it was read from.
pub fn condition_reads_again()
    ensures { (levels : ℕ) (tokens : List Token) → law.ConditionReadsAgain levels tokens }
{}

/// The tokens that a configuration is printed as read as that configuration, with no more levels than the
/// tokens that it was read from.
pub fn configuration_reads_again()
    ensures { (levels : ℕ) (tokens : List Token) → law.ConfigReadsAgain levels tokens }
{}

/// The settings of a plugin that was read have names that stand once, also those of a plugin that is a value; and
/// so have the entries of a hash their keys.
pub fn names_stand_once()
    ensures settings { (levels : ℕ) (tokens : List Token) → law.SettingsStandOnce levels tokens }
    ensures keys { (levels : ℕ) (tokens : List Token) → law.KeysStandOnce levels tokens }
{}

/// The printed text of a configuration that some text reads as has the tokens that the configuration is printed
/// as, and reads as that configuration, with no more levels than the text.
pub fn printed_text_reads()
    ensures tokens { (levels : ℕ) (text : List ℕ) → law.HasPrintedTokens levels text }
    ensures reads { (levels : ℕ) (text : List ℕ) → law.PrintedReads levels text }
{}

/// Blanks and comments change no token: a text with other blanks and comments between its tokens has the same tokens. Some stand
/// only where some stood, and where there was a comment there is one.
pub fn gaps_change_no_token()
    ensures { GapsChangeNoToken }
{}
