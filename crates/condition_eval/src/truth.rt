// The truth of a condition, and the reasons of dead letters with their texts.
ghost use Rattle.std.specs.Prelude.{◌≡◌, Some};
ghost use Rattle.condition_eval.specs.Truths as spec;
ghost use Rattle.condition_eval.specs.Texts.{kind_text, reason_text};

use plain_data::Text;
use std::error::Error;
use std::fmt;

/// What a condition says of an event.
#[derive(Drop)]
pub enum Truth {
    Yes,
    No,
    /// The condition has no truth of this event.
    Wrong(Reason),
}

/// Why a condition has no truth of an event, or an event was rejected. Its text is that of a dead
/// letter.
#[derive(Debug, Drop)]
pub enum Reason {
    /// Values of these kinds, left and right, have no order.
    Order(Kind, Kind),
    /// A value of this kind was to match a pattern.
    Match(Kind),
    /// An output rejected the event with this status, and said this.
    Status(u16, Text),
}

/// The kinds of values.
#[derive(Clone, Copy, Debug)]
pub enum Kind {
    Null,
    Boolean,
    Number,
    Text,
    Time,
    List,
    Object,
}

impl Error for Reason {}

impl fmt::Display for Reason {
    ghost output = { λ reason. Some (reason_text reason) };

    fn fmt<W: fmt::Write>(&self, f: &mut fmt::Formatter<W>) -> fmt::Result {
        match self {
            Reason::Order(left, right) => write!(f, "order of {left} and {right}"),
            Reason::Match(kind) => write!(f, "match of {kind}"),
            Reason::Status(status, text) => write!(f, "status {status}: {text}"),
        }
    }
}

impl fmt::Display for Kind {
    ghost output = { λ kind. Some (kind_text kind) };

    fn fmt<W: fmt::Write>(&self, f: &mut fmt::Formatter<W>) -> fmt::Result {
        f.write_str(match self {
            Kind::Null => "null",
            Kind::Boolean => "boolean",
            Kind::Number => "number",
            Kind::Text => "text",
            Kind::Time => "time",
            Kind::List => "list",
            Kind::Object => "object",
        })
    }
}

impl Truth {
    /// Yes or No.
    pub fn of(holds: bool) -> Truth
        ensures { result ≡ spec.truth_of holds }
    {
        if holds { Truth::Yes } else { Truth::No }
    }

    /// The negation; what is wrong stays wrong.
    pub fn negated(self) -> Truth
        ensures { result ≡ spec.negated self }
    {
        match self {
            Truth::Yes => Truth::No,
            Truth::No => Truth::Yes,
            Truth::Wrong(reason) => Truth::Wrong(reason),
        }
    }
}
