// The codecs of inputs and outputs by their names.
ghost use Rattle.std.specs.Prelude.{◌≡◌};
ghost use Rattle.in_lines.specs.Codecs as spec;

use event_text::Template;

/// How an input reads its lines as events, or an output writes events.
#[derive(Clone, Copy)]
pub enum Codec {
    /// At an input as `Line`. At an output the text of a format for each event, with nothing behind it.
    Plain,
    /// At an input each line is the message of an event. At an output the text of a format for each
    /// event, and a line feed behind it.
    Line,
    /// At an input each line is the JSON object of an event. At an output the JSON text of each event, with
    /// nothing behind it.
    Json,
    /// At an input as `Json`. At an output the JSON text of each event, and a line feed behind it.
    JsonLines,
}

impl Codec {
    /// The codec that a configuration calls so; none where no codec has the name.
    pub fn named(name: &str) -> Option<Codec>
        ensures { result ≡ spec.codec_named name.now }
    {
        match name {
            "plain" => Some(Codec::Plain),
            "line" => Some(Codec::Line),
            "json" => Some(Codec::Json),
            "json_lines" => Some(Codec::JsonLines),
            _ => None,
        }
    }

    /// Whether an output writes the text of a format for each event, and not its JSON text.
    pub fn writes_texts(self) -> bool
        ensures { result ≡ spec.writes_texts self }
    {
        match self {
            Codec::Plain | Codec::Line => true,
            Codec::Json | Codec::JsonLines => false,
        }
    }
}

/// How an output writes events.
pub struct OutCodec {
    pub codec: Codec,
    /// The text that `Plain` and `Line` write of an event. The others don't use it.
    pub format: Template,
}

// Written out, so that it is one call wherever an error is handed on while one is held.
impl Drop for OutCodec {
    fn drop(self) {
        let OutCodec {
            codec: _,
            format: _format,
        } = self;
    }
}
