//! The events of a generator.

ghost use Rattle.std.specs.Prelude.{◌≡◌, ◌<◌, ◌%◌, ℕ, suc, pos, false, [], length, get_or, IfOk, OnOk, OnErr};
ghost use Rattle.event_text.specs.Options.{set_at};
ghost use Rattle.in_lines.specs.Generators as spec;

use crate::decoding::{event_by_codec, event_path};
use crate::sample::{next_number, sample_line};
use crate::settings::EventSettings;
use event_text::try_put;
use event_tree::{Event, Names, Number, Text, Value};
use plain_data::Instant;
use std::alloc::{AllocError, Global};

/// How many bytes a line has at most of which an event can be made.
const LONGEST: usize = 8_388_558;

/// The lines of a generator.
pub enum GeneratedLines {
    /// These texts, one after another and from the first again.
    Texts(Names),
    /// Those of the sample from this number on.
    Sample(u64),
}

// Written out, so that it is one call wherever an error is handed on while they are held.
impl Drop for GeneratedLines {
    fn drop(self) {
        match self {
            GeneratedLines::Texts(_texts) => {}
            GeneratedLines::Sample(_) => {}
        }
    }
}

/// An input that makes its lines itself.
pub struct Generator {
    pub lines: GeneratedLines,
    /// How often it gives all its texts, or how many lines of a sample; 0 is without end.
    pub count: u64,
    /// How it makes events of them.
    pub settings: EventSettings,
}

impl Drop for Generator {
    fn drop(self) {
        let Generator {
            lines: _lines,
            count: _,
            settings: _settings,
        } = self;
    }
}

/// How far a generator is.
#[derive(Clone, Copy)]
pub struct Progress {
    /// How many events it gave.
    pub events: u64,
    /// The number of the last line of its sample, and before the first that with which the sample begins.
    pub number: u64,
}

impl Generator {
    /// How far it is before its first event.
    pub fn start(&self) -> Progress
        ensures { result ≡ spec.progress_at self.now.lines 0 }
    {
        Progress {
            events: 0,
            number: match &self.lines {
                GeneratedLines::Texts(_) => 0,
                GeneratedLines::Sample(from) => *from,
            },
        }
    }

    /// The next event, at the moment of the poll that makes it; none where it gave all. `[event][sequence]` is the
    /// event's number, from 0 on; it is set behind what the codec makes of the line, and the settings are applied to that.
    ///
    /// The only error is want of memory; then `progress` is as it was. It also stands for a line of more than 8,388,558
    /// bytes, which no text of a configuration holds, and for the event behind 2^63 others.
    pub fn next(
        &self,
        alloc: Global,
        moment: Instant,
        progress: &mut Progress,
    ) -> Result<Option<Event>, AllocError>
        requires { progress.old ≡ spec.progress_at self.now.lines progress.old.events }
        ensures event { IfOk result
            (λ event. event ≡ spec.event_at self.now moment progress.old.events) }
        ensures progress { OnOk result
            (progress.new ≡ spec.progress_behind self.now progress.old.events) }
        ensures err { OnErr result (progress.new ≡ progress.old) }
    {
        if self.gave_all(progress.events) {
            return Ok(None);
        }
        let Ok(sequence) = i64::try_from(progress.events) else {
            return Err(AllocError);
        };
        let number = self.number_behind(progress.number);
        let event = self.event(alloc, progress.events, sequence, number, moment)?;
        *progress = Progress {
            events: progress.events + 1,
            number,
        };
        Ok(Some(event))
    }

    /// Whether so many events are all that it gives.
    pub fn gave_all(&self, given: u64) -> bool
        ensures { result ≡ spec.gave_all self.now given }
    {
        let width = self.width();
        width == 0 || self.count != 0 && self.count <= given / width
    }

    fn width(&self) -> u64
        ensures { result ≡ spec.width self.now.lines }
    {
        match &self.lines {
            GeneratedLines::Texts(texts) => texts.len() as u64,
            GeneratedLines::Sample(_) => 1,
        }
    }

    // The number of the line behind the one of this number.
    fn number_behind(&self, number: u64) -> u64
        ensures { (k : ℕ) → number ≡ spec.last_number self.now.lines k
            → result ≡ spec.last_number self.now.lines (suc k) }
    {
        match &self.lines {
            GeneratedLines::Texts(_) => 0,
            GeneratedLines::Sample(_) => next_number(number),
        }
    }

    // The event of a place, whose line of a sample has this number.
    fn event(
        &self,
        alloc: Global,
        at: u64,
        sequence: i64,
        number: u64,
        moment: Instant,
    ) -> Result<Event, AllocError>
        requires some { spec.gave_all self.now at ≡ false }
        requires sequence { sequence ≡ pos at }
        requires number { number ≡ spec.last_number self.now.lines (suc at) }
        ensures { IfOk result (λ event. event ≡ spec.generated self.now moment at) }
    {
        match &self.lines {
            GeneratedLines::Texts(texts) => {
                self.numbered(alloc, text_at(texts.as_slice(), at), sequence, moment)
            }
            GeneratedLines::Sample(_) => {
                let line = sample_line(alloc, number)?;
                self.numbered(alloc, line.as_str(), sequence, moment)
            }
        }
    }

    // The event of a line, with its number.
    fn numbered(
        &self,
        alloc: Global,
        line: &str,
        sequence: i64,
        moment: Instant,
    ) -> Result<Event, AllocError>
        ensures { IfOk result (λ event. event
            ≡ spec.numbered self.now.settings sequence (record { line = line.now; moment = moment })) }
    {
        if line.len() > LONGEST {
            return Err(AllocError);
        }
        let mut event = event_by_codec(alloc, self.settings.codec, line, moment)?;
        put_sequence(alloc, &mut event, sequence)?;
        self.settings.apply(alloc, event)
    }
}

// The text of a place, where the texts follow one another again and again.
fn text_at(texts: &[Text], at: u64) -> &str
    requires { 0 < length texts.now }
    ensures { result.now ≡ get_or texts.now (at % length texts.now) [] }
{
    texts[(at % texts.len() as u64) as usize].as_str()
}

fn put_sequence(alloc: Global, event: &mut Event, sequence: i64) -> Result<(), AllocError>
    ensures { OnOk result (event.new ≡ set_at spec.sequence (spec.whole sequence) event.old) }
{
    let path = event_path(alloc, "sequence")?;
    match Number::new(sequence, 0) {
        Some(number) => try_put(event, &path, Value::Num(number)),
        None => unreachable!(),
    }
}
