// The event that an encoding spells.
ghost use Rattle.std.specs.Prelude.{◌≡◌, ◌≤◌, length, IfOk};
ghost use Rattle.element_code.specs.Parts.{event_spelling};
ghost use Rattle.element_code.specs.Values.{IsWhole};
ghost use Rattle.element_code.specs.Faults.{IsRefusedAt};
ghost use Rattle.element_code.specs.Gives.{ReadsWhatIsSpelled, ReadsEachEvent, IsAt};
ghost use Rattle.element_code.specs.declared.fault.ElementFault.TheVariants.{At};

use crate::fault::ElementFault;
use crate::reading::event_of;
use crc_frame::Stop;
use event_tree::Event;
use std::alloc::Global;

/// How many bytes the encoding of an event may have.
pub(crate) const MOST_BYTES: usize = 16_777_216;

/// The event of which these bytes are the one spelling.
///
/// The bytes are read once, each text is copied once, and reading recurses once for each level, of
/// which there are at most 128. It takes memory in proportion to the bytes, whatever the counts in
/// them say.
pub fn decode(alloc: Global, bytes: &[u8]) -> Result<Event, ElementFault>
    // What is read is spelled so.
    ensures found { IfOk result (λ e. IsWhole e) }
    ensures spelled { IfOk result (λ e. event_spelling e ≡ bytes.now) }
    ensures short { IfOk result (λ _. length bytes.now ≤ 16777216) }

    // What is spelled so is read, unless memory runs out.
    ensures only { ReadsWhatIsSpelled result bytes.now }

    // So what `encode` wrote of an event is read as that event.
    ensures again { ReadsEachEvent result bytes.now }

    // A fault is where the bytes stop being the spelling of an event.
    ensures at { IsAt result (IsRefusedAt bytes.now) }
{
    if bytes.len() > MOST_BYTES {
        return Err(ElementFault::At(MOST_BYTES));
    }
    match event_of(alloc, bytes) {
        Ok(event) => Ok(event),
        Err(Stop::Left(left)) => Err(ElementFault::At(bytes.len() - left)),
        Err(Stop::Memory) => Err(ElementFault::Memory),
    }
}
