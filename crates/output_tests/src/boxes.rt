// Boxed outputs by their numbers.
use event_tree::{Event, Text};
use foreign_parts::{DeliverFault, Delivery};
use line_outputs::{BoxedOutput, BoxedOutputs, OutputCall};
use std::alloc::{AllocError, Global};
use table_rows::part;

/// An output that takes no events, and counts its calls.
#[derive(Drop)]
pub struct Deaf {
    pub number: u64,
    pub laters: u64,
    pub closes: u64,
}

impl OutputCall for Deaf {
    ghost use Rattle.std.specs.Prelude.{None};

    type Inside = Text;

    ghost number = { λ deaf. deaf.number };

    ghost held = { λ _. None };

    ghost faults = { λ _. 0 };

    ghost laters = { λ deaf. deaf.laters };

    ghost closes = { λ deaf. deaf.closes };

    fn own_number(&self) -> u64 {
        self.number
    }

    fn deliver(&mut self, _events: &[Event]) -> Result<Delivery, DeliverFault> {
        self.laters = self.laters.saturating_add(1);
        Ok(Delivery::Later)
    }

    fn close(&mut self) {
        self.closes = self.closes.saturating_add(1);
    }
}

/// Such an output, of the plugin `box` and with the id `o1`.
pub fn boxed(alloc: Global, number: u64) -> Result<BoxedOutput<Deaf>, AllocError> {
    Ok(BoxedOutput {
        kind: Text::of(alloc, "box")?,
        id: Text::of(alloc, "o1")?,
        output: Deaf {
            number,
            laters: 0,
            closes: 0,
        },
    })
}

/// Adds what a row's outputs counted, call by call.
pub fn add_run(to: &mut String, row: &str) -> Result<(), AllocError> {
    let alloc = *to.allocator();
    let (numbers, calls) = part(row);
    let mut outputs = BoxedOutputs::new(alloc);
    for word in numbers.split_whitespace() {
        add_output(alloc, &mut outputs, word.parse().unwrap_or(0))?;
    }
    for word in calls.split_whitespace() {
        add_call(to, &mut outputs, word)?;
    }
    Ok(())
}

fn add_output(
    alloc: Global,
    outputs: &mut BoxedOutputs<Deaf>,
    number: u64,
) -> Result<(), AllocError> {
    let output = boxed(alloc, number)?;
    outputs.reserve(1)?;
    outputs.add(output);
    Ok(())
}

fn add_call(
    to: &mut String,
    outputs: &mut BoxedOutputs<Deaf>,
    word: &str,
) -> Result<(), AllocError> {
    let (call, number) = word.split_once(':').unwrap_or((word, ""));
    let number = number.parse::<u64>().unwrap_or(0);
    if !outputs.is_known(number) {
        return to.push_str("none ");
    }
    if call == "c" {
        let closed = outputs.close(number);
        return write!(to, "{} closed after {} ", closed.closes, closed.laters);
    }
    add_delivery(to, outputs, number)
}

fn add_delivery(
    to: &mut String,
    outputs: &mut BoxedOutputs<Deaf>,
    number: u64,
) -> Result<(), AllocError> {
    if !outputs.is_known(number) {
        return Ok(());
    }
    let event = [Event::new(*to.allocator())];
    match outputs.deliver(number, &event) {
        Ok(Delivery::Took(_)) => to.push_str("took "),
        Ok(Delivery::Later) => to.push_str("later "),
        Err(_) => to.push_str("fault "),
    }
}
