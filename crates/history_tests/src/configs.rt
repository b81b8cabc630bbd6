// Configurations, by the names of what they have.

use crate::judged::{first_word, message};
use config_tree::{
    Arm, Comparison, Condition, Config, Operand, Plugin, SettingValue, Settings, Statement,
};
use event_tree::{Number, Text};
use plain_data::Items;
use std::alloc::{AllocError, Global};

/// The output file.
pub const FILE: &str = "out.log";

/// The address to which an output sends.
pub const ADDRESS: &str = "q";

/// The number of the box of the one output.
pub const BOX: u64 = 3;

/// The number of the box that a configuration has, if its output is one.
pub fn draws_of(alloc: Global, config: &Config) -> Result<Items<(Text, u64)>, AllocError> {
    match config.outputs.as_slice() {
        [Statement::Plugin(output)] if is_boxed(output) => draws(alloc),
        _ => Ok(Items::new(alloc)),
    }
}

/// Whether an output isn't built in.
pub fn is_boxed(output: &Plugin) -> bool {
    !matches!(
        output.name.as_str(),
        "stdout" | "file" | "pipeline" | "sink"
    )
}

/// The number of the box of the first output.
pub fn draws(alloc: Global) -> Result<Items<(Text, u64)>, AllocError> {
    let mut draws = Items::with_capacity(alloc, 1)?;
    draws.push((Text::of(alloc, "output_1")?, BOX))?;
    Ok(draws)
}

/// A configuration by `INPUT`, behind which stands `if`, where its filters are one condition, that numbers above 5 meet,
/// and the name of its output, if it has one.
pub fn config_of(alloc: Global, text: &str) -> Result<Config, AllocError> {
    let (input, rest) = first_word(text);
    let (first, second) = first_word(rest);
    let mut inputs = Items::with_capacity(alloc, 1)?;
    inputs.push(plugin(alloc, input)?)?;
    let mut filters = Items::new(alloc);
    let mut output = first;
    if first == "if" {
        filters.push(branch(alloc)?)?;
        output = second;
    }
    let mut outputs = Items::new(alloc);
    if !output.is_empty() {
        outputs.push(Statement::Plugin(plugin(alloc, output)?))?;
    }
    Ok(Config {
        inputs,
        filters,
        outputs,
    })
}

fn branch(alloc: Global) -> Result<Statement, AllocError> {
    let mut arms = Items::with_capacity(alloc, 1)?;
    let Some(five) = Number::new(5, 0) else {
        return Err(AllocError);
    };
    let field = Operand::Field(message(alloc)?);
    arms.push(Arm {
        condition: Some(Condition::Compared(Comparison::Greater, field, Operand::Number(five))),
        block: Items::new(alloc),
    })?;
    Ok(Statement::Branch(arms))
}

fn plugin(alloc: Global, name: &str) -> Result<Plugin, AllocError> {
    let list = match name {
        "file" => setting(alloc, "path", FILE)?,
        "pipeline" => setting(alloc, "send_to", ADDRESS)?,
        "listen" => setting(alloc, "address", ADDRESS)?,
        _ => Items::new(alloc),
    };
    Ok(Plugin {
        name: Text::of(alloc, name)?,
        settings: Settings { list },
    })
}

fn setting(
    alloc: Global,
    name: &str,
    value: &str,
) -> Result<Items<(Text, SettingValue)>, AllocError> {
    let mut list = Items::with_capacity(alloc, 1)?;
    let value = SettingValue::Text(Text::of(alloc, value)?);
    list.push((Text::of(alloc, name)?, value))?;
    Ok(list)
}
