//! The tables of configurations and conditions. Their answers were worked out by hand, from the grammar, the rules of printing
//! and those of the operators.

use crate::cases::cases_of;
use crate::{marks, printed, readers, rows, truths};
use config_parse::ConfigFault;
use config_tree::{FromFault, Settings};
use event_tree::Event;
use std::alloc::{AllocError, Global};
use std::{fs, io};

/// What the cases of a table are.
#[derive(Clone, Copy)]
enum ConfigTable {
    /// Texts, of which the tokens are told.
    Tokens,
    /// Texts of configurations, of which the trees or faults are told.
    Outcomes,
    /// How many blanks a text has.
    Blanks,
    /// Texts of configurations that are printed.
    Printed,
    /// Values of a setting that are printed.
    Strings,
    /// Conditions that are printed.
    Conditions,
    /// Readers of settings, and the name that each is given.
    Readers,
    /// Kinds of refusals, and the name in each.
    Refusals,
    /// Conditions, of which it is told what they say of the event.
    Truths,
    /// Conditions with many joints in a row.
    Rows,
}

const TABLES: [(&str, ConfigTable); 28] = [
    ("tokens", ConfigTable::Tokens),
    ("sections", ConfigTable::Outcomes),
    ("names", ConfigTable::Outcomes),
    ("values", ConfigTable::Outcomes),
    ("twice", ConfigTable::Outcomes),
    ("branches", ConfigTable::Outcomes),
    ("section_faults", ConfigTable::Outcomes),
    ("setting_faults", ConfigTable::Outcomes),
    ("branch_faults", ConfigTable::Outcomes),
    ("levels", ConfigTable::Outcomes),
    ("faults", ConfigTable::Outcomes),
    ("texts", ConfigTable::Outcomes),
    ("blanks", ConfigTable::Blanks),
    ("printed", ConfigTable::Printed),
    ("strings", ConfigTable::Strings),
    ("conditions", ConfigTable::Conditions),
    ("nested", ConfigTable::Conditions),
    ("compared", ConfigTable::Conditions),
    ("readers", ConfigTable::Readers),
    ("refusals", ConfigTable::Refusals),
    ("operands", ConfigTable::Truths),
    ("sides", ConfigTable::Truths),
    ("orders", ConfigTable::Truths),
    ("members", ConfigTable::Truths),
    ("matches", ConfigTable::Truths),
    ("joints", ConfigTable::Truths),
    ("pairs", ConfigTable::Truths),
    ("rows", ConfigTable::Rows),
];

/// What tables speak of besides their cases.
#[derive(Drop)]
struct Given {
    settings: Settings,
    event: Event,
}

/// Prints what is answered in each case of the tables of configurations.
pub fn print_tables(rt: &HostRuntime) -> io::Result<()> {
    let given = read_given(rt)?;
    for (name, table) in &TABLES {
        let text = fs::read_to_string(rt, *name)?;
        println!(rt; "# {name}")?;
        print_answers(rt, &given, *table, text.as_str())?;
    }
    println!(rt; "# want of memory")?;
    print_want_of_memory(rt)
}

/// What each of the faults says that memory ran out.
fn print_want_of_memory(rt: &HostRuntime) -> io::Result<()> {
    println!(rt; "{}", ConfigFault::Memory)?;
    println!(rt; "{}", FromFault::Memory)
}

fn read_given(rt: &HostRuntime) -> io::Result<Given> {
    let text = fs::read_to_string(rt, "settings")?;
    let settings = readers::settings_of(rt.alloc(), text.as_str())?;
    let text = fs::read_to_string(rt, "fields")?;
    let event = truths::event_of(rt.alloc(), text.as_str())?;
    Ok(Given { settings, event })
}

fn print_answers(
    rt: &HostRuntime,
    given: &Given,
    table: ConfigTable,
    text: &str,
) -> io::Result<()> {
    for case in cases_of(rt.alloc(), text)? {
        let answer = answer(rt.alloc(), given, table, case)?;
        println!(rt; "{answer}")?;
    }
    Ok(())
}

/// What is answered in a case of a table.
fn answer(
    alloc: Global,
    given: &Given,
    table: ConfigTable,
    case: &str,
) -> Result<String, AllocError> {
    match table {
        ConfigTable::Tokens => marks::marks_of(alloc, case),
        ConfigTable::Outcomes => printed::outcome(alloc, case),
        ConfigTable::Blanks => printed::outcome_of_blanks(alloc, case),
        ConfigTable::Printed => printed::text(alloc, case),
        ConfigTable::Strings => printed::string(alloc, case),
        ConfigTable::Conditions => printed::condition(alloc, case),
        ConfigTable::Readers => readers::answer(alloc, &given.settings, case),
        ConfigTable::Refusals => readers::refusal(alloc, case),
        ConfigTable::Truths => truths::answer(alloc, &given.event, case),
        ConfigTable::Rows => rows::answer(alloc, &given.event, case),
    }
}
