//! Calls of the libraries, many times over, to be timed from outside by the scripts in bench/. The first word says
//! what is timed, and those behind it what it is given. It prints a number, which shows that the work was done.
#![tactic(auto)]

mod conditions;
mod counters;
mod crc;
mod elements;
mod events;
mod inputs;
mod jobs;
mod json;
mod letters;
mod outputs;
mod pages;
mod parcels;
mod parse;
mod patterns;
mod queue;
mod store;
mod templates;

use jobs::Order;
use std::process::ExitCode;
use std::{env, io, thread};

const USAGE: &str = "usage, where FILE is one that can be read:
conditions CONDITION ROUNDS
counters ADDS
crc FILE PASSES
elements size|encode|decode ROUNDS
events get|put|take|copy ROUNDS
inputs file line|json FILE POLLS
inputs tcp line|json PORT LINES
inputs make line|json FILE ROUNDS
jobs WORKERS TURNS JOBS
json read|write ROUNDS FILE
letters hold|drop_newer|drop_older LIMIT BATCHES LETTERS
outputs FILE SLOT BATCHES BYTES
pages write|scan FILE ROWS EVERY
parcels PARCELS
parse parse|lex|print TIMES FILE
patterns search FILE LINES
patterns make FILE COUNT
queue size|encode|decode ROUNDS
queue open|fill|keep|hold|purge CAPACITY ROWS
store FILE APPENDS EVERY
templates TIMES FILE
";

fn main(rt: HostRuntime) -> io::Result<ExitCode> {
    let words: Vec<String> = env::args(&rt)?.skip(1).collect(rt.alloc())?;
    let Some((part, given)) = words.split_first() else {
        print!(rt; "{USAGE}")?;
        return Ok(ExitCode::SUCCESS);
    };
    let done = match Order::read(part.as_str(), given) {
        Some(order) => {
            let mut shop = order.shop(rt.alloc())?;
            for _ in 0..order.workers {
                let worker = shop.hire()?;
                let _started = thread::spawn(&rt, move || worker.serve(&rt))?;
            }
            order.fill(&rt, shop)
        }
        None => match part.as_str() {
            "parcels" => parcels::run(&rt, rt.alloc(), given),
            part => run(&rt, part, given),
        },
    };
    tell(&rt, done)
}

fn tell(rt: &HostRuntime, done: Option<u64>) -> io::Result<ExitCode> {
    match done {
        Some(done) => {
            println!(rt; "{done}")?;
            Ok(ExitCode::SUCCESS)
        }
        None => {
            let _ = eprint!(rt; "{USAGE}");
            Ok(ExitCode::FAILURE)
        }
    }
}

/// How much was done; none where the words are not those of the usage, a file can't be read, or memory ran out.
fn run(rt: &HostRuntime, part: &str, given: &[String]) -> Option<u64> {
    match part {
        "conditions" => conditions::run(rt.alloc(), given),
        "counters" => counters::run(rt.alloc(), given),
        "elements" => elements::run(rt.alloc(), given),
        "events" => events::run(rt.alloc(), given),
        _ => run_on_files(rt, part, given),
    }
}

fn run_on_files(rt: &HostRuntime, part: &str, given: &[String]) -> Option<u64> {
    match part {
        "crc" => crc::run(rt, given),
        "inputs" => inputs::run(rt, given),
        "json" => json::run(rt, given),
        "letters" => letters::run(rt, given),
        "outputs" => outputs::run(rt, given),
        "pages" => pages::run(rt, given),
        "parse" => parse::run(rt, given),
        "patterns" => patterns::run(rt, given),
        "queue" => queue::run(rt, given),
        "store" => store::run(rt, given),
        "templates" => templates::run(rt, given),
        _ => None,
    }
}
