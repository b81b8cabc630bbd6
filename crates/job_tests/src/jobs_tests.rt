// A job with one event, done in line and by a worker in a thread.
use crate::crossing::NoFilter;
use batch_shop::{InlineShop, Shop, ThreadShop};
use built_plugins::{Flat, Outputs, Shared};
use config_parse::parse;
use config_tree::{Config, copy_statements};
use event_tree::{Event, Events};
use graph_checks::PlannedOutputs;
use line_jobs::{BatchResult, Job, JobDone};
use plain_data::Items;
use plugin_graph::{Graph, Kit};
use plugin_settings::read_output;
use std::alloc::Global;
use std::test::Fail;
use std::thread;

const CONFIG: &str = "filter { mutate { add_field => { \"a\" => \"1\" } } }
output { stdout { codec => json_lines } sink {} file { path => \"b\" codec => line { format => \"%{a}\" } } }";

// The outputs of a configuration without boxes.
fn outgoing_of(alloc: Global, config: &Config) -> Option<PlannedOutputs> {
    let outputs = copy_statements(alloc, config.outputs.as_slice()).ok()?;
    let Flat { plugins, .. } = Flat::of_statements(alloc, outputs).ok()?;
    let outputs = Outputs::of_plugins(alloc, &[], plugins.as_slice()).ok()?;
    let mut settings = Items::new(alloc);
    for plugin in plugins.as_slice() {
        let read = read_output(plugin.name.as_str(), &plugin.settings).ok()?;
        settings.push(read).ok()?;
    }
    Some(PlannedOutputs { outputs, settings })
}

fn job_of(alloc: Global) -> Option<Job<NoFilter>> {
    let config = parse(alloc, CONFIG).ok()?;
    let graph = Shared::new(alloc, Graph::new(alloc, &config).ok()?).ok()?;
    let outgoing = Shared::new(alloc, outgoing_of(alloc, &config)?).ok()?;
    let kit = Kit::new(alloc, &config, &[]).ok()?;
    let mut events = Events::new(alloc);
    events.push(Event::new(alloc)).ok()?;
    Some(Job {
        line: 1,
        batch: 2,
        generation: 3,
        events,
        kit,
        graph,
        outgoing,
    })
}

// Whether it is what the job gives, with its bytes for stdout and the file.
fn is_done(done: Option<JobDone<NoFilter>>) -> bool {
    match done {
        Some(done) => {
            let JobDone {
                line,
                batch,
                generation,
                result,
                ..
            } = done;
            line == 1 && batch == 2 && generation == 3 && is_made(result.ok())
        }
        None => false,
    }
}

fn is_made(made: Option<BatchResult>) -> bool {
    let Some(made) = made else {
        return false;
    };
    let [stdout, sink, file] = made.due.as_slice() else {
        return false;
    };
    made.dead.is_empty()
        && made.verdicts.is_empty()
        && stdout.events.len() == 1
        && stdout.bytes.as_slice() == b"{\"a\":\"1\"}\n".as_slice()
        && sink.bytes.is_empty()
        && file.bytes.as_slice() == b"1\n".as_slice()
}

fn is_given<P: Shop<Job<NoFilter>>>(shop: &mut P, job: Option<Job<NoFilter>>) -> bool {
    match job {
        Some(job) => shop.give(job).is_none(),
        None => false,
    }
}

#[test]
fn a_job_is_done_in_line(rt: HostRuntime) -> Result<(), Fail> {
    let mut shop = InlineShop::new(rt.alloc(), 1)?;
    let given = is_given(&mut shop, job_of(rt.alloc()));
    let done = is_done(shop.take());
    assert!(rt; given && done);
    Ok(())
}

#[test]
fn a_job_is_done_by_a_worker(rt: HostRuntime) -> Result<(), Fail> {
    let mut shop = ThreadShop::new(rt.alloc(), 1)?;
    let worker = shop.hire()?;
    let _ = thread::spawn(&rt, move || worker.serve(&rt))?;
    let given = is_given(&mut shop, job_of(rt.alloc()));
    let done = is_done(shop.take_next(&rt));
    let none_left = shop.close(&rt).is_empty();
    assert!(rt; given && done && none_left);
    Ok(())
}
