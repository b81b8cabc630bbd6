//! The program `logstash`: runs or tests what its words ask for, over the real files, stdin, connections, stdout, stderr and
//! clock, with 64 outputs `elasticsearch` as boxes. What it does is the contract of the call that it makes: `logstash`,
//! `test_config`, or a tool for queues, as `which` says.
#![tactic(auto)]

mod hiring;
mod serving;
mod standard;
mod threaded_source;
mod tools;

use batch_shop::ThreadShop;
use foreign_parts::{Boxes, Rack};
use io_real::{FileStore, RealFiles, StdinSource, SystemClock, TcpLinks, WriteSink};
use logstash_top::{Status, Which, World, test_config, which};
use out_bulk::{Bulk, TcpPeer};
use serving::serve;
use standard::StandardOutput;
use std::fs::File;
use std::io::{self, ErrorKind, Stdin};
use std::process::ExitCode;
use std::{env, thread};
use threaded_source::ThreadedSource;
use tools::{check, repair};

/// The status of want of memory.
const NO_MEMORY: u8 = 8;

/// The name of the output that sends events to Elasticsearch.
const BULK: &str = "elasticsearch";

/// How many of it configurations may take.
const BULK_OUTPUTS: usize = 64;

/// How many standard streams there are.
const STREAMS: usize = 3;

/// The real outside.
type RealWorld<'a> = World<
    FileStore<&'a HostRuntime>,
    RealFiles<&'a HostRuntime>,
    ThreadedSource<StdinSource<Stdin>>,
    TcpLinks<HostRuntime>,
    WriteSink<StandardOutput, &'a HostRuntime>,
    SystemClock<&'a HostRuntime>,
>;

fn main(rt: HostRuntime) -> ExitCode {
    let Ok(_held) = closed_streams(&rt) else {
        return no_memory(&rt);
    };
    let Ok((words, call, world)) = beginning(&rt) else {
        return no_memory(&rt);
    };
    let mut rack = Rack::new(rt.alloc());
    for _ in 0..BULK_OUTPUTS {
        let Ok(net) = rt.clone() else {
            return no_memory(&rt);
        };
        let Ok(output) = Box::new(rt.alloc(), Bulk::new(rt.alloc(), TcpPeer::new(net))) else {
            return no_memory(&rt);
        };
        if rack.add_output(BULK, output).is_err() {
            return no_memory(&rt);
        }
    }
    let mut world = world;
    let status = match call {
        Which::Test => tested(&rt, &words, world, &mut rack),
        Which::Check => return ExitCode::from(check(&rt, &words, &mut world.stdout)),
        Which::Repair => return ExitCode::from(repair(&rt, &words, &mut world.stdout)),
        Which::Run | Which::Apart => {
            if let Ok(reader) = world.stdin.shop().hire() {
                if thread::spawn(&rt, move || reader.serve(&rt)).is_err() {
                    let _ = world.stdin.shop().dismiss();
                }
            }
            serve(&rt, rt.alloc(), &words, &mut world, &mut rack)
        }
    };
    ExitCode::from(status.number())
}

/// Takes the numbers of the standard streams that are closed, so that no file of the program gets one of them: what goes to
/// a stream that is closed fails then. The only error is want of memory.
fn closed_streams(rt: &HostRuntime) -> io::Result<Vec<File>> {
    let mut held = Vec::with_capacity(rt.alloc(), STREAMS)?;
    for _ in 0..STREAMS {
        match File::open(rt, "/dev/null") {
            Ok(file) => held.push(file)?,
            Err(e) if e.kind() == ErrorKind::OutOfMemory => return Err(e),
            Err(_) => {}
        }
    }
    Ok(held)
}

/// Tells that memory ran out.
fn no_memory(rt: &HostRuntime) -> ExitCode {
    let _ = eprintln!(rt; "logstash: no memory");
    ExitCode::from(NO_MEMORY)
}

/// Tests the configuration that the words name, over the real files, stdout and stderr.
fn tested<B: Boxes>(
    rt: &HostRuntime,
    words: &[String],
    world: RealWorld<'_>,
    boxes: &mut B,
) -> Status {
    let World {
        mut files,
        mut stdout,
        mut stderr,
        ..
    } = world;
    test_config(
        rt.alloc(),
        words,
        &mut files,
        &mut stdout,
        &mut stderr,
        boxes,
    )
}

/// The words, the call that they are for, and the real objects. The only error is want of memory.
fn beginning(rt: &HostRuntime) -> io::Result<(Vec<String>, Which, RealWorld<'_>)> {
    let words = words(rt)?;
    let call = which(rt.alloc(), &words)?;
    Ok((words, call, real_world(rt)?))
}

/// Makes the real objects. The only error is want of memory.
fn real_world(rt: &HostRuntime) -> io::Result<RealWorld<'_>> {
    let net = rt.clone()?;
    Ok(World {
        store: FileStore::new(rt.alloc(), rt),
        files: RealFiles::new(rt.alloc(), rt),
        stdin: ThreadedSource::new(
            rt.alloc(),
            StdinSource::new(rt.stdin()),
            ThreadShop::new(rt.alloc(), 1)?,
        )?,
        links: TcpLinks::new(rt.alloc(), net),
        stdout: WriteSink::new(rt, StandardOutput::Out(rt.stdout())),
        stderr: WriteSink::new(rt, StandardOutput::Err(rt.stderr())),
        clock: SystemClock::new(rt),
    })
}

/// The words behind the program's name. Where one of them is no text, an empty word stands for all: the
/// command doesn't take it. The only error is want of memory.
fn words(rt: &HostRuntime) -> io::Result<Vec<String>> {
    match env::args(rt) {
        Ok(args) => Ok(args.skip(1).collect(rt.alloc())?),
        Err(e) if e.kind() == ErrorKind::OutOfMemory => Err(e),
        Err(_) => Ok(vec![in rt.alloc(); String::new(rt.alloc())]?),
    }
}
