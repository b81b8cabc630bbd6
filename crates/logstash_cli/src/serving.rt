// A run whose jobs are done by workers in threads of their own.
ghost use Rattle.std.specs.Prelude.{◌≡◌};

use crate::hiring::hire_all;
use batch_shop::ThreadShop;
use foreign_parts::{BoxPool, FilterCall};
use history_book::BlankBook;
use io_traits::{Clock, Files, Links, Sink, Source, Store};
use line_jobs::Close;
use line_outputs::OutputCall;
use logstash_top::{Status, World, logstash, workers_wanted};
use std::alloc::Global;
use std::rt::Clock as RuntimeClock;
use std::sync::Wait;
use std::thread::Threads;

/// Runs what the words order, with as many workers as they want.
pub fn serve<
    R: Threads + Wait + RuntimeClock + Clone + Drop + Send + 'static,
    S: Store,
    P: Files,
    I: Source,
    L: Links,
    O: Sink,
    K: Clock,
    F: FilterCall + Close + Send + 'static,
    X: OutputCall,
    B: BoxPool<Filter = F, Output = X>,
>(
    rt: &R,
    alloc: Global,
    words: &[String],
    world: &mut World<S, P, I, L, O, K>,
    rack: &mut B,
) -> Status
    requires { B.output_number ≡ X.number }
{
    let Ok(workers) = workers_wanted(alloc, words) else {
        return Status::NoMemory;
    };
    let Ok(mut shop) = ThreadShop::new(alloc, workers) else {
        return Status::NoMemory;
    };
    hire_all(rt, &mut shop, workers);
    let status = logstash(rt, alloc, words, world, rack, &mut shop, &mut BlankBook);
    let _results = shop.close(rt);
    status
}
