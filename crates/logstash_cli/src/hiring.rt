// Workers in threads of their own.
ghost use Rattle.std.specs.Prelude.{◌≡◌};
ghost use Rattle.batch_shop.specs.Started.{jobs_of};

use batch_shop::{Task, ThreadShop};
use std::sync::Wait;
use std::thread::{self, Threads};

/// Hires so many workers, each in a thread of its own. Where no further thread can be started, or memory runs out, there are
/// fewer.
pub fn hire_all<R: Threads + Wait + Clone + Drop + Send + 'static, T: Task + Send + 'static>(
    rt: &R,
    shop: &mut ThreadShop<T>,
    count: u32,
)
where
    T::Done: Send + 'static,
    ensures { jobs_of shop.new ≡ jobs_of shop.old }
{
    for _ in 0..count {
        let Ok(own) = rt.clone() else {
            return;
        };
        let Ok(worker) = shop.hire() else {
            return;
        };
        if thread::spawn(rt, move || worker.serve(&own)).is_err() {
            let _ = shop.dismiss();
            return;
        }
    }
}
