// Tests of shops whose workers run in threads.
ghost use Rattle.std.specs.Prelude.{◌≡◌, ◌+◌, ◌%◌, ◌^◌, ⊤};

use batch_shop::{InlineShop, Shop, Task, ThreadShop};
use std::alloc::Global;
use std::sync::Arc;
use std::sync::atomic::{AtomicU64, Ordering};
use std::test::Fail;
use std::thread;

/// A number whose successor is wanted.
#[derive(Drop)]
struct NextJob(u64);

impl Task for NextJob {
    type Done = u64;

    ghost gives = { λ job done. done ≡ (job.0 + 1) % 2 ^ 64 };

    fn work(self) -> u64 {
        self.0.wrapping_add(1)
    }
}

/// Waits, for some turns, until another job has begun too.
#[derive(Drop)]
struct Meets(Arc<AtomicU64, Global>);

impl Task for Meets {
    type Done = bool;

    ghost gives = { λ _ _. ⊤ };

    fn work(self) -> bool {
        let _ = self.0.fetch_add(1, Ordering::SeqCst);
        for _ in 0..1_000_000u32 {
            if self.0.load(Ordering::SeqCst) >= 2 {
                return true;
            }
            thread::yield_now();
        }
        false
    }
}

fn sum(numbers: &[u64]) -> u64 {
    let mut sum = 0u64;
    for number in numbers {
        sum = sum.wrapping_add(*number);
    }
    sum
}

// Whether the shop takes 64 jobs.
fn takes_64(shop: &mut ThreadShop<NextJob>) -> bool {
    for number in 0..64u64 {
        if shop.give(NextJob(number)).is_some() {
            return false;
        }
    }
    true
}

#[test]
fn a_shop_does_its_jobs_itself(rt: HostRuntime) -> Result<(), Fail> {
    let mut shop = InlineShop::new(rt.alloc(), 2)?;
    let given = shop.give(NextJob(1)).is_none() && shop.give(NextJob(2)).is_none();
    let back = shop.give(NextJob(3));
    let first = shop.take();
    let second = shop.take();
    assert!(rt;
        given && back.is_some() && first == Some(2) && second == Some(3) && shop.take().is_none()
    );
    Ok(())
}

#[test]
fn workers_do_the_jobs(rt: HostRuntime) -> Result<(), Fail> {
    let mut shop = ThreadShop::new(rt.alloc(), 4)?;
    for _ in 0..4u32 {
        let worker = shop.hire()?;
        let _ = thread::spawn(&rt, move || worker.serve(&rt))?;
    }
    let given = shop.give(NextJob(1)).is_none() && shop.give(NextJob(2)).is_none();
    assert!(rt; given && sum(shop.close(&rt).as_slice()) == 5);
    Ok(())
}

#[test]
fn a_result_is_waited_for_where_a_job_is_out(rt: HostRuntime) -> Result<(), Fail> {
    let mut shop = ThreadShop::new(rt.alloc(), 2)?;
    for _ in 0..2u32 {
        let worker = shop.hire()?;
        let _ = thread::spawn(&rt, move || worker.serve(&rt))?;
    }
    let none = shop.take_next(&rt).is_none();
    let given = shop.give(NextJob(1)).is_none() && shop.give(NextJob(2)).is_none();
    let first = shop.take_next(&rt).unwrap_or(0);
    let second = shop.take_next(&rt).unwrap_or(0);
    let last = shop.take_next(&rt).is_none();
    assert!(rt; none && given && last && first.min(second) == 2 && first.max(second) == 3);
    Ok(())
}

#[test]
fn two_workers_work_at_once(rt: HostRuntime) -> Result<(), Fail> {
    let begun = Arc::new(rt.alloc(), AtomicU64::new(0))?;
    let mut shop = ThreadShop::new(rt.alloc(), 2)?;
    for _ in 0..2u32 {
        let worker = shop.hire()?;
        let _ = thread::spawn(&rt, move || worker.serve(&rt))?;
    }
    let first = shop.give(Meets(Arc::try_clone(&begun)?)).is_none();
    let second = shop.give(Meets(begun)).is_none();
    assert!(rt; first && second && shop.close(&rt).as_slice() == [true, true].as_slice());
    Ok(())
}

#[test]
fn a_shop_without_workers_hands_each_job_back(rt: HostRuntime) -> Result<(), Fail> {
    let mut shop = ThreadShop::new(rt.alloc(), 2)?;
    let _not_started = shop.hire()?;
    let dismissed = shop.dismiss();
    let back = shop.give(NextJob(1));
    let none = shop.take();
    assert!(rt;
        dismissed && back.is_some() && none.is_none() && shop.close(&rt).as_slice().is_empty()
    );
    Ok(())
}

#[test]
fn sixty_four_workers_do_a_job_each(rt: HostRuntime) -> Result<(), Fail> {
    let mut shop = ThreadShop::new(rt.alloc(), 64)?;
    for _ in 0..64u32 {
        let worker = shop.hire()?;
        let _ = thread::spawn(&rt, move || worker.serve(&rt))?;
    }
    let given = takes_64(&mut shop);
    assert!(rt; given && sum(shop.close(&rt).as_slice()) == 65 * 32);
    Ok(())
}

/// One job is done when the shop closes, one waits for another, and one was given before its worker ran.
#[test]
fn a_shop_is_closed_with_jobs_in_each_state(rt: HostRuntime) -> Result<(), Fail> {
    let begun = Arc::new(rt.alloc(), AtomicU64::new(1))?;
    let mut shop = ThreadShop::new(rt.alloc(), 3)?;
    let first = shop.hire()?;
    let second = shop.hire()?;
    let third = shop.hire()?;
    let _ = thread::spawn(&rt, move || first.serve(&rt))?;
    let done = shop.give(Meets(Arc::try_clone(&begun)?)).is_none();
    for _ in 0..1_000_000u32 {
        if begun.load(Ordering::SeqCst) == 2 {
            break;
        }
        thread::yield_now();
    }
    begun.store(0, Ordering::SeqCst);
    let _ = thread::spawn(&rt, move || second.serve(&rt))?;
    let waits = shop.give(Meets(Arc::try_clone(&begun)?)).is_none();
    let given = shop.give(Meets(begun)).is_none();
    let _ = thread::spawn(&rt, move || third.serve(&rt))?;
    let home = shop.close(&rt);
    assert!(rt; done && waits && given && home.as_slice().len() == 3);
    Ok(())
}
