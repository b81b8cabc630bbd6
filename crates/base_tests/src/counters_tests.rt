// Tests of counters at their last number.
use monitor_core::{Counter, Monitor, MonitorOpen, Total};
use std::test::Fail;

#[test]
fn a_counter_stays_at_the_last_number(rt: HostRuntime) -> Result<(), Fail> {
    let MonitorOpen { monitor, mut seats } = Monitor::new(rt.alloc(), 1)?;
    let Some(mut seat) = seats.pop() else {
        panic!(rt; "no seat")
    };
    monitor.add(&mut seat, Counter::Dead, u64::MAX);
    monitor.add(&mut seat, Counter::Dead, 1);
    let dead = monitor.read(&mut seat, Counter::Dead);
    let accepted = monitor.read(&mut seat, Counter::Accepted);
    assert!(rt;
        dead == Total {
            sum: u128::from(u64::MAX),
            stuck: true
        } && accepted
            == Total {
                sum: 0,
                stuck: false
            }
    );
    Ok(())
}
