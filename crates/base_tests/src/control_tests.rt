// Tests of the control that looks every three seconds.
use io_real::GoControl;
use io_traits::{Control, Said};
use std::thread;
use std::time::Duration;

fn says(control: &mut GoControl<&HostRuntime>, want: Said) -> bool {
    control.next() == want
}

#[test]
fn a_go_control_looks_after_three_seconds(rt: HostRuntime) {
    let mut control = GoControl::new(&rt);
    let first = says(&mut control, Said::Go);
    thread::sleep(&rt, Duration::from_millis(2_000));
    let second = says(&mut control, Said::Go);
    thread::sleep(&rt, Duration::from_millis(1_100));
    assert!(rt; first && second && says(&mut control, Said::Look) && says(&mut control, Said::Go));
}
