//! A flag that one thread sets and others wait for.
use std::alloc::AllocError;
use std::sync::Wait;
use std::sync::atomic::AtomicU64;
use std::sync::atomic::Ordering::SeqCst;
use std::test::Fail;
use std::thread::{Threads, join};
use tc_bells::{Bell, Bells, Roll};

fn await_flag<R: Wait>(rt: &R, bell: &Bell, flag: &AtomicU64) {
    for _ in rt.forever() {
        let rung = bell.rung();
        if flag.load(SeqCst) == 1 {
            return;
        }
        bell.sleep(rt, rung);
    }
}

fn await_flag_by_closure<R: Wait>(rt: &R, bell: &Bell, flag: &AtomicU64) {
    for _ in rt.forever() {
        if flag.load(SeqCst) == 1 {
            return;
        }
        bell.sleep_unless(rt, || flag.load(SeqCst) == 1);
    }
}

#[test]
fn a_ring_before_the_sleep_ends_it(rt: HostRuntime) -> Result<(), Fail> {
    let bell = Bell::new();
    let rung = bell.rung();
    bell.ring();
    bell.sleep(&rt, rung);
    bell.sleep_unless(&rt, || true);
    assert_eq!(rt; bell.rung(), 1);
    bell.ring_sleepers();
    assert_eq!(rt; bell.rung(), 1);
    Ok(())
}

#[test]
fn threads_at_two_bells_wake(rt: HostRuntime) -> Result<(), Fail> {
    let bells = Bells::new(rt.alloc(), 2)?;
    assert!(rt; bells.get(2).is_none());
    let Some(first) = bells.get(0) else {
        return Ok(());
    };
    let Some(second) = bells.get(1) else {
        return Ok(());
    };
    let flag = AtomicU64::new(0);
    join(
        &rt,
        || {
            join(
                &rt,
                || await_flag(&rt, first, &flag),
                || await_flag_by_closure(&rt, second, &flag),
            )
        },
        || {
            flag.store(1, SeqCst);
            first.ring();
            second.ring_sleepers();
        },
    );
    assert_eq!(rt; first.rung(), 1);
    Ok(())
}

#[test]
fn all_bells_ring(rt: HostRuntime) -> Result<(), Fail> {
    let bells = Bells::new(rt.alloc(), 3)?;
    bells.ring_all();
    let mut rung: u64 = 0;
    for number in 0..3 {
        if let Some(bell) = bells.get(number) {
            rung = rung.wrapping_add(bell.rung());
        }
    }
    assert_eq!(rt; rung, 3);
    Ok(())
}

#[test]
fn a_roll_is_gone_through_from_call_to_call(rt: HostRuntime) -> Result<(), Fail> {
    let roll = Roll::new(rt.alloc(), 200)?;
    assert_eq!(rt; roll.next(0, 200), Some(0));
    assert_eq!(rt; roll.next(70, 200), Some(70));
    for number in 0..200 {
        roll.strike(number);
    }
    assert_eq!(rt; roll.next(0, 200), None);
    roll.call(63);
    roll.call(64);
    roll.call(190);
    roll.call(5000);
    assert_eq!(rt; roll.next(0, 200), Some(63));
    assert_eq!(rt; roll.next(64, 200), Some(64));
    assert_eq!(rt; roll.next(65, 200), Some(190));
    assert_eq!(rt; roll.next(65, 190), None);
    assert_eq!(rt; roll.next(191, 200), None);
    roll.call_all();
    assert_eq!(rt; roll.next(7, 8), Some(7));
    Ok(())
}
