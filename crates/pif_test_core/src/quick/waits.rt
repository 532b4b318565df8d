//! Two passes that wait for one word: both sleep, and the one that came first is served first.
ghost use Rattle.std.specs.Prelude.{◌≡◌, ◌<◌};
ghost use Rattle.pif_quick.specs.Quick.{word_count, IsPassOf, IsTurnOf};

use super::passes::{Course, Part, run, wait_for_round};
use super::turns::{hand_over, try_it};
use pif_quick::{Held, Pass, Quick};
use std::process::Abort;
use std::rt::Clock;
use std::sync::Wait;
use std::sync::atomic::Ordering;
use std::test::Fail;
use std::thread;
use std::time::Duration;

/// How often a thread looks whether a pass sleeps, a millisecond each time.
const LOOKS: u32 = 10_000;

/// Waits until a pass stands in the order of those that wait, which has to come: it is put there only to sleep.
fn wait_for_sleep<R: Wait + Clock + Abort>(rt: &R, quick: &Quick<u64>, number: u8) {
    for _ in 0..LOOKS {
        if quick.is_parked(rt, number) {
            return;
        }
        let _ = thread::sleep(rt, Duration::from_millis(1));
    }
    panic!(rt; "the pass {number} does not stand in the order");
}

/// Locks the word 0 once it is held, in its turn, and writes the pass's number behind the digits of the value.
pub(super) fn sign<R: Wait + Clock + Abort>(
    rt: &R,
    quick: &Quick<u64>,
    pass: &mut Pass<u64>,
    course: &Course,
    order: [u8; 2],
)
    requires { IsPassOf quick.now pass.old × (1 < word_count quick.now) }
{
    wait_for_round(rt, &course.begun, 1);
    if pass.number() == order[1] {
        wait_for_sleep(rt, quick, order[0]);
    }
    let mut held = quick.lock(rt, pass, 0);
    let value = held.value_mut();
    *value = value
        .wrapping_mul(10)
        .wrapping_add(u64::from(pass.number()));
    quick.unlock(rt, pass, held);
    course.ended.fetch_add(1, Ordering::SeqCst);
}

/// The passes with these numbers stand in the order of those that wait, and no other of the first four numbers.
fn check_parked<R: Wait + Abort>(rt: &R, quick: &Quick<u64>, parked: [u8; 2]) {
    for number in 1..=4u8 {
        let is_expected = parked.contains(&number);
        assert!(rt;
            quick.is_parked(rt, number) == is_expected,
            "of the pass {number}"
        );
    }
}

/// Hands the word over once both passes sleep.
fn hand_to_sleepers<R: Wait + Clock + Abort>(
    rt: &R,
    quick: &Quick<u64>,
    pass: &mut Pass<u64>,
    held: Held<u64>,
    order: [u8; 2],
)
    requires own { IsPassOf quick.now pass.old × (1 < word_count quick.now) }
    requires turn { IsTurnOf quick.now pass.old held }
    ensures own { IsPassOf quick.now pass.new }
{
    wait_for_sleep(rt, quick, order[0]);
    wait_for_sleep(rt, quick, order[1]);
    check_parked(rt, quick, order);
    hand_over(rt, quick, pass, held);
}

/// Holds the word 0 until both passes sleep. Then they have signed in their order.
pub(super) fn hold<R: Wait + Clock + Abort>(
    rt: &R,
    quick: &Quick<u64>,
    pass: &mut Pass<u64>,
    course: &Course,
    order: [u8; 2],
)
    requires { IsPassOf quick.now pass.old × (1 < word_count quick.now) }
{
    check_parked(rt, quick, [0, 0]);
    let held = try_it(rt, quick, pass);
    course.begun.store(1, Ordering::SeqCst);
    hand_to_sleepers(rt, quick, pass, held, order);
    wait_for_round(rt, &course.ended, 2);
    check_parked(rt, quick, [0, 0]);
    let digits = u64::from(order[0])
        .wrapping_mul(10)
        .wrapping_add(u64::from(order[1]));
    let held = quick.lock(rt, pass, 0);
    assert!(rt; *held.value() == digits);
}

#[test]
fn who_waits_sleeps_and_who_came_first_is_served_first(rt: HostRuntime) -> Result<(), Fail> {
    run(&rt, Part::Waits(1, 2))?;
    run(&rt, Part::Waits(2, 1))
}
