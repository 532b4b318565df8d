//! A word that becomes free while a pass comes for it: the pass takes it, though nobody hands it over. And a word that
//! is unlocked as soon as it is marked: a pass marks it and joins the order of those that wait at once, so the word is
//! handed over, and no pass is left asleep.
ghost use Rattle.std.specs.Prelude.{◌≡◌, ◌<◌, All};
ghost use Rattle.pif_quick.specs.Quick.{word_count, IsPassOf};

use super::passes::{Course, Part, run, wait_for_round};
use super::turns::hand_over;
use pif_quick::{Pass, Quick};
use std::hint::spin_loop;
use std::process::Abort;
use std::sync::Wait;
use std::sync::atomic::Ordering;
use std::test::Fail;

/// How often one pass gives the word up while the other comes for it.
pub(super) const FREED: u32 = 2_000;

/// How often one pass hands the word over as soon as it is marked.
pub(super) const HANDED: u32 = 40;

/// By how many pauses of the processor the rounds differ in how long the word is held.
const PAUSES: u32 = 64;

/// So many rounds of the first pass. It locks the word 0 and writes the round's number, lets the other pass come, and
/// unlocks the word: as soon as it is marked, or a little later. Nobody locks it then but the other pass.
pub(super) fn give_up_always<R: Wait + Abort>(
    rt: &R,
    quick: &Quick<u64>,
    pass: &mut Pass<u64>,
    course: &Course,
    rounds: u32,
    hands: bool,
)
    requires { IsPassOf quick.now pass.old × (1 < word_count quick.now) }
{
    for round in 1..=rounds {
        let mut held = quick.lock(rt, pass, 0);
        let value = held.value_mut();
        *value = u64::from(round);
        course.begun.store(round, Ordering::SeqCst);
        if hands {
            hand_over(rt, quick, pass, held);
        } else {
            for _ in 0..round % PAUSES {
                spin_loop();
            }
            quick.unlock(rt, pass, held);
        }
        wait_for_round(rt, &course.ended, round);
    }
}

/// So many rounds of the second pass. It comes for the word 0 while the first has it, and reads what that has written.
pub(super) fn come_always<R: Wait + Abort>(
    rt: &R,
    quick: &Quick<u64>,
    pass: &mut Pass<u64>,
    course: &Course,
    rounds: u32,
)
    requires { IsPassOf quick.now pass.old × (1 < word_count quick.now) }
{
    for round in 1..=rounds {
        wait_for_round(rt, &course.begun, round);
        let held = quick.lock(rt, pass, 0);
        let value = *held.value();
        quick.unlock(rt, pass, held);
        course.ended.store(round, Ordering::SeqCst);
        assert!(rt; value == u64::from(round), "{value} in the round {round}");
    }
}

/// Takes the lock of the order over and over until the word was handed over each time, so that a pass that marks its
/// word has to wait for that lock, or did before.
pub(super) fn hold_order<R: Wait>(rt: &R, quick: &Quick<u64>, course: &Course) {
    for _ in rt.forever() {
        if course.ended.load(Ordering::SeqCst) >= HANDED {
            return;
        }
        for _ in 0..100u32 {
            let _is_parked = quick.is_parked(rt, 4);
        }
    }
    unreachable!()
}

#[test]
fn a_word_that_becomes_free_is_taken(rt: HostRuntime) -> Result<(), Fail> {
    run(&rt, Part::Frees)
}

#[test]
fn a_word_that_is_unlocked_at_its_mark_is_handed_over(rt: HostRuntime) -> Result<(), Fail> {
    run(&rt, Part::Hands)
}
