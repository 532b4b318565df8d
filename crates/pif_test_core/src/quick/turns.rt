//! One word, from a try to a meeting of two passes.
ghost use Rattle.std.specs.Prelude.{◌≡◌, ◌<◌, All};
ghost use Rattle.pif_quick.specs.Quick.{word_count, held_word, IsPassOf, IsIdle, IsUnchanged, IsTurnOf};

use pif_quick::{Held, Pass, Quick};
use std::hint::spin_loop;
use std::process::Abort;
use std::sync::Wait;
use std::test::Fail;
use std::thread::{Threads, join, yield_now};

/// How often the holder looks whether its word is marked, for seconds in all.
const LOOKS: u32 = 200_000_000;

/// After how many looks the holder lets other threads run.
const IN_A_ROW: u32 = 1_000;

/// Tries to lock the word 0, which has to succeed.
pub(super) fn try_it(rt: &impl Abort, quick: &Quick<u64>, pass: &mut Pass<u64>) -> Held<u64>
    requires own { IsPassOf quick.now pass.old × (1 < word_count quick.now) }
    ensures own { IsPassOf quick.now pass.new }
    ensures turn { IsTurnOf quick.now pass.new result × (held_word result ≡ 0) }
{
    match quick.try_lock(pass, 0) {
        Some(held) => held,
        None => panic!(rt; "a free word was not locked"),
    }
}

/// Waits until the word 0 is marked, and answers whether it was in time and the word 1 isn't marked.
fn wait_for_mark(quick: &Quick<u64>, pass: &mut Pass<u64>) -> bool
    requires { IsPassOf quick.now pass.old × (1 < word_count quick.now) }
    ensures own { IsPassOf quick.now pass.new }
    ensures kept { IsUnchanged pass.old pass.new }
{
    for look in 0..LOOKS {
        if quick.marked(pass, 0) {
            return !quick.marked(pass, 1);
        }
        if look % IN_A_ROW == 0 {
            yield_now();
        }
        spin_loop();
    }
    false
}

/// Waits until the word is marked, which has to come, and unlocks it: a quiet unlock gives it back.
pub(super) fn hand_over<R: Wait + Abort>(
    rt: &R,
    quick: &Quick<u64>,
    pass: &mut Pass<u64>,
    held: Held<u64>,
)
    requires own { IsPassOf quick.now pass.old × (1 < word_count quick.now) }
    requires turn { IsTurnOf quick.now pass.old held }
    ensures own { IsPassOf quick.now pass.new }
{
    let marked = wait_for_mark(quick, pass);
    assert!(rt;
        marked,
        "a pass waits for the word 0 alone, and the marks are others"
    );
    match quick.unlock_quiet(pass, held) {
        Ok(()) => panic!(rt; "a quiet unlock freed a word for which a pass waits"),
        Err(held) => quick.unlock(rt, pass, held),
    }
}

/// A pass holds the word 0 until another waits for it, and hands it over. Answers what the other read.
fn contend<R: Threads + Wait + Abort + Sync>(
    rt: &R,
    quick: &Quick<u64>,
    one: Pass<u64>,
    held: Held<u64>,
    two: Pass<u64>,
) -> (Pass<u64>, Pass<u64>, u64)
    requires one { IsPassOf quick.now one × IsTurnOf quick.now one held × (1 < word_count quick.now) }
    requires two { IsPassOf quick.now two × IsIdle two }
    ensures { IsPassOf quick.now result.0 × IsPassOf quick.now result.1 × IsIdle result.1 }
{
    let (one, (two, value)) = join(
        rt,
        move || -> Pass<u64>
            requires { IsPassOf quick.now one × IsTurnOf quick.now one held × (1 < word_count quick.now) }
            ensures { IsPassOf quick.entry.now result }
        {
            let mut one = one;
            hand_over(rt, quick, &mut one, held);
            one
        },
        move || -> (Pass<u64>, u64)
            requires { IsPassOf quick.now two × IsIdle two × (1 < word_count quick.now) }
            ensures { IsPassOf quick.entry.now result.0 × IsIdle result.0 }
        {
            let mut two = two;
            let held = quick.lock(rt, &mut two, 0);
            let value = *held.value();
            quick.unlock(rt, &mut two, held);
            (two, value)
        },
    );
    (one, two, value)
}

/// From a try to a meeting: each step as it has to go.
fn try_to_meet<R: Threads + Wait + Abort + Sync>(
    rt: &R,
    quick: &Quick<u64>,
    one: Pass<u64>,
    two: Pass<u64>,
)
    requires own { IsPassOf quick.now one × IsPassOf quick.now two × (1 < word_count quick.now) }
    requires idle { IsIdle one × IsIdle two }
{
    let mut one = one;
    let mut two = two;
    let mut held = try_it(rt, quick, &mut one);
    assert!(rt; *held.value() == 5);
    *held.value_mut() = 7;
    assert!(rt; quick.try_lock(&mut two, 0).is_none());
    assert!(rt; !quick.marked(&mut two, 0));
    let (mut one, mut two, read) = contend(rt, quick, one, held, two);
    let held = try_it(rt, quick, &mut one);
    assert!(rt; read == 7 && *held.value() == 7);
    assert!(rt; quick.unlock_quiet(&mut one, held).is_ok());
    quick.meet(&mut one, &mut two);
}

/// The same by the last two of these passes.
fn last_two<R: Threads + Wait + Abort + Sync>(
    rt: &R,
    quick: &Quick<u64>,
    mut passes: Vec<Pass<u64>>,
)
    requires own { All (IsPassOf quick.now) passes.items × (1 < word_count quick.now) }
    requires idle { All IsIdle passes.items }
{
    match (passes.pop(), passes.pop()) {
        (Some(two), Some(one)) => try_to_meet(rt, quick, one, two),
        _ => panic!(rt; "there are not two passes"),
    }
}

#[test]
fn quick_path_from_try_to_meet(rt: HostRuntime) -> Result<(), Fail> {
    let values = [5, 6].to_vec(rt.alloc())?;
    let (quick, passes) = Quick::open(rt.alloc(), values, 2)?;
    last_two(&rt, &quick, passes);
    Ok(())
}
