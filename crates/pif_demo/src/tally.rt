//! Two threads add the numbers from 1 to 1,000 to one value behind a quick lock, and the sum is printed: it is the same
//! whatever the schedule.
ghost use Rattle.std.specs.Prelude.{◌≡◌, ◌<◌, All};
ghost use Rattle.pif_quick.specs.Quick.{word_count, IsPassOf, IsIdle};

use pif_quick::{Pass, Quick};
use std::alloc::Global;
use std::io;
use std::sync::Wait;
use std::thread::{Threads, join};

/// The last number that each thread adds.
const LAST: u64 = 1_000;

/// Adds each number to the value of the word 0, one by one.
fn add_up<R: Wait>(rt: &R, quick: &Quick<u64>, pass: &mut Pass<u64>)
    requires { IsPassOf quick.now pass.old × IsIdle pass.old × (0 < word_count quick.now) }
    ensures { IsPassOf quick.now pass.new × IsIdle pass.new }
{
    for number in 0..LAST {
        let mut held = quick.lock(rt, pass, 0);
        let value = held.value_mut();
        *value = value.wrapping_add(number + 1);
        quick.unlock(rt, pass, held);
    }
}

/// Both threads add up, each by a pass of its own, and the passes meet. Answers the sum.
fn sum_by_two<R: Threads + Wait + Sync>(
    rt: &R,
    quick: &Quick<u64>,
    one: Pass<u64>,
    two: Pass<u64>,
) -> u64
    requires own { IsPassOf quick.now one × IsPassOf quick.now two × (0 < word_count quick.now) }
    requires idle { IsIdle one × IsIdle two }
{
    let (mut one, mut two) = join(
        rt,
        move || -> Pass<u64>
            requires { IsPassOf quick.now one × IsIdle one × (0 < word_count quick.now) }
            ensures { IsPassOf quick.entry.now result × IsIdle result }
        {
            let mut one = one;
            add_up(rt, quick, &mut one);
            one
        },
        move || -> Pass<u64>
            requires { IsPassOf quick.now two × IsIdle two × (0 < word_count quick.now) }
            ensures { IsPassOf quick.entry.now result × IsIdle result }
        {
            let mut two = two;
            add_up(rt, quick, &mut two);
            two
        },
    );
    quick.meet(&mut one, &mut two);
    let held = quick.lock(rt, &mut one, 0);
    let sum = *held.value();
    quick.unlock(rt, &mut one, held);
    sum
}

/// The sum by the last two of these passes, or 0 if there are not two.
fn sum_by<R: Threads + Wait + Sync>(rt: &R, quick: &Quick<u64>, passes: Vec<Pass<u64>>) -> u64
    requires own { All (IsPassOf quick.now) passes.items × (0 < word_count quick.now) }
    requires idle { All IsIdle passes.items }
{
    let mut passes = passes;
    match (passes.pop(), passes.pop()) {
        (Some(two), Some(one)) => sum_by_two(rt, quick, one, two),
        _ => 0,
    }
}

/// Runs the threads. Answers the sum, or `None` if memory is refused.
fn sum<R: Threads + Wait + Sync>(rt: &R, alloc: Global) -> Option<u64> {
    let values = [0].to_vec(alloc).ok()?;
    match Quick::open(alloc, values, 2) {
        Ok((quick, passes)) => Some(sum_by(rt, &quick, passes)),
        Err(_) => None,
    }
}

/// Runs the threads, and prints the sum.
pub fn show<R: Threads + Wait + Sync + Print>(rt: &R, alloc: Global) -> io::Result<()> {
    match sum(rt, alloc) {
        Some(sum) => println!(rt; "two threads add 1 to {LAST} each: {sum}"),
        None => Err(io::Error::from(io::ErrorKind::OutOfMemory)),
    }
}
