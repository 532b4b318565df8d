//! Three passes of two words, each in a thread of its own, and what each does.
ghost use Rattle.std.specs.Prelude.{◌≡◌, ◌<◌, All};
ghost use Rattle.pif_quick.specs.Quick.{word_count, IsPassOf};

use super::tries::{FREED, HANDED, come_always, give_up_always, hold_order};
use super::waits::{hold, sign};
use pif_quick::{Pass, Quick};
use std::alloc::AllocError;
use std::process::Abort;
use std::rt::Clock;
use std::sync::Wait;
use std::sync::atomic::{AtomicU32, Ordering};
use std::test::Fail;
use std::thread;
use std::thread::{Threads, yield_now};

/// What the passes do, by their numbers.
#[derive(Clone, Copy)]
pub(super) enum Part {
    /// The first gives a word up, and the second comes for it.
    Frees,
    /// The first hands a word over as soon as it is marked, the second comes for it, and the third takes the lock of
    /// the order.
    Hands,
    /// The third holds a word, for which this pass waits first, and then this one.
    Waits(u8, u8),
}

/// How far passes have come.
#[derive(Drop)]
pub(super) struct Course {
    /// The last round in which a pass has locked the word for which others come.
    pub(super) begun: AtomicU32,
    /// The last round in which the pass has unlocked it that came, or how many have.
    pub(super) ended: AtomicU32,
}

/// How often a pass looks whether a round has come, for many seconds in all.
const LOOKS: u32 = 100_000_000;

/// Waits until a round has come, which has to: nobody waits for a pass that is left asleep.
pub(super) fn wait_for_round(rt: &impl Abort, last: &AtomicU32, round: u32) {
    for _ in 0..LOOKS {
        if last.load(Ordering::SeqCst) >= round {
            return;
        }
        yield_now();
    }
    panic!(rt; "the round {round} does not come: a pass was left asleep");
}

/// What this pass does.
fn play<R: Wait + Clock + Abort>(
    rt: &R,
    quick: &Quick<u64>,
    pass: &mut Pass<u64>,
    course: &Course,
    part: Part,
)
    requires { IsPassOf quick.now pass.old × (1 < word_count quick.now) }
{
    match (part, pass.number()) {
        (Part::Frees, 1) => give_up_always(rt, quick, pass, course, FREED, false),
        (Part::Frees, 2) => come_always(rt, quick, pass, course, FREED),
        (Part::Frees, _) => {}
        (Part::Hands, 1) => give_up_always(rt, quick, pass, course, HANDED, true),
        (Part::Hands, 2) => come_always(rt, quick, pass, course, HANDED),
        (Part::Hands, _) => hold_order(rt, quick, course),
        (Part::Waits(first, second), 3) => hold(rt, quick, pass, course, [first, second]),
        (Part::Waits(first, second), _) => sign(rt, quick, pass, course, [first, second]),
    }
}

/// Each of these passes does its part, in a thread of its own.
fn run_all<R: Threads + Wait + Clock + Abort + Sync>(
    rt: &R,
    quick: &Quick<u64>,
    passes: Vec<Pass<u64>>,
    part: Part,
) -> Result<(), AllocError>
    requires { All (IsPassOf quick.now) passes.items × (1 < word_count quick.now) }
{
    let course = Course {
        begun: AtomicU32::new(0),
        ended: AtomicU32::new(0),
    };
    let shared = &course;
    thread::map_vec(
        rt,
        passes,
        &|pass|
            requires { IsPassOf quick.now pass × (1 < word_count quick.now) }
        {
            let mut pass = pass;
            play(rt, quick, &mut pass, shared, part);
        },
    )?;
    Ok(())
}

/// The passes do their parts at words of their own.
pub(super) fn run<R: Threads + Wait + Clock + Abort + AllocGlobal + Sync>(
    rt: &R,
    part: Part,
) -> Result<(), Fail> {
    let values = [0, 0].to_vec(rt.alloc())?;
    let (quick, passes) = Quick::open(rt.alloc(), values, 3)?;
    Ok(run_all(rt, &quick, passes, part)?)
}
