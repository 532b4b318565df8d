//! Random events on both kernels: calls in any interleaving, one step at a time, the end of threads at any point, and
//! time that goes on. Each event has the same answer on both, and leaves the same words, statuses, priorities and
//! orders.
ghost use Rattle.std.specs.Prelude.{◌≡◌, ◌≤◌, true};
ghost use Rattle.pif_model.specs.PiKernel.{is_living};
ghost use Rattle.pif_model.specs.Table.{has_thread, has_mutex, has_cond, line_at};
ghost use Rattle.pif_model.specs.Lines.{is_open};
ghost use Rattle.pif_model.specs.Posix.{names_known};

use crate::seen::{cond, mutex, priority, thread};
use pif_chains_linked::LinkedChains;
use pif_kernel::{Chains, KernelOn, PiKernel, Status};
use pif_model::{Line, Plain};
use pif_mutex::{Parts, Progress};
use pif_plain::PlainChains;
use pif_types::{Kind, Limits, MutexId, Prio, Request, Tid};
use rand_core::{Rng, SeedableRng};
use rand_xoshiro::SplitMix64;
use std::alloc::Global;
use std::process::Abort;
use std::test::Fail;

const THREADS: u32 = 8;

/// The mutexes that are locked: two of one bucket, and two of another. Between them are others.
const LOCKED: [u32; 5] = [1, 2, 3, 65, 66];

/// Mutex 1 is that of variable 1, and this that of variable 2.
const SECOND: u32 = 65;

const LISTS: u32 = 400;

const EVENTS: u32 = 200;

/// Parts on a kernel of these chains, with this first ticket, to which nothing was added.
fn new_parts<C: Chains + Drop>(alloc: Global, first_ticket: u64) -> Result<Parts<KernelOn<C>>, Fail>
    requires { 1 ≤ first_ticket }
{
    let limits = Limits::new(THREADS, 66, 2, 100).unwrap();
    let kernel: KernelOn<C> = KernelOn::new(alloc, limits, first_ticket)?;
    Ok(Parts::new(alloc, limits, kernel)?)
}

/// Adds mutexes of random kinds, two variables, and threads of random priorities, of which many are equal.
fn fill<K: PiKernel + Drop>(rng: &mut SplitMix64, parts: &mut Parts<K>) {
    for _ in 0..66 {
        let kind = match rng.next_u32() % 8 {
            0 | 1 => Kind::Recursive,
            2 => Kind::Normal,
            _ => Kind::ErrorCheck,
        };
        let robust = rng.next_u32() % 2 == 0;
        let limits = parts.limits();
        if parts.mutexes() < limits.mutexes() {
            parts.add_mutex(kind, robust);
        }
    }
    for number in &[1, SECOND] {
        let limits = parts.limits();
        if *number <= parts.mutexes()
            && parts.conds() < limits.conds()
            && let Some(m) = MutexId::new(*number)
        {
            parts.add_cond(m);
        }
    }
    for _ in 0..THREADS {
        let prio = priority(1 + rng.next_u32() % 6 * 15);
        let limits = parts.limits();
        if parts.threads() < limits.threads() {
            parts.add_thread(prio);
        }
    }
}

/// Whether a thread was added, lives, and has a call open or none, as asked.
fn may_act<K: PiKernel + Drop>(parts: &Parts<K>, t: Tid, calling: bool) -> bool
    ensures known { result ≡ true → has_thread parts.now t ≡ true }
    ensures living { result ≡ true → is_living parts.now.kernel t ≡ true }
    ensures open { result ≡ true → is_open (line_at parts.now t) ≡ calling }
{
    t.get() <= parts.threads() && parts.is_living(t) && parts.is_open(t) == calling
}

/// Whether the mutex and the variable that a call names were added.
fn names_known<K: PiKernel + Drop>(parts: &Parts<K>, request: &Request) -> bool
    ensures { result ≡ true → names_known (has_mutex parts.now) (has_cond parts.now) request.now ≡ true }
{
    let named = request.names();
    match (named.mutex, named.cond) {
        (Some(m), Some(c)) => c.get() <= parts.conds() && m.get() <= parts.mutexes(),
        (Some(m), None) => m.get() <= parts.mutexes(),
        (None, Some(c)) => c.get() <= parts.conds(),
        (None, None) => true,
    }
}

/// A thread begins a call, if that is not refused.
fn begin<K: PiKernel + Drop>(parts: &mut Parts<K>, t: Tid, request: Request) -> Option<()> {
    if may_act(parts, t, false) && names_known(parts, &request) {
        parts.begin(t, request);
        Some(())
    } else {
        None
    }
}

/// A thread takes one step of its open call. `None` if it has none.
fn go<K: PiKernel + Drop>(parts: &mut Parts<K>, t: Tid) -> Option<Progress> {
    if !may_act(parts, t, true) {
        return None;
    }
    match parts.line(t) {
        Line::At(request, _) => match request.get() {
            Plain::Wait(_, _) | Plain::Signal(_) | Plain::Broadcast(_) => {
                Some(pif_cond::advance(parts, t))
            }
            _ => Some(pif_mutex::advance(parts, t)),
        },
        Line::Idle => None,
    }
}

/// A thread begins a call, and goes on up to the first step that isn't `Went`: its number, and what it comes to.
fn call<K: PiKernel + Drop>(
    parts: &mut Parts<K>,
    t: Tid,
    request: Request,
) -> Option<(u32, Progress)> {
    begin(parts, t, request)?;
    for step in 1..=8 {
        match go(parts, t)? {
            Progress::Went => (),
            progress => return Some((step, progress)),
        }
    }
    None
}

/// A random request, on this mutex or on a variable.
fn request(rng: &mut SplitMix64, m: MutexId, time: u32) -> Request {
    let deadline = time.saturating_add(rng.next_u32() % 3);
    let (c, other, first) = (cond(1), cond(2), mutex(1));
    match rng.next_u32() % 32 {
        0..=9 => Request::Lock(m),
        10 | 11 => Request::TryLock(m),
        12 | 13 => Request::TimedLock(m, deadline),
        14 | 15 => Request::Unlock(m),
        16 => Request::Consistent(m),
        17..=20 => Request::Wait(c, first),
        21 | 22 => Request::Wait(other, mutex(SECOND)),
        23 => Request::Wait(c, m),
        24 => Request::TimedWait(c, first, deadline),
        25 | 26 => Request::Signal(c),
        27 => Request::Signal(other),
        28 => Request::Broadcast(c),
        29 => Request::Broadcast(other),
        _ => Request::SetPrio(
            thread(1 + rng.next_u32() % THREADS),
            rng.next_u32() % 12 * 9,
        ),
    }
}

/// A random event. Of a step or of a whole call, the number of the last step, and what it came to. `None` if it can't
/// happen.
fn event<K: PiKernel + Drop>(
    rng: &mut SplitMix64,
    parts: &mut Parts<K>,
) -> Option<(u32, Progress)> {
    let m = mutex(LOCKED[(rng.next_u32() % 5) as usize]);
    let t = thread(1 + rng.next_u32() % THREADS);
    let time = parts.time();
    match rng.next_u32() % 64 {
        0 if parts.is_living(t) => parts.end(t),
        0 => return None,
        1 | 2 => parts.tick(time.saturating_add(1)),
        3..=14 => return call(parts, t, request(rng, m, time)),
        15..=18 => {
            // The owner by the word, or nobody.
            let owner = Tid::new(parts.word(m)? & 0x3fff_ffff)?;
            return call(parts, owner, Request::Unlock(m));
        }
        19..=30 => begin(parts, t, request(rng, m, time))?,
        _ => return Some((1, go(parts, t)?)),
    }
    Some((0, Progress::Went))
}

/// What is seen of a mutex: its word, and its first and second waiter.
fn of_mutex<K: PiKernel + Drop>(parts: &Parts<K>, m: MutexId) -> (Option<u32>, [Option<Tid>; 2]) {
    (parts.word(m), [parts.waiter(m, 0), parts.waiter(m, 1)])
}

/// What is seen of a thread: what it does, and its priority. `None` if it was not added.
fn of_thread<K: PiKernel + Drop>(parts: &Parts<K>, t: Tid) -> Option<(Status, Option<Prio>)> {
    if t.get() <= parts.threads() {
        Some((parts.status(t), parts.effective(t)))
    } else {
        None
    }
}

/// Who is ready at a place, and who is parked there on either variable.
fn at_place<K: PiKernel + Drop>(parts: &Parts<K>, place: u32) -> [Option<Tid>; 3] {
    let (one, two) = (cond(1), cond(2));
    [
        parts.ready(place),
        parts.parked(one, place),
        parts.parked(two, place),
    ]
}

/// Whether both have the same words, statuses, priorities and orders, of all threads.
fn agree<A: PiKernel + Drop, B: PiKernel + Drop>(plain: &Parts<A>, linked: &Parts<B>) -> bool {
    let mut same = plain.threads() == THREADS && plain.pick() == linked.pick();
    for number in &LOCKED {
        let m = mutex(*number);
        same = same && of_mutex(plain, m) == of_mutex(linked, m);
    }
    for place in 0..THREADS {
        let t = thread(1 + place);
        same = same && of_thread(plain, t) == of_thread(linked, t);
        same = same && at_place(plain, place) == at_place(linked, place);
    }
    same
}

/// Plays the random list of events of a seed on new parts, and counts those that could happen. The first ticket is so
/// late that tickets are renumbered.
fn play_list<A: Chains + Drop, B: Chains + Drop, R: Abort>(
    rt: &R,
    alloc: Global,
    seed: u32,
    events: &mut u32,
) -> Result<(), Fail> {
    let first = u64::MAX - u64::from(seed % 64);
    let mut plain = new_parts::<A>(alloc, first)?;
    let mut linked = new_parts::<B>(alloc, first)?;
    play_events(rt, seed, &mut plain, &mut linked, events);
    Ok(())
}

fn play_events<A: PiKernel + Drop, B: PiKernel + Drop>(
    rt: &impl Abort,
    seed: u32,
    plain: &mut Parts<A>,
    linked: &mut Parts<B>,
    events: &mut u32,
) {
    let mut rng = SplitMix64::seed_from_u64(u64::from(seed));
    let mut again = SplitMix64::seed_from_u64(u64::from(seed));
    fill(&mut rng, plain);
    fill(&mut again, linked);
    for place in 0..EVENTS {
        let come = event(&mut rng, plain);
        let is_same = event(&mut again, linked) == come && agree(plain, linked);
        assert!(rt; is_same, "seed {seed}, at place {place}");
        if come.is_some() {
            *events = events.saturating_add(1);
        }
    }
}

#[test]
fn kernels_agree_on_random_events(rt: HostRuntime) -> Result<(), Fail> {
    let mut events = 0;
    for seed in 0..LISTS {
        play_list::<PlainChains, LinkedChains, HostRuntime>(&rt, rt.alloc(), seed, &mut events)?;
    }
    assert!(rt; events >= 30_000, "{events} events");
    Ok(())
}
