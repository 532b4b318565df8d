//! Random lists of kernel calls on both kernels, on words that no library wrote too: each call has the same answer on
//! both, and leaves the same words, statuses, priorities and pick.
use super::{Ask, Reply, Scene, answer, new_scene, read};
use pif_chains_linked::LinkedChains;
use pif_kernel::{Chains, KernelOn, PiKernel};
use pif_plain::PlainChains;
use rand_core::{Rng, SeedableRng};
use rand_xoshiro::SplitMix64;
use std::alloc::Global;
use std::process::Abort;
use std::test::Fail;

const THREADS: u32 = 9;

const MUTEXES: u32 = 5;

const LISTS: u32 = 1000;

const ASKED: u32 = 250;

// The seed of a random list, and a place in it.
type At = (u32, u32);

// Asks both kernels, and sees that they answer the same. Whether it could be asked: a call may want a ready thread.
fn ask<A: PiKernel + Drop, B: PiKernel + Drop>(
    rt: &impl Abort,
    plain: &mut Scene<A>,
    linked: &mut Scene<B>,
    at: At,
    ask: Ask,
) -> bool {
    let reply = answer(plain, ask);
    let (seed, place) = at;
    assert!(rt;
        answer(linked, ask) == reply,
        "seed {seed}, at place {place}"
    );
    reply.is_some()
}

// A random call or end, of a random thread and mutex, or by the one whose number is in the word of the mutex.
fn random<K: PiKernel + Drop>(rng: &mut SplitMix64, plain: &Scene<K>) -> Ask {
    let t = 1 + rng.next_u32() % THREADS;
    let m = 1 + rng.next_u32() % MUTEXES;
    let c = 1 + rng.next_u32() % 2;
    let holder = match read(plain, Ask::Word(m)) {
        Reply::Bits(bits) => bits & 0x3fff_ffff,
        _ => 0,
    };
    match rng.next_u32() % 65 {
        0..=19 => Ask::Lock(t, m),
        20 | 21 => Ask::TryLock(t, m),
        22..=33 => Ask::Unlock(holder, m),
        34..=39 => Ask::Park(t, c, 0, c),
        40 | 41 => Ask::Park(t, c, rng.next_u32() % 2, m),
        42..=45 => Ask::Requeue(c, 0, c, 1, rng.next_u32() % 3),
        46 | 47 => Ask::Requeue(c, 0, m, rng.next_u32() % 2, t),
        48..=51 => Ask::SetPrio(t, rng.next_u32() % 12 * 9),
        52..=57 => Ask::Expire(t),
        58 | 59 => Ask::Stop(t),
        60 | 61 => Ask::Store(m, word(rng, t)),
        62 | 63 => Ask::StoreUses(c, rng.next_u32() % 8 / 7),
        _ => Ask::End(t, m),
    }
}

// A word that no library wrote: the number of a thread, or any, with any flags.
fn word(rng: &mut SplitMix64, t: u32) -> u32 {
    let flags = rng.next_u32() & 0xc000_0000;
    match rng.next_u32() % 4 {
        0 => flags,
        1 | 2 => flags | t,
        _ => rng.next_u32(),
    }
}

// Makes the random list of calls of a seed on new kernels, and counts those that could be made. Many threads have equal
// priorities, and the first ticket is so late that tickets are renumbered.
fn play_list<A: Chains + Drop, B: Chains + Drop, R: Abort>(
    rt: &R,
    alloc: Global,
    seed: u32,
    calls: &mut u32,
) -> Result<(), Fail> {
    let mut rng = SplitMix64::seed_from_u64(u64::from(seed));
    let mut levels = [0; 9];
    for place in 0..9 {
        levels[place] = 1 + rng.next_u32() % 6 * 15;
    }
    let first = u64::MAX - u64::from(rng.next_u32() % 64);
    let mut plain: Scene<KernelOn<A>> = new_scene(alloc, &levels, MUTEXES, first)?;
    let mut linked: Scene<KernelOn<B>> = new_scene(alloc, &levels, MUTEXES, first)?;
    play_calls(rt, seed, &mut rng, &mut plain, &mut linked, calls);
    Ok(())
}

// Behind each call both have the same words, statuses, priorities and pick.
fn play_calls<A: PiKernel + Drop, B: PiKernel + Drop>(
    rt: &impl Abort,
    seed: u32,
    rng: &mut SplitMix64,
    plain: &mut Scene<A>,
    linked: &mut Scene<B>,
    calls: &mut u32,
) {
    for place in 0..ASKED {
        let call = random(rng, plain);
        if ask(rt, plain, linked, (seed, place), call) {
            *calls = calls.saturating_add(1);
        }
        ask(rt, plain, linked, (seed, place), Ask::Pick);
        for number in 1..THREADS + 1 {
            for read in [
                Ask::Status(number),
                Ask::Effective(number),
                Ask::Word(number),
            ] {
                ask(rt, plain, linked, (seed, place), read);
            }
        }
    }
}

#[test]
fn kernels_agree_on_random_calls(rt: HostRuntime) -> Result<(), Fail> {
    let mut calls = 0;
    for seed in 0..LISTS {
        play_list::<PlainChains, LinkedChains, HostRuntime>(&rt, rt.alloc(), seed, &mut calls)?;
    }
    assert!(rt; calls >= 100_000, "{calls} calls");
    Ok(())
}
