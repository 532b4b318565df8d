//! Many turns of many passes: no addition is lost.
ghost use Rattle.std.specs.Prelude.{◌≡◌, ◌<◌, ◌≤◌, All, IfOk, vec_len};
ghost use Rattle.pif_quick.specs.Quick.{word_count, held_word, IsPassOf, IsIdle, IsIdleBut, IsTurnOf};

use crate::chance::next;
use pif_quick::{Held, Pass, Quick};
use std::alloc::AllocError;
use std::process::Abort;
use std::sync::Wait;
use std::sync::atomic::{AtomicU64, Ordering};
use std::test::Fail;
use std::thread;
use std::thread::Threads;

/// How many words there are.
const WORDS: usize = 4;

/// How many turns each pass takes.
const TURNS: u32 = 100_000;

/// What a thread is to do next: a word, what to add to its value, and by which calls.
#[derive(Clone, Copy)]
struct Turn {
    word: usize,
    by: u64,
    tries: bool,
    quiet: bool,
    ghost inside: { word < 4 },
}

/// The turn that a number stands for.
fn turn_of(seed: u64) -> Turn {
    Turn {
        word: ((seed >> 33) % 4) as usize,
        by: 1 + (seed >> 40) % 3,
        tries: (seed >> 50) % 2 == 0,
        quiet: (seed >> 51) % 2 == 0,
    }
}

/// Locks the word of a turn, by a try first if that is asked.
fn lock_by<R: Wait>(rt: &R, quick: &Quick<u64>, pass: &mut Pass<u64>, turn: Turn) -> Held<u64>
    requires own { IsPassOf quick.now pass.old × IsIdle pass.old × (turn.word < word_count quick.now) }
    ensures own { IsPassOf quick.now pass.new }
    ensures held { IsTurnOf quick.now pass.new result × (held_word result ≡ turn.word) × IsIdleBut turn.word pass.new }
{
    if turn.tries
        && let Some(held) = quick.try_lock(pass, turn.word)
    {
        return held;
    }
    quick.lock(rt, pass, turn.word)
}

/// Unlocks what is held, quietly first if that is asked.
fn unlock_by<R: Wait>(rt: &R, quick: &Quick<u64>, pass: &mut Pass<u64>, held: Held<u64>, turn: Turn)
    requires own { IsPassOf quick.now pass.old }
    requires held { IsTurnOf quick.now pass.old held × (held_word held ≡ turn.word) × IsIdleBut turn.word pass.old }
    ensures { IsPassOf quick.now pass.new × IsIdle pass.new }
{
    if !turn.quiet {
        quick.unlock(rt, pass, held);
        return;
    }
    if let Err(held) = quick.unlock_quiet(pass, held) {
        quick.unlock(rt, pass, held);
    }
}

/// Takes a turn: reads the value, adds, and writes it.
fn take_turn<R: Wait>(rt: &R, quick: &Quick<u64>, pass: &mut Pass<u64>, turn: Turn)
    requires { IsPassOf quick.now pass.old × IsIdle pass.old × (turn.word < word_count quick.now) }
    ensures { IsPassOf quick.now pass.new × IsIdle pass.new }
{
    let mut held = lock_by(rt, quick, pass, turn);
    let value = held.value_mut();
    *value = value.wrapping_add(turn.by);
    unlock_by(rt, quick, pass, held, turn);
}

/// What was added to each word.
type Sums = [AtomicU64; WORDS];

/// Takes so many turns by chance, and adds to the sums what it added to each word.
fn take_turns<R: Wait>(rt: &R, quick: &Quick<u64>, pass: &mut Pass<u64>, sums: &Sums)
    requires { IsPassOf quick.now pass.old × IsIdle pass.old × (4 ≤ word_count quick.now) }
    ensures { IsPassOf quick.now pass.new × IsIdle pass.new }
{
    let mut mine = [0u64; WORDS];
    let mut seed = u64::from(pass.number());
    for _ in 0..TURNS {
        seed = next(seed);
        let turn = turn_of(seed);
        take_turn(rt, quick, pass, turn);
        mine[turn.word] = mine[turn.word].wrapping_add(turn.by);
    }
    for m in 0..WORDS {
        sums[m].fetch_add(mine[m], Ordering::SeqCst);
    }
}

/// Each pass takes its turns in a thread of its own.
fn run<R: Threads + Wait + Sync>(
    rt: &R,
    quick: &Quick<u64>,
    passes: Vec<Pass<u64>>,
    sums: &Sums,
) -> Result<Vec<Pass<u64>>, AllocError>
    requires { All (λ p. IsPassOf quick.now p × IsIdle p) passes.items × (4 ≤ word_count quick.now) }
    ensures { IfOk result (λ done. All (λ p. IsPassOf quick.now p × IsIdle p) done.items) }
{
    thread::map_vec(
        rt,
        passes,
        &|pass| -> Pass<u64>
            requires { IsPassOf quick.now pass × IsIdle pass × (4 ≤ word_count quick.now) }
            ensures { IsPassOf quick.entry.now result × IsIdle result }
        {
            let mut pass = pass;
            take_turns(rt, quick, &mut pass, sums);
            pass
        },
    )
}

/// One pass meets each of the others.
fn meet_all(quick: &Quick<u64>, one: &mut Pass<u64>, others: &mut Vec<Pass<u64>>)
    requires one { IsPassOf quick.now one.old × IsIdle one.old }
    requires others { All (λ p. IsPassOf quick.now p × IsIdle p) others.old.items }
    ensures one { IsPassOf quick.now one.new × IsIdle one.new }
    ensures counted { vec_len others.new ≡ vec_len others.old }
    ensures others { All (λ p. IsPassOf quick.now p × IsIdle p) others.new.items }
{
    for k in 0..others.len() {
        quick.meet(one, &mut others[k]);
    }
}

/// All passes meet in pairs, and each word then has what they added to it together.
fn settle(rt: &impl Abort, quick: &Quick<u64>, passes: Vec<Pass<u64>>, sums: &Sums)
    requires { All (λ p. IsPassOf quick.now p × IsIdle p) passes.items × (4 ≤ word_count quick.now) }
{
    let mut others = passes;
    while let Some(mut one) = others.pop() {
        meet_all(quick, &mut one, &mut others);
        if others.is_empty() {
            check_values(rt, quick, &mut one, sums);
        }
    }
}

/// Each word is free, and has what was added to it.
fn check_values(rt: &impl Abort, quick: &Quick<u64>, pass: &mut Pass<u64>, sums: &Sums)
    requires { IsPassOf quick.now pass.old × (4 ≤ word_count quick.now) }
{
    for m in 0..WORDS {
        let sum = sums[m].load(Ordering::SeqCst);
        match quick.try_lock(pass, m) {
            Some(held) => assert!(rt; *held.value() == sum, "of the word {m}"),
            None => panic!(rt; "the word {m} is not free"),
        }
    }
}

#[test]
fn no_addition_is_lost(rt: HostRuntime) -> Result<(), Fail> {
    let sums = [
        AtomicU64::new(0),
        AtomicU64::new(0),
        AtomicU64::new(0),
        AtomicU64::new(0),
    ];
    let values = [0; WORDS].to_vec(rt.alloc())?;
    let (quick, passes) = Quick::open(rt.alloc(), values, 8)?;
    let passes = run(&rt, &quick, passes, &sums)?;
    settle(&rt, &quick, passes, &sums);
    Ok(())
}
