//! Which of several positions are likely to come to the end of the labels that are left. Nothing that is told of a run
//! rests on it: a run that is found is one, and if none is found so, all positions are followed.

use pif_history_machine::Position;
use pif_history_model::{Fact, Label, Line};
use pif_search::{Stop, push};
use pif_types::{Answer, Errno, Request, Tid};
use std::alloc::Global;

/// How many positions of a step are followed at first.
pub const MOST_FOLLOWED: usize = 64;

/// How many labels ahead are looked at.
const MOST_AHEAD: usize = 4_096;

/// A thread that acts soon, and what it is answered then, if that was found.
#[derive(Clone, Copy)]
struct Actor {
    thread: Tid,
    answer: Option<Answer>,
}

impl Actor {
    /// Whether it has to be woken before it acts. One whose time runs out acts by itself.
    fn has_to_be_woken(&self) -> bool {
        self.answer != Some(Errno::TimedOut.number())
    }
}

/// The thread by whose open call there is a step of this label, if there is one, and what the call is answered.
fn actor_of(label: &Label) -> Option<Actor> {
    // The check has to be told of the types of requests and facts, which lines hold.
    let _no_request: Option<Request> = None;
    let _no_fact: Option<Fact> = None;
    match *label {
        Label::Moves(thread) => Some(Actor {
            thread,
            answer: None,
        }),
        Label::Shown(Line::Answer(thread, answer)) => Some(Actor {
            thread,
            answer: Some(answer),
        }),
        _ => None,
    }
}

/// Adds a thread that acts, or takes note of its first answer.
fn add_actor(actors: &mut Vec<Actor>, actor: Actor) -> Result<(), Stop> {
    for place in 0..actors.len() {
        if actors[place].thread == actor.thread {
            if actors[place].answer.is_none() {
                actors[place] = actor;
            }
            return Ok(());
        }
    }
    push(actors, actor)
}

/// The threads that have to be woken before they act, by the labels that are left, newest first: those that act soonest
/// come first.
fn to_be_woken(alloc: Global, labels: &[Label]) -> Result<Vec<Tid>, Stop> {
    let mut actors = Vec::new(alloc);
    for label in labels.iter().rev().take(MOST_AHEAD) {
        if let Some(actor) = actor_of(label) {
            add_actor(&mut actors, actor)?;
        }
    }
    let mut threads = Vec::new(alloc);
    for actor in actors.as_slice() {
        if actor.has_to_be_woken() {
            push(&mut threads, actor.thread)?;
        }
    }
    Ok(threads)
}

/// How unlikely a position is: how many of these threads come from the first one on that still rests; and how many
/// threads of all don't rest.
fn rank_of(position: &Position, threads: &[Tid]) -> (usize, usize) {
    let world = position.world();
    let mut left = threads.len();
    for thread in threads {
        if world.rests(thread.get() as usize) {
            break;
        }
        left = left.saturating_sub(1);
    }
    let mut awake = 0usize;
    for thread in 0..world.thread_count() {
        if !world.rests(thread) {
            awake = awake.saturating_add(1);
        }
    }
    (left, awake)
}

/// Of each position whether it is left out, if at most so many are followed: those are the likeliest by the labels that
/// are left, newest first. Nothing is answered if all are followed.
///
/// # Errors
///
/// Out of memory.
pub fn are_left_out(
    alloc: Global,
    positions: &[Position],
    labels: &[Label],
    most: usize,
) -> Result<Vec<bool>, Stop> {
    let mut left_out = Vec::new(alloc);
    if positions.len() <= most {
        return Ok(left_out);
    }
    let threads = to_be_woken(alloc, labels)?;
    let mut ranks = Vec::new(alloc);
    for place in 0..positions.len() {
        let rank = rank_of(&positions[place], threads.as_slice());
        push(&mut ranks, (rank, place))?;
        push(&mut left_out, true)?;
    }
    ranks.sort()?;
    for rank in ranks.as_slice().iter().take(most) {
        if rank.1 < left_out.len() {
            left_out[rank.1] = false;
        }
    }
    Ok(left_out)
}
