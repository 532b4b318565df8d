//! A scout plays all lines once and leaves open whom each use of a variable wakes, until a later line tells. So it finds
//! which waits a player has to leave blocked. Its steps are none of the POSIX machine: nothing is said of what it finds.
use crate::needs::Need;
use crate::plans::Trial;
use crate::player::{Next, next_of};
use crate::stepping;
use crate::stepping::scene_of;
use pif_history_machine::{HistoryMachine, Later, Leaving, Position, thread_numbered};
use pif_history_model::{HistoryLimits, Label, Line};
use pif_posix::Progress;
use pif_rules_model::Rules;
use pif_search::{Stop, WatchLines, push};
use std::alloc::Global;

/// A signal that woke a wait which an older use might have woken as well.
#[derive(Clone, Copy, Drop)]
struct Choice {
    /// The line before which it was.
    line: usize,
    /// Where the wait is answered.
    place: usize,
    /// Whether a wait was blocked that stays so. Then the signal has to wake another.
    has_stayer: bool,
    /// Where the waits that stayed blocked as well stand among all such: from here on, and before there.
    first: usize,
    end: usize,
}

/// A state in front of a line, and what was chosen on the way to it.
#[derive(Drop)]
struct Scout {
    position: Position,
    choices: Vec<Choice>,
    /// Where the waits are answered that stayed blocked at the choices, one choice after the other.
    others: Vec<usize>,
}

impl Scout {
    /// A scout at the start, who has chosen nothing.
    fn new(alloc: Global, limits: HistoryLimits) -> Result<Scout, Stop> {
        let position = Position::start(alloc, limits)?;
        Ok(Scout {
            position,
            choices: Vec::new(alloc),
            others: Vec::new(alloc),
        })
    }

    /// The open call of a thread has come this far.
    fn come(&mut self, thread: usize, progress: Progress) -> bool {
        if thread >= self.position.wide.state.thread_count() {
            return false;
        }
        self.position.wide.state.set_progress(thread, progress);
        true
    }

    /// The threads that are blocked on a variable and may be woken.
    fn wakeable(
        &self,
        alloc: Global,
        later: &Later,
        variable: u32,
        line: usize,
    ) -> Result<Vec<usize>, Stop> {
        let scene = scene_of(&self.position, later, line);
        let mut all = Vec::new(alloc);
        for other in 0..self.position.wide.state.thread_count() {
            if scene.is_wakeable(other, variable) {
                push(&mut all, other)?;
            }
        }
        Ok(all)
    }

    /// A use of a variable is over, before which these threads could be woken: those that are blocked still may have
    /// been woken by it. Where the others among them are answered that may have been woken before.
    fn told(
        &mut self,
        alloc: Global,
        later: &mut Later,
        wakeable: &[usize],
        variable: u32,
        line: usize,
    ) -> Result<Vec<usize>, Stop> {
        let mut woken = Vec::new(alloc);
        for i in 0..wakeable.len() {
            let other = wakeable[i];
            let scene = scene_of(&self.position, later, line);
            if scene.is_blocked_on(other, variable) {
                later.leaving.free(other)?;
            } else if scene.is_freed(other) {
                push(&mut woken, scene.place(other))?;
                later.leaving.unfree(other);
            }
        }
        Ok(woken)
    }

    /// A signal woke the wait that is answered at this place, and might have let it be woken before.
    fn choose(
        &mut self,
        alloc: Global,
        later: &Later,
        place: usize,
        variable: u32,
        line: usize,
    ) -> Result<(), Stop> {
        let left = self.wakeable(alloc, later, variable, line)?;
        let scene = scene_of(&self.position, later, line);
        let has_stayer = scene.has_stayer(variable);
        let first = self.others.len();
        for i in 0..left.len() {
            push(&mut self.others, scene.place(left[i]))?;
        }
        let end = self.others.len();
        let choice = Choice {
            line,
            place,
            has_stayer,
            first,
            end,
        };
        push(&mut self.choices, choice)
    }

    /// A broadcast uses its variable: all that may be woken may have been woken by it. It chooses later.
    fn begin_broadcast(
        &mut self,
        alloc: Global,
        later: &mut Later,
        thread: usize,
        line: usize,
    ) -> Result<bool, Stop> {
        let variable = scene_of(&self.position, later, line).used(thread);
        let wakeable = self.wakeable(alloc, later, variable, line)?;
        for i in 0..wakeable.len() {
            later.leaving.free(wakeable[i])?;
        }
        Ok(self.come(thread, Progress::Used))
    }

    /// A signal uses its variable, or a broadcast that has used it chooses. It wakes as few as it can: of these the first
    /// answered.
    fn use_variable(
        &mut self,
        alloc: Global,
        machine: &HistoryMachine,
        later: &mut Later,
        thread: usize,
        line: usize,
    ) -> Result<bool, Stop> {
        let scene = scene_of(&self.position, later, line);
        let variable = scene.used(thread);
        let is_signal = scene.signals(thread);
        let wakeable = self.wakeable(alloc, later, variable, line)?;
        let label = Label::Moves(thread_numbered(thread)?);
        if !self.come(thread, Progress::Used) {
            return Ok(false);
        }
        if !stepping::switch(&mut self.position, alloc, machine, later, &label, line)? {
            return Ok(false);
        }
        let woken = self.told(alloc, later, wakeable.as_slice(), variable, line)?;
        if is_signal && woken.len() != 0 {
            self.choose(alloc, later, woken[0], variable, line)?;
        }
        Ok(true)
    }

    /// The open call of a thread makes its only move, in place if each mutex inherits.
    fn go_on(
        &mut self,
        alloc: Global,
        machine: &HistoryMachine,
        later: &Later,
        thread: usize,
        line: usize,
    ) -> Result<bool, Stop> {
        let thread = thread_numbered(thread)?;
        if self.position.wide.inherits() {
            return stepping::go(&mut self.position, alloc, thread);
        }
        let label = Label::Moves(thread);
        stepping::switch(&mut self.position, alloc, machine, later, &label, line)
    }

    /// The open call of a thread goes on, if it may.
    fn go(
        &mut self,
        alloc: Global,
        machine: &HistoryMachine,
        later: &mut Later,
        thread: usize,
        line: usize,
    ) -> Result<bool, Stop> {
        let scene = scene_of(&self.position, later, line);
        match scene.need(thread) {
            Need::Blocked(_, _, _) if scene.is_freed(thread) => {
                later.leaving.unfree(thread);
                Ok(self.come(thread, Progress::Reacquiring))
            }
            Need::Broadcasts(_) if scene.may_succeed(thread) && !scene.has_used(thread) => {
                self.begin_broadcast(alloc, later, thread, line)
            }
            Need::Signals(_) | Need::Broadcasts(_) if scene.may_succeed(thread) => {
                self.use_variable(alloc, machine, later, thread, line)
            }
            _ => self.go_on(alloc, machine, later, thread, line),
        }
    }

    /// A step before a line, which is worth trying, if it may come.
    fn step(
        &mut self,
        alloc: Global,
        machine: &HistoryMachine,
        later: &mut Later,
        trial: &Trial,
        line: usize,
    ) -> Result<bool, Stop> {
        match *trial {
            Trial::Moves(thread) => self.go(alloc, machine, later, thread, line),
            Trial::Ends(thread) => {
                let label = Label::Ends(thread_numbered(thread)?);
                stepping::switch(&mut self.position, alloc, machine, later, &label, line)
            }
        }
    }

    /// The steps before a line, at most so many of them, and the line; false if the scout gets stuck.
    fn reach(
        &mut self,
        alloc: Global,
        machine: &HistoryMachine,
        later: &mut Later,
        line: &Line,
        place: usize,
        moves: usize,
    ) -> Result<bool, Stop> {
        for _ in 0..moves {
            let next = next_of(alloc, &scene_of(&self.position, later, place), line)?;
            match next {
                Next::Line => return stepping::show(
                    &mut self.position,
                    alloc,
                    machine,
                    later,
                    line,
                    place,
                ),
                Next::Step(trial) => {
                    if !self.step(alloc, machine, later, &trial, place)? {
                        return Ok(false);
                    }
                }
            }
        }
        Ok(false)
    }

    /// These lines, one by one, each after at most so many steps; false if the scout gets stuck, or if `watch`
    /// ends it.
    fn reach_all<W: WatchLines>(
        &mut self,
        alloc: Global,
        machine: &HistoryMachine,
        later: &mut Later,
        lines: &[Line],
        moves: usize,
        watch: &mut W,
    ) -> Result<bool, Stop> {
        for place in 0..lines.len() {
            if !watch.goes_on() {
                return Ok(false);
            }
            let line = lines[place];
            if !self.reach(alloc, machine, later, &line, place, moves)? {
                return Ok(false);
            }
            later.pass(&line, place)?;
        }
        Ok(true)
    }

    /// Whether the wait of a choice has to be left blocked until then: without it the signal would have nobody to wake,
    /// and has to wake somebody, since these others are left blocked.
    fn has_to_leave(&self, choice: &Choice, until: &[usize]) -> bool {
        if choice.has_stayer {
            return true;
        }
        for i in choice.first..choice.end {
            if let Some(place) = self.others.get(i)
                && let Some(left) = until.get(*place)
                && *left > choice.line
            {
                return true;
            }
        }
        false
    }

    /// Of each place of an answer, among so many lines, up to which line the wait is to be left blocked that is answered
    /// there.
    fn left(&self, alloc: Global, lines: usize) -> Result<Vec<usize>, Stop> {
        let mut until = Vec::new(alloc);
        for _ in 0..lines {
            push(&mut until, 0)?;
        }
        for i in (0..self.choices.len()).rev() {
            let choice = self.choices[i];
            if choice.place < until.len() && self.has_to_leave(&choice, until.as_slice()) {
                until[choice.place] = choice.line;
            }
        }
        Ok(until)
    }
}

/// Of each place of an answer, up to which line a player has to leave the wait blocked that is answered there, if a scout
/// comes through all lines with at most so many steps before each. `watch` may end it before each line, and is told of
/// none: no run has shown it.
pub(crate) fn scouted<W: WatchLines>(
    alloc: Global,
    rules: &Rules,
    limits: HistoryLimits,
    lines: &[Line],
    moves: usize,
    watch: &mut W,
) -> Result<Option<Vec<usize>>, Stop> {
    let mut later = Later::of(alloc, lines)?;
    later.leaving = Leaving::for_scout(alloc);
    let machine = HistoryMachine::new(limits, *rules);
    let mut scout = Scout::new(alloc, limits)?;
    if !scout.reach_all(alloc, &machine, &mut later, lines, moves, watch)? {
        return Ok(None);
    }
    Ok(Some(scout.left(alloc, lines.len())?))
}
