use crate::plays::{Onlooker, play};
use crate::rows::{DrawnRow, letters_of};
use crate::spans::Span;
use pif_core::Core;
use pif_model::Event;
use pif_script_model::{AnsweredRow, Part, WatchSteps};
use pif_story::name_of;
use pif_text::{Addition, Arguments, Command};
use pif_text_core::owner_of;
use pif_types::{MutexId, NoMemory, Tid};
use std::alloc::{AllocError, Global};

/// Where the first column begins, if threads have no names.
const LEFT: u32 = 48;
/// The top of all lanes.
pub const TOP: u32 = 88;
/// The width of a column.
const COLUMN: u32 = 40;
/// The most bars that one lane shows below each other.
pub const MOST_SLOTS: u32 = 3;

/// A place in a script: behind the command of a column, which stands in this line of the story.
#[derive(Clone, Copy)]
pub struct Moment {
    /// The number of the column, from 0.
    pub column: u32,
    /// The number of the line, from 1.
    pub line: u32,
}

/// Where things stand in a drawing, in pixels.
#[derive(Clone, Copy)]
pub struct Plan {
    /// How many commands are drawn.
    pub columns: u32,
    /// How many threads are drawn.
    pub threads: u32,
    /// How many mutexes are drawn.
    pub mutexes: u32,
    // Where the first column begins.
    left: u32,
    // The most mutexes that one thread holds at once.
    held: u32,
    // The least and the greatest priority, and the length of the longest command with its answer.
    least: u32,
    greatest: u32,
    letters: u32,
}

/// The plan of a drawing of a story, in the first half of its steps.
///
/// # Errors
///
/// A growth of memory was refused.
pub fn plan_of<V: WatchSteps>(
    alloc: Global,
    span: &Span,
    names: &[u8],
    rows: &[AnsweredRow<'_>],
    told: &mut V,
) -> Result<Plan, NoMemory> {
    let mut planner = Planner {
        plan: Plan::new(),
        span: *span,
        counts: Vec::new(alloc),
        failed: false,
    };
    let count = rows.len();
    let mut half = Part::new(told, 0, count, count.saturating_mul(2));
    play(alloc, rows, &mut planner, &mut half)?;
    if planner.failed {
        return Err(NoMemory);
    }
    let mut plan = planner.plan;
    plan.left = left_of(names, plan.threads);
    Ok(plan)
}

/// Makes a plan while the commands of a story are played.
#[derive(Drop)]
struct Planner {
    plan: Plan,
    span: Span,
    // How many mutexes each thread holds.
    counts: Vec<u32>,
    // Whether memory was refused.
    failed: bool,
}

impl Onlooker for Planner {
    fn see(&mut self, row: &DrawnRow<'_>, core: &Core) {
        if self.span.is_before(row.line) {
            return;
        }
        if self.span.has(row.line) {
            self.plan.take(row);
        }
        self.plan.take_priority(row);
        self.plan.threads = core.threads();
        self.plan.mutexes = core.mutexes();
        match most_held(core, &mut self.counts) {
            Ok(most) => self.plan.held = self.plan.held.max(most),
            Err(_) => self.failed = true,
        }
    }
}

/// The most mutexes that one thread holds. `counts` is for counting those of each.
fn most_held(core: &Core, counts: &mut Vec<u32>) -> Result<u32, AllocError> {
    counts.clear();
    for _thread in 0..core.threads() {
        counts.push(0)?;
    }
    let mut most = 0;
    for number in 1..=core.mutexes() {
        if let Some(place) = owner_place(core, number) {
            if place < counts.len() {
                counts[place] = counts[place].saturating_add(1);
                most = most.max(counts[place]);
            }
        }
    }
    Ok(most)
}

/// The place, from 0, of the thread that holds the mutex of this number.
fn owner_place(core: &Core, number: u32) -> Option<usize> {
    let owner = owner_of(core, MutexId::new(number)?)?;
    Some((owner.get() - 1) as usize)
}

/// Where the first column begins, so that the longest name of so many threads has room before it.
fn left_of(names: &[u8], threads: u32) -> u32 {
    let mut left = LEFT;
    for number in 1..=threads {
        if let Some(thread) = Tid::new(number) {
            if let Some(name) = name_of(names, thread) {
                left = left.max(
                    u32::try_from(name.len())
                        .unwrap_or(0)
                        .saturating_mul(7)
                        .saturating_add(22),
                );
            }
        }
    }
    left
}

impl Plan {
    /// The plan of a drawing of nothing.
    fn new() -> Plan {
        Plan {
            columns: 0,
            threads: 0,
            mutexes: 0,
            left: LEFT,
            held: 0,
            least: 99,
            greatest: 1,
            letters: 0,
        }
    }

    /// Makes room for a command.
    fn take(&mut self, row: &DrawnRow<'_>) {
        self.columns = self.columns.saturating_add(1);
        self.letters = self
            .letters
            .max(u32::try_from(letters_of(row)).unwrap_or(0));
    }

    /// Makes room for the priority that a command gives to a thread.
    fn take_priority(&mut self, row: &DrawnRow<'_>) {
        if let Some(priority) = named_priority(row.command) {
            self.least = self.least.min(priority);
            self.greatest = self.greatest.max(priority);
        }
    }

    /// Where a column begins.
    pub fn x(&self, column: u32) -> u32 {
        column.saturating_mul(COLUMN).saturating_add(self.left)
    }

    /// The length of so many columns.
    pub fn length(&self, from: u32, to: u32) -> u32 {
        to.saturating_sub(from).saturating_mul(COLUMN)
    }

    /// The end of all columns, where a lane ends.
    pub fn lane_end(&self) -> u32 {
        self.x(self.columns)
    }

    /// The height of a lane.
    pub fn lane_height(&self) -> u32 {
        64 + self.held.min(MOST_SLOTS) * 12
    }

    /// The top of the lane of a thread.
    pub fn lane(&self, thread: Tid) -> u32 {
        self.below(thread, 0)
    }

    /// So far below the top of the lane of a thread.
    fn below(&self, thread: Tid, more: u32) -> u32 {
        let lanes = (thread.get() - 1).saturating_mul(self.lane_height());
        TOP.saturating_add(lanes).saturating_add(more)
    }

    /// The height at which a thread of this priority runs.
    pub fn level(&self, thread: Tid, priority: u32) -> u32 {
        let span = self.greatest.saturating_sub(self.least).max(1);
        let more = priority.saturating_sub(self.least).min(span);
        self.below(thread, 36 - (more.saturating_mul(22) / span).min(22))
    }

    /// The top of the band that shows what a thread does.
    pub fn band(&self, thread: Tid) -> u32 {
        self.below(thread, 41)
    }

    /// The top of a bar of a mutex that a thread holds.
    pub fn bar(&self, thread: Tid, slot: u32) -> u32 {
        self.below(thread, 60 + slot.min(MOST_SLOTS) * 12)
    }

    /// Where the lanes end, and the commands begin.
    pub fn axis(&self) -> u32 {
        self.threads
            .saturating_mul(self.lane_height())
            .saturating_add(TOP)
    }

    /// The width of the drawing.
    pub fn width(&self) -> u32 {
        let words = self.letters.saturating_mul(9) / 2;
        self.lane_end()
            .saturating_add(words)
            .saturating_add(24)
            .max(700)
    }

    /// The height of the drawing.
    pub fn height(&self) -> u32 {
        let words = self.letters.saturating_mul(11) / 2;
        self.axis().saturating_add(words).saturating_add(44)
    }
}

/// The priority that a command gives to a thread, if it is one.
fn named_priority(command: Command) -> Option<u32> {
    let priority = match command {
        Command::Add(Addition::Thread(priority)) => priority,
        Command::Run(_, Some(request)) | Command::Event(Event::Begin(_, request)) => {
            Arguments::of(&request).priority?
        }
        _ => return None,
    };
    if 1 <= priority && priority <= 99 {
        Some(priority)
    } else {
        None
    }
}
