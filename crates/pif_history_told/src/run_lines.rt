ghost use Rattle.std.specs.Prelude.{◌≡◌, ◌++◌, OnOk};
ghost use Rattle.pif_history_told.specs.Runs.{comma_behind, line_object, move_object, rule_members, told_line, untold, with_line, with_move, with_step};

use crate::changes::{Change, append_changes};
use pif_history_model::{Label, Line};
use pif_history_text::line_text;
use pif_posix::Wide;
use pif_search::{Stop, at_or};
use pif_text::{Member, Text, append_members};
use pif_types::Tid;
use std::alloc::{AllocError, Global};
use std::marker::Model;

/// The state stands whole at one in so many lines that are told.
const WHOLE_LINES: usize = 256;

/// How a run is told so far.
#[derive(Drop)]
pub struct Telling {
    place: usize,
    done: Vec<u8>,
    pending: Vec<u8>,
}

impl Model for Telling {
    ghost use Rattle.pif_history_told.specs.Runs.{Telling};

    ghost Value = { Telling };

    ghost view = { λ t. record { place = t.place; done = t.done.items; pending = t.pending.items } };
}

/// Which lines of a history are told, and their numbers.
#[derive(Clone, Copy)]
pub struct Frame<'a> {
    /// The number of each line in the file.
    pub numbers: &'a [u32],
    /// How many lines are left out, from the first one.
    pub from: usize,
}

/// A step of a run, from a state to a state.
#[derive(Clone, Copy)]
pub struct Leap<'a> {
    /// The names of the rules that it needs, each after a space.
    pub names: &'a [u8],
    /// The state before it.
    pub from: &'a Wide,
    /// The state after it.
    pub to: &'a Wide,
}

/// Appends a comma, unless there is nothing yet.
fn append_comma(out: &mut Vec<u8>) -> Result<(), Stop>
    ensures { OnOk result (out.new.items ≡ out.old.items ++ comma_behind out.old.items) }
{
    if out.is_empty() {
        return Ok(());
    }
    out.extend_from_slice(b",")?;
    Ok(())
}

/// Appends the names of the rules that a step needs, if it needs some, as a member.
fn append_rules(names: &[u8], out: &mut Vec<u8>) -> Result<(), AllocError>
    ensures { OnOk result (out.new.items ≡ out.old.items ++ rule_members names.now) }
{
    match names {
        [] => Ok(()),
        [_, names @ ..] => append_members(out, b',', &[Member::Quoted("rule", names)]),
    }
}

/// Appends a move of a thread that no line shows, as an object.
///
/// # Errors
///
/// Out of memory, or a number got too great for a state. A part of the text may have been appended.
#[tactic(auto, unfolding(crate::specs::Runs::move_object))]
pub fn append_move(
    alloc: Global,
    name: &str,
    thread: Tid,
    step: &Leap<'_>,
    out: &mut Vec<u8>,
) -> Result<(), Stop>
    ensures { OnOk result (out.new.items ≡ out.old.items ++ move_object name.now thread step.now.names.now step.now.from.now step.now.to.now) }
{
    append_members(out, b'{', &[Member::Name(name, b't', thread.get())])?;
    append_rules(step.names, out)?;
    let change = Change {
        from: step.from,
        to: step.to,
        is_whole: false,
    };
    append_changes(alloc, &change, out)?;
    out.extend_from_slice(b"}")?;
    Ok(())
}

/// Appends a line of the history with this number, the moves before it, the rules that it needs, and what it changes.
#[tactic(auto, unfolding(crate::specs::Runs::line_object))]
fn append_line(
    alloc: Global,
    number: u32,
    line: &Line,
    moves: &[u8],
    names: &[u8],
    change: &Change<'_>,
    out: &mut Vec<u8>,
) -> Result<(), Stop>
    ensures { OnOk result (out.new.items ≡ out.old.items ++ line_object change.now.is_whole number line.now moves.now names.now change.now.from.now change.now.to.now) }
{
    let mut text = Text::new();
    line_text(*line, &mut text);
    append_members(
        out,
        b'{',
        &[
            Member::Number("line", number),
            Member::Quoted("text", text.as_slice()),
        ],
    )?;
    append_members(
        out,
        b',',
        &[
            Member::Array("moves", moves),
            Member::Bool("whole", change.is_whole),
        ],
    )?;
    append_rules(names, out)?;
    append_changes(alloc, change, out)?;
    out.extend_from_slice(b"}\n")?;
    Ok(())
}

/// Appends the line at a place of the history, with the moves before it, unless it is left out.
fn append_told(
    alloc: Global,
    frame: &Frame<'_>,
    place: usize,
    line: &Line,
    moves: &[u8],
    step: &Leap<'_>,
    out: &mut Vec<u8>,
) -> Result<(), Stop>
    ensures { OnOk result (out.new.items ≡ out.old.items ++ told_line frame.now.from frame.now.numbers.now place line.now moves.now step.now.names.now step.now.from.now step.now.to.now) }
{
    if place < frame.from {
        return Ok(());
    }
    let change = Change {
        from: step.from,
        to: step.to,
        is_whole: (place - frame.from) % WHOLE_LINES == 0,
    };
    append_line(
        alloc,
        at_or(frame.numbers, place, 0),
        line,
        moves,
        step.names,
        &change,
        out,
    )
}

impl Telling {
    /// Nothing is told.
    pub fn new(alloc: Global) -> Telling
        ensures { result ≡ untold }
    {
        Telling {
            place: 0,
            done: Vec::new(alloc),
            pending: Vec::new(alloc),
        }
    }

    /// The lines of JSON.
    pub fn into_lines(self) -> Vec<u8>
        ensures { result.items ≡ self.done }
    {
        self.done
    }

    /// Adds a line of the history.
    fn add_line(
        &mut self,
        alloc: Global,
        frame: &Frame<'_>,
        line: &Line,
        step: &Leap<'_>,
    ) -> Result<(), Stop>
        ensures { OnOk result (self.new ≡ with_line frame.now.from frame.now.numbers.now line.now step.now.names.now step.now.from.now step.now.to.now self.old) }
    {
        append_told(
            alloc,
            frame,
            self.place,
            line,
            self.pending.as_slice(),
            step,
            &mut self.done,
        )?;
        self.pending.clear();
        self.place = self.place.checked_add(1).ok_or(Stop::Range)?;
        Ok(())
    }

    /// Adds a move of a thread that no line shows.
    fn add_move(
        &mut self,
        alloc: Global,
        frame: &Frame<'_>,
        name: &str,
        thread: Tid,
        step: &Leap<'_>,
    ) -> Result<(), Stop>
        ensures { OnOk result (self.new ≡ with_move frame.now.from name.now thread step.now.names.now step.now.from.now step.now.to.now self.old) }
    {
        if frame.from >= self.place {
            return Ok(());
        }
        append_comma(&mut self.pending)?;
        append_move(alloc, name, thread, step, &mut self.pending)
    }

    /// Adds a step of a run.
    #[tactic(auto, unfolding(crate::specs::Runs::with_step))]
    pub fn add(
        &mut self,
        alloc: Global,
        frame: &Frame<'_>,
        label: &Label,
        step: &Leap<'_>,
    ) -> Result<(), Stop>
        ensures { OnOk result (self.new ≡ with_step frame.now.from frame.now.numbers.now label.now step.now.names.now step.now.from.now step.now.to.now self.old) }
    {
        match *label {
            Label::Shown(line) => self.add_line(alloc, frame, &line, step),
            Label::Moves(thread) => self.add_move(alloc, frame, "move", thread, step),
            Label::Ends(thread) => self.add_move(alloc, frame, "end", thread, step),
        }
    }
}
