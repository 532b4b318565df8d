ghost use Rattle.std.specs.Prelude.{◌≡◌, None, Ok, option_map};
ghost use Rattle.pif_explore_text.specs.Brackets.{Joins, alternated, and_also, blank, closed, denied, level_end, level_with, negating, nest_end, offered, opened, or_else, unopened, with_part};
ghost use Rattle.pif_explore_text.specs.Results.{Gives, Makes};
ghost use Rattle.pif_explore_text.specs.Views.{level_of, levels_of, nest_of};

use crate::Trouble;
use pif_text::Cause;
use std::alloc::Global;
use std::mem;

/// What `not`, `and` and `or` join: tests, and conditions.
pub(crate) trait Joined: Drop {
    // the tree that it is
    ghost Shape: { Type 0 };

    ghost shape: { Self → Shape };

    ghost joins: { Joins Shape };

    /// The opposite of a part.
    fn negated(alloc: Global, part: Self) -> Result<Self, Trouble>
        ensures { Gives shape (Ok (joins.negated (shape part))) result };

    /// Both of two parts.
    fn both(alloc: Global, one: Self, other: Self) -> Result<Self, Trouble>
        ensures { Gives shape (Ok (joins.both (shape one) (shape other))) result };

    /// One of two parts.
    fn either(alloc: Global, one: Self, other: Self) -> Result<Self, Trouble>
        ensures { Gives shape (Ok (joins.either (shape one) (shape other))) result };
}

/// What stands so far inside one pair of brackets, or outside of all.
#[derive(Drop)]
pub(crate) struct Level<T> {
    /// What stands before the last `or`.
    ors: Option<T>,
    /// What stands behind it.
    ands: Option<T>,
    /// Whether the opposite is meant of what comes next: an odd number of `not`s stand before it.
    denies: bool,
}

/// What stands so far in all brackets that are open.
#[derive(Drop)]
pub(crate) struct Nest<T> {
    /// In the innermost.
    level: Level<T>,
    /// In those outside of it, the innermost last.
    outside: Vec<Level<T>>,
}

/// A line that is no command.
const NO_COMMAND: Trouble = Trouble::Fault(Cause::Command);

/// A part, or its opposite.
fn denied<T: Joined>(alloc: Global, denies: bool, part: T) -> Result<T, Trouble>
    ensures { Gives T.shape (Ok (denied T.joins denies (T.shape part))) result }
{
    if denies {
        T::negated(alloc, part)
    } else {
        Ok(part)
    }
}

/// Both of what stands before an `and` and what stands behind it.
fn and_also<T: Joined>(alloc: Global, before: Option<T>, part: T) -> Result<T, Trouble>
    ensures { Gives T.shape (Ok (and_also T.joins (option_map T.shape before) (T.shape part))) result }
{
    match before {
        None => Ok(part),
        Some(before) => T::both(alloc, before, part),
    }
}

/// One of what stands before an `or` and what stands behind it.
fn or_else<T: Joined>(alloc: Global, before: Option<T>, part: T) -> Result<T, Trouble>
    ensures { Gives T.shape (Ok (or_else T.joins (option_map T.shape before) (T.shape part))) result }
{
    match before {
        None => Ok(part),
        Some(before) => T::either(alloc, before, part),
    }
}

impl<T: Joined> Level<T> {
    /// At the front of brackets.
    fn new() -> Self
        ensures { level_of T.shape result ≡ blank }
    {
        Level {
            ors: None,
            ands: None,
            denies: false,
        }
    }

    /// Takes one part more.
    fn take(&mut self, alloc: Global, part: T) -> Result<(), Trouble>
        ensures { Makes (Ok (level_with T.joins (level_of T.shape self.old) (T.shape part))) (level_of T.shape self.new) result }
    {
        let part = denied(alloc, self.denies, part)?;
        let part = and_also(alloc, self.ands.take(), part)?;
        self.ands = Some(part);
        self.denies = false;
        Ok(())
    }

    /// Takes out all that stands there.
    fn take_all(&mut self, alloc: Global) -> Result<T, Trouble>
        ensures all { Gives T.shape (level_end T.joins (level_of T.shape self.old) (option_map T.shape self.old.ands)) result }
        ensures ands { self.new.ands ≡ None }
        ensures denies { self.new.denies ≡ self.old.denies }
    {
        match self.ands.take() {
            None => Err(NO_COMMAND),
            Some(part) => or_else(alloc, self.ors.take(), part),
        }
    }

    /// Takes an `or`.
    fn alternate(&mut self, alloc: Global) -> Result<(), Trouble>
        ensures { Makes (alternated T.joins (level_of T.shape self.old)) (level_of T.shape self.new) result }
    {
        let part = self.take_all(alloc)?;
        self.ors = Some(part);
        Ok(())
    }
}

impl<T: Joined> Nest<T> {
    /// Before the first word.
    pub(crate) fn new(alloc: Global) -> Self
        ensures { nest_of T.shape result ≡ unopened }
    {
        Nest {
            level: Level::new(),
            outside: Vec::new(alloc),
        }
    }

    /// Takes one part more.
    pub(crate) fn take(&mut self, alloc: Global, part: T) -> Result<(), Trouble>
        ensures { Makes (Ok (with_part T.joins (nest_of T.shape self.old) (T.shape part))) (nest_of T.shape self.new) result }
    {
        self.level.take(alloc, part)
    }

    /// Takes a `not`.
    pub(crate) fn negate(&mut self)
        ensures { nest_of T.shape self.new ≡ negating (nest_of T.shape self.old) }
    {
        self.level.denies = !self.level.denies;
    }

    /// Takes an `or`.
    pub(crate) fn alternate(&mut self, alloc: Global) -> Result<(), Trouble>
        ensures { Makes (offered T.joins (nest_of T.shape self.old)) (nest_of T.shape self.new) result }
    {
        self.level.alternate(alloc)
    }

    /// Takes a `(`.
    pub(crate) fn open(&mut self) -> Result<(), Trouble>
        ensures { Makes (Ok (opened (nest_of T.shape self.old))) (nest_of T.shape self.new) result }
    {
        let level = mem::replace(&mut self.level, Level::new());
        self.outside.push(level)?;
        Ok(())
    }

    /// Takes a `)`.
    pub(crate) fn close(&mut self, alloc: Global) -> Result<(), Trouble>
        ensures { Makes (closed T.joins (level_of T.shape self.old.level) (levels_of T.shape self.old.outside.items)) (nest_of T.shape self.new) result }
    {
        match self.outside.pop() {
            None => Err(NO_COMMAND),
            Some(outer) => {
                let part = self.level.take_all(alloc)?;
                self.level = outer;
                self.level.take(alloc, part)
            }
        }
    }

    /// Takes out all that stands there, if no brackets are open.
    pub(crate) fn take_all(&mut self, alloc: Global) -> Result<T, Trouble>
        ensures { Gives T.shape (nest_end T.joins (nest_of T.shape self.old) (levels_of T.shape self.old.outside.items)) result }
    {
        if self.outside.is_empty() {
            self.level.take_all(alloc)
        } else {
            Err(NO_COMMAND)
        }
    }
}
