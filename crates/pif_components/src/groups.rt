//! Groups of threads, mutexes and variables that lines join.
ghost use Rattle.std.specs.Prelude.{◌≡◌, true, None, Some, length, map, set, IfOk, OnOk};
ghost use Rattle.pif_components_model.specs.Components.{Name};
ghost use Rattle.pif_components.specs.Groups.{AreBounded, HasPlace, IsJoined, IsMerged, IsNew, IsPut, Keeps, group_of, name_of, number_of, relabelled};

use pif_search::{Stop, at_or, one, push};
use std::alloc::Global;

/// A thread, a mutex or a variable, by its number.
#[derive(Clone, Copy)]
pub enum Object {
    /// A thread.
    Thread(usize),
    /// A mutex.
    Mutex(usize),
    /// A condition variable.
    Variable(usize),
}

/// The group of each thread, mutex and variable that lines join with another. Place 0 of each list stands for nobody.
#[derive(Drop)]
pub struct Groups {
    /// Those of the threads.
    threads: Vec<Option<usize>>,
    /// Those of the mutexes.
    mutexes: Vec<Option<usize>>,
    /// Those of the variables.
    variables: Vec<Option<usize>>,
    /// How many groups there are. Group 0 is that of all that no line joins with another.
    count: usize,
}

/// What stands at this place of a list is in this group. If there is no such place, nothing changes.
fn put(groups: &mut [Option<usize>], at: usize, group: usize)
    ensures { groups.new ≡ set groups.old at (Some group) }
{
    if at < groups.len() {
        groups[at] = Some(group);
    }
}

/// A group once group `high` belongs to group `low`, and the last group has its number.
fn relabelled(group: Option<usize>, low: usize, high: usize, last: usize) -> Option<usize>
    ensures { result ≡ relabelled low high last group }
{
    match group {
        Some(number) if number == high => Some(low),
        Some(number) if number == last => Some(high),
        other => other,
    }
}

/// Group `high` belongs to group `low`, and the last group has its number.
fn relabel(groups: &mut [Option<usize>], low: usize, high: usize, last: usize)
    ensures { groups.new ≡ map (relabelled low high last) groups.old }
{
    for group in groups.iter_mut() {
        *group = relabelled(*group, low, high, last);
    }
}

impl Groups {
    /// Before any line.
    ///
    /// # Errors
    ///
    /// Out of memory.
    pub fn new(alloc: Global) -> Result<Groups, Stop>
        ensures { IfOk result IsNew }
    {
        Ok(Groups {
            threads: one(alloc, None)?,
            mutexes: one(alloc, None)?,
            variables: one(alloc, None)?,
            count: 1,
        })
    }

    /// How many groups there are, at least one.
    pub fn count(&self) -> usize
        ensures { result ≡ self.now.count }
    {
        self.count
    }

    /// The group in which it is, if a line joins it with another.
    fn group(&self, object: Object) -> Option<usize>
        ensures { result ≡ group_of self.now (name_of object) }
    {
        match object {
            Object::Thread(place) => at_or(self.threads.as_slice(), place, None),
            Object::Mutex(place) => at_or(self.mutexes.as_slice(), place, None),
            Object::Variable(place) => at_or(self.variables.as_slice(), place, None),
        }
    }

    /// The number of its group: 0 if no line joins it with another.
    pub fn number(&self, object: Object) -> usize
        ensures { result ≡ number_of self.now (name_of object) }
    {
        match self.group(object) {
            Some(number) => number,
            None => 0,
        }
    }

    /// Whether it was added.
    fn has_place(&self, object: Object) -> bool
        ensures { result ≡ true → HasPlace self.now (name_of object) }
    {
        match object {
            Object::Thread(place) => place < self.threads.len(),
            Object::Mutex(place) => place < self.mutexes.len(),
            Object::Variable(place) => place < self.variables.len(),
        }
    }

    /// It is in this group.
    fn put(&mut self, object: Object, group: usize)
        ensures { IsPut (name_of object) group self.old self.new }
    {
        match object {
            Object::Thread(place) => put(self.threads.as_mut_slice(), place, group),
            Object::Mutex(place) => put(self.mutexes.as_mut_slice(), place, group),
            Object::Variable(place) => put(self.variables.as_mut_slice(), place, group),
        }
    }

    /// It is alone in a group of its own.
    fn found(&mut self, object: Object) -> Result<(), Stop>
        ensures { OnOk result (AreBounded self.old → HasPlace self.old (name_of object) → group_of self.old (name_of object) ≡ None → IsJoined (name_of object) (name_of object) self.old self.new) }
    {
        let group = self.count;
        match group.checked_add(1) {
            Some(count) => {
                self.put(object, group);
                self.count = count;
                Ok(())
            }
            None => Err(Stop::Range),
        }
    }

    /// It is in a group from now on. False: it wasn't added.
    fn enter(&mut self, object: Object) -> Result<bool, Stop>
        ensures { IfOk result (λ b. b ≡ true → AreBounded self.old → IsJoined (name_of object) (name_of object) self.old self.new) }
    {
        if self.group(object).is_some() {
            return Ok(true);
        }
        if !self.has_place(object) {
            return Ok(false);
        }
        self.found(object)?;
        Ok(true)
    }

    /// Two groups are one.
    fn merge(&mut self, low: usize, high: usize)
        ensures { IsMerged low high self.old self.new }
    {
        let last = self.count.saturating_sub(1);
        relabel(self.threads.as_mut_slice(), low, high, last);
        relabel(self.mutexes.as_mut_slice(), low, high, last);
        relabel(self.variables.as_mut_slice(), low, high, last);
        self.count = last;
    }

    /// Two groups are one, if they aren't yet.
    fn unite(&mut self, first: usize, second: usize)
        ensures { (a b : Name) → AreBounded self.old → group_of self.old a ≡ Some first → group_of self.old b ≡ Some second → IsJoined a b self.old self.new }
    {
        if first < second {
            self.merge(first, second);
        } else if second < first {
            self.merge(second, first);
        }
    }

    /// The two are in one group from now on. False: one of them wasn't added, and the groups are of no use.
    ///
    /// # Errors
    ///
    /// A number got too great. The groups are of no use then.
    pub fn join(&mut self, one: Object, other: Object) -> Result<bool, Stop>
        ensures { IfOk result (λ b. b ≡ true → AreBounded self.old → IsJoined (name_of one) (name_of other) self.old self.new) }
    {
        if !self.enter(one)? {
            return Ok(false);
        }
        if !self.enter(other)? {
            return Ok(false);
        }
        let first = self.number(one);
        let second = self.number(other);
        self.unite(first, second);
        Ok(true)
    }

    /// One more thread is added.
    ///
    /// # Errors
    ///
    /// Out of memory.
    pub fn add_thread(&mut self) -> Result<(), Stop>
        ensures { OnOk result (AreBounded self.old → Keeps 0 self.old self.new) }
    {
        push(&mut self.threads, None)
    }

    /// One more mutex is added.
    ///
    /// # Errors
    ///
    /// Out of memory.
    pub fn add_mutex(&mut self) -> Result<(), Stop>
        ensures { OnOk result (AreBounded self.old → Keeps 0 self.old self.new) }
    {
        push(&mut self.mutexes, None)
    }

    /// One more variable is added. It answers its number.
    ///
    /// # Errors
    ///
    /// Out of memory.
    pub fn add_variable(&mut self) -> Result<usize, Stop>
        ensures { IfOk result (λ n. (n ≡ length self.old.variables.items) × (AreBounded self.old → Keeps 1 self.old self.new)) }
    {
        let number = self.variables.len();
        push(&mut self.variables, None)?;
        Ok(number)
    }
}
