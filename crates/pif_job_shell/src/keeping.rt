use crate::remarks::{Remark, say_unsaved};
use crate::sessions::Session;
use crate::shelves::{SaveFault, Shelf};
use crate::stories::story_of;
use pif_types::NoMemory;
use std::alloc::Global;

/// The names under which a session is kept as it goes on: the first that no file has.
const NAMES: [&str; 9] = [
    "pif-shell-1.story",
    "pif-shell-2.story",
    "pif-shell-3.story",
    "pif-shell-4.story",
    "pif-shell-5.story",
    "pif-shell-6.story",
    "pif-shell-7.story",
    "pif-shell-8.story",
    "pif-shell-9.story",
];

/// The story in which a session at a terminal is kept as it goes on, if there is one.
#[derive(Drop)]
pub struct Keeper {
    name: Option<&'static str>,
    /// Whether all that was given is saved under a name of the person's own.
    is_saved: bool,
    /// Whether the story has the session as it is now.
    is_kept: bool,
}

impl Keeper {
    /// Keeps nothing.
    pub fn idle() -> Keeper {
        Keeper {
            name: None,
            is_saved: true,
            is_kept: true,
        }
    }

    /// Makes a new file for the session. Answers what is said of it, too.
    pub fn begin<S: Shelf>(alloc: Global, shelf: &S) -> (Keeper, Remark) {
        let mut keeper = Keeper::idle();
        let remark = match first_free(alloc, shelf) {
            Ok(name) => {
                keeper.name = Some(name);
                kept_as(name)
            }
            Err((_, SaveFault::Taken)) => Remark::of(&[
                "the session is not kept: no name from pif-shell-1.story to pif-shell-9.story is free",
            ]),
            Err((name, why)) => not_kept(name, why),
        };
        (keeper, remark)
    }

    /// The story in which the session is kept, if the file of this name may be that.
    pub fn kept_in(&self, name: &str) -> Option<&'static str> {
        let kept = self.name?;
        match name.split('/').last() {
            Some(last) if last == kept => Some(kept),
            _ => None,
        }
    }

    /// The session was saved.
    pub fn note_saved(&mut self) {
        self.is_saved = true;
    }

    /// The session has changed: it is kept as it is now. Answers what is said if that fails.
    pub fn keep<S: Shelf>(
        &mut self,
        alloc: Global,
        shelf: &S,
        session: &Session,
    ) -> Option<Remark> {
        self.is_saved = false;
        let name = self.name?;
        let kept = put(alloc, shelf, name, session);
        self.is_kept = kept.is_ok();
        match kept {
            Ok(()) => None,
            Err(why) => Some(not_kept(name, why)),
        }
    }

    /// The session ends: what was kept of it is removed if there is no command, or if a person leaves who has saved it.
    /// Answers what is said of it otherwise.
    pub fn end<S: Shelf>(&self, shelf: &S, session: &Session, leaves: bool) -> Option<Remark> {
        let name = self.name?;
        if session.len() == 0 || (leaves && self.is_saved) {
            shelf.remove(name);
            return None;
        }
        Some(if self.is_kept {
            kept_as(name)
        } else {
            Remark::of(&["the session is not kept as it is now; ", name, " is older"])
        })
    }
}

/// What is said of a session that is kept in the story of this name.
fn kept_as(name: &str) -> Remark {
    Remark::of(&["the session is kept in ", name])
}

/// What is said of one that can't be kept there.
fn not_kept(name: &str, why: SaveFault) -> Remark {
    let mut remark = Remark::of(&["the session is not kept: "]);
    say_unsaved(name, why, &mut remark);
    remark
}

/// Puts the session into the story of this name.
///
/// # Errors
///
/// Why it is not in it. What was there before is left as it is.
fn put<S: Shelf>(alloc: Global, shelf: &S, name: &str, session: &Session) -> Result<(), SaveFault> {
    match story_of(alloc, session) {
        Ok(story) => shelf.replace(alloc, name, story.as_slice()),
        Err(NoMemory) => Err(SaveFault::NoMemory),
    }
}

/// Makes a new file of the first of the names that no file has, and beside which there is none that `replace` would
/// write.
///
/// # Errors
///
/// The name that was tried last, and why no file was made.
fn first_free<S: Shelf>(
    alloc: Global,
    shelf: &S,
) -> Result<&'static str, (&'static str, SaveFault)> {
    let mut last = NAMES[0];
    for name in NAMES {
        last = name;
        if shelf.is_taken_beside(alloc, name) {
            continue;
        }
        match shelf.save(name, b"") {
            Ok(()) => return Ok(name),
            Err(SaveFault::Taken) => {}
            Err(why) => return Err((name, why)),
        }
    }
    Err((last, SaveFault::Taken))
}
