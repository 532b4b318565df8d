//! What is said of a command that asks for what isn't there.

use crate::remarks::Remark;
use crate::sessions::Session;
use pif_story::{Known, append_missing, noted};
use pif_text::{Reply, Text, reply_text};

/// How many threads, mutexes and condition variables a session has, and its time.
fn known_to(session: &Session) -> Known {
    match session.core() {
        Some(core) => Known {
            threads: core.threads(),
            mutexes: core.mutexes(),
            conds: core.conds(),
            time: core.time(),
        },
        None => Known::nothing(),
    }
}

/// What is said of the last command of a session, which was answered so, if it asks for what isn't there. Such a command
/// has changed nothing, so the session has what it had before.
pub fn note_on(session: &Session, reply: Reply) -> Option<Remark> {
    let command = *session.last()?;
    let mut given = Text::new();
    reply_text(reply, &mut given);
    let missing = noted(&known_to(session), command, given.as_slice())?;
    let mut text = Text::new();
    append_missing(&mut text, &missing);
    let mut remark = Remark::new();
    remark.show(text.as_slice());
    Some(remark)
}
