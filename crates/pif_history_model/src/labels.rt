use crate::Line;
use pif_types::Tid;

/// One step of the machine that is searched for a history.
#[derive(Clone, Copy)]
pub enum Label {
    /// A line of the history. It alone is shown.
    Shown(Line),
    /// One effect of the thread's open call, or one move of it that nobody sees. It is hidden.
    Moves(Tid),
    /// The end of the thread, which is dying. It is hidden.
    Ends(Tid),
}
