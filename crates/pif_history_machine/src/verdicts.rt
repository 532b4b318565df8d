use pif_history_model::Label;

/// What is said of the lines of a history, oldest first.
#[derive(Drop)]
pub enum Verdict {
    /// Some run of the machine shows the lines. This is one, newest step first: a line, or a move that no line
    /// shows.
    Legal(Vec<Label>),
    /// No run shows the first so many lines, from 1, and some run shows one less.
    Illegal(usize),
    /// More states than were allowed were made for this line, from 1, or the watch ended the search. It claims nothing.
    Undecided(usize),
}
