use pif_history_model::Line;
use pif_rules_model::Rules;

/// What a line of the text of a history says.
#[derive(Clone, Copy)]
pub enum Said {
    /// Nothing: it is a comment, or empty.
    Nothing,
    /// `limits T M C S`.
    Limits(u32, u32, u32, u32),
    /// `allow NAME ..`: these rules are allowed.
    Allow(Rules),
    /// A line that is shown by runs, or by none.
    Shown(Line),
}
