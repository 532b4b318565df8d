use pif_rules_model::Rules;

/// In which form a verdict on a history is told.
#[derive(Clone, Copy)]
pub enum Form {
    /// In lines for a person.
    Text,
    /// In these lines, and after that of a legal history comes a run that shows it, for a person.
    Witness,
    /// In lines of JSON. After the verdict comes a run: one that shows all lines, or those before the line of the
    /// verdict.
    Json,
    /// As a page that shows these lines of JSON. Of a long history it has the last lines of the run.
    Page,
}

/// How a history is judged.
#[derive(Clone, Copy)]
pub struct Judging<'a> {
    /// The name that stands in front of what is told in lines for a person, if there are several histories; and in the
    /// title of a page.
    pub name: Option<&'a [u8]>,
    /// The form in which the verdict is told.
    pub form: Form,
    /// How many states may be made for one line. What a broadcast may choose is made at once, 65,536 states at most,
    /// and counted after that.
    pub states: u32,
    /// The rules that hold beside those that the history allows.
    pub allowed: Rules,
    /// Whether POSIX isn't asked.
    pub plain: bool,
}
