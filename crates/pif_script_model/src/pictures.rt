/// A picture of a story for programs.
#[derive(Clone, Copy)]
pub enum Picture {
    /// The state behind each command, as a line of JSON.
    States,
    /// Who waits for whom at the end, in the language of Graphviz.
    Graph,
}
