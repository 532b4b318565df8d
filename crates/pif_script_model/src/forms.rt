/// How the answer of a call that is the number of an error may stand in a story.
#[derive(Clone, Copy)]
pub enum Form {
    /// As `run` prints it: `answer 35`.
    Number,
    /// With the error's name in its place: `answer EDEADLK`.
    Name,
    /// With the name behind it: `answer 35 EDEADLK`.
    Both,
}
