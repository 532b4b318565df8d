/// What a random script is made of.
#[derive(Clone, Copy)]
pub struct Shape {
    /// How many threads are added at first. One that ends, or that can't go on since all rest, is followed by another.
    pub threads: u32,
    /// How many mutexes are added at first. One that is unusable, or that its owner never gives up, is followed by
    /// another.
    pub mutexes: u32,
    /// How many condition variables are added at first, if there is a mutex. One whose mutex is of no use any more is
    /// followed by another.
    pub conds: u32,
    /// Whether half of the mutexes are robust; else none is.
    pub robust: bool,
    /// Whether threads end, between the steps of their calls too.
    pub ends: bool,
    /// Whether time goes on and calls have deadlines.
    pub times: bool,
}
