/// A node: its neighbours in its list, the list, and its key. Links are numbers of nodes and lists.
#[derive(Clone, Copy)]
pub struct Slot {
    pub prev: Option<u32>,
    pub next: Option<u32>,
    pub list: Option<u32>,
    pub prio: u32,
    pub ticket: u64,
}

/// The two ends of a list.
#[derive(Clone, Copy)]
pub struct Ends {
    pub first: Option<u32>,
    pub last: Option<u32>,
}
