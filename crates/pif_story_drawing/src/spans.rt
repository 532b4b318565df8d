/// The lines of a story whose commands are drawn.
#[derive(Clone, Copy)]
pub struct Span {
    /// The first, from 1.
    pub from: u32,
    /// The last, also if the story has fewer lines. None is drawn if it is before the first.
    pub to: u32,
}

impl Span {
    /// The lines from one to another; 0 as the last stands for all behind.
    pub fn new(from: u32, to: u32) -> Span {
        Span {
            from,
            to: if to == 0 { u32::MAX } else { to },
        }
    }

    /// Whether a line is behind the last.
    pub fn is_before(&self, line: u32) -> bool {
        self.to < line
    }

    /// Whether a line is one of them.
    pub fn has(&self, line: u32) -> bool {
        self.from <= line && line <= self.to
    }
}
