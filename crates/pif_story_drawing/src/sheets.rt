use crate::growing_text::Page;
use std::alloc::Global;

/// What was drawn, by layers: what comes later stands above.
#[derive(Drop)]
pub struct Sheet {
    /// Whether what changes is drawn.
    pub is_open: bool,
    /// The columns with their commands.
    pub columns: Page,
    /// What threads do.
    pub bands: Page,
    /// Which mutexes they hold.
    pub bars: Page,
    /// Their priorities.
    pub levels: Page,
    /// Who acts, and what is handed over.
    pub arrows: Page,
}

impl Sheet {
    /// A sheet on which nothing was drawn, and nothing is yet.
    pub fn new(alloc: Global) -> Sheet {
        Sheet {
            is_open: false,
            columns: Page::new(alloc),
            bands: Page::new(alloc),
            bars: Page::new(alloc),
            levels: Page::new(alloc),
            arrows: Page::new(alloc),
        }
    }
}
