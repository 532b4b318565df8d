use pif_search::WatchLines;

/// Who is told how far a history was judged.
pub trait WatchParts {
    /// The lines of its text up to that of this number, from 1, are legal.
    fn legal_up_to(&mut self, line: u32);
}

/// Who is told of the open lines of a history by their numbers in its text.
#[derive(Drop)]
pub struct Numbered<'n, 'v, V> {
    /// The numbers of the open lines.
    pub numbers: &'n [u32],
    /// Who is told.
    pub watch: &'v mut V,
}

impl<V: WatchLines> WatchLines for Numbered<'_, '_, V> {
    fn line(&mut self, line: usize, states: usize) {
        let numbers = self.numbers;
        if line > 0 && line <= numbers.len() {
            let number = numbers[line - 1];
            self.watch.line(number as usize, states);
        }
    }

    fn goes_on(&mut self) -> bool {
        self.watch.goes_on()
    }
}
