use pif_types::NoMemory;
use std::alloc::Global;
use std::fmt::Write;

/// A text that is made in memory. Once memory was refused nothing more is written.
#[derive(Drop)]
pub struct Page {
    text: String,
    failed: bool,
}

impl Page {
    /// A page with no text.
    pub fn new(alloc: Global) -> Page {
        Page {
            text: String::new(alloc),
            failed: false,
        }
    }

    /// Writes words.
    pub fn words(&mut self, words: &str) {
        if !self.failed {
            self.failed = self.text.push_str(words).is_err();
        }
    }

    /// Writes a pattern in which `{}` stands for a number: the first for the first of these, and so on.
    pub fn fill(&mut self, pattern: &str, numbers: &[u32]) {
        let mut rest = pattern;
        for number in numbers {
            if let Some((before, after)) = rest.split_once("{}") {
                self.words(before);
                self.number(*number);
                rest = after;
            }
        }
        self.words(rest);
    }

    /// Writes a number in decimal digits.
    fn number(&mut self, number: u32) {
        if !self.failed {
            self.failed = write!(self.text, "{number}").is_err();
        }
    }

    /// Writes what stands on another page.
    pub fn copy(&mut self, page: &Page) {
        self.words(page.text.as_str());
        self.failed = self.failed || page.failed;
    }

    /// The text.
    ///
    /// # Errors
    ///
    /// Memory was refused for a part of it.
    pub fn text(self) -> Result<String, NoMemory> {
        if self.failed {
            Err(NoMemory)
        } else {
            Ok(self.text)
        }
    }
}
