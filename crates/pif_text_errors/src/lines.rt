use crate::calls::{BEHIND_BEGIN, Table, calls, statements};
use crate::forms::{Form, Part, Parts, Rest, Shape};
use crate::parts::{
    ends_early, is_answer, is_cell, near_part, number_named, wrong_with_part, wrong_with_word,
};
use crate::tables::{
    FAULTS, KINDS, KINDS_OF_PROGRAM, KINDS_OF_PROTOCOL, OF_CELL, OF_CELLS, OF_MUTEXES, OF_THREADS,
    RULE_COUNT, RULES,
};
use crate::{Misplaced, Wrong};
use arrayvec::ArrayVec;
use pif_text::number_of;

/// The most blocks that may be open in a program, whose lines have at most 4000 bytes.
const MOST_OPEN: usize = 1000;

/// A block that is open.
#[derive(Clone, Copy)]
enum Open {
    /// That of an `if`, behind which `else` may stand.
    If,
    /// That of an `else`.
    Else,
    /// That of a `while`.
    While,
}

impl Default for Open {
    /// What fills a list in which no block is open.
    fn default() -> Open {
        Open::If
    }
}

/// How many threads, mutexes and condition variables there are.
#[derive(Clone, Copy)]
pub struct Added {
    /// The threads.
    pub threads: u32,
    /// The mutexes.
    pub mutexes: u32,
    /// The condition variables.
    pub conds: u32,
}

impl Added {
    /// None.
    pub fn nothing() -> Added {
        Added {
            threads: 0,
            mutexes: 0,
            conds: 0,
        }
    }

    /// Counts what a line adds, if it adds something.
    pub fn count(&mut self, line: &[u8]) {
        if line.starts_with(b"thread ") {
            self.threads = self.threads.saturating_add(1);
        } else if line.starts_with(b"mutex ") {
            self.mutexes = self.mutexes.saturating_add(1);
        } else if line.starts_with(b"cond ") {
            self.conds = self.conds.saturating_add(1);
        }
    }

    /// As many as can be named.
    pub fn all() -> Added {
        Added {
            threads: u32::MAX,
            mutexes: u32::MAX,
            conds: u32::MAX,
        }
    }

    /// Whether a word names what is not there.
    fn lacks(&self, word: &[u8], part: Part) -> bool {
        let most = match part {
            Part::Thread => self.threads,
            Part::Mutex => self.mutexes,
            Part::Cond => self.conds,
            _ => return false,
        };
        number_named(word, part).is_some_and(|number| number > most)
    }
}

/// What the next word of a line may be.
#[derive(Clone, Copy)]
enum Next {
    /// The next part of the form.
    Part,
    /// Nothing: the line ends.
    End,
    /// A call.
    Call,
    /// A kind of mutex.
    Kind,
    /// The same, of a mutex that may be of PTHREAD_PRIO_NONE.
    KindOfProtocol,
    /// The same, of a mutex that may have a name.
    KindOfProgram,
    /// The next part, or the end.
    Optional,
    /// A rule.
    Rule,
    /// A rule, or the end.
    Rules,
    /// A time, or the end.
    Tick,
    /// A thread, or the end.
    Threads,
    /// `of`, or the end.
    Of,
    /// A statement, or what ends none.
    Statement,
    /// What ends a statement.
    Semicolon,
    /// The same, behind a block.
    Closed,
    /// `else`, or the same.
    Else,
    /// `{` or `if`, behind `else`
    Brace,
    /// A thread or `:`
    Colon,
    /// What a test asks.
    Guard,
    /// `and`, `or`, `)` or `{`
    Alternative,
    /// What a condition speaks of.
    Subject,
    /// What a condition says of a thread.
    OfThread,
    /// What a condition says of a mutex.
    OfMutex,
    /// What a condition says of a cell.
    OfCell,
    /// What a test asks of a cell.
    OfTest,
    /// `and`, `or`, `)` or the end.
    Connective,
}

/// A word that is wrong.
#[derive(Clone, Copy)]
pub struct Slip {
    /// What is wrong.
    pub wrong: Wrong,
    /// The form that is wanted, if that is known.
    pub form: Option<Shape>,
    /// The right word that is nearest, if one is near.
    pub near: Option<&'static str>,
}

/// A line between two of its words.
#[derive(Drop)]
pub struct LineSoFar {
    /// What there is to be named.
    added: Added,
    /// What the next word may be.
    next: Next,
    /// The parts of the form that are still to come.
    parts: Parts,
    /// What may follow them.
    behind: Next,
    /// The form of the line.
    line: Shape,
    /// The form of the words that are read: of the line, or of a part of it.
    form: Shape,
    /// The rules that were named.
    rules: ArrayVec<&'static str, RULE_COUNT>,
    /// The open blocks.
    blocks: ArrayVec<Open, MOST_OPEN>,
    /// What the block of the test is.
    opens: Open,
    /// How many brackets are open.
    brackets: usize,
    /// The last time.
    time: u32,
}

/// What follows the parts of a form at the front of a line.
fn after_parts(rest: Rest) -> Next {
    match rest {
        Rest::End => Next::End,
        Rest::Call | Rest::Begin => Next::Call,
        Rest::Kind => Next::Kind,
        Rest::KindOfProtocol => Next::KindOfProtocol,
        Rest::KindOfProgram => Next::KindOfProgram,
        Rest::Rules => Next::Rule,
        Rest::Program => Next::Colon,
        Rest::Test => Next::Guard,
        Rest::Condition => Next::Subject,
        Rest::Ticks => Next::Tick,
        Rest::Threads => Next::Threads,
        Rest::OfThreads => Next::Of,
    }
}

impl LineSoFar {
    /// Behind the first word of a line of this form.
    pub fn new(form: Form, added: Added) -> LineSoFar {
        let mut line = LineSoFar {
            added,
            next: Next::End,
            parts: Parts::Of(&[]),
            behind: Next::End,
            line: form.shape(),
            form: form.shape(),
            rules: ArrayVec::new(),
            blocks: ArrayVec::new(),
            opens: Open::If,
            brackets: 0,
            time: 0,
        };
        line.begin(form.parts, after_parts(form.rest));
        line
    }

    /// Behind a word whose parts follow, and then this. `robust` and `none` may be left out.
    fn begin(&mut self, parts: Parts, behind: Next) {
        self.parts = parts;
        self.behind = behind;
        self.next = match parts.split() {
            None => behind,
            Some((Part::Robust | Part::Modifier | Part::Lending, _)) => Next::Optional,
            Some((Part::Name | Part::ModifierOrName | Part::LendingOrName, _)) => Next::Optional,
            Some(_) => Next::Part,
        };
    }

    /// A wrong word in the form of the line.
    fn slip(&self, wrong: Wrong, near: Option<&'static str>) -> Slip {
        Slip {
            wrong,
            form: Some(self.form),
            near,
        }
    }

    /// A word where this part is wanted.
    fn no(&self, part: Part) -> Slip {
        self.slip(Wrong::Not(part), None)
    }

    /// Takes the next part of the form.
    fn take_part(&mut self, word: &[u8]) -> Result<(), Slip> {
        let Some((part, more)) = self.parts.split() else {
            return Err(self.slip(Wrong::TooMany, None));
        };
        if let Some(wrong) = wrong_with_part(word, part) {
            return Err(self.slip(wrong, near_part(word, part)));
        }
        if self.added.lacks(word, part) {
            return Err(self.slip(Wrong::NotAdded(part), None));
        }
        let is_last = ends_early(word, part);
        self.begin(if is_last { Parts::Of(&[]) } else { more }, self.behind);
        Ok(())
    }

    /// Takes one more thread.
    fn take_thread(&mut self, word: &[u8]) -> Result<(), Slip> {
        self.parts = Parts::Of(&[Part::Thread]);
        self.take_part(word)
    }

    /// Takes `of`, behind which threads stand.
    fn take_of(&mut self, word: &[u8]) -> Result<(), Slip> {
        if word != b"of".as_slice() {
            return Err(self.slip(Wrong::TooMany, None));
        }
        self.begin(Parts::Of(&[Part::Thread]), Next::Threads);
        Ok(())
    }

    /// Takes a word of a table, behind whose parts this may stand. `other` is wrong with a word that is none of them.
    fn take_form(
        &mut self,
        word: &[u8],
        table: Table,
        other: Wrong,
        behind: Next,
    ) -> Result<Form, Slip> {
        let Some(form) = table.find(word) else {
            let wrong = wrong_with_word(word, table, other);
            return Err(self.slip(wrong, table.nearest(word)));
        };
        self.form = form.shape();
        self.begin(form.parts, behind);
        Ok(form)
    }

    /// Takes a word that says something of a subject, behind which a connective may stand.
    fn take_said(&mut self, word: &[u8], forms: &'static [Form], part: Part) -> Result<(), Slip> {
        self.take_form(word, Table::of(forms), Wrong::Not(part), Next::Connective)?;
        Ok(())
    }

    /// Takes a kind of mutex.
    fn take_kind(&mut self, word: &[u8], kinds: &'static [Form]) -> Result<(), Slip> {
        self.take_form(word, Table::of(kinds), Wrong::NoKind, Next::End)?;
        Ok(())
    }

    /// Takes a rule.
    fn take_rule(&mut self, word: &[u8]) -> Result<(), Slip> {
        self.form = self.line;
        if self.rules.iter().any(|name| word == name.as_bytes()) {
            return Err(self.slip(Wrong::RuleTwice, None));
        }
        let rule = self.take_form(word, Table::of(&RULES), Wrong::NoRule, Next::Rules)?;
        let _ = self.rules.try_push(rule.name);
        Ok(())
    }

    /// Takes the time of a tick.
    fn take_tick(&mut self, word: &[u8]) -> Result<(), Slip> {
        let Some(time) = number_of(word) else {
            return Err(self.no(Part::Number));
        };
        if time <= self.time {
            return Err(self.slip(Wrong::NotRising, None));
        }
        self.time = time;
        Ok(())
    }

    /// Takes the front of a statement, or what ends none.
    fn take_statement(&mut self, word: &[u8]) -> Result<(), Slip> {
        if is_end(word) {
            return self.take_end(word, None);
        }
        let front = self.take_form(word, statements(), Wrong::NoStatement, Next::Semicolon);
        let form = front.map_err(|slip| Slip { form: None, ..slip })?;
        if form.name == "break" && !self.is_in_while() {
            return Err(alone(Wrong::Misplaced(Misplaced::Break)));
        }
        self.opens = if form.name == "if" {
            Open::If
        } else {
            Open::While
        };
        if let Rest::Test = form.rest {
            self.next = Next::Guard;
        }
        Ok(())
    }

    /// Takes `;`, or `}`, which ends a block. The statement that ends there has this form, if that is known.
    fn take_end(&mut self, word: &[u8], form: Option<Shape>) -> Result<(), Slip> {
        if word == b";".as_slice() {
            self.next = Next::Statement;
            return Ok(());
        }
        if word != b"}".as_slice() {
            return Err(Slip {
                form,
                ..self.no(Part::Semicolon)
            });
        }
        match self.blocks.pop() {
            Some(Open::If) => self.next = Next::Else,
            Some(_) => self.next = Next::Closed,
            None => return Err(alone(Wrong::ClosesNothing)),
        }
        Ok(())
    }

    /// Takes what stands behind a block: what ends a statement, or the next one.
    fn take_behind(&mut self, word: &[u8]) -> Result<(), Slip> {
        if is_end(word) || word == b"else".as_slice() {
            return self.take_end(word, None);
        }
        self.take_statement(word)
    }

    /// Whether a `while` is open.
    fn is_in_while(&self) -> bool {
        self.blocks.iter().any(|block| matches!(block, Open::While))
    }

    /// Takes one more thread of a program, or `:`.
    fn take_colon(&mut self, word: &[u8]) -> Result<(), Slip> {
        if word == b":".as_slice() {
            self.next = Next::Statement;
            return Ok(());
        }
        if !word.starts_with(b"t") {
            return Err(self.no(Part::Colon));
        }
        self.take_thread(word)
    }

    /// Takes `if` behind `else`, or the `{` of its block.
    fn take_other(&mut self, word: &[u8]) -> Result<(), Slip> {
        if word == b"if".as_slice() {
            return self.take_statement(word);
        }
        self.take_brace(word, Open::Else, alone(Wrong::Not(Part::Brace)))
    }

    /// Takes `{`, which begins a block.
    fn take_brace(&mut self, word: &[u8], block: Open, slip: Slip) -> Result<(), Slip> {
        if word != b"{".as_slice() {
            return Err(slip);
        }
        let _ = self.blocks.try_push(block);
        self.next = Next::Statement;
        Ok(())
    }

    /// Takes what a test asks.
    fn take_guard(&mut self, word: &[u8]) -> Result<(), Slip> {
        if word == b"not".as_slice() {
            self.next = Next::Guard;
        } else if word == b"(".as_slice() {
            self.brackets = self.brackets.saturating_add(1);
            self.next = Next::Guard;
        } else if is_answer(word) {
            self.next = Next::Alternative;
        } else if is_cell(word) {
            self.next = Next::OfTest;
        } else {
            return Err(self.slip(Wrong::Not(Part::Guard), near_part(word, Part::Answer)));
        }
        Ok(())
    }

    /// Takes what stands behind what a test asks.
    fn take_alternative(&mut self, word: &[u8]) -> Result<(), Slip> {
        if word == b"and".as_slice() || word == b"or".as_slice() {
            self.next = Next::Guard;
            return Ok(());
        }
        if word == b")".as_slice() {
            return self.close_bracket();
        }
        if self.brackets > 0 {
            return Err(self.no(Part::Connective));
        }
        self.take_brace(word, self.opens, self.no(Part::Alternative))
    }

    /// Takes a `)`.
    fn close_bracket(&mut self) -> Result<(), Slip> {
        match self.brackets.checked_sub(1) {
            Some(left) => {
                self.brackets = left;
                Ok(())
            }
            None => Err(alone(Wrong::ClosesNothing)),
        }
    }

    /// Takes what is said of a cell, before this.
    fn take_comparison(&mut self, word: &[u8], next: Next) -> Result<(), Slip> {
        let wrong = Wrong::Not(Part::Comparison);
        let form = self.take_form(word, Table::of(&OF_CELLS), wrong, next);
        form.map_err(|slip| Slip { near: None, ..slip })?;
        Ok(())
    }

    /// Takes what a condition speaks of.
    fn take_subject(&mut self, word: &[u8]) -> Result<(), Slip> {
        if word == b"not".as_slice() {
            self.next = Next::Subject;
        } else if word == b"(".as_slice() {
            self.brackets = self.brackets.saturating_add(1);
            self.next = Next::Subject;
        } else if is_cell(word) {
            self.form = OF_CELL.shape();
            self.next = Next::OfCell;
        } else if FAULTS.iter().any(|fault| word == fault.name.as_bytes()) {
            return self.take_said(word, &FAULTS, Part::Subject);
        } else {
            return self.take_name(word);
        }
        Ok(())
    }

    /// Takes the name of a thread or a mutex, of which a condition speaks.
    fn take_name(&mut self, word: &[u8]) -> Result<(), Slip> {
        let (part, next) = match word {
            [b'm', ..] => (Part::Mutex, Next::OfMutex),
            [b't', ..] => (Part::Thread, Next::OfThread),
            _ => return Err(self.no(Part::Subject)),
        };
        if wrong_with_part(word, part).is_some() {
            return Err(self.no(Part::Subject));
        }
        if self.added.lacks(word, part) {
            return Err(self.slip(Wrong::NotAdded(part), None));
        }
        self.next = next;
        Ok(())
    }

    /// Takes `and`, `or` or `)`.
    fn take_connective(&mut self, word: &[u8]) -> Result<(), Slip> {
        if word == b"and".as_slice() || word == b"or".as_slice() {
            self.form = self.line;
            self.next = Next::Subject;
            return Ok(());
        }
        if word != b")".as_slice() {
            return Err(alone(Wrong::Not(Part::Connective)));
        }
        self.close_bracket()
    }

    /// Takes the next word, unless it is wrong.
    pub fn take(&mut self, word: &[u8]) -> Result<(), Slip> {
        match self.next {
            Next::Part | Next::Optional => self.take_part(word),
            Next::End => Err(self.slip(Wrong::TooMany, None)),
            Next::Call => {
                let call = self.take_form(word, calls(), Wrong::NoCall, Next::End)?;
                self.form = call.behind(BEHIND_BEGIN);
                Ok(())
            }
            Next::Kind => self.take_kind(word, &KINDS),
            Next::KindOfProtocol => self.take_kind(word, &KINDS_OF_PROTOCOL),
            Next::KindOfProgram => self.take_kind(word, &KINDS_OF_PROGRAM),
            Next::Rule | Next::Rules => self.take_rule(word),
            Next::Tick => self.take_tick(word),
            Next::Threads => self.take_thread(word),
            Next::Of => self.take_of(word),
            Next::Statement => self.take_statement(word),
            Next::Else if word == b"else".as_slice() => {
                self.next = Next::Brace;
                Ok(())
            }
            Next::Semicolon => self.take_end(word, Some(self.form)),
            Next::Closed | Next::Else => self.take_behind(word),
            Next::Brace => self.take_other(word),
            Next::Colon => self.take_colon(word),
            Next::Guard => self.take_guard(word),
            Next::Alternative => self.take_alternative(word),
            Next::Subject => self.take_subject(word),
            Next::OfThread => self.take_said(word, &OF_THREADS, Part::OfThread),
            Next::OfMutex => self.take_said(word, &OF_MUTEXES, Part::OfMutex),
            Next::OfCell => self.take_comparison(word, Next::Connective),
            Next::OfTest => self.take_comparison(word, Next::Alternative),
            Next::Connective => self.take_connective(word),
        }
    }

    /// Whether a block is open, so that the next line goes on with the program.
    pub fn is_open(&self) -> bool {
        !self.blocks.is_empty()
    }

    /// Begins the next line of a program. A statement ends at the end of its line.
    pub fn begin_line(&mut self) {
        if let Next::Semicolon = self.next {
            self.next = Next::Statement;
        }
        self.form = self.line;
    }

    /// Ends the line, unless another word is wanted. A program may go on in the next line.
    pub fn end(&self) -> Result<(), Slip> {
        let wrong = match self.next {
            Next::End | Next::Optional | Next::Rules | Next::Tick => return Ok(()),
            Next::Threads | Next::Of => return Ok(()),
            Next::Statement | Next::Semicolon | Next::Closed | Next::Else => return Ok(()),
            Next::Connective if self.brackets == 0 => return Ok(()),
            Next::Connective => Wrong::OpenBrackets,
            _ => return Err(self.slip(Wrong::Missing, None)),
        };
        Err(alone(wrong))
    }
}

/// What is wrong, in no form.
fn alone(wrong: Wrong) -> Slip {
    Slip {
        wrong,
        form: None,
        near: None,
    }
}

/// Whether a word ends a statement or a block.
fn is_end(word: &[u8]) -> bool {
    word == b";".as_slice() || word == b"}".as_slice()
}
