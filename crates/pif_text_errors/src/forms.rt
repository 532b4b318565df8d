use pif_text_model::Parameter;

/// What stands at a place of a form, between blanks.
#[derive(Clone, Copy)]
pub enum Part {
    /// The name of a thread.
    Thread,
    /// The name of a mutex.
    Mutex,
    /// The name of a condition variable.
    Cond,
    /// A number.
    Number,
    /// The word `robust`.
    Robust,
    /// The word `robust` or `none`.
    Modifier,
    /// The word `none`.
    Lending,
    /// The number of an answer, or the name of an error.
    Answer,
    /// How deep a recursive mutex may be locked, by a rule.
    Recursion,
    /// The priority of a thread of a program.
    Priority,
    /// The name of a cell.
    Cell,
    /// The value of a cell.
    Value,
    /// How many processors a schedule has.
    Processors,
    /// `:`
    Colon,
    /// `=`
    Equals,
    /// `=`, `<` or `>`
    Comparison,
    /// The name of a cell, or a new name.
    NewCell,
    /// A new name.
    Name,
    /// The word `robust` or `none`, or a new name.
    ModifierOrName,
    /// The word `none`, or a new name.
    LendingOrName,
    /// The value of a cell, or the name of a cell.
    Operand,
    /// The values that a cell may be given.
    Values,
    /// `by`
    By,
    /// `at`
    At,
    /// `for`
    For,
    /// `on`
    On,
    /// A priority, or `least` before one.
    PriorityOrLeast,
    /// How often a mutex is held: `once`, `twice`, or a number before `times`.
    Count,
    /// `times`
    Times,
    /// `wake-up`
    WakeUp,
    /// `;`, or the end of a block or of the line.
    Semicolon,
    /// `{`
    Brace,
    /// `and`, `or` or `{`
    Alternative,
    /// What a test asks.
    Guard,
    /// What a condition speaks of.
    Subject,
    /// What a condition says of a thread.
    OfThread,
    /// What a condition says of a mutex.
    OfMutex,
    /// `and` or `or`, or the end of brackets or of the line.
    Connective,
}

impl Part {
    /// What is wanted, in words: printable ASCII, and at most 70 bytes.
    pub(crate) fn words(self) -> &'static str {
        match self {
            Part::Thread => "a thread is wanted here, as t1",
            Part::Mutex => "a mutex is wanted here, as m1",
            Part::Cond => "a condition variable is wanted here, as c1",
            Part::Number => "a number from 0 to 4294967295 is wanted, with no zero in front",
            Part::Robust | Part::Modifier | Part::Lending => "another word is wanted here",
            Part::OfThread | Part::OfMutex => "another word is wanted here",
            Part::Answer => "a number or the name of an error is wanted here, as 0 or EBUSY",
            Part::Recursion => "recursion takes 256 to 4294967295, or bounds as 1..300",
            Part::Priority => "a priority is a number from 1 to 99, with no zero in front",
            Part::Cell => "a cell is wanted here, x1 to x64",
            Part::Value => "a number from 0 to 255 is wanted here",
            Part::Processors => "a number from 1 to 64 is wanted here",
            Part::Colon => "a ':' is wanted here",
            Part::Equals => "a '=' is wanted here",
            Part::Comparison => "a '=', a '<' or a '>' is wanted here",
            Part::NewCell | Part::Name | Part::ModifierOrName | Part::LendingOrName =>
                "a new name is wanted here, neither a word of programs nor like t1",
            Part::Operand => "a number from 0 to 255, or a cell, is wanted here",
            Part::Values => "two numbers from 0 to 255 that don't fall are wanted here, as 0..3",
            Part::By => "'by' is wanted here",
            Part::At => "'at' is wanted here",
            Part::For => "'for' is wanted here",
            Part::On => "'on' is wanted here",
            Part::PriorityOrLeast =>
                "a priority from 1 to 99 is wanted here, or 'least' and a priority",
            Part::Count => "'once', 'twice', or a number and 'times' is wanted here",
            Part::Times => "'times' is wanted here",
            Part::WakeUp => "'wake-up' is wanted here",
            Part::Semicolon => "a ';' is wanted here",
            Part::Brace => "a '{' is wanted here",
            Part::Alternative => "'and', 'or' or a '{' is wanted here",
            Part::Guard => "an answer or a cell is wanted here, as 0, EBUSY or x1",
            Part::Subject => "a thread, a mutex, a cell or a fault is wanted here, as t1 or race",
            Part::Connective => "'and' or 'or' is wanted here",
        }
    }
}

/// What follows the parts of a form.
#[derive(Clone, Copy)]
pub enum Rest {
    /// Nothing: the command ends there.
    End,
    /// A call, as `call` has it.
    Call,
    /// A call, as `begin` has it.
    Begin,
    /// A kind of mutex.
    Kind,
    /// The same, of a mutex that may be of PTHREAD_PRIO_NONE.
    KindOfProtocol,
    /// The same, of a mutex that may have a name.
    KindOfProgram,
    /// The rules that are allowed.
    Rules,
    /// More threads, or none, and then `:` and statements.
    Program,
    /// The test of an `if` or a `while`, and a block.
    Test,
    /// A condition.
    Condition,
    /// Times that rise.
    Ticks,
    /// More threads, or none.
    Threads,
    /// `of` and threads, or nothing.
    OfThreads,
}

/// Parts that stand one behind the other.
#[derive(Clone, Copy)]
pub enum Parts {
    /// These parts.
    Of(&'static [Part]),
    /// The parameters of a call.
    OfCall(&'static [Parameter]),
}

/// What is wanted at the place of a parameter.
fn part_of(parameter: Parameter) -> Part {
    match parameter {
        Parameter::Thread => Part::Thread,
        Parameter::Mutex => Part::Mutex,
        Parameter::Cond => Part::Cond,
        Parameter::Priority | Parameter::Deadline => Part::Number,
    }
}

impl Parts {
    /// How many there are.
    pub fn count(self) -> usize {
        match self {
            Parts::Of(parts) => parts.len(),
            Parts::OfCall(parameters) => parameters.len(),
        }
    }

    /// The first part, and those behind it. `None` if there is none.
    pub fn split(self) -> Option<(Part, Parts)> {
        match self {
            Parts::Of([part, more @ ..]) => Some((*part, Parts::Of(more))),
            Parts::OfCall([parameter, more @ ..]) => {
                Some((part_of(*parameter), Parts::OfCall(more)))
            }
            _ => None,
        }
    }
}

/// The form of a command from one of its words on.
#[derive(Clone, Copy)]
pub struct Form {
    /// The word that it begins with.
    pub name: &'static str,
    /// The form from that word on, for people; of a word behind the first that is no call it is that of the whole line.
    pub text: &'static str,
    /// What stands behind the word.
    pub parts: Parts,
    /// What follows behind that.
    pub rest: Rest,
}

/// A form as it is told.
#[derive(Clone, Copy)]
pub struct Shape {
    /// What stands before a call, or nothing.
    pub front: &'static str,
    /// The form of the call, or of the line.
    pub text: &'static str,
}

impl Form {
    /// The form as it is told.
    pub(crate) fn shape(self) -> Shape {
        self.behind("")
    }

    /// The form as it is told, behind a front.
    pub(crate) fn behind(self, front: &'static str) -> Shape {
        Shape {
            front,
            text: self.text,
        }
    }
}

/// The form whose word this is.
pub fn form_of(word: &[u8], forms: &'static [Form]) -> Option<Form> {
    for form in forms {
        if word == form.name.as_bytes() {
            return Some(*form);
        }
    }
    None
}
