ghost use Rattle.std.specs.Prelude.{◌≡◌};
ghost use Rattle.pif_text_model.specs.Questions.{asked_names};

use pif_types::{CondId, MutexId, Named, Tid};

/// What is asked of a core, which changes nothing.
#[derive(Clone, Copy, PartialEq, Eq)]
pub enum Question {
    /// `word mN`: the value of the mutex's word.
    Word(MutexId),
    /// `health mN`: what is known of the state that the mutex protects.
    Health(MutexId),
    /// `condword cN`: how often the condition variable was used, that is signalled or broadcast.
    CondWord(CondId),
    /// `prio tN`: the priority that the thread runs at.
    Prio(Tid),
    /// `pick`: the thread that runs next.
    Pick,
}

impl Question {
    /// The mutex, the condition variable and the thread that this question names, each `None` if it names none. Whether
    /// there are such is not asked.
    pub fn names(&self) -> Named
        ensures value { result ≡ asked_names self.now }
    {
        let (mutex, cond, thread) = match *self {
            Question::Word(mutex) | Question::Health(mutex) => (Some(mutex), None, None),
            Question::CondWord(cond) => (None, Some(cond), None),
            Question::Prio(thread) => (None, None, Some(thread)),
            Question::Pick => (None, None, None),
        };
        Named {
            mutex,
            cond,
            thread,
        }
    }
}
