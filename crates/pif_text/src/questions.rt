ghost use Rattle.std.specs.Prelude.{◌≡◌, ◌+◌, ◌≤◌, ◌++◌};
ghost use Rattle.arrayvec.specs.ArrayVec.{array_vec_len};
ghost use Rattle.pif_text_model.specs.Questions.{question_in_one, question_in_two, question_text};

use crate::numbers::{cond_of, mutex_of, thread_of};
use crate::words::is_word;
use crate::writing::{append, append_on_cond, append_on_mutex, append_on_thread};
use crate::{Question, TEXT_ROOM, Text};

/// The question of one word.
#[tactic(auto, unfolding(pif_text_model::specs::Questions::question_in_one))]
pub fn question_of_one(name: &[u8]) -> Option<Question>
    ensures { result ≡ question_in_one name.now }
{
    if is_word(name, b"pick") {
        Some(Question::Pick)
    } else {
        None
    }
}

/// The question of two words.
#[tactic(auto, unfolding(pif_text_model::specs::Questions::question_in_two))]
pub fn question_of_two(name: &[u8], word: &[u8]) -> Option<Question>
    ensures { result ≡ question_in_two name.now word.now }
{
    if is_word(name, b"word") {
        mutex_of(word).map(Question::Word)
    } else if is_word(name, b"prio") {
        thread_of(word).map(Question::Prio)
    } else if is_word(name, b"health") {
        mutex_of(word).map(Question::Health)
    } else if is_word(name, b"condword") {
        cond_of(word).map(Question::CondWord)
    } else {
        None
    }
}

/// Appends a question.
#[tactic(auto, unfolding(pif_text_model::specs::Questions::question_text))]
pub fn append_question(out: &mut Text, question: Question)
    requires { array_vec_len out.old + 20 ≤ TEXT_ROOM }
    ensures items { out.new.items ≡ out.old.items ++ question_text question }
    ensures len { array_vec_len out.new ≤ array_vec_len out.old + 20 }
{
    match question {
        Question::Word(mutex) => append_on_mutex(out, b"word ", mutex),
        Question::Health(mutex) => append_on_mutex(out, b"health ", mutex),
        Question::CondWord(cond) => append_on_cond(out, b"condword ", cond),
        Question::Prio(thread) => append_on_thread(out, b"prio ", thread),
        Question::Pick => append(out, b"pick"),
    }
}
