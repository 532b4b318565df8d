ghost use Rattle.std.specs.Prelude.{◌≡◌, ◌++◌, OnOk, option_copied};
ghost use Rattle.pif_text_model.specs.Replies.{text_of};
ghost use Rattle.pif_story_states.specs.Objects.{answer_object, called_object, error_name, text_object};

use pif_model::Seen;
use pif_text::{Member, Reply, Text, append_object, errno_name, errno_of, reply_text};
use std::alloc::AllocError;

/// The name of the error that has this number, if one has it.
fn error_name(number: u32) -> Option<&'static [u8]>
    ensures { option_copied result ≡ error_name number }
{
    match errno_of(number) {
        Some(errno) => Some(errno_name(errno).as_bytes()),
        None => None,
    }
}

/// Appends what a call was answered.
fn append_called(out: &mut Vec<u8>, number: u32) -> Result<(), AllocError>
    ensures { OnOk result (out.new.items ≡ out.old.items ++ called_object number) }
{
    append_object(
        out,
        &[
            Member::Number("answer", number),
            Member::QuotedOrNull("error", error_name(number)),
        ],
    )
}

/// Appends what `run` prints for an answer.
fn append_text(out: &mut Vec<u8>, reply: Reply) -> Result<(), AllocError>
    ensures { OnOk result (out.new.items ≡ out.old.items ++ text_object (text_of reply)) }
{
    let mut text = Text::new();
    reply_text(reply, &mut text);
    append_object(out, &[Member::Quoted("text", text.as_slice())])
}

/// Appends what a command was answered, as an object.
#[tactic(auto, unfolding(crate::specs::Objects::answer_object))]
pub fn append_answer(out: &mut Vec<u8>, reply: Reply) -> Result<(), AllocError>
    ensures { OnOk result (out.new.items ≡ out.old.items ++ answer_object reply) }
{
    match reply {
        Reply::Seen(Seen::Answered(number)) => append_called(out, number),
        other => append_text(out, other),
    }
}
