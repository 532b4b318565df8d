ghost use Rattle.std.specs.Prelude.{◌≡◌, ◌++◌, ◌∷◌, []};
ghost use Rattle.pif_text_model.specs.Extends.{Stays};
ghost use Rattle.pif_text_model.specs.Replies.{named_text};

use crate::remarks::Remark;
use pif_script::write_whole;
use pif_text::{Reply, Text, named_reply_text};
use pif_text_core::Unwritten;
use std::io::Write;

/// What a session says of a reply, and LF: the reply as `run` prints it, and the name of an error behind its number, as
/// in `answer 35 EDEADLK`.
pub fn reply_line(reply: Reply) -> Text
    ensures { result.items ≡ named_text reply ++ 10 ∷ [] }
{
    let mut text = Text::new();
    named_reply_text(reply, &mut text);
    text.push(b'\n');
    text
}

/// Writes a text.
pub fn write_text<W: Write>(text: &[u8], writer: &mut W) -> Result<(), Unwritten>
    ensures { Stays (W.contents writer.old) (W.contents writer.new) }
{
    match write_whole(writer, text) {
        Ok(()) => Ok(()),
        Err(_) => Err(Unwritten),
    }
}

/// Writes a remark as a line.
pub fn tell<W: Write>(mut remark: Remark, writer: &mut W) -> Result<(), Unwritten>
    ensures { Stays (W.contents writer.old) (W.contents writer.new) }
{
    remark.say("\n");
    write_text(remark.as_slice(), writer)
}

/// Writes words as a line.
pub fn tell_words<W: Write>(words: &str, writer: &mut W) -> Result<(), Unwritten>
    ensures { Stays (W.contents writer.old) (W.contents writer.new) }
{
    tell(Remark::of(&[words]), writer)
}

/// Writes a remark, if there is one.
pub fn tell_if<W: Write>(remark: Option<Remark>, writer: &mut W) -> Result<(), Unwritten>
    ensures { Stays (W.contents writer.old) (W.contents writer.new) }
{
    match remark {
        Some(remark) => tell(remark, writer),
        None => Ok(()),
    }
}
