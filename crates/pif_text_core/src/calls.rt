ghost use Rattle.std.specs.Prelude.{◌++◌};
ghost use Rattle.pif_text_core.specs.Pages.{Tells};
ghost use Rattle.pif_text_core.specs.Texts.{call_text};

use crate::pages::Page;
use pif_text::{Text, append_request};
use pif_types::Request;
use std::io::Write;

/// Writes that a thread is in this call, which stands there as in a script.
pub fn show_call<W: Write>(request: Request, page: &mut Page, writer: &mut W)
    ensures { Tells page.old page.new (W.contents writer.old) (W.contents writer.new) (call_text request) }
{
    let mut text = Text::new();
    append_request(&mut text, request);
    page.words("; in ", writer);
    page.bytes(text.as_slice(), writer);
}
