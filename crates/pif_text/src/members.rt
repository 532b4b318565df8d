ghost use Rattle.std.specs.Prelude.{◌≡◌, ◌++◌, ◌∷◌, OnOk};
ghost use Rattle.pif_text.specs.Members.{member_name, member_text, members_text, object_text, value_text};

use crate::pieces::{append_decimal, append_name, append_quoted};
use std::alloc::AllocError;

/// A member of an object: its name, of which no byte is escaped, and its value.
#[derive(Clone, Copy)]
pub enum Member<'a> {
    /// `null`.
    Null(&'a str),
    /// `true` or `false`.
    Bool(&'a str, bool),
    /// `true`, `false` or `null`.
    BoolOrNull(&'a str, Option<bool>),
    /// A number, in decimal digits.
    Number(&'a str, u32),
    /// A number, or `null`.
    NumberOrNull(&'a str, Option<u32>),
    /// A name, by its letter and its number.
    Name(&'a str, u8, u32),
    /// A name by its letter and its number, or `null`.
    NameOrNull(&'a str, u8, Option<u32>),
    /// A string between two `"`, with its bytes as they are. It must be UTF-8, and have no `"`, no `\` and no byte under
    /// 32: JSON escapes these. That isn't checked.
    Quoted(&'a str, &'a [u8]),
    /// Such a string, or `null`.
    QuotedOrNull(&'a str, Option<&'a [u8]>),
    /// An array of elements that are JSON already, with commas between them. That isn't checked.
    Array(&'a str, &'a [u8]),
}

/// The name of a member.
fn name_of<'a>(member: &Member<'a>) -> &'a str
    ensures { result.now ≡ member_name member.now }
{
    match *member {
        Member::Null(name)
        | Member::Bool(name, _)
        | Member::BoolOrNull(name, _)
        | Member::Number(name, _)
        | Member::NumberOrNull(name, _)
        | Member::Name(name, _, _)
        | Member::NameOrNull(name, _, _)
        | Member::Quoted(name, _)
        | Member::QuotedOrNull(name, _)
        | Member::Array(name, _) => name,
    }
}

/// Appends the value of a member.
fn append_value(out: &mut Vec<u8>, member: &Member<'_>) -> Result<(), AllocError>
    ensures { OnOk result (out.new.items ≡ out.old.items ++ value_text member.now) }
{
    match *member {
        Member::Null(_)
        | Member::BoolOrNull(_, None)
        | Member::NumberOrNull(_, None)
        | Member::NameOrNull(_, _, None)
        | Member::QuotedOrNull(_, None) => out.extend_from_slice(b"null"),
        Member::Bool(_, true) | Member::BoolOrNull(_, Some(true)) => {
            out.extend_from_slice(b"true")
        }
        Member::Bool(_, false) | Member::BoolOrNull(_, Some(false)) => {
            out.extend_from_slice(b"false")
        }
        Member::Number(_, number) | Member::NumberOrNull(_, Some(number)) => {
            append_decimal(out, u64::from(number))
        }
        Member::Name(_, letter, number) | Member::NameOrNull(_, letter, Some(number)) => {
            append_name(out, letter, number)
        }
        Member::Quoted(_, text) | Member::QuotedOrNull(_, Some(text)) => append_quoted(out, text),
        Member::Array(_, elements) => {
            out.extend_from_slice(b"[")?;
            out.extend_from_slice(elements)?;
            out.extend_from_slice(b"]")
        }
    }
}

/// Appends a member.
fn append_member(out: &mut Vec<u8>, member: &Member<'_>) -> Result<(), AllocError>
    ensures { OnOk result (out.new.items ≡ out.old.items ++ member_text member.now) }
{
    append_quoted(out, name_of(member).as_bytes())?;
    out.extend_from_slice(b":")?;
    append_value(out, member)
}

/// Appends members with a comma between them, behind this byte: `{` before the first ones of an object, and a comma
/// before further ones.
pub fn append_members(
    out: &mut Vec<u8>,
    first: u8,
    members: &[Member<'_>],
) -> Result<(), AllocError>
    ensures { OnOk result (out.new.items ≡ out.old.items ++ (first ∷ members_text members.now)) }
{
    out.push(first)?;
    let mut comma = b"".as_slice();
    for member in members {
        out.extend_from_slice(comma)?;
        append_member(out, member)?;
        comma = b",".as_slice();
    }
    Ok(())
}

/// Appends an object with these members.
pub fn append_object(out: &mut Vec<u8>, members: &[Member<'_>]) -> Result<(), AllocError>
    ensures { OnOk result (out.new.items ≡ out.old.items ++ object_text members.now) }
{
    append_members(out, b'{', members)?;
    out.extend_from_slice(b"}")
}
