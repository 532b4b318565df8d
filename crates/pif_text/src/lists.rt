ghost use Rattle.std.specs.Prelude.{◌≡◌, ◌++◌, ◌≤◌, ℕ, Bool, List, filter, map, take, OnOk};
ghost use Rattle.std.specs.List.{slice_get};
ghost use Rattle.pif_text.specs.Json.{name_text, numbers, separated};
ghost use Rattle.pif_text.specs.Members.{array_begin, array_member};

use crate::pieces::{append_name, append_quoted};
use std::alloc::AllocError;

/// Things with numbers from 1, some of which stand in a list.
pub trait Listed {
    ghost stands: { Self → ℕ → Bool };

    ghost text: { Self → ℕ → List ℕ };

    /// Whether the one of this number stands in the list.
    fn stands(&self, number: u32) -> bool
        requires { 1 ≤ number }
        ensures { result ≡ stands self.now number };

    /// Appends the text of the one of this number.
    fn append(&self, number: u32, out: &mut Vec<u8>) -> Result<(), AllocError>
        requires { 1 ≤ number }
        ensures { OnOk result (out.new.items ≡ out.old.items ++ text self.now number) };
}

/// Appends the texts of those in a list that have at most this number, with a comma between them.
fn append_list<L: Listed>(list: &L, most: u32, out: &mut Vec<u8>) -> Result<(), AllocError>
    ensures { OnOk result (out.new.items
        ≡ out.old.items ++ separated (map (L.text list.now) (filter (L.stands list.now) (numbers most)))) }
{
    let mut comma = b"".as_slice();
    for place in 0..most {
        if list.stands(place + 1) {
            out.extend_from_slice(comma)?;
            list.append(place + 1, out)?;
            comma = b",".as_slice();
        }
    }
    Ok(())
}

/// A list of numbers, which is read one place after the other.
pub trait Sequence {
    ghost members: { Self → List ℕ };

    /// The number at a place, from 0; `None` behind the last one.
    fn at(&self, place: u32) -> Option<u32>
        ensures { result ≡ slice_get (members self.now) place };
}

/// Appends the names that have this letter and these numbers, no more than so many, with a comma between them.
fn append_sequence<S: Sequence>(
    sequence: &S,
    letter: u8,
    most: u32,
    out: &mut Vec<u8>,
) -> Result<(), AllocError>
    ensures { OnOk result (out.new.items
        ≡ out.old.items ++ separated (map (name_text letter) (take most (S.members sequence.now)))) }
{
    let mut comma = b"".as_slice();
    for place in 0..most {
        let Some(number) = sequence.at(place) else {
            return Ok(());
        };
        out.extend_from_slice(comma)?;
        append_name(out, letter, number)?;
        comma = b",".as_slice();
    }
    Ok(())
}

/// Appends the begin of a member behind others, whose value is an array.
fn append_begin(out: &mut Vec<u8>, name: &str) -> Result<(), AllocError>
    ensures { OnOk result (out.new.items ≡ out.old.items ++ array_begin name.now) }
{
    out.extend_from_slice(b",")?;
    append_quoted(out, name.as_bytes())?;
    out.extend_from_slice(b":[")
}

/// Appends a member behind others: an array of those in a list that have at most this number.
pub fn append_array<L: Listed>(
    out: &mut Vec<u8>,
    name: &str,
    list: &L,
    most: u32,
) -> Result<(), AllocError>
    ensures { OnOk result (out.new.items
        ≡ out.old.items ++ array_member name.now (map (L.text list.now) (filter (L.stands list.now) (numbers most)))) }
{
    append_begin(out, name)?;
    append_list(list, most, out)?;
    out.extend_from_slice(b"]")
}

/// Appends a member behind others: an array of the names that have this letter and these numbers, no more than so many.
pub fn append_names<S: Sequence>(
    out: &mut Vec<u8>,
    name: &str,
    sequence: &S,
    letter: u8,
    most: u32,
) -> Result<(), AllocError>
    ensures { OnOk result (out.new.items
        ≡ out.old.items ++ array_member name.now (map (name_text letter) (take most (S.members sequence.now)))) }
{
    append_begin(out, name)?;
    append_sequence(sequence, letter, most, out)?;
    out.extend_from_slice(b"]")
}
