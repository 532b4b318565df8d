ghost use Rattle.std.specs.Prelude.{IfOk};
ghost use Rattle.pif_job_judge.specs.Shown.{IsShown};

use crate::forms::{Form, Judging};
use pif_history_text::Names;
use pif_history_told::{
    append_page, beside_in_page, names_line, names_object, places_line, places_object,
};
use std::alloc::{AllocError, Global};

/// What is told in lines, and after it a line that has the names of what stands in it by its number, from `from` on,
/// and one that has the places of the calls that it names.
///
/// # Errors
///
/// Out of memory.
pub fn shown_lines(
    alloc: Global,
    names: &Names,
    from: usize,
    mut told: Vec<u8>,
) -> Result<Vec<u8>, AllocError>
    ensures { IfOk result (λ shown. IsShown Form.Text told.items shown.items) }
{
    let start = usize::min(from, told.len());
    let named = names_line(alloc, names, &told.as_slice()[start..])?;
    let placed = places_line(alloc, names, &told.as_slice()[start..])?;
    told.extend_from_slice(named.as_slice())?;
    told.extend_from_slice(placed.as_slice())?;
    Ok(told)
}

/// What is told in lines of JSON, and after it an object that has the names and one that has the places.
fn shown_objects(alloc: Global, names: &Names, mut told: Vec<u8>) -> Result<Vec<u8>, AllocError>
    ensures { IfOk result (λ shown. IsShown Form.Json told.items shown.items) }
{
    let named = names_object(alloc, names)?;
    let placed = places_object(alloc, names)?;
    told.extend_from_slice(named.as_slice())?;
    told.extend_from_slice(placed.as_slice())?;
    Ok(told)
}

/// A page that has these lines of JSON, the names, the places, and the name of the file.
fn shown_page(
    alloc: Global,
    names: &Names,
    file: Option<&[u8]>,
    told: &[u8],
) -> Result<Vec<u8>, AllocError>
    ensures { IfOk result (λ shown. IsShown Form.Page told.now shown.items) }
{
    let beside = beside_in_page(alloc, names, file)?;
    let mut page = Vec::new(alloc);
    append_page(told, beside.as_slice(), &mut page)?;
    Ok(page)
}

/// What is told in the form that is asked for, with names and places beside numbers, of which the first stands at
/// `from` or after that.
///
/// # Errors
///
/// Out of memory.
pub fn show(
    alloc: Global,
    asked: &Judging<'_>,
    names: &Names,
    from: usize,
    told: Vec<u8>,
) -> Result<Vec<u8>, AllocError>
    ensures { IfOk result (λ shown. IsShown asked.now.form told.items shown.items) }
{
    match asked.form {
        Form::Text | Form::Witness => shown_lines(alloc, names, from, told),
        Form::Json => shown_objects(alloc, names, told),
        Form::Page => shown_page(alloc, names, asked.name, told.as_slice()),
    }
}
