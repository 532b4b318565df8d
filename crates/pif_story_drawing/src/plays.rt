use crate::rows::{DrawnRow, row_of};
use pif_core::Core;
use pif_script_core::{first_limits, obey};
use pif_script_model::{AnsweredRow, WatchSteps};
use pif_text::default_limits;
use pif_types::{Limits, NoMemory};
use std::alloc::Global;

/// What looks on while the commands of a story are played.
pub trait Onlooker {
    /// Looks at the core behind a command.
    fn see(&mut self, row: &DrawnRow<'_>, core: &Core);
}

/// Plays the commands of a story, by a core to which nothing was added, under the limits that the story begins with, or
/// else those of scripts. `told` is told of each as a step.
///
/// # Errors
///
/// A growth of memory was refused, and nothing was played.
pub fn play<W: Onlooker, V: WatchSteps>(
    alloc: Global,
    rows: &[AnsweredRow<'_>],
    onlooker: &mut W,
    told: &mut V,
) -> Result<(), NoMemory> {
    let Ok(mut core) = Core::new(alloc, limits_of(rows)) else {
        return Err(NoMemory);
    };
    for (place, answered) in rows.iter().enumerate() {
        told.step(place, rows.len());
        if let Some(row) = row_of(answered) {
            let _reply = obey(&mut core, row.command);
            onlooker.see(&row, &core);
        }
    }
    Ok(())
}

/// The limits that a story begins with, or else those of scripts.
fn limits_of(rows: &[AnsweredRow<'_>]) -> Limits {
    match rows.first() {
        Some(row) => first_limits(row.command).unwrap_or(default_limits()),
        None => default_limits(),
    }
}
