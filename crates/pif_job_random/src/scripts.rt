ghost use Rattle.std.specs.Prelude.{◌≤◌, length};
ghost use Rattle.pif_job_random.specs.Lines.{WritesLines, WritesScript};
ghost use Rattle.pif_script_model.specs.CommandLines.{command_line, IsNoLimits, StandsAnywhere};
ghost use Rattle.pif_script_model.specs.Runs.{Writes};

use crate::Shape;
use crate::player::Player;
use crate::written::see_written;
use pif_script::write_whole;
use pif_script_model::{CliFault, WatchSteps};
use pif_text::{Command, Text, append, command_text};
use std::alloc::Global;
use std::io::Write;

/// Writes a random script of so many lines, each a command, the same for the same seed, lines and shape. Each line is
/// written once it is made. Which commands it has is not promised. A run of it has no fault if there are at most
/// 262,144 lines: a script has at most 16 MiB. `watch` is told of each line.
///
/// # Errors
///
/// `NoMemory`, with nothing written, if memory is refused; `Write` if the writer fails or takes no byte, and then a part
/// of such a script is written, from its front.
pub fn write_random_script<W: Write, V: WatchSteps>(
    alloc: Global,
    seed: u64,
    lines: u32,
    shape: Shape,
    output: &mut W,
    watch: &mut V,
) -> Result<(), CliFault>
    ensures { WritesScript lines (W.contents output.old) (W.contents output.new) result }
{
    match Player::new(alloc, seed, shape) {
        Ok(mut player) => write_lines(lines, &mut player, output, watch),
        Err(_) => Err(CliFault::NoMemory),
    }
}

// Writes so many lines, each of which `watch` is told.
fn write_lines<W: Write, V: WatchSteps>(
    lines: u32,
    player: &mut Player,
    output: &mut W,
    watch: &mut V,
) -> Result<(), CliFault>
    ensures { WritesLines lines (W.contents output.old) (W.contents output.new) result }
{
    for line in 0..lines {
        watch.step(line as usize, lines as usize);
        let command = player.next_command();
        // For the prover: each use has a value of its own.
        let played = command;
        player.play(played);
        write_line(command, output)?;
    }
    Ok(())
}

// Writes a command as a line.
fn write_line<W: Write>(command: Command, output: &mut W) -> Result<(), CliFault>
    requires { IsNoLimits command }
    ensures line { Writes (W.contents output.old) (W.contents output.new) (command_line command) result }
    ensures within { length (command_line command) ≤ 63 }
    ensures stands { StandsAnywhere command }
{
    let written = command;
    see_written(written);
    let mut text = Text::new();
    command_text(command, &mut text);
    append(&mut text, b"\n");
    write_whole(output, text.as_slice())
}
