//! `random`: the writing of a random script.
ghost use Rattle.pif_cli.specs.Random.{WritesRandom};

use pif_cli_messages::JobFault;
use pif_cli_words::Recipe;
use pif_job_random::write_random_script;
use pif_script_model::WatchSteps;
use std::alloc::Global;
use std::io::Write;

/// `pif random`: writes the random script of a recipe, each line once it is made. `watch` is told of each line.
///
/// # Errors
///
/// `Cli(NoMemory)`, with nothing written, if memory is refused; `Cli(Write)` if the script can't be written.
pub fn write_random<W: Write, V: WatchSteps>(
    alloc: Global,
    recipe: Recipe,
    output: &mut W,
    watch: &mut V,
) -> Result<(), JobFault>
    ensures { WritesRandom recipe.lines (W.contents output.old) (W.contents output.new) result }
{
    match write_random_script(
        alloc,
        recipe.seed,
        recipe.lines,
        recipe.shape,
        output,
        watch,
    ) {
        Ok(()) => Ok(()),
        Err(fault) => Err(JobFault::Cli(fault)),
    }
}
