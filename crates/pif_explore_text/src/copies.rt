ghost use Rattle.std.specs.Prelude.{Ok};
ghost use Rattle.pif_explore_text.specs.Results.{Gives};
ghost use Rattle.pif_explore_text.specs.Trees.{body_of, trial_of};

use crate::brackets::Joined;
use crate::{Block, Test, Trouble};
use pif_types::Request;
use std::alloc::Global;

/// A test once more.
fn copied_test(alloc: Global, test: &Test) -> Result<Test, Trouble>
    ensures { Gives trial_of (Ok (trial_of test.now)) result }
{
    match test {
        Test::Asks(guard) => Ok(Test::Asks(*guard)),
        Test::Not(part) => Test::negated(alloc, copied_test(alloc, part)?),
        Test::And(one, more) => {
            let one = copied_test(alloc, one)?;
            Test::both(alloc, one, copied_test(alloc, more)?)
        }
        Test::Or(one, more) => {
            let one = copied_test(alloc, one)?;
            Test::either(alloc, one, copied_test(alloc, more)?)
        }
    }
}

/// A part of a program once more.
pub(crate) fn copied(alloc: Global, block: &Block) -> Result<Block, Trouble>
    ensures { Gives body_of (Ok (body_of block.now)) result }
{
    // The check has to be told of the type of requests, which statements hold.
    let _no_request: Option<Request> = None;
    match block {
        Block::Nothing => Ok(Block::Nothing),
        Block::Break => Ok(Block::Break),
        Block::Do(action) => Ok(Block::Do(*action)),
        Block::Then(one, more) => {
            let one = copied(alloc, one)?;
            Block::then(alloc, one, copied(alloc, more)?)
        }
        Block::If(test, one, other) => {
            let test = copied_test(alloc, test)?;
            let one = copied(alloc, one)?;
            Block::choice(alloc, test, one, copied(alloc, other)?)
        }
        Block::While(test, one) => {
            let test = copied_test(alloc, test)?;
            Block::round(alloc, test, copied(alloc, one)?)
        }
    }
}
