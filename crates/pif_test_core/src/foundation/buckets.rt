ghost use Rattle.std.specs.Prelude.{◌≡◌, ℕ, length, None};
ghost use Rattle.pif_kernel_model.specs.Buckets.{HoldsBuckets};
ghost use Rattle.pif_kernel_model.specs.Entries.{found_in};

use crate::seen::see;
use pif_kernel_model::Key;
use pif_nodes::NodeTable;
use pif_queue::Buckets;
use std::process::Abort;
use std::test::Fail;

/// The word 3, which is of one bucket with the word 67, gets an owner state, and loses it.
fn one_word(rt: &impl Abort, buckets: &mut Buckets, table: &mut NodeTable)
    requires holds { HoldsBuckets buckets.old table.old }
    requires rows { length buckets.old.entries.items ≡ 3 }
    requires empty { (w : ℕ) → found_in buckets.old.entries table.old w ≡ None }
{
    buckets.put(table, 3, Key::new(7), 0);
    let found = [buckets.find(table, 3), buckets.find(table, 67)];
    see(rt, found, [Some(Key::new(7)), None], 0);
    buckets.forget(table, 3);
    see(rt, buckets.find(table, 3), None, 1);
}

#[test]
fn word_has_its_state_until_that_is_forgotten(rt: HostRuntime) -> Result<(), Fail> {
    let mut table = NodeTable::new(rt.alloc(), 6, 66)?;
    let mut buckets = Buckets::new(rt.alloc(), 0, 3, 0, 3, 2)?;
    one_word(&rt, &mut buckets, &mut table);
    Ok(())
}
