ghost use Rattle.std.specs.Prelude.{◌≡◌, ◌≢◌, ℕ, ◌+◌, ◌<◌, ◌≤◌, ◌^◌, ◌==◌, if◌then◌else◌, length, set, IfOk, IsSome, Some, None, option_map};
ghost use Rattle.pif_nodes_model.specs.Table.{NodeLists};
ghost use Rattle.pif_kernel_model.specs.Entries.{Found, no_entries, entry_at, bucket_of, row_of, node_with, found_in, IsRow, HoldsEntries, HasRoomForEntries};
ghost use Rattle.pif_kernel_model.specs.QueueFrames.{KeepsOthers};

use pif_kernel_model::Key;
use pif_nodes::{List, Node, NodeTable};
use pif_types::NoMemory;
use std::alloc::Global;
use std::marker::Model;

/// How many buckets of words there are. Each is a list of their table.
pub const BUCKETS: u32 = 64;

/// What is kept by row: the number of a word, and the key of its owner state.
#[derive(Clone, Copy)]
pub struct Entry {
    word: u32,
    key: Key,
}

impl Model for Entry {
    ghost use Rattle.pif_kernel_model.specs.Entries.{Entry as EntrySeen, entry_code};

    ghost Value = { EntrySeen };

    ghost coded = { entry_code };

    ghost view = { λ e. record { word = e.word; key = e.key } };

    ghost inverse = { λ e. record { word = e.word; key = e.key } };
}

/// The owner states of words, by the number of the word, in 64 buckets (futex(2): a futex is found by its address).
#[derive(Drop)]
pub struct Entries {
    first_list: u32,
    first_node: u32,
    items: Vec<Entry>,
}

impl Model for Entries {
    ghost use Rattle.std.specs.Prelude.{◌+◌, ◌<◌, ◌^◌, length};
    ghost use Rattle.pif_kernel_model.specs.Entries.{Entries as EntriesSeen, entries_code};

    ghost Value = { EntriesSeen };

    ghost coded = { entries_code };

    ghost view = { λ e. record { first_list = e.first_list; first_node = e.first_node; items = e.items.items } };

    ghost invariant = { λ e. record {
      lists : e.first_list + 64 < 2 ^ 32;
      nodes : e.first_node + length e.items.items < 2 ^ 32;
    } };
}

impl Entries {
    /// No word, and a place for each of `rows` rows. In its table the 64 lists from `first_list` on are its own, and so
    /// are as many nodes from `first_node` on as there are rows. It takes one piece of memory, and answers `NoMemory`
    /// if that is refused.
    pub fn new(
        alloc: Global,
        first_list: u32,
        first_node: u32,
        rows: u32,
    ) -> Result<Entries, NoMemory>
        requires lists { first_list + 64 < 2 ^ 32 }
        requires nodes { first_node + rows < 2 ^ 32 }
        ensures made { IfOk result (λ e. e ≡ no_entries first_list first_node rows) }
        ensures holds { IfOk result (λ e. (t : NodeLists) → HasRoomForEntries e t → HoldsEntries e t) }
        ensures empty { IfOk result (λ e. (t : NodeLists) → HasRoomForEntries e t → (w : ℕ) → found_in e t w ≡ None) }
    {
        let entry = Entry {
            word: 0,
            key: Key::new(0),
        };
        let items = vec![in alloc; entry; rows as usize].map_err(|_| NoMemory)?;
        Ok(Entries {
            first_list,
            first_node,
            items,
        })
    }

    /// The key of the owner state of a word. `None` if it has none.
    pub fn find(&self, table: &NodeTable, word: u32) -> Option<Key>
        requires { HoldsEntries self.now table.now }
        ensures { result ≡ option_map (λ f. f.key) (found_in self.now table.now word) }
    {
        let node = self.node_with(table, word)?;
        Some(self.entry(node).key)
    }

    /// Gives a word, which has no owner state, the one of this key and this row, which no word has. It stands in the
    /// bucket of the word then; all else stays as it was.
    pub fn put(&mut self, table: &mut NodeTable, word: u32, key: Key, row: u32)
        requires holds { HoldsEntries self.old table.old }
        requires row { IsRow self.old row }
        requires free { (w : ℕ) (f : Found) → found_in self.old table.old w ≡ Some f → f.row ≢ row }
        requires none { found_in self.old table.old word ≡ None }
        ensures put { (w : ℕ) → found_in self.new table.new w
            ≡ (if w == word then Some (record { key = key; row = row }) else found_in self.old table.old w) }
        ensures place { self.new ≡ record self.old { items = set self.old.items row (record { word = word; key = key }) } }
        ensures outside { KeepsOthers self.old.first_list 64 self.old.first_node (length self.old.items) table.old table.new }
        ensures holds { HoldsEntries self.new table.new }
    {
        let node = Node::new(self.first_node + row);
        table.attach_after(self.bucket(word), None, node);
        self.write(row, Entry { word, key });
    }

    /// Takes the owner state of a word, which has one, from it. All else stays as it was.
    pub fn forget(&mut self, table: &mut NodeTable, word: u32)
        requires holds { HoldsEntries self.old table.old }
        requires some { IsSome (found_in self.old table.old word) }
        ensures forgotten { (w : ℕ) → found_in self.new table.new w
            ≡ (if w == word then None else found_in self.old table.old w) }
        ensures place { self.new ≡ self.old }
        ensures outside { KeepsOthers self.old.first_list 64 self.old.first_node (length self.old.items) table.old table.new }
        ensures holds { HoldsEntries self.new table.new }
    {
        if let Some(node) = self.node_with(table, word) {
            table.detach(node);
        }
    }

    /// Takes the owner state of a word, which has the one of this row, from it, and looks through no bucket. All else
    /// stays as it was.
    pub fn forget_at(&mut self, table: &mut NodeTable, word: u32, row: u32)
        requires holds { HoldsEntries self.old table.old }
        requires row { (f : Found) × (found_in self.old table.old word ≡ Some f) × (f.row ≡ row) }
        ensures forgotten { (w : ℕ) → found_in self.new table.new w
            ≡ (if w == word then None else found_in self.old table.old w) }
        ensures place { self.new ≡ self.old }
        ensures outside { KeepsOthers self.old.first_list 64 self.old.first_node (length self.old.items) table.old table.new }
        ensures holds { HoldsEntries self.new table.new }
    {
        let node = Node::new(self.first_node + row);
        table.detach(node);
    }

    /// The node of the owner state of a word. `None` if it has none.
    fn node_with(&self, table: &NodeTable, word: u32) -> Option<Node>
        requires { HoldsEntries self.now table.now }
        ensures { result ≡ node_with self.now table.now word }
    {
        let mut next = table.first(self.bucket(word));
        while let Some(node) = next {
            if self.entry(node).word == word {
                break;
            }
            next = table.next(node);
        }
        next
    }

    /// The entry of the row of a node.
    fn entry(&self, node: Node) -> Entry
        requires low { self.now.first_node ≤ node }
        requires row { IsRow self.now (row_of self.now node) }
        ensures { result ≡ entry_at self.now (row_of self.now node) }
    {
        self.items[(node.get() - self.first_node) as usize]
    }

    /// Makes `entry` the entry of a row.
    fn write(&mut self, row: u32, entry: Entry)
        requires { IsRow self.old row }
        ensures { self.new ≡ record self.old { items = set self.old.items row entry } }
    {
        self.items[row as usize] = entry;
    }

    /// The list of the bucket of a word.
    fn bucket(&self, word: u32) -> List
        ensures { result ≡ bucket_of self.now word }
    {
        List::new(self.first_list + word % BUCKETS)
    }
}
