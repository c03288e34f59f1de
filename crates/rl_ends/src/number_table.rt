ghost use Rattle.std.specs.Prelude.{◌≡◌, ℕ, List, [], map, IfOk, OnOk};
ghost use Rattle.rl_drafts.specs.Drafts.{number_in};
ghost use Rattle.rl_ends.specs.Tables.{HasNumbers, HasNumber};

use crate::named::Named;
use indexmap::IndexMap;
use rl_base::NoMemory;
use std::alloc::Global;

/// For each name the number of the first item that has it, counted from 0.
#[derive(Debug, Drop)]
pub(crate) struct NumberTable {
    numbers: IndexMap<Vec<u8>, usize>,
}

impl NumberTable {
    fn new(alloc: Global) -> NumberTable
        ensures { HasNumbers result.numbers.entries [] }
    {
        NumberTable {
            numbers: IndexMap::new(alloc),
        }
    }

    /// Notes that item `i` has the name, whatever was noted of it.
    fn note(&mut self, alloc: Global, name: &[u8], i: usize) -> Result<(), NoMemory>
        ensures { OnOk result (HasNumber self.old.numbers.entries self.new.numbers.entries name.now i) }
    {
        self.numbers.insert(Vec::from_slice(alloc, name)?, i)?;
        Ok(())
    }

    /// The table of the items' names. The last items are noted first, and so the first ones stay.
    pub(crate) fn of<T: Named>(alloc: Global, items: &[T]) -> Result<NumberTable, NoMemory>
        ensures { IfOk result (λ table. HasNumbers table.numbers.entries (map T.name_of items.now)) }
    {
        let mut table = NumberTable::new(alloc);
        let mut i = items.len();
        while 0 < i {
            i -= 1;
            table.note(alloc, items[i].name(), i)?;
        }
        Ok(table)
    }

    /// The number of the first item that has the name. It takes no memory.
    pub(crate) fn number(&self, name: &[u8]) -> Option<usize>
        ensures { (names : List (List ℕ)) → HasNumbers self.now.numbers.entries names
            → result ≡ number_in names name.now }
    {
        self.numbers.get(name).copied()
    }
}
