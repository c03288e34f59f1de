ghost use Rattle.std.specs.Prelude.{◌≡◌, ◌<◌, [], ◌∷◌, ◌++◌, false, not, length, map, Some, IfOk, OnOk, OnErr, IfErr, IfSome};
ghost use Rattle.rl_drafts.specs.Drafts.{number_in};
ghost use Rattle.rl_drafts.specs.Refusals.{is_among};
ghost use Rattle.rl_net.specs.NameTables.{AreUnlike, IsNameFault};

use crate::name_hint::{HINT_PLACES, NameHint};
use crate::names::Named;
use indexmap::IndexSet;
use rl_base::NoMemory;
use std::alloc::Global;
use std::marker::Model;

/// Names that differ, each with its number: its place, counted from 0. Contracts see the list of the names.
///
/// At the place that a name's hint means stands the number of one of the names with such a hint. So most
/// look-ups end with one comparison, and only the others search.
#[derive(Debug, Drop)]
pub(crate) struct NameTable {
    names: IndexSet<Vec<u8>>,
    hinted: Vec<usize>,
}

impl Model for NameTable {
    ghost use Rattle.std.specs.Prelude.{ℕ, List, map};

    ghost Value = { List (List ℕ) };

    ghost view = { λ t. map (λ k. k.items) t.names.keys };
}

/// Why there is no table of the names of some items.
#[derive(Debug, Drop)]
pub(crate) enum NameFault {
    /// The item of this number is the first that has the name of an earlier one.
    Twice(usize),
    /// Memory ran out.
    NoMemory,
}

impl From<NoMemory> for NameFault {
    ghost use Rattle.rl_net.specs.declared.name_table.NameFault.TheVariants as fault;

    ghost from_gives = { λ _ e. e ≡ fault.NoMemory };

    fn from(_error: NoMemory) -> NameFault {
        NameFault::NoMemory
    }
}

/// The number of a name of each place that a hint means.
fn noted(alloc: Global, names: &[Vec<u8>]) -> Result<Vec<usize>, NoMemory> {
    let mut numbers = vec![in alloc; 0usize; HINT_PLACES as usize]?;
    for (i, name) in names.iter().enumerate() {
        if let Some(place) = numbers.get_mut(NameHint::of(name.as_slice()).place()) {
            *place = i;
        }
    }
    Ok(numbers)
}

impl NameTable {
    fn new(alloc: Global) -> NameTable
        ensures { result ≡ [] }
    {
        NameTable {
            names: IndexSet::new(alloc),
            hinted: Vec::new(alloc),
        }
    }

    /// Adds the name at the end unless it is there, and says whether it was new.
    fn add(&mut self, alloc: Global, name: &[u8]) -> Result<bool, NoMemory>
        ensures new { IfOk result (λ new. new ≡ not (is_among self.old name.now)) }
        ensures added { is_among self.old name.now ≡ false → OnOk result (self.new ≡ self.old ++ name.now ∷ []) }
    {
        Ok(self.names.insert(Vec::from_slice(alloc, name)?)?)
    }

    /// Notes the number of each name at the place that its hint means.
    fn note_hints(&mut self, alloc: Global) -> Result<(), NoMemory>
        ensures { OnOk result (self.new ≡ self.old) }
    {
        self.hinted = noted(alloc, self.names.as_slice())?;
        Ok(())
    }

    /// The table of the items' names.
    pub(crate) fn of<T: Named>(alloc: Global, items: &[T]) -> Result<NameTable, NameFault>
        ensures names { IfOk result (λ table. table ≡ map T.name_of items.now) }
        ensures unlike { OnOk result (AreUnlike (map T.name_of items.now)) }
        ensures fault { IfErr result (IsNameFault (map T.name_of items.now)) }
    {
        let mut table = NameTable::new(alloc);
        for i in 0..items.len() {
            if !table.add(alloc, items[i].name())? {
                return Err(NameFault::Twice(i));
            }
        }
        table.note_hints(alloc)?;
        Ok(table)
    }

    /// The number of that name, if the hint means it.
    #[inline(always)]
    fn hinted(&self, name: &[u8], hint: NameHint) -> Option<usize>
        ensures { IfSome result (λ i. (i < length self.now) × (number_in self.now name.now ≡ Some i)) }
    {
        let i = *self.hinted.get(hint.place())?;
        let found = self.names.as_slice().get(i)?;
        if found.as_slice() == name {
            Some(i)
        } else {
            None
        }
    }

    /// The number of that name, found with no hint.
    #[inline(never)]
    fn search(&self, name: &[u8]) -> Option<usize>
        ensures number { result ≡ number_in self.now name.now }
        ensures within { IfSome result (λ i. i < length self.now) }
    {
        self.names.get_index_of(name)
    }

    /// The number of that name, whatever the hint means. It takes no memory.
    #[inline(always)]
    pub(crate) fn find_by(&self, name: &[u8], hint: NameHint) -> Option<usize>
        ensures number { result ≡ number_in self.now name.now }
        ensures within { IfSome result (λ i. i < length self.now) }
    {
        match self.hinted(name, hint) {
            Some(i) => Some(i),
            None => self.search(name),
        }
    }

    /// The number of that name. It takes no memory.
    pub(crate) fn find(&self, name: &[u8]) -> Option<usize>
        ensures number { result ≡ number_in self.now name.now }
        ensures within { IfSome result (λ i. i < length self.now) }
    {
        self.find_by(name, NameHint::of(name))
    }
}
