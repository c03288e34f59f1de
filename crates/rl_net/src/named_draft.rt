ghost use Rattle.std.specs.Prelude.{◌≡◌, ◌<◌, length, IfSome};
ghost use Rattle.rl_drafts.specs.Drafts.{number_in, box_names};
ghost use Rattle.rl_net.specs.NameTables.{AreTablesOf, AreUnlike};

use crate::name_table::NameTable;
use rl_base::Draft;
use std::marker::Model;

/// The tables of the names of a draft or a network.
#[derive(Debug, Drop)]
pub(crate) struct NameTables {
    pub segments: NameTable,
    pub boxes: NameTable,
    pub trains: NameTable,
}

/// A draft beside the tables of its names, in which none stands twice. Contracts see it as the draft.
#[derive(Drop)]
pub(crate) struct NamedDraft<'a> {
    draft: &'a Draft,
    names: &'a NameTables,
}

impl<'a> Model for NamedDraft<'a> {
    ghost use Rattle.rl_base.specs.declared.draft.Draft.{Draft};
    ghost use Rattle.rl_net.specs.NameTables.{AreTablesOf};

    ghost Value = { Draft };

    ghost view = { λ d. d.draft.now };

    ghost invariant = { λ d. AreTablesOf d.draft.now d.names.now };
}

impl<'a> NamedDraft<'a> {
    pub(crate) fn of(draft: &'a Draft, names: &'a NameTables) -> NamedDraft<'a>
        requires { AreTablesOf draft.now names.now }
        ensures { result ≡ draft.now }
    {
        NamedDraft { draft, names }
    }

    pub(crate) fn draft(&self) -> &Draft
        ensures { result.now ≡ self.now }
    {
        self.draft
    }

    /// The number of the segment of that name.
    pub(crate) fn segment_number(&self, name: &[u8]) -> Option<usize>
        ensures number { result ≡ number_in self.now.segments name.now }
        ensures within { IfSome result (λ s. s < length self.now.segments) }
        ensures unlike { AreUnlike self.now.segments }
    {
        self.names.segments.find(name)
    }

    /// The number of the box of that name.
    pub(crate) fn box_number(&self, name: &[u8]) -> Option<usize>
        ensures number { result ≡ number_in (box_names self.now) name.now }
        ensures within { IfSome result (λ b. b < length self.now.boxes) }
    {
        self.names.boxes.find(name)
    }
}
