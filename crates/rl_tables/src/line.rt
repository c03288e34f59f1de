ghost use Rattle.std.specs.Prelude.{◌≡◌, ◌<◌, length, Some, slice_get};
ghost use Rattle.rl_tables.specs.Kept.{IsLine};
ghost use Rattle.rl_tables.specs.Starts.{layout_of};

use crate::table::{BoxTable, Tables, TrainTable};
use rl_base::{BoxId, Layout, TrainId};
use std::marker::Model;

/// The tables of an accepted network, for the boxes and trains that run on it. Contracts see them as
/// lists, of which `IsLine` holds.
#[derive(Debug, Drop)]
pub struct Line {
    tables: Tables,
}

impl Model for Line {
    ghost use Rattle.rl_tables.specs.declared.table.Tables.{Tables};
    ghost use Rattle.rl_tables.specs.Kept.{IsLine};

    ghost Value = { Tables };

    ghost view = { λ l. l.tables };

    ghost invariant = { λ l. IsLine l.tables };
}

impl Line {
    pub(crate) fn from_tables(tables: Tables) -> Line
        requires { IsLine tables }
        ensures { result ≡ tables }
    {
        Line { tables }
    }

    /// How many boxes and trains there are.
    pub fn layout(&self) -> Layout
        ensures layout { result ≡ layout_of self.now }
        ensures line { IsLine self.now }
    {
        Layout {
            boxes: self.tables.boxes.len() as u32,
            trains: self.tables.trains.len() as u32,
        }
    }

    /// The tables of the boxes, in order.
    pub(crate) fn box_tables(&self) -> &[BoxTable]
        ensures tables { result.now ≡ self.now.boxes }
        ensures line { IsLine self.now }
    {
        self.tables.boxes.as_slice()
    }

    /// The tables of the trains, in order.
    pub(crate) fn train_tables(&self) -> &[TrainTable]
        ensures tables { result.now ≡ self.now.trains }
        ensures line { IsLine self.now }
    {
        self.tables.trains.as_slice()
    }

    /// The table of the box.
    pub fn box_table(&self, b: BoxId) -> &BoxTable
        requires { b.0 < length self.now.boxes }
        ensures there { slice_get self.now.boxes b.0 ≡ Some result.now }
        ensures line { IsLine self.now }
    {
        self.tables.boxes.at(b.0 as usize)
    }

    /// The table of the train.
    pub fn train_table(&self, t: TrainId) -> &TrainTable
        requires { t.0 < length self.now.trains }
        ensures there { slice_get self.now.trains t.0 ≡ Some result.now }
        ensures line { IsLine self.now }
    {
        self.tables.trains.at(t.0 as usize)
    }
}
