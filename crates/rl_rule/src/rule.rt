//! The table under its rule. These types are for the proofs alone, but for the table and its seats.
use crate::views::View;
use atomic_table::{Seat, Table, TableRule};
use rl_tables::Line;
use std::alloc::Global;
use std::snapshot::Snapshot;

/// What the table is told when it is made.
#[derive(Drop)]
pub struct Key {
    pub line: Snapshot<Line>,
    pub tries: u32,
}

/// All that the threads did is one run.
pub struct OneRun;

impl TableRule<(), View, Key> for OneRun {
    ghost use Rattle.rl_rule.specs.Views.{root_view};
    ghost use Rattle.rl_rule.specs.Ruled.{IsRuled};

    ghost holds = { λ key. IsRuled key.line.value key.tries };

    ghost first = { λ key. root_view key.line.value key.tries };
}

pub type Board = Table<(), View, Key, OneRun, Global>;

pub type Place = Seat<(), View>;
