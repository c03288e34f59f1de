ghost use Rattle.std.specs.Prelude.{◌≡◌, [], ◌∷◌, Some, codes};
ghost use Rattle.rl_base.specs.declared.kind.Side.TheVariants.{Right};
ghost use Rattle.rl_base.specs.declared.layout.WordKind.TheVariants as words;
ghost use Rattle.rl_words.specs.Lock.{packed_lock};
ghost use Rattle.rl_drafts.specs.Drafts.{network_of};
ghost use Rattle.rl_drafts.specs.Examples.{one_train, fork, switch_box, train};
ghost use Rattle.rl_tables.specs.Tables.{IsBoxTable, AreTablesOf};
ghost use Rattle.rl_tables.specs.Starts.{start_lock, start_payload};
ghost use Rattle.rl_tables.specs.TablesText.{tables_text};
ghost use Rattle.rl_tables.specs.Examples.{one_train_tables, one_train_text, point};

/// The tables, their text and some words at the start on the line of two segments, and the table of a
/// point, worked out by hand.
pub fn tables_of_examples()
    ensures tables { AreTablesOf (network_of one_train) one_train_tables }
    ensures text { tables_text (network_of one_train) one_train_tables ≡ one_train_text }
    ensures near_end { start_payload one_train_tables (words.Resv (switch_box 1)) ≡ 1 }
    ensures far_end { start_payload one_train_tables (words.Resv (switch_box 0)) ≡ 1 }
    ensures no_end { start_payload one_train_tables (words.Resv (switch_box 2)) ≡ 0 }
    ensures joint_lock { start_payload one_train_tables (words.Lock (switch_box 1)) ≡ 0 }
    ensures mail { start_payload one_train_tables (words.Mail (train 0)) ≡ 0 }
    ensures point { IsBoxTable (network_of (fork (Some Right) (codes "S" ∷ codes "P" ∷ codes "R" ∷ []))) 1 point }
    ensures point_lock { packed_lock (start_lock point) ≡ 8 }
{}
