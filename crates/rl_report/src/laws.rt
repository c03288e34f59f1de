ghost use Rattle.std.specs.Prelude.{◌≡◌, ◌+◌, ◌<◌, ◌≤◌, ℕ, [], List, length, drop};
ghost use Rattle.rl_text.specs.Lines.{Reading, lines_of, longest_text};
ghost use Rattle.rl_model.specs.declared.moves.Move.{Move};
ghost use Rattle.rl_model.specs.declared.network.NetworkPlan.{NetworkPlan};
ghost use Rattle.rl_model.specs.declared.report.Outcome.{Outcome};
ghost use Rattle.rl_model.specs.declared.report.Report.{Report};
ghost use Rattle.rl_model.specs.Network.{IsNetwork};
ghost use Rattle.rl_report.specs.Grammar.{IsMoveLine, IsOutcomeLine, IsTextOf, IsFirstFault, IsLong, most_moves};
ghost use Rattle.rl_report.specs.Reading.{HasMoves, HasNoMove};

/// Of the lines behind the second: at first none was read; with more moves than a report may have the text is
/// too long; and where no more were read and the next line is no move's, it isn't.
pub fn reading_laws()
    ensures start { (net : NetworkPlan) (text : List ℕ) (start reading : Reading)
        → start.given ≡ 0 → start.left ≡ lines_of text → reading.left ≡ drop 2 start.left
        → reading.given + length reading.left ≡ start.given + length start.left
        → HasMoves net text [] reading }
    ensures long { (net : NetworkPlan) (text : List ℕ) (moves : List Move) (reading : Reading)
        → HasMoves net text moves reading → most_moves < length moves → IsLong net text }
    ensures short { (net : NetworkPlan) (text : List ℕ) (moves : List Move) (reading : Reading)
        → HasMoves net text moves reading → length moves ≤ most_moves → length text ≤ longest_text
        → HasNoMove net reading.left → IsLong net text → ⊥ }
{}

/// A text has one reading: a move's line is no other move's, a train's line no other outcome's, and neither is
/// the other; the text of a report is no other report's, has no fault, and isn't too long if the report has no
/// more moves than it may have; and a text has one first fault at most.
pub fn one_reading()
    ensures move_lines { (net : NetworkPlan) (text : List ℕ) (m n : Move)
        → IsNetwork net → IsMoveLine net text m → IsMoveLine net text n → m ≡ n }
    ensures train_lines { (net : NetworkPlan) (text : List ℕ) (t u : ℕ) (o p : Outcome)
        → IsNetwork net → IsOutcomeLine net text t o → IsOutcomeLine net text u p → (t ≡ u) × (o ≡ p) }
    ensures apart { (net : NetworkPlan) (text : List ℕ) (m : Move) (t : ℕ) (o : Outcome)
        → IsNetwork net → IsMoveLine net text m → IsOutcomeLine net text t o → ⊥ }
    ensures reports { (net : NetworkPlan) (text : List ℕ) (report other : Report)
        → IsNetwork net → IsTextOf net report text → IsTextOf net other text → report ≡ other }
    ensures no_fault { (net : NetworkPlan) (text : List ℕ) (report : Report) (n : ℕ)
        → IsTextOf net report text → IsFirstFault net text n → ⊥ }
    ensures not_long { (net : NetworkPlan) (text : List ℕ) (report : Report)
        → IsNetwork net → IsTextOf net report text → length report.moves ≤ most_moves → IsLong net text → ⊥ }
    ensures one_fault { (net : NetworkPlan) (text : List ℕ) (n k : ℕ)
        → IsFirstFault net text n → IsFirstFault net text k → n ≡ k }
{}
