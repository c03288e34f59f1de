ghost use Rattle.std.specs.Prelude.{◌≡◌, ℕ, ◌*◌, ◌<◌, ◌≤◌, true, List, length, slice_get, Some, None};
ghost use Rattle.rl_base.specs.declared.limits.TheConstants.{MAX_ATTEMPT_EVENTS, MAX_ATTEMPT_NODE_EVENTS};
ghost use Rattle.rl_base.specs.declared.limits.TheConstants.{MAX_ATTEMPT_MOVES};
ghost use Rattle.rl_base.specs.declared.layout.NodeKind.{NodeKind};
ghost use Rattle.rl_base.specs.declared.layout.NodeKind.TheVariants as nodes;
ghost use Rattle.rl_base.specs.declared.layout.WordKind.{WordKind};
ghost use Rattle.rl_base.specs.declared.layout.WordKind.TheVariants as words;
ghost use Rattle.rl_model.specs.declared.moves.Move.{Move};
ghost use Rattle.rl_model.specs.declared.network.NetworkPlan.{NetworkPlan};
ghost use Rattle.rl_model.specs.World as world;
ghost use Rattle.rl_model.specs.Moves.{guards, AllHold, after, IsMoveOf};
ghost use Rattle.rl_model.specs.Safety.{IsSafeRun, world_after};
ghost use Rattle.rl_model.specs.Reports.{refused_in, Rests};
ghost use Rattle.rl_model.specs.Network.{IsNetwork};
ghost use Rattle.rl_tables.specs.declared.table.Tables.{Tables};
ghost use Rattle.rl_tables.specs.Kept.{IsLine};
ghost use Rattle.rl_tables.specs.Tables.{AreTablesOf};
ghost use Rattle.rl_words.specs.declared.mail.Letter.{Letter};
ghost use Rattle.rl_words.specs.declared.mail.MailWord.TheVariants.{Ask};
ghost use Rattle.rl_words.specs.Word.{Word, kind_of};
ghost use Rattle.rl_tables.specs.declared.table.BoxTable.{BoxTable};
ghost use Rattle.rl_tables.specs.declared.table.TrainTable.{TrainTable};
ghost use Rattle.rl_train.specs.declared.mind.TrainMind.{TrainMind};
ghost use Rattle.rl_train.specs.Steps.{TrainStep};
ghost use Rattle.rl_box.specs.declared.mind.BoxMind.{BoxMind};
ghost use Rattle.rl_box.specs.declared.mind.Work.TheVariants.{Ready};
ghost use Rattle.rl_box.specs.Steps.{BoxStep};
ghost use Rattle.rl_track.specs.declared.track.TrackMind.{TrackMind};
ghost use Rattle.rl_track.specs.Track.{TrackStep};
ghost use Rattle.rl_track.specs.declared.machine.MachineMind.{MachineMind};
ghost use Rattle.rl_track.specs.Machine.{MachineStep};
ghost use Rattle.rl_protocol.specs.Sentences.{StateSays, with_train, with_track, with_box, MakesStep, HasLine};
ghost use Rattle.rl_protocol.specs.TableLine.{line_of};
ghost use Rattle.rl_protocol.specs.Line.{Line, IsConsistent};
ghost use Rattle.rl_protocol.specs.State.{State, start};
ghost use Rattle.rl_protocol.specs.Minds.{train, box, at_rest};
ghost use Rattle.rl_protocol.specs.Steps.{Step, StepFits, next};
ghost use Rattle.rl_protocol.specs.StepMoves.{move_of};
ghost use Rattle.rl_protocol.specs.Runs.{state_after, IsStepRun, moves_of};
ghost use Rattle.rl_protocol.specs.Agreement.{Agrees};
ghost use Rattle.rl_protocol.specs.Worlds.{IsRailway, world_at};
ghost use Rattle.rl_protocol.specs.Counts.{HasTrains, events_of, attempts_opened};
ghost use Rattle.rl_protocol.specs.Refusals.{refusals_said};
ghost use Rattle.rl_protocol.specs.AtWork.{HasStep, word_at_work};
ghost use Rattle.rl_protocol.specs.Rest.{AllAtRest, HoldsSegmentsAlone};

/// The tables of a network say a consistent line of it, in which only the trains of the tables have steps to make.
pub fn lines_of_tables()
    ensures consistent { (tables : Tables) → IsLine tables → IsConsistent (line_of tables) }
    ensures trains { (tables : Tables) → HasTrains (line_of tables) (length tables.trains) }
    ensures railway { (net : NetworkPlan) (tables : Tables)
        → IsNetwork net → IsLine tables → AreTablesOf net tables → IsRailway net (line_of tables) }
{}

/// Minds and words agree in every state that a run of steps leaves, whatever the nodes and their order.
pub fn agreement()
    ensures start { (line : Line) (tries : ℕ) → IsConsistent line → Agrees line tries (start line tries) }
    ensures next { (line : Line) (tries : ℕ) (s : State) (step : Step)
        → IsConsistent line → Agrees line tries s → StepFits line s step → Agrees line tries (next line s step) }
    ensures runs { (line : Line) (tries : ℕ) (steps : List Step) → IsConsistent line → IsStepRun line tries steps
        → Agrees line tries (state_after line tries steps) }
{}

/// The moves of every run are a safe run of the network: each names what is there, is guarded in the world of the state
/// before it, and makes that world the one of the state after it.
pub fn safe_runs_of_steps()
    ensures start { (net : NetworkPlan) (line : Line) (tries : ℕ) → IsRailway net line
        → world_at net (start line tries) ≡ world.start net }
    ensures guarded { (net : NetworkPlan) (line : Line) (tries : ℕ) (s : State) (step : Step) (m : Move)
        → IsRailway net line → Agrees line tries s → StepFits line s step → move_of line step ≡ Some m
        → AllHold (guards net (world_at net s) m) }
    ensures moved { (net : NetworkPlan) (line : Line) (tries : ℕ) (s : State) (step : Step) (m : Move)
        → IsRailway net line → Agrees line tries s → StepFits line s step → move_of line step ≡ Some m
        → world_at net (next line s step) ≡ after (world_at net s) m }
    ensures unmoved { (net : NetworkPlan) (line : Line) (tries : ℕ) (s : State) (step : Step)
        → IsRailway net line → Agrees line tries s → StepFits line s step → move_of line step ≡ None
        → world_at net (next line s step) ≡ world_at net s }
    ensures named { (net : NetworkPlan) (line : Line) (tries : ℕ) (steps : List Step)
        → IsRailway net line → IsStepRun line tries steps
        → (k : ℕ) (m : Move) → slice_get (moves_of line steps) k ≡ Some m → IsMoveOf net m }
    ensures world { (net : NetworkPlan) (line : Line) (tries : ℕ) (steps : List Step)
        → IsRailway net line → IsStepRun line tries steps
        → world_at net (state_after line tries steps) ≡ world_after net (moves_of line steps) }
    ensures runs { (net : NetworkPlan) (line : Line) (tries : ℕ) (steps : List Step)
        → IsRailway net line → IsStepRun line tries steps → IsSafeRun net (moves_of line steps) }
{}

/// After every run the Refuse and Bar moves of a train are the refusals that it has heard, and the one in its mailbox.
pub fn counted_refusals()
    ensures { (line : Line) (tries : ℕ) (steps : List Step) (t : ℕ) → IsConsistent line → IsStepRun line tries steps
        → refused_in (moves_of line steps) t ≡ refusals_said (state_after line tries steps) t }
{}

/// In every state of a run a box that serves a letter, or has an answer to say, has a step on the word at which it
/// looks, and a ready box has one on the mailbox in which it is asked.
pub fn boxes_at_work()
    ensures busy { (line : Line) (tries : ℕ) (steps : List Step) (b : ℕ) (word : WordKind)
        → IsConsistent line → IsStepRun line tries steps
        → word_at_work b ((state_after line tries steps).boxes b).work ≡ Some word
        → HasStep line (state_after line tries steps) (nodes.Box (box b)) word }
    ensures asked { (line : Line) (tries : ℕ) (steps : List Step) (t : ℕ) (l : Letter)
        → IsConsistent line → IsStepRun line tries steps
        → (state_after line tries steps).mail t ≡ Ask l
        → ((state_after line tries steps).boxes l.to.0).work ≡ Ready
        → HasStep line (state_after line tries steps) (nodes.Box (box l.to.0)) (words.Mail (train t)) }
{}

/// Where every train rests, each holds its own segment at both ends and nothing else, no box has a lock, and no letter
/// is on its way. A single train at rest rests in the world; one without steps always does.
pub fn trains_at_rest()
    ensures all { (line : Line) (tries : ℕ) (steps : List Step) → IsConsistent line → IsStepRun line tries steps
        → AllAtRest line (state_after line tries steps) → HoldsSegmentsAlone line (state_after line tries steps) }
    ensures each { (net : NetworkPlan) (line : Line) (tries : ℕ) (steps : List Step) (t : ℕ)
        → IsRailway net line → IsStepRun line tries steps → t < length net.trains
        → at_rest line t ((state_after line tries steps).trains t) ≡ true
        → Rests net (world_at net (state_after line tries steps)) t }
    ensures without_steps { (line : Line) (tries : ℕ) (steps : List Step) (t : ℕ)
        → IsConsistent line → IsStepRun line tries steps → line.steps t ≡ 0
        → at_rest line t ((state_after line tries steps).trains t) ≡ true }
{}

/// In every run all steps together, those of each node, and the moves are at most so many for each attempt opened.
pub fn counted_steps()
    ensures steps { (line : Line) (tries trains : ℕ) (steps : List Step)
        → IsConsistent line → HasTrains line trains → IsStepRun line tries steps
        → length steps ≤ MAX_ATTEMPT_EVENTS * attempts_opened tries (state_after line tries steps) trains }
    ensures node { (line : Line) (tries trains : ℕ) (steps : List Step) (node : NodeKind)
        → IsConsistent line → HasTrains line trains → IsStepRun line tries steps
        → events_of node steps ≤ MAX_ATTEMPT_NODE_EVENTS * attempts_opened tries (state_after line tries steps) trains }
    ensures moves { (line : Line) (tries trains : ℕ) (steps : List Step)
        → IsConsistent line → HasTrains line trains → IsStepRun line tries steps
        → length (moves_of line steps)
        ≤ MAX_ATTEMPT_MOVES * attempts_opened tries (state_after line tries steps) trains }
    ensures opened { (line : Line) (tries trains : ℕ) (steps : List Step)
        → attempts_opened tries (state_after line tries steps) trains ≤ trains * tries }
{}

/// What the sentences of a node relate, seen in a state that agrees, is a step that fits it, and that leaves it with
/// that mind and that word. A box at work has a line at the word at which it looks, and a ready one at the mailbox in
/// which it is asked.
pub fn sentences_as_steps()
    ensures trains { (tables : Tables) (s : State) (t : ℕ) (table : TrainTable) (w v : Word) (mind : TrainMind)
        → IsLine tables → slice_get tables.trains t ≡ Some table
        → TrainStep table (s.trains t) w v mind → StateSays s w
        → MakesStep (line_of tables) s (nodes.Train (train t)) v (with_train s t mind) }
    ensures tracks { (line : Line) (s : State) (t : ℕ) (w v : Word) (mind : TrackMind)
        → TrackStep (train t) (s.tracks t) w v mind → StateSays s w
        → MakesStep line s (nodes.Track (train t)) v (with_track s t mind) }
    ensures boxes { (tables : Tables) (tries : ℕ) (s : State) (b : ℕ) (table : BoxTable) (w v : Word) (mind : BoxMind)
        → IsLine tables → Agrees (line_of tables) tries s → slice_get tables.boxes b ≡ Some table
        → BoxStep table (s.boxes b) w v mind → StateSays s w
        → MakesStep (line_of tables) s (nodes.Box (box b)) v (with_box s b mind) }
    ensures machines { (line : Line) (s : State) (b : ℕ) (before after : MachineMind) (w v : Word)
        → MachineStep (box b) before w v after → StateSays s w → MakesStep line s (nodes.Machine (box b)) v s }
    ensures at_work { (tables : Tables) (tries : ℕ) (s : State) (b : ℕ) (table : BoxTable) (w : Word)
        → IsLine tables → Agrees (line_of tables) tries s → slice_get tables.boxes b ≡ Some table
        → word_at_work b (s.boxes b).work ≡ Some (kind_of w) → StateSays s w → HasLine table (s.boxes b) w }
    ensures asked { (tables : Tables) (tries : ℕ) (s : State) (t : ℕ) (l : Letter) (table : BoxTable)
        → IsLine tables → Agrees (line_of tables) tries s → slice_get tables.boxes l.to.0 ≡ Some table
        → s.mail t ≡ Ask l → (s.boxes l.to.0).work ≡ Ready
        → HasLine table (s.boxes l.to.0) (Word.Mail (train t) (Ask l)) }
{}
