ghost use Rattle.std.specs.Prelude.{◌≡◌, ◌<◌, ℕ, false, Some, None};
ghost use Rattle.rl_base.specs.declared.ids.BoxId.{BoxId};
ghost use Rattle.rl_base.specs.declared.ids.TrainId.{TrainId};
ghost use Rattle.rl_base.specs.declared.layout.Layout.{Layout};
ghost use Rattle.rl_base.specs.declared.layout.WordKind.{WordKind};
ghost use Rattle.rl_track.specs.declared.machine.MachineMind.{MachineMind};
ghost use Rattle.rl_track.specs.declared.track.TrackMind.{TrackMind};
ghost use Rattle.rl_track.specs.Glance.{may_move, may_report};
ghost use Rattle.rl_track.specs.Kept.{KeepsTrack, KeepsMachine};
ghost use Rattle.rl_track.specs.Machine.{machine_step};
ghost use Rattle.rl_track.specs.Track.{IsTrackMind, track_step};

use rl_words::words;

/// Where a glance at a payload says no, the track has no step at any word with that payload.
pub fn track_glances()
    ensures { (t : TrainId) (mind : TrackMind) (kind : WordKind) (payload : ℕ)
        → may_report mind payload ≡ false → track_step t mind kind payload ≡ None }
{
    // What is known of any word, for the proof.
    words();
}

/// A step of a track changes the word that it looks at and owns, leaves a value of that word there, and a
/// well-formed mind.
pub fn track_steps()
    ensures { (lay : Layout) (t : TrainId) (mind : TrackMind) (kind : WordKind) (payload new : ℕ) (after : TrackMind)
        → t.0 < lay.trains → IsTrackMind mind → track_step t mind kind payload ≡ Some (new, after)
        → KeepsTrack lay t mind kind payload new after }
{
    // What is known of any word, for the proof.
    words();
}

/// Where a glance at a payload says no, the machine has no step at any word with that payload.
pub fn machine_glances()
    ensures { (b : BoxId) (mind : MachineMind) (kind : WordKind) (payload : ℕ)
        → may_move payload ≡ false → machine_step b mind kind payload ≡ None }
{
    // What is known of any word, for the proof.
    words();
}

/// A step of a point machine changes the word that it looks at and owns, and leaves a value of that word there.
pub fn machine_steps()
    ensures { (lay : Layout) (b : BoxId) (mind : MachineMind) (kind : WordKind) (payload new : ℕ) (after : MachineMind)
        → b.0 < lay.boxes → machine_step b mind kind payload ≡ Some (new, after)
        → KeepsMachine lay b mind kind payload new after }
{
    // What is known of any word, for the proof.
    words();
}
