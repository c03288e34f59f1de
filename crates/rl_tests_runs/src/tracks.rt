//! The steps of a track and of a point machine.
use rl_track::{MachineMind, TrackMind};

/// What the track sees on its target, and what it writes there, if anything. Tags of a run word are 0 clear, 1 go and
/// 2 across, those of a sense word 0 quiet, 1 head and 2 tail; the step is four times its number.
const PASSAGE: [(u32, Option<u32>); 10] = [
    (0, None),
    (1, Some(2)),
    (2, None),
    (0, Some(1)),
    (1, None),
    (2, Some(4)),
    (0, None),
    (1, Some(2)),
    (1, None),
    (5, Some(6)),
];

#[test]
fn reports_a_passage(rt: HostRuntime) {
    let mut mind = TrackMind::start();
    for (payload, want) in PASSAGE {
        let found = mind.act(payload);
        assert_eq!(rt; found.map(|f| f.0), want, "{payload} in {mind:?}");
        if let Some((_, after)) = found {
            mind = after;
        }
    }
}

#[test]
fn moves_points(rt: HostRuntime) {
    // Free; asked, moving and moved for train 3 from arm 0 to arm 2; locked for train 0 from arm 0 to arm 1.
    for (payload, want) in [
        (8, None),
        (4145, Some(4146)),
        (4146, Some(4147)),
        (4147, None),
        (2052, None),
    ] {
        let found = MachineMind.act(payload);
        assert_eq!(rt; found.map(|f| f.0), want, "{payload}");
    }
}
