//! Steps on the words that threads share.
ghost use Rattle.std.specs.Prelude.{◌≡◌, ◌<◌, ◌≤◌, ◌+◌, ◌∷◌, length, IfSome, IfOk, []};
ghost use Rattle.rl_base.specs.Layout.{node_count, word_count};
ghost use Rattle.rl_tables.specs.Starts.{layout_of};
ghost use Rattle.rl_steps.specs.Held.{HasMind};
ghost use Rattle.rl_rule.specs.Seats.{rails_id, rails_line, seat_id, seat_line, walk_of};
ghost use Rattle.rl_rule.specs.Views.{start_walk};

use crate::driven::line_of;
use crate::networks::{STRAIGHT, TWO_LINES};
use rl_base::{NoMemory, NodeNo, WordNo};
use rl_record::{Event, Events, Record, Records, merge, records_by_node};
use rl_rule::{NodeSeat, Rails};
use rl_steps::{Mind, act_anywhere, kept_minds, start_mind};
use rl_tables::Line;
use rl_words::payload_of;
use std::alloc::Global;
use std::test::Fail;
use std::thread::{Threads, join};

/// A load of the word, and the step of the node there.
fn turn_on(
    line: &Line,
    rails: &Rails,
    seat: &mut NodeSeat,
    mind: &Mind,
    w: WordNo,
) -> Option<(Event, Mind)>
    requires own { seat_id seat.old ≡ rails_id rails.now }
    requires line { rails_line rails.now ≡ line.now }
    requires seat_line { seat_line seat.old ≡ line.now }
    requires there { (walk_of seat.old).node.0 < node_count (layout_of line.now) }
    requires mind { (walk_of seat.old).mind ≡ mind.now }
    requires formed { HasMind line.now (walk_of seat.old).node.0 mind.now }
    requires word { w.0 < word_count (layout_of line.now) }
    requires room { length (walk_of seat.old).history < 1000 }
    ensures own { seat_id seat.new ≡ seat_id seat.old }
    ensures line { seat_line seat.new ≡ seat_line seat.old }
    ensures node { (walk_of seat.new).node ≡ (walk_of seat.old).node }
    ensures mind { IfSome result (λ r. (walk_of seat.new).mind ≡ r.1) }
    ensures formed { IfSome result (λ r. HasMind line.now (walk_of seat.old).node.0 r.1) }
    ensures room { length (walk_of seat.new).history ≤ length (walk_of seat.old).history + 1 }
{
    kept_minds();
    let _lay = line.layout();
    let value = rails.load(seat, w);
    let (payload, after) = act_anywhere(line, seat.node(), mind, w, payload_of(value))?;
    Some((rails.step(seat, payload, after), after))
}

/// The first four steps on a single track: the train posts its first letter, and the box between its segments takes
/// it, grants what it asks, and answers.
fn four_steps(
    line: &Line,
    rails: &Rails,
    train: &mut NodeSeat,
    joint: &mut NodeSeat,
) -> Option<[Event; 4]>
    requires line { rails_line rails.now ≡ line.now }
    requires nodes { 3 < node_count (layout_of line.now) }
    requires words { 7 < word_count (layout_of line.now) }
    requires train { (seat_id train.old ≡ rails_id rails.now) × (seat_line train.old ≡ line.now) }
    requires joint { (seat_id joint.old ≡ rails_id rails.now) × (seat_line joint.old ≡ line.now) }
    requires train_starts { walk_of train.old ≡ start_walk line.now 100 0 }
    requires joint_starts { walk_of joint.old ≡ start_walk line.now 100 3 }
    ensures train { seat_id train.new ≡ seat_id train.old }
    ensures joint { seat_id joint.new ≡ seat_id joint.old }
{
    kept_minds();
    let mind = start_mind(line, 100, NodeNo(0));
    let (posted, _) = turn_on(line, rails, train, &mind, WordNo(7))?;
    let mind = start_mind(line, 100, NodeNo(3));
    let (taken, mind) = turn_on(line, rails, joint, &mind, WordNo(7))?;
    let (granted, mind) = turn_on(line, rails, joint, &mind, WordNo(2))?;
    let (answered, _) = turn_on(line, rails, joint, &mind, WordNo(7))?;
    Some([posted, taken, granted, answered])
}

/// The event with these numbers: the node, the stamp, the word, and the whole old and the whole new word.
fn event_of(numbers: (u32, u32, u32, u64, u64)) -> Event {
    let (node, stamp, word, was, now) = numbers;
    Event {
        node: NodeNo(node),
        stamp,
        word: WordNo(word),
        was,
        now,
    }
}

#[test]
fn steps_on_one_thread(rt: HostRuntime) -> Result<(), Fail> {
    let alloc = rt.alloc();
    let line = line_of(alloc, STRAIGHT)?;
    let lay = line.layout();
    assert!(rt; lay.nodes() == 8 && lay.words() == 10);
    let mut rails = Rails::lay(alloc, &line, 100)?;
    let mut train = rails.seat(NodeNo(0));
    let track = rails.seat(NodeNo(1));
    let west = rails.seat(NodeNo(2));
    let mut joint = rails.seat(NodeNo(3));
    let east = rails.seat(NodeNo(4));
    let first = rails.seat(NodeNo(5));
    let second = rails.seat(NodeNo(6));
    let third = rails.seat(NodeNo(7));
    let made = four_steps(&line, &rails, &mut train, &mut joint).ok_or("a step is missing")?;
    assert_eq!(rt; made[0], event_of((0, 1, 7, 0, 0x0000_0001_0000_1009)));
    assert_eq!(rt;
        made[1],
        event_of((3, 2, 7, 0x0000_0001_0000_1009, 0x0000_0002_0000_100a))
    );
    assert_eq!(rt; made[2], event_of((3, 3, 2, 1, 0x0000_0003_0000_0041)));
    assert_eq!(rt;
        made[3],
        event_of((3, 4, 7, 0x0000_0002_0000_100a, 0x0000_0004_0000_100b))
    );
    rails.take_in(train);
    rails.take_in(track);
    rails.take_in(west);
    rails.take_in(joint);
    rails.take_in(east);
    rails.take_in(first);
    rails.take_in(second);
    rails.take_in(third);
    let words = rails.close();
    let wanted: [u64; 10] = [
        0,
        1,
        0x0000_0003_0000_0041,
        0,
        0,
        0,
        0,
        0x0000_0004_0000_100b,
        0,
        0,
    ];
    assert_eq!(rt; words.as_slice(), wanted.as_slice());
    Ok(())
}

/// The first step of a train, on its mail word.
fn post(line: &Line, rails: &Rails, mut seat: NodeSeat, n: NodeNo, w: WordNo) -> Option<Event>
    requires line { rails_line rails.now ≡ line.now }
    requires own { seat_id seat ≡ rails_id rails.now }
    requires seat_line { seat_line seat ≡ line.now }
    requires starts { walk_of seat ≡ start_walk line.now 100 n.0 }
    requires node { n.0 < node_count (layout_of line.now) }
    requires word { w.0 < word_count (layout_of line.now) }
{
    kept_minds();
    let mind = start_mind(line, 100, n);
    let (event, _) = turn_on(line, rails, &mut seat, &mind, w)?;
    Some(event)
}

/// Two trains post their first letters, each in a thread of its own.
fn posts<R: Threads + Sync>(
    rt: &R,
    line: &Line,
    rails: &Rails,
    first: NodeSeat,
    second: NodeSeat,
) -> (Option<Event>, Option<Event>)
    requires line { rails_line rails.now ≡ line.now }
    requires nodes { 1 < node_count (layout_of line.now) }
    requires words { 14 < word_count (layout_of line.now) }
    requires first { (seat_id first ≡ rails_id rails.now) × (seat_line first ≡ line.now) }
    requires second { (seat_id second ≡ rails_id rails.now) × (seat_line second ≡ line.now) }
    requires first_starts { walk_of first ≡ start_walk line.now 100 0 }
    requires second_starts { walk_of second ≡ start_walk line.now 100 1 }
{
    join(
        rt,
        move || post(line, rails, first, NodeNo(0), WordNo(13)),
        move || post(line, rails, second, NodeNo(1), WordNo(14)),
    )
}

/// The record of one event.
fn record_of(alloc: Global, event: Event) -> Result<Record, NoMemory>
    ensures { IfOk result (λ r. r.events ≡ event ∷ []) }
{
    let mut record = Record::new(alloc, 1);
    record.top_up(1)?;
    record.push(event);
    Ok(record)
}

/// The merge of two records of one event each.
fn merged(alloc: Global, first: Event, second: Event) -> Result<Events, NoMemory>
    requires first { first.node.0 ≡ 0 }
    requires second { second.node.0 ≡ 1 }
{
    let mut records = Records::new(alloc);
    records.push(record_of(alloc, first)?)?;
    records.push(record_of(alloc, second)?)?;
    records_by_node();
    merge(alloc, &records)
}

#[test]
fn steps_on_two_threads(rt: HostRuntime) -> Result<(), Fail> {
    let alloc = rt.alloc();
    let line = line_of(alloc, TWO_LINES)?;
    let lay = line.layout();
    assert!(rt; lay.nodes() == 16 && lay.words() == 19);
    let mut rails = Rails::lay(alloc, &line, 100)?;
    let first = rails.seat(NodeNo(0));
    let second = rails.seat(NodeNo(1));
    let (first, second) = posts(&rt, &line, &rails, first, second);
    let first = first.ok_or("the first train posts")?;
    let second = second.ok_or("the second train posts")?;
    assert!(rt; first == event_of((0, 1, 13, 0, 0x0000_0001_0000_1009)));
    assert!(rt; second == event_of((1, 1, 14, 0, 0x0000_0001_0000_1021)));
    assert!(rt; first.node == NodeNo(0) && second.node == NodeNo(1));
    let events = merged(alloc, first, second)?;
    assert_eq!(rt; events.as_slice(), [first, second].as_slice());
    Ok(())
}
