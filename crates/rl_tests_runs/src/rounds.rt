//! What no clause can say: that each turn is let pass and told of, whatever the number of workers.

ghost use Rattle.std.specs.Prelude.{◌≡◌, ◌≤◌, ◌==◌, refl};

use rl_base::{NodeNo, WordNo};
use rl_outside::Gate;
use rl_record::{Event, Turn};
use rl_runner::{Turner, rounds};
use std::sync::atomic::{AtomicU64, Ordering};

/// A node that changes a word at every second turn.
#[derive(Drop)]
struct Toy {
    node: NodeNo,
    left: u32,
    made: u64,
}

impl Turner for Toy {
    ghost number = { λ toy. toy.node.0 };

    ghost ready = { λ n toy. n ≤ toy.left };

    ghost turns = { λ toy. toy.made };

    ghost home = { λ first later. first.node ≡ later.node };

    ghost at_rest = { λ toy. toy.left == 0 };

    fn turn(&mut self) -> Turn {
        self.left -= 1;
        self.made = self.made.saturating_add(1);
        if self.left % 2 == 1 {
            return Turn::Rest;
        }
        Turn::Moved(Event {
            node: self.node,
            stamp: self.left,
            word: WordNo(self.node.0 % 4),
            was: 0,
            now: 1,
        })
    }

    fn number(&self) -> NodeNo {
        self.node
    }

    fn at_rest(&self) -> bool {
        self.left == 0
    }

    ghost use Rattle.std.proofs.Common.{arith, ◌∙◌};

    ghost ready_once = { λ n toy some ready. omega arith };

    ghost home_first = { λ toy. refl };

    ghost home_on = { λ first second third a b. a ∙ b };
}

/// Adds up which nodes it let pass, and the events that it was told of.
#[derive(Drop)]
struct Counting {
    passed: AtomicU64,
    nodes: AtomicU64,
    told: AtomicU64,
    stamps: AtomicU64,
}

impl Gate for Counting {
    fn pass(&self, node: NodeNo) {
        self.passed.fetch_add(1, Ordering::SeqCst);
        self.nodes.fetch_add(u64::from(node.0), Ordering::SeqCst);
    }

    fn moved(&self, node: NodeNo, stamp: u32, word: WordNo, was: u64, now: u64) {
        if word.0 == node.0 % 4 && was == 0 && now == 1 {
            self.told.fetch_add(1, Ordering::SeqCst);
            self.stamps.fetch_add(u64::from(stamp), Ordering::SeqCst);
        }
    }
}

fn with_turns(node: u32, left: u32) -> Toy
    ensures { result.left ≡ left }
{
    Toy {
        node: NodeNo(node),
        left,
        made: 0,
    }
}

#[test]
fn gives_each_node_its_turns(rt: HostRuntime) {
    // Five nodes have 40 of their 42 turns: at every second one, with 40, 38 .. 2 turns left, they change a word. So the
    // stamps of each add up to 420.
    for workers in [1, 2, 3, 5, 9] {
        let mut nodes = [
            with_turns(0, 42),
            with_turns(1, 42),
            with_turns(2, 42),
            with_turns(3, 42),
            with_turns(4, 42),
        ];
        let gate = Counting {
            passed: AtomicU64::new(0),
            nodes: AtomicU64::new(0),
            told: AtomicU64::new(0),
            stamps: AtomicU64::new(0),
        };
        rounds(&rt, &mut nodes, &gate, 40, workers);
        assert!(rt; nodes.iter().all(|toy| toy.left == 2 && toy.made == 40));
        assert_eq!(rt; gate.passed.load(Ordering::SeqCst), 200);
        assert_eq!(rt; gate.nodes.load(Ordering::SeqCst), 400);
        assert_eq!(rt; gate.told.load(Ordering::SeqCst), 100);
        assert_eq!(rt; gate.stamps.load(Ordering::SeqCst), 2100);
    }
}
