ghost use Rattle.std.specs.Prelude.{◌≡◌, ◌+◌, ◌*◌, ◌≤◌, ◌<◌};
ghost use Rattle.rl_base.specs.declared.layout.Layout.{Layout};
ghost use Rattle.rl_base.specs.declared.layout.NodeKind.{NodeKind};
ghost use Rattle.rl_base.specs.declared.layout.WordKind.{WordKind};
ghost use Rattle.rl_base.specs.Layout.{word_count, word_number, HasWord, node_count, node_number, HasNode};

use crate::ids::{BoxId, NodeNo, TrainId, WordNo};
use crate::limits::{MAX_BOXES, MAX_TRAINS};

/// How many boxes and trains a network has, from which the numbers of nodes and words follow. At most
/// 128 boxes and 32 trains.
#[derive(Clone, Copy, Debug, PartialEq, Eq)]
pub struct Layout {
    pub boxes: u32,
    pub trains: u32,
}

/// What a node is: a train, its track, a box, or its point machine. The trains come first, then the tracks,
/// the boxes and the machines, each in order.
#[derive(Clone, Copy, Debug, PartialEq, Eq, Hash)]
pub enum NodeKind {
    Train(TrainId),
    Track(TrainId),
    Box(BoxId),
    Machine(BoxId),
}

/// What a shared word is: the still word, which nobody changes, or a word of a box or a train. The still word
/// comes first, then the reservations and the locks of the boxes, and the mail, the run and the sense words of
/// the trains, each in order.
#[derive(Clone, Copy, Debug, PartialEq, Eq, Hash)]
pub enum WordKind {
    Still,
    Resv(BoxId),
    Lock(BoxId),
    Mail(TrainId),
    Run(TrainId),
    Sense(TrainId),
}

impl Layout {
    /// How many words are shared: the still word, two for each box and three for each train.
    pub fn words(&self) -> u32
        requires boxes { self.now.boxes ≤ MAX_BOXES }
        requires trains { self.now.trains ≤ MAX_TRAINS }
        ensures { result ≡ 1 + 2 * self.now.boxes + 3 * self.now.trains }
    {
        1 + 2 * self.boxes + 3 * self.trains
    }

    /// How many nodes there are: a box and a point machine for each box, a train and a track for each train.
    pub fn nodes(&self) -> u32
        requires boxes { self.now.boxes ≤ MAX_BOXES }
        requires trains { self.now.trains ≤ MAX_TRAINS }
        ensures { result ≡ 2 * self.now.boxes + 2 * self.now.trains }
    {
        2 * self.boxes + 2 * self.trains
    }

    /// The number of a word.
    pub fn word(&self, kind: WordKind) -> WordNo
        requires boxes { self.now.boxes ≤ MAX_BOXES }
        requires trains { self.now.trains ≤ MAX_TRAINS }
        requires there { HasWord self.now kind }
        ensures number { result.0 ≡ word_number self.now kind }
        ensures within { result.0 < word_count self.now }
    {
        WordNo(match kind {
            WordKind::Still => 0,
            WordKind::Resv(b) => 1 + b.0,
            WordKind::Lock(b) => 1 + self.boxes + b.0,
            WordKind::Mail(t) => 1 + 2 * self.boxes + t.0,
            WordKind::Run(t) => 1 + 2 * self.boxes + self.trains + t.0,
            WordKind::Sense(t) => 1 + 2 * self.boxes + 2 * self.trains + t.0,
        })
    }

    /// The word of the number.
    pub fn word_kind(&self, w: WordNo) -> WordKind
        requires boxes { self.now.boxes ≤ MAX_BOXES }
        requires trains { self.now.trains ≤ MAX_TRAINS }
        requires within { w.0 < word_count self.now }
        ensures there { HasWord self.now result }
        ensures number { word_number self.now result ≡ w.0 }
        ensures only { (kind : WordKind) → HasWord self.now kind → word_number self.now kind ≡ w.0 → kind ≡ result }
    {
        if w.0 == 0 {
            return WordKind::Still;
        }
        let place = w.0 - 1;
        if place < self.boxes {
            WordKind::Resv(BoxId(place))
        } else if place < 2 * self.boxes {
            WordKind::Lock(BoxId(place - self.boxes))
        } else {
            self.train_word(place - 2 * self.boxes)
        }
    }

    /// The word at a place among those of the trains.
    fn train_word(&self, place: u32) -> WordKind
        requires trains { self.now.trains ≤ MAX_TRAINS }
        requires within { place < 3 * self.now.trains }
        ensures there { HasWord self.now result }
        ensures number { word_number self.now result ≡ 1 + 2 * self.now.boxes + place }
    {
        if place < self.trains {
            WordKind::Mail(TrainId(place))
        } else if place < 2 * self.trains {
            WordKind::Run(TrainId(place - self.trains))
        } else {
            WordKind::Sense(TrainId(place - 2 * self.trains))
        }
    }

    /// The number of a node.
    pub fn node(&self, kind: NodeKind) -> NodeNo
        requires boxes { self.now.boxes ≤ MAX_BOXES }
        requires trains { self.now.trains ≤ MAX_TRAINS }
        requires there { HasNode self.now kind }
        ensures number { result.0 ≡ node_number self.now kind }
        ensures within { result.0 < node_count self.now }
    {
        NodeNo(match kind {
            NodeKind::Train(t) => t.0,
            NodeKind::Track(t) => self.trains + t.0,
            NodeKind::Box(b) => 2 * self.trains + b.0,
            NodeKind::Machine(b) => 2 * self.trains + self.boxes + b.0,
        })
    }

    /// The node of the number.
    pub fn node_kind(&self, n: NodeNo) -> NodeKind
        requires boxes { self.now.boxes ≤ MAX_BOXES }
        requires trains { self.now.trains ≤ MAX_TRAINS }
        requires within { n.0 < node_count self.now }
        ensures there { HasNode self.now result }
        ensures number { node_number self.now result ≡ n.0 }
        ensures only { (kind : NodeKind) → HasNode self.now kind → node_number self.now kind ≡ n.0 → kind ≡ result }
    {
        if n.0 < self.trains {
            NodeKind::Train(TrainId(n.0))
        } else if n.0 < 2 * self.trains {
            NodeKind::Track(TrainId(n.0 - self.trains))
        } else {
            self.box_node(n.0 - 2 * self.trains)
        }
    }

    /// The node at a place among those of the boxes.
    fn box_node(&self, place: u32) -> NodeKind
        requires boxes { self.now.boxes ≤ MAX_BOXES }
        requires within { place < 2 * self.now.boxes }
        ensures there { HasNode self.now result }
        ensures number { node_number self.now result ≡ 2 * self.now.trains + place }
    {
        if place < self.boxes {
            NodeKind::Box(BoxId(place))
        } else {
            NodeKind::Machine(BoxId(place - self.boxes))
        }
    }
}

/// The numbers of words and nodes are one to one: no two words of a layout have one number, and no two nodes.
pub fn numberings()
    ensures words { (lay : Layout) (j k : WordKind) → HasWord lay j → HasWord lay k
        → word_number lay j ≡ word_number lay k → j ≡ k }
    ensures words_within { (lay : Layout) (kind : WordKind) → HasWord lay kind → word_number lay kind < word_count lay }
    ensures nodes { (lay : Layout) (j k : NodeKind) → HasNode lay j → HasNode lay k
        → node_number lay j ≡ node_number lay k → j ≡ k }
    ensures nodes_within { (lay : Layout) (kind : NodeKind) → HasNode lay kind → node_number lay kind < node_count lay }
{}
