ghost use Rattle.std.specs.Prelude.{◌≡◌, ℕ, ◌≤◌, ◌<◌, ◌↔◌, IsTrue, IfSome, IfNone};
ghost use Rattle.rl_base.specs.declared.layout.NodeKind.{NodeKind};
ghost use Rattle.rl_base.specs.declared.layout.WordKind.TheVariants.{Resv, Lock, Mail, Run, Sense};
ghost use Rattle.rl_base.specs.Layout.{word_count, HasNode};
ghost use Rattle.rl_words.specs.Owner.{MayChange, Owns};

use crate::lock::LockWord;
use crate::mail::MailWord;
use crate::resv::ResvWord;
use crate::run::RunWord;
use crate::sense::SenseWord;
use rl_base::limits::{MAX_BOXES, MAX_TRAINS};
use rl_base::{BoxId, Layout, NodeKind, NodeNo, TrainId, WordKind, WordNo};

fn resv_owner(b: BoxId, payload: u32) -> Option<NodeKind>
    ensures some { IfSome result (MayChange (Resv b) payload) }
    ensures none { IfNone result ((node : NodeKind) → ¬ MayChange (Resv b) payload node) }
{
    let _word = ResvWord::unpack(payload)?;
    Some(NodeKind::Box(b))
}

fn lock_owner(b: BoxId, payload: u32) -> Option<NodeKind>
    ensures some { IfSome result (MayChange (Lock b) payload) }
    ensures none { IfNone result ((node : NodeKind) → ¬ MayChange (Lock b) payload node) }
{
    match LockWord::unpack(payload)? {
        LockWord::Free(_) | LockWord::Moved(_) | LockWord::Locked(_) => Some(NodeKind::Box(b)),
        LockWord::Asked(_) | LockWord::Moving(_) => Some(NodeKind::Machine(b)),
    }
}

fn mail_owner(t: TrainId, payload: u32) -> Option<NodeKind>
    ensures some { IfSome result (MayChange (Mail t) payload) }
    ensures none { IfNone result ((node : NodeKind) → ¬ MayChange (Mail t) payload node) }
{
    match MailWord::unpack(payload)? {
        MailWord::Empty | MailWord::Yes(_) | MailWord::No(_, _) => Some(NodeKind::Train(t)),
        MailWord::Ask(letter) | MailWord::Taken(letter) => Some(NodeKind::Box(letter.to)),
    }
}

fn run_owner(t: TrainId, payload: u32) -> Option<NodeKind>
    ensures some { IfSome result (MayChange (Run t) payload) }
    ensures none { IfNone result ((node : NodeKind) → ¬ MayChange (Run t) payload node) }
{
    match RunWord::unpack(payload)? {
        RunWord::Clear(_) => Some(NodeKind::Train(t)),
        RunWord::Go(_) | RunWord::Across(_) => Some(NodeKind::Track(t)),
    }
}

fn sense_owner(t: TrainId, payload: u32) -> Option<NodeKind>
    ensures some { IfSome result (MayChange (Sense t) payload) }
    ensures none { IfNone result ((node : NodeKind) → ¬ MayChange (Sense t) payload node) }
{
    match SenseWord::unpack(payload)? {
        SenseWord::Quiet(_) | SenseWord::Head(_) => Some(NodeKind::Track(t)),
        SenseWord::Tail(_) => Some(NodeKind::Train(t)),
    }
}

/// The node that may change the word at the payload, which may be a box that the network hasn't got.
fn node_at(word: WordKind, payload: u32) -> Option<NodeKind>
    ensures some { IfSome result (MayChange word payload) }
    ensures none { IfNone result ((node : NodeKind) → ¬ MayChange word payload node) }
{
    match word {
        WordKind::Still => None,
        WordKind::Resv(b) => resv_owner(b, payload),
        WordKind::Lock(b) => lock_owner(b, payload),
        WordKind::Mail(t) => mail_owner(t, payload),
        WordKind::Run(t) => run_owner(t, payload),
        WordKind::Sense(t) => sense_owner(t, payload),
    }
}

fn has_node(lay: &Layout, node: NodeKind) -> bool
    ensures { IsTrue result ↔ HasNode lay.now node }
{
    match node {
        NodeKind::Train(t) | NodeKind::Track(t) => t.0 < lay.trains,
        NodeKind::Box(b) | NodeKind::Machine(b) => b.0 < lay.boxes,
    }
}

/// The one node that may change the word at the payload. `None` for the still word, for a payload that is no
/// packing, and for a letter to a box that the network hasn't got.
pub fn owner(lay: &Layout, w: WordNo, payload: u32) -> Option<NodeNo>
    requires boxes { lay.now.boxes ≤ MAX_BOXES }
    requires trains { lay.now.trains ≤ MAX_TRAINS }
    requires within { w.0 < word_count lay.now }
    ensures some { IfSome result (λ n. Owns lay.now w.0 payload n.0) }
    ensures none { IfNone result ((n : ℕ) → ¬ Owns lay.now w.0 payload n) }
    ensures back { (n : ℕ) → Owns lay.now w.0 payload n → result ≡ Some (record { 0 = n }) }
{
    let node = node_at(lay.word_kind(w), payload)?;
    if has_node(lay, node) {
        Some(lay.node(node))
    } else {
        None
    }
}
