ghost use Rattle.std.specs.Prelude.{◌≡◌, ◌≢◌, ℕ, List, [], ◌∷◌, IfSome, IfNone};
ghost use Rattle.rl_base.specs.declared.ids.SegId.{SegId};
ghost use Rattle.rl_base.specs.declared.ids.BoxId.{BoxId};
ghost use Rattle.rl_base.specs.declared.ids.TrainId.{TrainId};
ghost use Rattle.rl_base.specs.declared.kind.Side.{Side};
ghost use Rattle.rl_model.specs.Network.{IsTrainOf, IsSegmentOf, IsBoxOf};
ghost use Rattle.rl_model.specs.Network.{segment_name, box_name, train_name};
ghost use Rattle.rl_base.specs.Kind.{side_word};

use crate::words::Words;
use rl_base::{BoxId, SegId, Side, TrainId, side_word};
use rl_net::Network;

/// The side of that name.
fn side_of(word: &[u8]) -> Option<Side>
    ensures some { IfSome result (λ side. word.now ≡ side_word side) }
    ensures none { IfNone result ((side : Side) → word.now ≢ side_word side) }
{
    if word == side_word(Side::Left) {
        Some(Side::Left)
    } else if word == side_word(Side::Right) {
        Some(Side::Right)
    } else {
        None
    }
}

/// Reads the last words of a line: two segments.
#[inline(always)]
fn segments(words: &mut Words<'_>, net: &Network) -> Option<(SegId, SegId)>
    ensures some { IfSome result (λ x. IsSegmentOf net.now x.0 × IsSegmentOf net.now x.1
        × (words.old ≡ segment_name net.now x.0.0 ∷ segment_name net.now x.1.0 ∷ [])) }
    ensures none { IfNone result ((s : SegId) (s2 : SegId)
        → IsSegmentOf net.now s → IsSegmentOf net.now s2
        → words.old ≢ segment_name net.now s.0 ∷ segment_name net.now s2.0 ∷ []) }
{
    let s = words.segment(net)?;
    let s2 = words.segment(net)?;
    if words.is_at_end() {
        Some((s, s2))
    } else {
        None
    }
}

/// Reads the last words of a line: a box and a train.
#[inline(always)]
fn box_train(words: &mut Words<'_>, net: &Network) -> Option<(BoxId, TrainId)>
    ensures some { IfSome result (λ x. IsBoxOf net.now x.0 × IsTrainOf net.now x.1
        × (words.old ≡ box_name net.now x.0.0 ∷ train_name net.now x.1.0 ∷ [])) }
    ensures none { IfNone result ((b : BoxId) (u : TrainId)
        → IsBoxOf net.now b → IsTrainOf net.now u
        → words.old ≢ box_name net.now b.0 ∷ train_name net.now u.0 ∷ []) }
{
    let b = words.switch_box(net)?;
    let u = words.train(net)?;
    if words.is_at_end() {
        Some((b, u))
    } else {
        None
    }
}

/// Reads the last words of a line: a train, a segment and a box.
#[inline(always)]
pub(crate) fn train_segment_box(
    words: &mut Words<'_>,
    net: &Network,
) -> Option<(TrainId, SegId, BoxId)>
    ensures some { IfSome result (λ x. IsTrainOf net.now x.0 × IsSegmentOf net.now x.1 × IsBoxOf net.now x.2
        × (words.old ≡ train_name net.now x.0.0 ∷ segment_name net.now x.1.0 ∷ box_name net.now x.2.0 ∷ [])) }
    ensures none { IfNone result ((t : TrainId) (s : SegId) (b : BoxId)
        → IsTrainOf net.now t → IsSegmentOf net.now s → IsBoxOf net.now b
        → words.old ≢ train_name net.now t.0 ∷ segment_name net.now s.0 ∷ box_name net.now b.0 ∷ []) }
{
    let t = words.train(net)?;
    let s = words.segment(net)?;
    let b = words.switch_box(net)?;
    if words.is_at_end() {
        Some((t, s, b))
    } else {
        None
    }
}

/// Reads the last words of a line: a train, a box, a segment and a segment.
#[inline(always)]
pub(crate) fn train_box_segments(
    words: &mut Words<'_>,
    net: &Network,
) -> Option<(TrainId, BoxId, SegId, SegId)>
    ensures some { IfSome result (λ x. IsTrainOf net.now x.0 × IsBoxOf net.now x.1 × IsSegmentOf net.now x.2
        × IsSegmentOf net.now x.3
        × (words.old ≡ train_name net.now x.0.0 ∷ box_name net.now x.1.0 ∷ segment_name net.now x.2.0
        ∷ segment_name net.now x.3.0 ∷ [])) }
    ensures none { IfNone result ((t : TrainId) (b : BoxId) (s : SegId) (s2 : SegId)
        → IsTrainOf net.now t → IsBoxOf net.now b → IsSegmentOf net.now s → IsSegmentOf net.now s2
        → words.old ≢ train_name net.now t.0 ∷ box_name net.now b.0 ∷ segment_name net.now s.0
        ∷ segment_name net.now s2.0 ∷ []) }
{
    let t = words.train(net)?;
    let b = words.switch_box(net)?;
    let (s, s2) = segments(words, net)?;
    Some((t, b, s, s2))
}

/// Reads the last words of a line: a train and a box.
#[inline(always)]
pub(crate) fn train_box(words: &mut Words<'_>, net: &Network) -> Option<(TrainId, BoxId)>
    ensures some { IfSome result (λ x. IsTrainOf net.now x.0 × IsBoxOf net.now x.1
        × (words.old ≡ train_name net.now x.0.0 ∷ box_name net.now x.1.0 ∷ [])) }
    ensures none { IfNone result ((t : TrainId) (b : BoxId)
        → IsTrainOf net.now t → IsBoxOf net.now b
        → words.old ≢ train_name net.now t.0 ∷ box_name net.now b.0 ∷ []) }
{
    let t = words.train(net)?;
    let b = words.switch_box(net)?;
    if words.is_at_end() {
        Some((t, b))
    } else {
        None
    }
}

/// Reads the last words of a line: a train and a segment.
#[inline(always)]
pub(crate) fn train_segment(words: &mut Words<'_>, net: &Network) -> Option<(TrainId, SegId)>
    ensures some { IfSome result (λ x. IsTrainOf net.now x.0 × IsSegmentOf net.now x.1
        × (words.old ≡ train_name net.now x.0.0 ∷ segment_name net.now x.1.0 ∷ [])) }
    ensures none { IfNone result ((t : TrainId) (s : SegId)
        → IsTrainOf net.now t → IsSegmentOf net.now s
        → words.old ≢ train_name net.now t.0 ∷ segment_name net.now s.0 ∷ []) }
{
    let t = words.train(net)?;
    let s = words.segment(net)?;
    if words.is_at_end() {
        Some((t, s))
    } else {
        None
    }
}

/// Reads the last words of a line: a train, a segment, a box and a train.
#[inline(always)]
pub(crate) fn train_segment_box_train(
    words: &mut Words<'_>,
    net: &Network,
) -> Option<(TrainId, SegId, BoxId, TrainId)>
    ensures some { IfSome result (λ x. IsTrainOf net.now x.0 × IsSegmentOf net.now x.1 × IsBoxOf net.now x.2
        × IsTrainOf net.now x.3
        × (words.old ≡ train_name net.now x.0.0 ∷ segment_name net.now x.1.0 ∷ box_name net.now x.2.0
        ∷ train_name net.now x.3.0 ∷ [])) }
    ensures none { IfNone result ((t : TrainId) (s : SegId) (b : BoxId) (u : TrainId)
        → IsTrainOf net.now t → IsSegmentOf net.now s → IsBoxOf net.now b → IsTrainOf net.now u
        → words.old ≢ train_name net.now t.0 ∷ segment_name net.now s.0 ∷ box_name net.now b.0
        ∷ train_name net.now u.0 ∷ []) }
{
    let t = words.train(net)?;
    let s = words.segment(net)?;
    let (b, u) = box_train(words, net)?;
    Some((t, s, b, u))
}

/// Reads the last words of a line: a train, a box and a train.
#[inline(always)]
pub(crate) fn train_box_train(
    words: &mut Words<'_>,
    net: &Network,
) -> Option<(TrainId, BoxId, TrainId)>
    ensures some { IfSome result (λ x. IsTrainOf net.now x.0 × IsBoxOf net.now x.1 × IsTrainOf net.now x.2
        × (words.old ≡ train_name net.now x.0.0 ∷ box_name net.now x.1.0 ∷ train_name net.now x.2.0 ∷ [])) }
    ensures none { IfNone result ((t : TrainId) (b : BoxId) (u : TrainId)
        → IsTrainOf net.now t → IsBoxOf net.now b → IsTrainOf net.now u
        → words.old ≢ train_name net.now t.0 ∷ box_name net.now b.0 ∷ train_name net.now u.0 ∷ []) }
{
    let t = words.train(net)?;
    let (b, u) = box_train(words, net)?;
    Some((t, b, u))
}

/// Reads the last word of a line: a box.
pub(crate) fn only_box(words: &mut Words<'_>, net: &Network) -> Option<BoxId>
    ensures some { IfSome result (λ b. IsBoxOf net.now b × (words.old ≡ box_name net.now b.0 ∷ [])) }
    ensures none { IfNone result ((b : BoxId) → IsBoxOf net.now b → words.old ≢ box_name net.now b.0 ∷ []) }
{
    let b = words.switch_box(net)?;
    if words.is_at_end() { Some(b) } else { None }
}

/// Reads the last words of a line: a box and a side.
pub(crate) fn box_side(words: &mut Words<'_>, net: &Network) -> Option<(BoxId, Side)>
    ensures some { IfSome result (λ x. IsBoxOf net.now x.0
        × (words.old ≡ box_name net.now x.0.0 ∷ side_word x.1 ∷ [])) }
    ensures none { IfNone result ((b : BoxId) (side : Side)
        → IsBoxOf net.now b
        → words.old ≢ box_name net.now b.0 ∷ side_word side ∷ []) }
{
    let b = words.switch_box(net)?;
    let side = side_of(words.next()?)?;
    if words.is_at_end() {
        Some((b, side))
    } else {
        None
    }
}
