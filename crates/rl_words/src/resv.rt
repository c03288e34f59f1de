ghost use Rattle.std.specs.Prelude.{◌≡◌, ◌≢◌, ◌+◌, ◌*◌, ◌<◌, ◌≤◌, Option, IfSome, IfNone};
ghost use Rattle.rl_base.specs.declared.ids.TrainId.{TrainId};
ghost use Rattle.rl_words.specs.declared.resv.ResvWord.{ResvWord};
ghost use Rattle.rl_words.specs.Fields.{field};
ghost use Rattle.rl_words.specs.Resv.{FitsArm, arm_code, FitsResv, packed_resv, arm_in, with_arm};
ghost use Rattle.rl_words.specs.Readings.{read_resv};

use crate::field::{field, with_bits};
use rl_base::limits::MAX_TRAINS;
use rl_base::{Arm, TrainId};

/// The word of a box that says, for each of its arms, which train holds the segment there, if one does.
/// Arms that the box doesn't have are free.
#[derive(Clone, Copy, Debug, PartialEq, Eq)]
pub struct ResvWord {
    pub arm0: Option<TrainId>,
    pub arm1: Option<TrainId>,
    pub arm2: Option<TrainId>,
    pub arm3: Option<TrainId>,
}

/// 0 for a free arm, else one more than the number of the train.
fn arm_code(arm: Option<TrainId>) -> u32
    requires { FitsArm arm }
    ensures code { result ≡ arm_code arm }
    ensures small { result ≤ MAX_TRAINS }
{
    match arm {
        Some(t) => t.0 + 1,
        None => 0,
    }
}

/// The arm in the six bits from bit `at` on, and `None` where they are no code of an arm.
fn arm_at(payload: u32, at: u32) -> Option<Option<TrainId>>
    requires { at < 32 }
    ensures some { IfSome result (λ arm. FitsArm arm × (arm_code arm ≡ field payload at 6)) }
    ensures none { IfNone result (MAX_TRAINS < field payload at 6) }
{
    match field(payload, at, 6) {
        0 => Some(None),
        code if code <= MAX_TRAINS as u32 => Some(Some(TrainId(code - 1))),
        _ => None,
    }
}

/// The word of a payload, and `None` where the payload is no packing.
fn resv_of(payload: u32) -> Option<ResvWord>
    ensures some { IfSome result (λ v. FitsResv v × (packed_resv v ≡ payload)) }
    ensures none { IfNone result ((v : ResvWord) → FitsResv v → packed_resv v ≢ payload) }
    ensures back { (v : ResvWord) → FitsResv v → packed_resv v ≡ payload → result ≡ Some v }
{
    if field(payload, 24, 8) != 0 {
        return None;
    }
    Some(ResvWord {
        arm0: arm_at(payload, 0)?,
        arm1: arm_at(payload, 6)?,
        arm2: arm_at(payload, 12)?,
        arm3: arm_at(payload, 18)?,
    })
}

impl ResvWord {
    /// The train that holds the segment at an arm, if one does.
    pub fn arm(&self, x: Arm) -> Option<TrainId>
        requires { x.0 < 4 }
        ensures { result ≡ arm_in self.now x.0 }
    {
        match x.0 {
            0 => self.arm0,
            1 => self.arm1,
            2 => self.arm2,
            _ => self.arm3,
        }
    }

    /// The word with one arm held by the train, or free.
    pub fn with_arm(self, x: Arm, holder: Option<TrainId>) -> ResvWord
        requires { x.0 < 4 }
        ensures { result ≡ with_arm self x.0 holder }
    {
        match x.0 {
            0 => ResvWord {
                arm0: holder,
                ..self
            },
            1 => ResvWord {
                arm1: holder,
                ..self
            },
            2 => ResvWord {
                arm2: holder,
                ..self
            },
            _ => ResvWord {
                arm3: holder,
                ..self
            },
        }
    }

    /// Arm 0 is in bits 0 to 5, arm 1 in bits 6 to 11, arm 2 in bits 12 to 17, arm 3 in bits 18 to 23: 0 where
    /// it is free, else one more than the number of the train.
    pub fn pack(&self) -> u32
        requires { FitsResv self.now }
        ensures { result ≡ packed_resv self.now }
    {
        let word = arm_code(self.arm0);
        let word = with_bits(word, 6, arm_code(self.arm1));
        let word = with_bits(word, 12, arm_code(self.arm2));
        with_bits(word, 18, arm_code(self.arm3))
    }

    /// The word of a payload, and `None` where the payload is no packing.
    pub fn unpack(payload: u32) -> Option<ResvWord>
        ensures some { IfSome result (λ v. FitsResv v × (packed_resv v ≡ payload)) }
        ensures none { IfNone result ((v : ResvWord) → FitsResv v → packed_resv v ≢ payload) }
        ensures back { (v : ResvWord) → FitsResv v → packed_resv v ≡ payload → result ≡ Some v }
        ensures read { result ≡ read_resv payload }
    {
        resv_of(payload)
    }
}
