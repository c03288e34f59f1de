use crate::end_text::EndText;
use rl_base::{DraftTrains, Kind, Name, Sequence, Side};

/// A segment as a text of format 2 has it: its name, and the texts of its two ends in the order of the text.
#[derive(Debug, Drop)]
pub struct EndsSegment {
    pub name: Name,
    pub first: EndText,
    pub second: EndText,
}

/// A box as a text of format 2 has it. `at` is there where the text says at which side the box stands.
#[derive(Debug, Drop)]
pub struct EndsBox {
    pub name: Name,
    pub kind: Kind,
    pub at: Option<Side>,
}

pub type EndsSegments = Sequence<EndsSegment>;

pub type EndsBoxes = Sequence<EndsBox>;

/// A network as a text of format 2 says it: segments name boxes and not boxes segments. Not yet checked.
#[derive(Debug, Drop)]
pub struct EndsDraft {
    pub segments: EndsSegments,
    pub boxes: EndsBoxes,
    pub trains: DraftTrains,
}
