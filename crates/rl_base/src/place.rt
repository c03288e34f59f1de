/// Where a refusal stands. An index counts segments, their ends, boxes, arms, trains or route places from 0, a
/// word's number counts the words of the command line from 0, and a line number counts lines from 1, and is 0
/// where the whole text is meant. `Segments` is the list of names of format 1, `Segs` the tables of format 2.
#[derive(Clone, Copy, Debug, PartialEq, Eq)]
pub enum Place {
    None,
    Top,
    Format,
    Segments,
    Segment(u32),
    Segs,
    SegItem(u32),
    SegName(u32),
    SegEnds(u32),
    SegEnd(u32, u32),
    Boxes,
    BoxItem(u32),
    BoxName(u32),
    BoxKind(u32),
    BoxArms(u32),
    BoxArm(u32, u32),
    BoxSide(u32),
    Trains,
    TrainItem(u32),
    TrainName(u32),
    TrainRoute(u32),
    RouteItem(u32, u32),
    ScheduleLine(u32),
    ReportLine(u32),
    FateLine(u32),
    Word(u32),
}
