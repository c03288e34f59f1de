//! Every limit of a network, a run and a report, each said once. Contracts name these constants too.

/// The most bytes of a network text.
pub const MAX_NETWORK_BYTES: usize = 65_536;

/// The most segments of a network.
pub const MAX_SEGMENTS: usize = 256;

/// The most boxes of a network.
pub const MAX_BOXES: usize = 128;

/// The most trains of a network.
pub const MAX_TRAINS: usize = 32;

/// The most steps of a route.
pub const MAX_STEPS: usize = 64;

/// The most names of a route: a segment, and for each step a box and a segment.
pub const MAX_ROUTE: usize = 129;

/// The most bytes of a name.
pub const MAX_NAME: usize = 16;

/// The fewest attempts that a train may be given.
pub const MIN_TRIES: u32 = 1;

/// The most attempts that a train may be given.
pub const MAX_TRIES: u32 = 1000;

/// The attempts of each train where none are asked for.
pub const DEFAULT_TRIES: u32 = 100;

/// The most rounds of a drive.
pub const MAX_ROUNDS: u32 = 1_000_000;

/// The most turns of a schedule.
pub const MAX_TURNS: u64 = 1_000_000;

/// The most bytes of the text of a schedule.
pub const MAX_SCHEDULE_BYTES: usize = 33_554_432;

/// The most moves of a report, and the most that the outcome of a train may count.
pub const MAX_MOVES: usize = 1_000_000;

/// The most bytes of the text of a report.
pub const MAX_REPORT_BYTES: usize = 134_217_728;

/// The most lines of a text of fates.
pub const MAX_FATES: usize = 100_000;

/// The most bytes of a text of fates.
pub const MAX_FATES_BYTES: usize = 4_194_304;

/// The most packets that a radio carries: fewer than this many are ever sent.
pub const MAX_PACKETS: usize = 3_000_000;

/// The most events of all nodes for one attempt of a train.
pub const MAX_ATTEMPT_EVENTS: usize = 59;

/// The most events of one node for one attempt of a train.
pub const MAX_ATTEMPT_NODE_EVENTS: usize = 31;

/// The most moves for one attempt of a train.
pub const MAX_ATTEMPT_MOVES: usize = 14;

/// The most events of the record of one node.
pub const MAX_EVENTS: usize = 1_048_576;

/// The fewest turns of a node between two looks at whether all trains rest.
pub const MIN_ROUND: u32 = 1;

/// The most turns of a node between two such looks.
pub const MAX_ROUND: u32 = 4096;

/// The turns between two such looks where none are asked for.
pub const DEFAULT_ROUND: u32 = 1024;

/// The most workers of a run: the number of nodes of the largest network.
pub const MAX_WORKERS: u32 = 320;

/// The most workers of a run that asks for no number of them.
pub const DEFAULT_WORKERS: u32 = 64;

/// The largest network that is made by order, counted in its trains.
pub const MAX_MAKE: u32 = 32;
