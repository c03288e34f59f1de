/// What a word of a command line must be.
#[derive(Clone, Copy, Debug, PartialEq, Eq)]
pub enum Item {
    /// The name of a file: not empty, and not beginning with `-`.
    File,
    /// A decimal number in this range, without sign and without leading zeros.
    Number { least: u32, most: u32 },
}
