/// What an audit finds.
#[derive(Clone, Copy, Debug, PartialEq, Eq)]
pub enum Verdict {
    /// Every guard holds. So many moves were made.
    Safe(u32),
    /// At the line of that number, counted from 1, the guard of that number is the first that fails.
    Bad { line: u32, guard: u32 },
}
