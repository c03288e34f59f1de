ghost use Rattle.std.specs.Prelude.{◌≡◌, ◌+◌, ◌<◌, ◌^◌, ℕ};
ghost use Rattle.rl_board.specs.BoardText.{IsPeak};

/// The greatest number so far, and the first place that has it.
#[derive(Clone, Copy, Debug, PartialEq, Eq)]
pub struct Peak {
    pub occupied: u32,
    pub place: u32,
}

impl Peak {
    /// With one number more, at that place behind all others.
    pub(crate) fn with(self, occupied: u32, place: u32) -> Peak
        ensures { (f : ℕ → ℕ) (n : ℕ) → place ≡ n + 1 → f place ≡ occupied → IsPeak f n self.occupied self.place
            → IsPeak f place result.occupied result.place }
    {
        if self.occupied < occupied {
            Peak { occupied, place }
        } else {
            self
        }
    }
}
