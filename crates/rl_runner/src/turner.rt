ghost use Rattle.std.specs.Prelude.{◌≡◌, ℕ, Bool, ◌-◌, ◌≤◌};
ghost use Rattle.rl_runner.specs.Turns.{raised};

use rl_base::NodeNo;
use rl_record::Turn;

/// What can be given turns: a node with all that it needs for them.
pub trait Turner: Send {
    /// Its number as a node.
    ghost number: { Self → ℕ };

    /// It can be given so many turns.
    ghost ready: { ℕ → Self → Type 0 };

    /// How many turns it has had, up to the last number of 64 bits.
    ghost turns: { Self → ℕ };

    /// The second is the first at a later time.
    ghost home: { Self → Self → Type 0 };

    /// It wants no turn any more.
    ghost at_rest: { Self → Bool };

    /// One turn.
    fn turn(&mut self) -> Turn
        requires { ready 1 self.old }
        ensures number { number self.new ≡ number self.old }
        ensures home { home self.old self.new }
        ensures turns { turns self.new ≡ raised (turns self.old) 1 }
        ensures ready { (n : ℕ) → 1 ≤ n → ready n self.old → ready (n - 1) self.new };

    fn number(&self) -> NodeNo
        ensures { result.0 ≡ number self.now };

    fn at_rest(&self) -> bool
        ensures { result ≡ at_rest self.now };

    ghost ready_once: { (n : ℕ) (x : Self) → 1 ≤ n → ready n x → ready 1 x };

    ghost home_first: { (x : Self) → home x x };

    ghost home_on: { (x y z : Self) → home x y → home y z → home x z };
}
