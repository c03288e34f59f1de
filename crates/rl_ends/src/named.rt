ghost use Rattle.std.specs.Prelude.{◌≡◌, ℕ, List};

use crate::ends_draft::EndsBox;
use rl_base::Name;

/// An item that has a name.
pub(crate) trait Named {
    ghost name_of: { Self → List ℕ };

    fn name(&self) -> &[u8]
        ensures { result.now ≡ name_of self.now };
}

impl Named for Name {
    ghost name_of = { λ n. n };

    fn name(&self) -> &[u8] {
        self.bytes()
    }
}

impl Named for EndsBox {
    ghost name_of = { λ x. x.name };

    fn name(&self) -> &[u8] {
        self.name.bytes()
    }
}
