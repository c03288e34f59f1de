ghost use Rattle.std.specs.Prelude.{◌≡◌, ◌<◌, ℕ, List, length, map, IfSome};
ghost use Rattle.rl_drafts.specs.Drafts.{number_in};
ghost use Rattle.rl_drafts.specs.Refusals.{is_twice};

use rl_base::{DraftBox, DraftTrain, Name, Names};

/// An item of a draft that has a name.
pub(crate) trait Named {
    ghost name_of: { Self → List ℕ };

    fn name(&self) -> &[u8]
        ensures { result.now ≡ name_of self.now };
}

impl Named for Name {
    ghost name_of = { λ n. n };

    fn name(&self) -> &[u8] {
        self.bytes()
    }
}

impl Named for DraftBox {
    ghost name_of = { λ x. x.name };

    fn name(&self) -> &[u8] {
        self.name.bytes()
    }
}

impl Named for DraftTrain {
    ghost name_of = { λ t. t.name };

    fn name(&self) -> &[u8] {
        self.name.bytes()
    }
}

/// The number of the first item of that name.
pub(crate) fn number_of<T: Named>(items: &[T], name: &[u8]) -> Option<usize>
    ensures number { result ≡ number_in (map T.name_of items.now) name.now }
    ensures within { IfSome result (λ i. i < length items.now) }
{
    for (i, item) in items.iter().enumerate() {
        if item.name() == name {
            return Some(i);
        }
    }
    None
}

/// Whether an earlier item has the name of item `i`.
pub(crate) fn is_named_twice<T: Named>(items: &[T], i: usize) -> bool
    requires { i < length items.now }
    ensures { result ≡ is_twice (map T.name_of items.now) i }
{
    number_of(&items[..i], items[i].name()).is_some()
}

/// The number of the first of the names that is this one.
pub(crate) fn number_among(names: &Names, name: &[u8]) -> Option<usize>
    ensures number { result ≡ number_in names.now name.now }
    ensures within { IfSome result (λ i. i < length names.now) }
{
    number_of(names.as_slice(), name)
}
