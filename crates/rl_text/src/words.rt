ghost use Rattle.std.specs.Prelude.{◌≡◌, slice_get};
ghost use Rattle.std.specs.Option.{option_copied};
ghost use Rattle.rl_text.specs.Words.{words_of};

/// The part at `i` of the line cut at single spaces, counted from 0. A line with `n` spaces has `n + 1`
/// parts, some of them perhaps empty; `None` where there are no more than `i`.
pub fn word_at(line: &[u8], i: usize) -> Option<&[u8]>
    ensures { option_copied result ≡ slice_get (words_of line.now) i }
{
    line.split(|b| *b == b' ').nth(i)
}
