ghost use Rattle.std.specs.Prelude.{◌≡◌, ◌&&◌, ◌≤◌, ◌<◌, length, take, drop, true, false};
ghost use Rattle.std.specs.List.{list_all};
ghost use Rattle.rl_cli.specs.Words.{is_plain, number_in, fits};
ghost use Rattle.rl_cli.specs.Table.{name_of};
ghost use Rattle.rl_cli.specs.Written.{fit, is_option_of, has_option};
ghost use Rattle.rl_cli.specs.Orders.{pairs, are_options, is_after_name};

use crate::flag::Flag;
use crate::item::Item;
use rl_base::Text;
use rl_text::read_number;

fn is_plain(word: &str) -> bool
    ensures { result ≡ is_plain word.now }
{
    let bytes = word.as_bytes();
    !bytes.is_empty() && bytes[0] != b'-'
}

/// The number of this range that the word writes.
fn number_in(least: u32, most: u32, word: &str) -> Option<u32>
    ensures { result ≡ number_in least most word.now }
{
    match read_number(word.as_bytes()) {
        Some(n) if u64::from(least) <= n && n <= u64::from(most) => Some(n as u32),
        _ => None,
    }
}

fn fits(item: Item, word: &str) -> bool
    ensures { result ≡ fits item word.now }
{
    match item {
        Item::File => is_plain(word),
        Item::Number { least, most } => number_in(least, most, word).is_some(),
    }
}

/// Whether there is one word for each item, which is what it must be.
fn fit(items: &[Item], words: &[Text]) -> bool
    ensures { result ≡ fit items.now words.now }
{
    match items {
        [] => words.is_empty(),
        [item, items @ ..] => match words {
            [] => false,
            [word, words @ ..] => fits(*item, word.as_str()) && fit(items, words),
        },
    }
}

fn is_option_of(flags: &[Flag], name: &str, value: &str) -> bool
    ensures { result ≡ is_option_of flags.now (name.now, value.now) }
{
    flags
        .iter()
        .any(|flag| name == flag.name() && fits(flag.value(), value))
}

/// Whether an option of this name is among the words, of which each second one is a value.
fn has_option(words: &[Text], name: &str) -> bool
    ensures { result ≡ has_option (pairs words.now) name.now }
{
    match words {
        [first, _, rest @ ..] => first.as_str() == name || has_option(rest, name),
        _ => false,
    }
}

/// Whether the words are options of these with their values, each at most once.
fn are_options(flags: &[Flag], words: &[Text]) -> bool
    ensures { result ≡ are_options flags.now words.now }
{
    match words {
        [] => true,
        [name, value, rest @ ..] => {
            is_option_of(flags, name.as_str(), value.as_str())
                && !has_option(rest, name.as_str())
                && are_options(flags, rest)
        }
        _ => false,
    }
}

/// Whether an option of each of these names is among the words.
fn are_there(flags: &[Flag], words: &[Text]) -> bool
    ensures { result ≡ list_all (λ flag. has_option (pairs words.now) (name_of flag)) flags.now }
{
    flags.iter().all(|flag| has_option(words, flag.name()))
}

/// Whether the words after a command's name are the positionals and then options, of which those that are
/// needed are there.
#[tactic(auto, unfolding(crate::specs::Orders::is_after_name))]
pub fn is_written(positionals: &[Item], options: &[Flag], needs: &[Flag], words: &[Text]) -> bool
    ensures { result ≡ is_after_name positionals.now options.now needs.now words.now }
{
    let n = positionals.len();
    n <= words.len()
        && fit(positionals, &words[..n])
        && are_options(options, &words[n..])
        && are_there(needs, &words[n..])
}
