ghost use Rattle.std.specs.Prelude.{◌≡◌, ◌<◌, length, drop, true, Some, IsTrue};
ghost use Rattle.rl_cli.specs.Table.{check, tables, rounds, drive, run, audit, make, word};
ghost use Rattle.rl_cli.specs.Orders.{Answers, order_after, given_in, or_else, is_in, net_after};

use crate::fault::CliFault;
use crate::flag::Flag;
use crate::item::Item;
use crate::matches::{matches_of, needed_number_at, number_at, text_at, texts_of};
use crate::order::Order;
use crate::written::is_written;
use rl_base::Text;
use rl_base::limits::{DEFAULT_ROUND, DEFAULT_TRIES, MAX_MAKE, MAX_ROUNDS};
use std::alloc::Global;

fn read_net(alloc: Global, words: &[Text]) -> Result<Text, CliFault>
    requires { is_in check words.now ≡ true }
    ensures { Answers (Some (word (given_in check (drop 1 words.now)) 0)) result }
{
    let texts = texts_of(alloc, words)?;
    let matches = matches_of(alloc, ["NET"].as_slice(), [].as_slice(), texts.as_slice())?;
    text_at(alloc, &matches, "NET")
}

/// `NET`, of `check` and `tables`.
fn net_of(alloc: Global, words: &[Text]) -> Result<Text, CliFault>
    requires { 0 < length words.now }
    ensures { Answers (net_after (drop 1 words.now)) result }
{
    if is_written(
        [Item::File].as_slice(),
        [].as_slice(),
        [].as_slice(),
        &words[1..],
    ) {
        read_net(alloc, words)
    } else {
        Err(CliFault::Usage)
    }
}

/// `check NET`.
pub fn check_order(alloc: Global, words: &[Text]) -> Result<Order, CliFault>
    requires { 0 < length words.now }
    ensures { Answers (order_after check (drop 1 words.now)) result }
{
    let net = net_of(alloc, words)?;
    Ok(Order::Check { net })
}

/// `tables NET`.
pub fn tables_order(alloc: Global, words: &[Text]) -> Result<Order, CliFault>
    requires { 0 < length words.now }
    ensures { Answers (order_after tables (drop 1 words.now)) result }
{
    let net = net_of(alloc, words)?;
    Ok(Order::Tables { net })
}

fn read_rounds(alloc: Global, words: &[Text]) -> Result<Order, CliFault>
    requires { is_in rounds words.now ≡ true }
    ensures { Answers (Some (rounds.order (given_in rounds (drop 1 words.now)))) result }
{
    let texts = texts_of(alloc, words)?;
    let options = [Flag::Schedule, Flag::Tries];
    let matches = matches_of(
        alloc,
        ["NET", "N"].as_slice(),
        options.as_slice(),
        texts.as_slice(),
    )?;
    let net = text_at(alloc, &matches, "NET")?;
    let rounds = needed_number_at(&matches, "N")?;
    let tries = number_at(&matches, "--tries").unwrap_or(DEFAULT_TRIES);
    Ok(Order::Rounds { net, rounds, tries })
}

fn read_drive(alloc: Global, words: &[Text]) -> Result<Order, CliFault>
    requires { is_in drive words.now ≡ true }
    ensures { Answers (Some (drive.order (given_in drive (drop 1 words.now)))) result }
{
    let texts = texts_of(alloc, words)?;
    let options = [Flag::Schedule, Flag::Tries];
    let matches = matches_of(
        alloc,
        ["NET", "N"].as_slice(),
        options.as_slice(),
        texts.as_slice(),
    )?;
    let net = text_at(alloc, &matches, "NET")?;
    let schedule = text_at(alloc, &matches, "-s")?;
    let tries = number_at(&matches, "--tries").unwrap_or(DEFAULT_TRIES);
    Ok(Order::Drive {
        net,
        schedule,
        tries,
    })
}

fn is_for_rounds(words: &[Text]) -> bool
    requires { 0 < length words.now }
    ensures { result ≡ is_in rounds words.now }
{
    let rounds = Item::Number {
        least: 0,
        most: MAX_ROUNDS,
    };
    is_written(
        [Item::File, rounds].as_slice(),
        [Flag::Tries].as_slice(),
        [].as_slice(),
        &words[1..],
    )
}

fn is_for_a_schedule(words: &[Text]) -> bool
    requires { 0 < length words.now }
    ensures { result ≡ is_in drive words.now }
{
    let options = [Flag::Schedule, Flag::Tries];
    is_written(
        [Item::File].as_slice(),
        options.as_slice(),
        [Flag::Schedule].as_slice(),
        &words[1..],
    )
}

/// `drive NET N` and `drive NET -s SCHEDULE`, each with `--tries` or without.
pub fn drive_order(alloc: Global, words: &[Text]) -> Result<Order, CliFault>
    requires { 0 < length words.now }
    ensures { Answers (or_else (order_after rounds (drop 1 words.now)) (order_after drive (drop 1 words.now))) result }
{
    if is_for_rounds(words) {
        read_rounds(alloc, words)
    } else if is_for_a_schedule(words) {
        read_drive(alloc, words)
    } else {
        Err(CliFault::Usage)
    }
}

fn read_run(alloc: Global, words: &[Text]) -> Result<Order, CliFault>
    requires { is_in run words.now ≡ true }
    ensures { Answers (Some (run.order (given_in run (drop 1 words.now)))) result }
{
    let texts = texts_of(alloc, words)?;
    let options = [Flag::Tries, Flag::Workers, Flag::Round];
    let matches = matches_of(
        alloc,
        ["NET"].as_slice(),
        options.as_slice(),
        texts.as_slice(),
    )?;
    let net = text_at(alloc, &matches, "NET")?;
    let tries = number_at(&matches, "--tries").unwrap_or(DEFAULT_TRIES);
    let workers = number_at(&matches, "--workers");
    let round = number_at(&matches, "--round").unwrap_or(DEFAULT_ROUND);
    Ok(Order::Run {
        net,
        tries,
        workers,
        round,
    })
}

/// `run NET`, with `--tries`, `--workers` and `--round` or without.
pub fn run_order(alloc: Global, words: &[Text]) -> Result<Order, CliFault>
    requires { 0 < length words.now }
    ensures { Answers (order_after run (drop 1 words.now)) result }
{
    let options = [Flag::Tries, Flag::Workers, Flag::Round];
    if is_written(
        [Item::File].as_slice(),
        options.as_slice(),
        [].as_slice(),
        &words[1..],
    ) {
        read_run(alloc, words)
    } else {
        Err(CliFault::Usage)
    }
}

fn read_audit(alloc: Global, words: &[Text]) -> Result<Order, CliFault>
    requires { is_in audit words.now ≡ true }
    ensures { Answers (Some (audit.order (given_in audit (drop 1 words.now)))) result }
{
    let texts = texts_of(alloc, words)?;
    let matches = matches_of(
        alloc,
        ["NET", "REPORT"].as_slice(),
        [].as_slice(),
        texts.as_slice(),
    )?;
    let net = text_at(alloc, &matches, "NET")?;
    let report = text_at(alloc, &matches, "REPORT")?;
    Ok(Order::Audit { net, report })
}

/// `audit NET REPORT`.
pub fn audit_order(alloc: Global, words: &[Text]) -> Result<Order, CliFault>
    requires { 0 < length words.now }
    ensures { Answers (order_after audit (drop 1 words.now)) result }
{
    if is_written(
        [Item::File, Item::File].as_slice(),
        [].as_slice(),
        [].as_slice(),
        &words[1..],
    ) {
        read_audit(alloc, words)
    } else {
        Err(CliFault::Usage)
    }
}

fn read_make(alloc: Global, words: &[Text]) -> Result<Order, CliFault>
    requires { is_in make words.now ≡ true }
    ensures { Answers (Some (make.order (given_in make (drop 1 words.now)))) result }
{
    let texts = texts_of(alloc, words)?;
    let matches = matches_of(alloc, ["N"].as_slice(), [].as_slice(), texts.as_slice())?;
    let n = needed_number_at(&matches, "N")?;
    Ok(Order::Make { n })
}

/// `make N`.
pub fn make_order(alloc: Global, words: &[Text]) -> Result<Order, CliFault>
    requires { 0 < length words.now }
    ensures { Answers (order_after make (drop 1 words.now)) result }
{
    let stations = Item::Number {
        least: 1,
        most: MAX_MAKE,
    };
    if is_written(
        [stations].as_slice(),
        [].as_slice(),
        [].as_slice(),
        &words[1..],
    ) {
        read_make(alloc, words)
    } else {
        Err(CliFault::Usage)
    }
}
