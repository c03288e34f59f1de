ghost use Rattle.std.specs.Prelude.{◌≡◌, ◌<◌, ◌↔◌, length, drop, IfOk, IsErrOf, Some};
ghost use Rattle.rl_cli.specs.Orders.{Answers, order_named, order_of};
ghost use Rattle.rl_cli.specs.Written.{IsWritten};
ghost use Rattle.rl_cli.specs.Limits.{IsWithinLimits};
ghost use Rattle.rl_cli.specs.declared.order.Order.{Order};

use crate::fault::CliFault;
use crate::order::Order;
use crate::orders::{audit_order, check_order, drive_order, make_order, run_order, tables_order};
use rl_base::{Args, Text};
use std::alloc::Global;

/// The order of a command line that begins with this name.
fn order_for(alloc: Global, name: &str, words: &[Text]) -> Result<Order, CliFault>
    requires { 0 < length words.now }
    ensures { Answers (order_named name.now (drop 1 words.now)) result }
{
    match name {
        "check" => check_order(alloc, words),
        "tables" => tables_order(alloc, words),
        "drive" => drive_order(alloc, words),
        "run" => run_order(alloc, words),
        "audit" => audit_order(alloc, words),
        "make" => make_order(alloc, words),
        _ => Err(CliFault::Usage),
    }
}

/// The first word decides which forms there may be.
fn order_in_words(alloc: Global, words: &[Text]) -> Result<Order, CliFault>
    ensures { Answers (order_of words.now) result }
{
    match words {
        [] => Err(CliFault::Usage),
        [name, ..] => order_for(alloc, name.as_str(), words),
    }
}

/// The order that the words of a command line give. The words don't include the program's own name.
pub fn parse(alloc: Global, words: &Args) -> Result<Order, CliFault>
    // The order that the words have, or want of memory, and Usage where they have none.
    ensures answer { Answers (order_of words.now) result }

    // An order is one for which the words are written in a form of the table.
    ensures written { IfOk result (IsWritten words.now) }

    // Each order for which they are written there is the one that they have.
    ensures exact { (order : Order) → IsWritten words.now order → order_of words.now ≡ Some order }

    // Usage is the answer to all words that are written in no form, whatever memory is left, and to no others.
    ensures usage { IsErrOf result CliFault.Usage ↔ ((order : Order) → ¬ IsWritten words.now order) }

    // The numbers of an order are within the limits of the table.
    ensures limits { IfOk result IsWithinLimits }
{
    order_in_words(alloc, words.as_slice())
}
