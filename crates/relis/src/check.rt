ghost use Rattle.std.specs.Prelude.{[], ◌∷◌, IfOk};
ghost use Rattle.rl_cli.specs.declared.order.Order.{Order};
ghost use Rattle.relis.specs.Answers.{EndsAs, UnlessMemory};
ghost use Rattle.relis.specs.Reading.{FetchesOf};
ghost use Rattle.relis.specs.Commands.{IsTablesText};

use crate::lines::accepted;
use crate::reading::read_network;
use crate::status::Status;
use rl_base::NoMemory;
use rl_net::Network;
use rl_outside::Files;
use rl_tables::{compile, tables_text};
use rl_text::Out;
use std::alloc::Global;

/// `check NET`: says how large the network is.
pub fn check<F: Files>(alloc: Global, files: &mut F, net: &str) -> Result<Out, Status>
    ensures ends { UnlessMemory
        (EndsAs (Order.Check net.now) (F.held files.old) (F.faults files.old) (F.faults files.new)) result }
    ensures fetches { FetchesOf (net.now ∷ [])
        (F.held files.old) (F.held files.new) (F.faults files.old) (F.faults files.new) }
{
    let net = read_network(alloc, files, net)?;
    let text = accepted(alloc, &net)?;
    Ok(text)
}

fn text_of_tables(alloc: Global, net: &Network) -> Result<Out, NoMemory>
    ensures { IfOk result (IsTablesText net.now) }
{
    let line = compile(alloc, net)?;
    tables_text(alloc, net, &line)
}

/// `tables NET`: prints the network's tables.
pub fn tables<F: Files>(alloc: Global, files: &mut F, net: &str) -> Result<Out, Status>
    ensures ends { UnlessMemory
        (EndsAs (Order.Tables net.now) (F.held files.old) (F.faults files.old) (F.faults files.new)) result }
    ensures fetches { FetchesOf (net.now ∷ [])
        (F.held files.old) (F.held files.new) (F.faults files.old) (F.faults files.new) }
{
    let net = read_network(alloc, files, net)?;
    let text = text_of_tables(alloc, &net)?;
    Ok(text)
}
