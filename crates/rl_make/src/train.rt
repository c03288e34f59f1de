ghost use Rattle.std.specs.Prelude.{◌≡◌, ◌<◌, ◌++◌, IfOk, OnOk};
ghost use Rattle.rl_make.specs.Ring.{station_after, platform, leg, legs, train_of};

use crate::station::{entry, exit, joint, line, lower, middle, name, station_after, upper};
use rl_base::{DraftTrain, Name, Names, NoMemory};
use std::alloc::Global;

/// How many stations a train goes on from its first.
pub const LEGS: u32 = 20;

/// The platform of train `i` at station `h`.
fn platform(alloc: Global, i: u32, h: u32) -> Result<Name, NoMemory>
    ensures { IfOk result (λ name. name ≡ platform i h) }
{
    if i % 2 == 0 {
        upper(alloc, h)
    } else {
        lower(alloc, h)
    }
}

/// Appends what train `i` passes from station `h` to the next.
fn push_leg(alloc: Global, n: u32, i: u32, route: &mut Names, h: u32) -> Result<(), NoMemory>
    requires { h < n }
    ensures { OnOk result (route.new ≡ route.old ++ leg n i h) }
{
    let next = station_after(n, h);
    route.push(exit(alloc, h)?)?;
    route.push(middle(alloc, h)?)?;
    route.push(joint(alloc, h)?)?;
    route.push(line(alloc, h)?)?;
    route.push(entry(alloc, next)?)?;
    route.push(platform(alloc, i, next)?)
}

/// Train `i`, with its whole route.
pub(crate) fn train_of(alloc: Global, n: u32, i: u32) -> Result<DraftTrain, NoMemory>
    requires { i < n }
    ensures { IfOk result (λ t. t ≡ train_of n i) }
{
    let mut route = Names::new(alloc);
    route.push(platform(alloc, i, i)?)?;
    let mut station = i;
    for _leg in 0..LEGS {
        push_leg(alloc, n, i, &mut route, station)?;
        station = station_after(n, station);
    }
    Ok(DraftTrain {
        name: name(alloc, b"T", i)?,
        route,
    })
}
