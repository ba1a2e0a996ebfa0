//! Lets the power go at each call of a disk in memory while the accounts are changed, opens what is left, and says how often they
//! are as before and as after. Once the change was answered they have to be as after.
#![tactic(auto)]

mod act;
mod base;
mod image;
mod rows;
mod sweep;
mod visit;

use act::{ACTS, CutAct};
use std::io;
use std::process::ExitCode;
use sweep::sweep;

fn main(rt: HostRuntime) -> io::Result<ExitCode> {
    let mut status = ExitCode::SUCCESS;
    for act in ACTS {
        if !try_act(&rt, act)? {
            status = ExitCode::FAILURE;
        }
    }
    Ok(status)
}

/// Tells what comes of the stops in an act, and says whether that is right.
fn try_act(rt: &HostRuntime, act: CutAct) -> io::Result<bool> {
    let counts = sweep(rt.alloc(), act)?;
    let (name, stops, opened) = (act.name(), counts.stops, counts.opened);
    let (before, after, answered, neither) = (
        counts.before,
        counts.after,
        counts.answered,
        counts.neither,
    );
    println!(rt;
        "{name}: {stops} stops, {opened} states opened: {before} as before, {after} as after ({answered} of them answered), {neither} neither"
    )?;
    Ok(neither == 0 && before > 0 && after > 0)
}
