//! How long reads of a store take, beside plain loads from memory, and how long a writer takes to move levels.
//!
//! With no word on the command line it takes every measurement once on a few vertices, and prints what was measured but
//! no times. With any word it measures stores of several sizes, and prints a line for each measurement. The line says
//! what was measured, on how many vertices, how many loads, reads or moves there were, and their nanoseconds together.
//!
//! `plans` makes the phases that are shown, `showing` shows them, `reading` reads, `timing` takes the times, and
//! `measuring` prints them.
#![tactic(auto)]

ghost use Rattle.std.specs.Prelude.{◌≤◌};

mod measuring;
mod plans;
mod reading;
mod showing;
mod timing;

use measuring::{Sizes, print_opening, print_reads};
use std::env;
use std::rt::Env;

// Returns whether a word is on the command line after the program's name.
fn has_word(rt: &(impl Env + AllocGlobal)) -> anyhow::Result<bool> {
    Ok(env::args(rt)?.len() > 1)
}

fn main(rt: HostRuntime) -> anyhow::Result<()> {
    if !has_word(&rt)? {
        let few = Sizes {
            vertices: 64,
            reads: 1000,
            plans: 4,
        };
        print_reads(&rt, rt.alloc(), few, false)?;
        return print_opening(&rt, rt.alloc(), 64, false);
    }
    let small = Sizes {
        vertices: 65_536,
        reads: 16_777_216,
        plans: 32,
    };
    let large = Sizes {
        vertices: 1_048_576,
        reads: 4_194_304,
        plans: 2,
    };
    print_reads(&rt, rt.alloc(), small, true)?;
    print_reads(&rt, rt.alloc(), large, true)?;
    print_opening(&rt, rt.alloc(), 16_777_216, true)
}
