//! Reads the scripts of the clients.
ghost use Rattle.std.specs.Prelude.{◌≡◌, ◌≤◌, ◌++◌, ◌∷◌, [], IfOk, OnOk};
ghost use Rattle.std.specs.Option.{option_map};
ghost use Rattle.kc_batch.specs.Batches.{batches_left};
ghost use Rattle.kc_batch.specs.Causes.{BatchCause};
ghost use Rattle.kserve.specs.Inputs.{rules_for, scripts_from, input_said, has_room};
ghost use Rattle.kserve.specs.private.Reading.{Says};

use crate::head::{Head, read_head};
use crate::limits::{INPUT_LIMIT, LINE_LIMIT};
use crate::scripts::Scripts;
use kc_batch::{BatchFault, Items, Next, next_batch};
use kc_graph::{MAX_ITEMS, MAX_VERTICES};
use kc_intake::MAX_CLIENTS;
use kc_levels::Profile;
use kc_text::{LineFault, LineReader, Reason, Source};
use std::alloc::{AllocError, Global};

/// What an input says.
#[derive(Drop, Debug)]
pub enum Said {
    /// A script for each client.
    Accepted(Scripts),
    /// It is refused at this line for this reason.
    Refused { line: u32, reason: Reason },
}

// Whether a script of `more` items may follow `scripts` others, which have `count` items together.
fn has_room(scripts: usize, count: u32, more: usize) -> bool
    requires { more ≤ MAX_ITEMS }
    ensures { result ≡ has_room scripts count more }
{
    scripts < MAX_CLIENTS as usize && count as usize + more <= MAX_ITEMS as usize
}

// Puts a script at the end.
fn add_script(scripts: &mut Vec<Items>, script: Items) -> Result<(), AllocError>
    ensures { OnOk result (scripts.new.items ≡ scripts.old.items ++ script ∷ []) }
{
    scripts.push(script)?;
    Ok(())
}

// Reads the blocks after the head, each the script of a client.
fn read_scripts<S: Source>(
    alloc: Global,
    lines: &mut LineReader,
    src: &mut S,
    n: u32,
) -> Result<Said, BatchFault>
    requires some { 1 ≤ n }
    requires small { n ≤ MAX_VERTICES }
    ensures said { IfOk result (λ said. Says said (option_map (scripts_from n []) (batches_left (rules_for n) lines.old (S.left src.old)))) }
    ensures cause { BatchCause (S.faults src.old) (S.faults src.new) result }
{
    let mut scripts = Vec::new(alloc);
    let mut count = 0;
    loop {
        match next_batch(alloc, lines, src, n, Profile::One, MAX_ITEMS)? {
            Next::Items(batch) => {
                let more = batch.items.as_slice().len();
                if !has_room(scripts.len(), count, more) {
                    return Ok(Said::Refused {
                        line: batch.line,
                        reason: Reason::TooMany,
                    });
                }
                count += more as u32;
                add_script(&mut scripts, batch.items).map_err(BatchFault::Memory)?;
            }
            Next::Refused { line, reason } => return Ok(Said::Refused { line, reason }),
            Next::End => return Ok(Said::Accepted(Scripts { n, scripts, count })),
        }
    }
}

/// Reads a whole input of scripts, as `input_said` of `specs/Inputs` says.
///
/// Returns the script of each client, or the first line for which the input is refused, and why. After that line
/// nothing is read but the rest of its block. `ReadFault` comes only if the source's count of faults rose, and `Memory`
/// if there was none for a line or the items.
pub fn read_input<S: Source>(alloc: Global, src: &mut S) -> Result<Said, BatchFault>
    ensures said { IfOk result (λ said. Says said (option_map input_said (S.left src.old))) }
    ensures cause { BatchCause (S.faults src.old) (S.faults src.new) result }
{
    let mut lines = LineReader::new(alloc, LINE_LIMIT, INPUT_LIMIT).map_err(BatchFault::Memory)?;
    match read_head(alloc, &mut lines, src) {
        Ok(Head::Vertices(n)) => read_scripts(alloc, &mut lines, src, n),
        Ok(Head::Refused { line }) => Ok(Said::Refused {
            line,
            reason: Reason::Header,
        }),
        Err(LineFault::ReadFault) => Err(BatchFault::ReadFault),
        Err(LineFault::Memory(e)) => Err(BatchFault::Memory(e)),
    }
}
