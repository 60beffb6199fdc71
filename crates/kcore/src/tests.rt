// Commands over sources and sinks in memory, with reads and writes that fail, and gates that watch or hold threads. The
// texts of commands for whole inputs stand in `examples/cases`, and `checks/programs/check.sh` runs the built program
// on them.
//
// `rt try --test` in this crate's folder runs the tests. `support.rt` has the helpers. Each text was worked out by hand
// from its input.
mod faults;
mod pieces;
mod readers;
mod support;
mod texts;
