// Scripts over sources and sinks in memory, with reads and writes that fail, and gates that hold clients or the server.
// Which inputs are refused, and texts, stand in `examples/cases`, and `checks/programs/check.sh` runs the built program
// on them. `rt try --test` in this crate's folder runs the tests. Helpers stand in `support.rt`.
mod failing;
mod gates;
mod outputs;
mod pieces;
mod support;
