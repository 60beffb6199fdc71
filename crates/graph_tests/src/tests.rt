// Tests of the crates on graphs, levels and rounds: a file for each crate, with what is tested and where the expected
// values are from. All run without a proof by `rt try --test` in this folder.
//
// `support.rt` has what several files need, `drawing.rt` random edges, and `plainly.rt` plain bodies of phases. The
// crate `test_support` has what other test crates need too.

mod adj;
mod bound;
mod cleaning;
mod delete;
mod dense;
mod drawing;
mod graph;
mod groups;
mod history;
mod insert;
mod levels;
mod orient;
mod plainly;
mod rounds;
mod support;
