// Tests of the libraries whose values are texts, a file for each: lines and numbers, inputs, run texts and
// certificates. `long_batches` has inputs that several threads read. `rt try --test` runs all of them, without a proof.
// `support` has what several files use. Expected values were worked out by hand, or another reason stands beside them.

mod audit;
mod batch;
mod cert;
mod long_batches;
mod report;
mod support;
mod text;
mod words;
