//! Tests of what no case of tests/ at the top reaches. The expected values are worked by hand, or come from GNU as and objdump.
//!
//! - Public calls of passes: the homes of pseudo-registers, units assembled and run, the operators of the machine.
//! - Orders that schedulers propose, wrong ones too, the pool of workers, phases over them, and many builds in one process.
//! - The table of terms: what threads do with one table, and notes between threads.
//! - `mcc`: streams that fail half way. A file in memory stands in for the host's.
//!
//! Refused memory is tested by `.ci/refuse` and `.ci/limits`.
#![tactic(auto)]

#[cfg(test)]
mod builds;
// (specs/Files.antt speaks of it, so it is there without the tests, too)
mod files;
#[cfg(test)]
mod homes;
#[cfg(test)]
mod operators;
#[cfg(test)]
mod orders;
#[cfg(test)]
mod phases;
#[cfg(test)]
mod pool;
#[cfg(test)]
mod streams;
#[cfg(test)]
mod tables;
#[cfg(test)]
mod telling;
#[cfg(test)]
mod units;
