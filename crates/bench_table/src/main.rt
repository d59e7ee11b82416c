//! Measures the table of terms alone, by 1, 2 and 4 threads: interns a second of 200,000 terms and of 1,000,000.
//!
//! `rt run -- figures` prints them. Without a word it prints what is the same in every run, which the gate compares.
#![tactic(auto)]

mod label;
mod tables;
mod worker;

use std::env;

fn main(rt: HostRuntime) -> anyhow::Result<()> {
    if env::args(&rt)?.len() > 1 {
        tables::show(&rt, tables::MIDDLE)?;
        tables::show(&rt, tables::LARGE)?;
    } else {
        tables::show(&rt, tables::SMALL)?;
    }
    Ok(())
}
