//! `wst_jobs`: the jobs that users of `wst` and of its library wait for, to be timed from outside by `bench/run`. It
//! makes its own input by chance, and prints a digest of all results and no times. No crate of the product uses it.
//!
//!     wst_jobs JOB PART SEED    a PARTth of a job over the input of a number below 2^32; `all` does each in turn
//!     wst_jobs COST PART SEED   one call over a PARTth of a megabyte, for `bench/costs` to count its instructions
//!
//! `bench/README.md` says what each job is for.
#![tactic(auto)]

mod accents;
mod captures;
mod chance;
mod costs;
mod digest;
mod endpoint;
mod frames;
mod input;
mod jobs;
mod keyed;
mod mixed;
mod pongs;
mod pool;
mod scripts;
mod showing;
mod streams;
mod telling;

use anyhow::{Result, bail, ensure};
use costs::Cost;
use jobs::Job;
use std::env;

fn main(rt: HostRuntime) -> Result<()> {
    let alloc = rt.alloc();
    let given: Vec<String> = env::args(&rt)?.collect(alloc)?;
    let words: Vec<&str> = given.iter().map(|word| word.as_str()).collect(alloc)?;
    let [_, name, part, seed] = words.as_slice() else {
        bail!("wrong arguments: JOB PART SEED");
    };
    let (part, seed) = (part.parse::<u32>()?, seed.parse::<u32>()?);
    ensure!(part > 0, "a part is at least 1");
    for job in Job::ALL {
        if job.is_asked(name) {
            let results = job.run(alloc, &rt, part, seed)?;
            println!(rt; "{}:{results}", job.name())?;
        }
    }
    for cost in Cost::ALL {
        if cost.is_asked(name) {
            let results = cost.run(alloc, &rt, part, seed)?;
            println!(rt; "{}:{results}", cost.name())?;
        }
    }
    Ok(())
}
