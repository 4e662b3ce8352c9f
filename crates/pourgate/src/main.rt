// The pour gate's program: a job of lines in and an answer for each, or the built-in task told in sentences.
#![tactic(auto)]

mod jobs;

use std::env;
use std::rt::{Env, Files};

fn run(rt: &(impl Env + Files + Input + Print + AllocGlobal)) -> anyhow::Result<()> {
    match env::args(rt)?.nth(1) {
        None => morning::tell(rt),
        Some(name) => jobs::run(rt, name.as_str()),
    }
}

fn main(rt: HostRuntime) -> anyhow::Result<()> {
    run(&rt)
}
