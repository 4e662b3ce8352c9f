// Runs jobs and compares each answer with the one that it should get, explanations left out.
#![tactic(auto)]

mod pile;

use anyhow::bail;
use console::console::Console;
use job::Lines;
use pile::{Answers, worked_pile};
use std::fs;
use std::rt::Files;

// Each has a job and its expected answers under this name.
const CASES: [&str; 6] = [
    "naming-1", "naming-2", "naming-3", "books", "lines", "limits",
];

// An answer without its explanation, which stands behind a blank in parentheses.
fn plain(answer: &str) -> &str {
    match answer.split_once(" (") {
        Some((before, _)) => before,
        None => answer,
    }
}

// The bytes of a file of this case.
fn read(rt: &(impl Files + AllocGlobal), name: &str, ending: &str) -> anyhow::Result<Vec<u8>> {
    let path = format!(in rt.alloc(); "{name}.{ending}")?;
    Ok(fs::read(rt, path.as_str())?)
}

// Compares what was answered to the line with the next expected answer.
fn expect(
    rt: &impl Print,
    number: u64,
    said: &str,
    expected: &mut Lines<'_>,
) -> anyhow::Result<()> {
    if expected.next() != Some(plain(said).as_bytes()) {
        println!(rt; "line {number} is answered otherwise: {said}")?;
        bail!("an answer is not as expected");
    }
    Ok(())
}

// Does one line and compares its answer, if it has one. An arm each: an answer and a refusal have words of their own.
fn compare(
    rt: &(impl Print + AllocGlobal),
    console: &mut Console,
    number: u64,
    line: &[u8],
    expected: &mut Lines<'_>,
) -> anyhow::Result<()> {
    let said = match console.line(line) {
        Some(Ok(answer)) => format!(in rt.alloc(); "{number}: {answer}")?,
        Some(Err(refusal)) => format!(in rt.alloc(); "{number}: {refusal}")?,
        None => return Ok(()),
    };
    expect(rt, number, said.as_str(), expected)
}

// Runs one case and tells how many lines it has.
fn run_case(rt: &(impl Files + Print + AllocGlobal), name: &str) -> anyhow::Result<()> {
    let job = read(rt, name, "job")?;
    let answers = read(rt, name, "expected")?;
    let mut console = Console::new(rt.alloc());
    let mut expected = Lines(answers.as_slice());
    let mut lines = 0u64;
    for (number, line) in (1u64..).zip(Lines(job.as_slice())) {
        compare(rt, &mut console, number, line, &mut expected)?;
        lines = number;
    }
    if expected.next().is_some() {
        bail!("an expected answer did not come");
    }
    println!(rt; "{name}: {lines} lines answered as expected")?;
    Ok(())
}

// Works the pile of two recall layers.
fn run_pile(rt: &impl Print) -> anyhow::Result<()> {
    let Answers {
        found: None,
        filed: Err(_),
        struck: Err(_),
        other: Ok(()),
    } = worked_pile()
    else {
        bail!("the pile does not recall");
    };
    println!(rt; "pile: a recalled entry is not found, filed or struck, and another is filed")?;
    Ok(())
}

fn run(rt: &(impl Files + Print + AllocGlobal)) -> anyhow::Result<()> {
    run_pile(rt)?;
    for name in &CASES {
        run_case(rt, name)?;
    }
    Ok(())
}

fn main(rt: HostRuntime) -> anyhow::Result<()> {
    run(&rt)
}
