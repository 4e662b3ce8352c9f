// Runs a job: each line that is no silent one gets its number and its answer.
use console::console::Console;
use job::Lines;
use std::fs;
use std::io::Read;
use std::rt::Files;

// The bytes of the job with this name; `-` is the standard input.
fn read(rt: &(impl Files + Input + AllocGlobal), name: &str) -> anyhow::Result<Vec<u8>> {
    if name == "-" {
        let mut bytes = Vec::new(rt.alloc());
        rt.reader().read_to_end(&mut bytes)?;
        return Ok(bytes);
    }
    Ok(fs::read(rt, name)?)
}

// Does one line and prints its answer, or why it was not done; a silent line prints nothing. An answer and a refusal have words of their own, so each has its arm.
fn answer(rt: &impl Print, console: &mut Console, number: u64, line: &[u8]) -> anyhow::Result<()> {
    match console.line(line) {
        Some(Ok(answer)) => println!(rt; "{number}: {answer}")?,
        Some(Err(refusal)) => println!(rt; "{number}: {refusal}")?,
        None => {}
    }
    Ok(())
}

// Does the lines of the job in order.
pub(crate) fn run(
    rt: &(impl Files + Input + Print + AllocGlobal),
    name: &str,
) -> anyhow::Result<()> {
    let bytes = read(rt, name)?;
    let mut console = Console::new(rt.alloc());
    for (number, line) in (1u64..).zip(Lines(bytes.as_slice())) {
        answer(rt, &mut console, number, line)?;
    }
    Ok(())
}
