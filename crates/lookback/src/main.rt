// lookback: whether Page's rule or the Shewhart limit alarms on the last morning of a column of counts, and which of them.
#![tactic(auto)]

use anyhow::ensure;
use arguments::request_of;
use console::{LOOKBACK_HELP, report_of};
use std::env;
use std::io::Read;
use std::process::ExitCode;

// The most bytes of input: far more than 4,096 lines with a count each.
const MOST: u64 = 1048576;

fn main(rt: HostRuntime) -> anyhow::Result<ExitCode> {
    match run(&rt) {
        Ok(()) => Ok(ExitCode::SUCCESS),
        Err(error) => {
            eprintln!(rt; "lookback: {error} (lookback --help says more)")?;
            Ok(ExitCode::FAILURE)
        }
    }
}

fn run(rt: &HostRuntime) -> anyhow::Result<()> {
    let heap = rt.alloc();
    let words: Vec<String> = env::args(rt)?.skip(1).collect(heap)?;
    match words.as_slice() {
        [word] if word.as_str() == "--help" => Ok(rt.print(LOOKBACK_HELP)?),
        words => Ok(rt.print(answer(rt, words)?)?),
    }
}

// What it prints for these words and the column on standard input.
fn answer(rt: &HostRuntime, words: &[String]) -> anyhow::Result<String> {
    let heap = rt.alloc();
    let request = request_of(words)?;
    let mut column = Vec::new(heap);
    rt.stdin().take(MOST + 1).read_to_end(&mut column)?;
    ensure!(
        // `u64` has no `From<usize>`
        column.len() as u64 <= MOST,
        "the input is longer than a megabyte"
    );
    report_of(heap, &request, &column)
}
