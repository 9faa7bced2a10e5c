// The statement of a text of events: the text comes by standard input, the page goes to standard output.
// Arguments: the tariff's number and the opening day, 1 and 0 where they are absent; or --help.
#![tactic(auto)]

mod arguments;

use anyhow::anyhow;
use arguments::{Argument, Asked, USAGE, asked_by, is_help};
use statements::refused::Refused;
use statements::statement::statement;
use std::env;
use std::io::{Read, Write};
use std::process::ExitCode;

/// Room for every result: at most 9 bytes of answers for each of 65,536 bytes of text, 40 for each of 1,024 journal lines,
/// and the sums.
const ROOM: usize = 640_000;

/// One byte more than a text may have: an input that is too long is seen to be, and refused, and not read to its end.
const MOST: u64 = 65_537;

/// Question 2 asks of two arguments: it is told of the one that was answered no.
fn told(refused: Refused, asked: Asked) -> anyhow::Error {
    let Refused::Figures = refused else {
        return refused.into();
    };
    let (argument, given) = if (1..=4).contains(&asked.tariff) {
        (Argument::Opening, asked.opening)
    } else {
        (Argument::Tariff, asked.tariff)
    };
    anyhow!("refused by question 2: {argument}, not '{given}'")
}

fn write_page(rt: &HostRuntime, asked: Asked) -> anyhow::Result<()> {
    let mut text = Vec::new(rt.alloc());
    rt.stdin().take(MOST).read_to_end(&mut text)?;
    let mut page = vec![in rt.alloc(); 0u8; ROOM]?;
    match statement(
        asked.tariff,
        asked.opening,
        text.as_slice(),
        page.as_mut_slice(),
    ) {
        Ok(bytes) => rt.stdout().write_all(&page.as_slice()[..bytes])?,
        Err(refused) => return Err(told(refused, asked)),
    }
    Ok(())
}

fn run(rt: &HostRuntime) -> anyhow::Result<()> {
    // the first word is the program's name
    let words: Vec<String> = env::args(rt)?.skip(1).collect(rt.alloc())?;
    if words.iter().any(|word| is_help(word.as_str())) {
        rt.stdout().write_all(USAGE.as_bytes())?;
        return Ok(());
    }
    write_page(rt, asked_by(words.as_slice())?)
}

fn main(rt: HostRuntime) -> ExitCode {
    match run(&rt) {
        Ok(()) => ExitCode::SUCCESS,
        Err(why) => {
            let _ = eprintln!(rt; "statement: {why}");
            ExitCode::FAILURE
        }
    }
}
