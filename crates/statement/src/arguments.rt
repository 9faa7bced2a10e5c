// The program's arguments, and what it says of them.

use anyhow::anyhow;
use std::fmt;

/// What `--help` prints.
pub(crate) const USAGE: &str = "\
usage: statement [TARIFF [OPENING]] <EVENTS

Reads a text of events from standard input, one a line and 1 to 65536 bytes in all, and prints the statement of its account
on standard output: an answer to each line, the lines of the journal, and the balance and the amount due. A line that is
refused is answered there too.

  TARIFF   the tariff's number, 1 where it is left out:
           1 H-1 at 10 kVA, 2 H-2, 3 H-2 by time of day, 4 from 1 to 2 on day 365
  OPENING  the day on which the account opens, from 0 (1 January 2000) to 18262, 0 where it is left out
  --help   or -h: prints this

The status is 0, or 1 where there is no statement; standard error then says why, by the question that was answered no:

   2  are the tariff's number and the opening day in limits?
  22  has the text 1 to 65536 bytes?

or that an argument is no number, or one too many.
";

/// What the arguments ask for; a tariff goes by its number, as in the office.
#[derive(Clone, Copy)]
pub(crate) struct Asked {
    pub(crate) tariff: u64,
    pub(crate) opening: u64,
}

/// An argument, named by its place and what it may be.
#[derive(Clone, Copy)]
pub(crate) enum Argument {
    Tariff,
    Opening,
}

impl fmt::Display for Argument {
    fn fmt<W: fmt::Write>(&self, f: &mut fmt::Formatter<W>) -> fmt::Result {
        f.write_str(match self {
            Argument::Tariff => "the first argument, the tariff's number, has to be 1, 2, 3 or 4",
            Argument::Opening => {
                "the second argument, the opening day, has to be from 0 to 18262"
            }
        })
    }
}

/// The number that a word is.
fn figure(argument: Argument, word: &str) -> anyhow::Result<u64> {
    word.parse::<u64>()
        .map_err(|_| anyhow!("{argument}, not '{word}'"))
}

/// What these words ask for.
pub(crate) fn asked_by(words: &[String]) -> anyhow::Result<Asked> {
    let mut asked = Asked {
        tariff: 1,
        opening: 0,
    };
    match words {
        [] => {}
        [tariff] => asked.tariff = figure(Argument::Tariff, tariff.as_str())?,
        [tariff, opening] => {
            asked.tariff = figure(Argument::Tariff, tariff.as_str())?;
            asked.opening = figure(Argument::Opening, opening.as_str())?;
        }
        [_, _, third, ..] => {
            return Err(anyhow!("there are at most two arguments, and a third is '{third}'"));
        }
    }
    Ok(asked)
}

/// Whether a word asks for the usage.
pub(crate) fn is_help(word: &str) -> bool {
    word == "--help" || word == "-h"
}
