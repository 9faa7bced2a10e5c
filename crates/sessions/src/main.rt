// The stored sessions: the page of each text is made, and compared with the one that is stored beside it.
#![tactic(auto)]

mod session;

ghost use Rattle.std.specs.Prelude.{◌≡◌, ◌↔◌, IsOk};

use anyhow::anyhow;
use session::{SESSIONS, Session};
use statements::statement::statement;
use std::fs;
use std::process::ExitCode;

/// Room for the page of any stored session.
const ROOM: usize = 4_096;

/// The page that a session's text gives.
fn page_of(rt: &HostRuntime, session: &Session) -> anyhow::Result<String> {
    let name = session.name;
    let text = fs::read(rt, format!(in rt.alloc(); "{name}.txt")?)?;
    let mut page = vec![in rt.alloc(); 0u8; ROOM]?;
    let bytes = statement(
        session.tariff,
        session.opening,
        text.as_slice(),
        page.as_mut_slice(),
    )?;
    page.truncate(bytes);
    String::from_utf8(page).map_err(|_| anyhow!("its page is no text"))
}

/// How a page differs from the stored one: the first line that is another, beside the stored line, or else both lengths.
fn difference(page: &str, stored: &str) -> anyhow::Error {
    for (line, wanted) in page.split('\n').zip(stored.split('\n')) {
        if line != wanted {
            return anyhow!("'{line}' where '{wanted}' is stored");
        }
    }
    anyhow!("{} bytes where {} are stored", page.len(), stored.len())
}

/// Whether a page is the stored one.
fn compare(page: &str, stored: &str) -> anyhow::Result<()>
    ensures { IsOk result ↔ (page.now ≡ stored.now) }
{
    if page != stored {
        return Err(difference(page, stored));
    }
    Ok(())
}

/// Whether a session gives the page that is stored.
fn check(rt: &HostRuntime, session: &Session) -> anyhow::Result<()> {
    let name = session.name;
    let stored = fs::read_to_string(rt, format!(in rt.alloc(); "{name}.page")?)?;
    let page = page_of(rt, session)?;
    compare(page.as_str(), stored.as_str())
}

/// Tells of each session how it came out; whether all are as stored.
fn run(rt: &HostRuntime) -> anyhow::Result<bool> {
    let mut all = true;
    for session in &SESSIONS {
        let name = session.name;
        match check(rt, session) {
            Ok(()) => println!(rt; "{name}: as stored")?,
            Err(why) => {
                all = false;
                println!(rt; "{name}: {why}")?;
            }
        }
    }
    Ok(all)
}

fn main(rt: HostRuntime) -> ExitCode {
    match run(&rt) {
        Ok(true) => ExitCode::SUCCESS,
        Ok(false) => ExitCode::FAILURE,
        Err(why) => {
            let _ = eprintln!(rt; "sessions: {why}");
            ExitCode::FAILURE
        }
    }
}
