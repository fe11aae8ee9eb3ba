// Reads a job file from standard input, and prints the report on it.
// Under a refusal it says in words what the number means, and shows the refused line; --report leaves that out.
#![tactic(auto)]

mod place;
mod words;

use crate::place::{part_of, refused_line};
use crate::words::{layer_name, meaning};
use jobs::fault::Numbered;
use judge::fault::Refusal;
use judge::verdict::{MOST_FILE, verdict};
use std::io::{Read, Write};
use std::{env, io};

// The most bytes of a refused line that are shown.
const MOST_SHOWN: usize = 100;

// Whether the bare report is asked for.
fn wants_report_only(rt: &HostRuntime) -> io::Result<bool> {
    Ok(env::args(rt)?.any(|word| word.as_str() == "--report"))
}

// Bytes that do not print are shown by their number.
fn show_line(rt: &HostRuntime, line: &[u8]) -> io::Result<()> {
    for byte in line.iter().take(MOST_SHOWN) {
        match *byte {
            b' '..=b'~' => rt.print(*byte as char)?,
            byte => print!(rt; "\\x{byte:02x}")?,
        }
    }
    if line.len() > MOST_SHOWN {
        print!(rt; " and more")?;
    }
    println!(rt; "")
}

// Further lines, each behind a mark that no line of a report begins with.
fn explain(rt: &HostRuntime, file: &[u8], refusal: Refusal) -> io::Result<()> {
    let fault = refusal.fault;
    let number = fault.number();
    let layer = layer_name(fault);
    let words = meaning(fault);
    println!(rt; "# refusal {number}, of the {layer}: {words}")?;
    if refusal.line == 0 {
        return Ok(());
    }
    let part = part_of(file, refusal.section);
    let line = refusal.line;
    print!(rt; "# {part}, line {line}: ")?;
    show_line(rt, refused_line(file, refusal))
}

fn main(rt: HostRuntime) -> io::Result<()> {
    let mut file = vec![in rt.alloc()]?;
    // one byte more than a file may have is enough to refuse it
    rt.stdin()
        .take(MOST_FILE as u64 + 1)
        .read_to_end(&mut file)?;
    let found = verdict(&file);
    match &found {
        Ok(report) => rt.stdout().write_all(report.as_bytes())?,
        Err(refusal) => rt.stdout().write_all(refusal.text().as_bytes())?,
    }
    // asked after either report: a word that is no text ends the program with an error
    if wants_report_only(&rt)? {
        return Ok(());
    }
    match found {
        Ok(_) => Ok(()),
        Err(refusal) => explain(&rt, &file, refusal),
    }
}
