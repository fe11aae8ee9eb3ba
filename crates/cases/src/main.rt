// Judges the jobs of a pack on both stores, and prints the report on each.
// The pack is standard input: each job behind a line `= NAME LENGTH`.
#![tactic(auto)]

ghost use Rattle.std.specs.Prelude.{◌<◌, length, IfSome};

use judge::report::{LEAST_REPORT, judge, judge_twice};
use judge::verdict::MOST_FILE;
use std::io;
use std::io::{Read, Write};

const MOST_PACK: u64 = 1 << 20;

// Prints the name of a job and its report; says so where the stores differ or the rest of the buffer is not zero.
fn show(rt: &HostRuntime, name: &[u8], file: &[u8]) -> io::Result<()> {
    let mut rows = [1u8; LEAST_REPORT];
    let mut flat = [2u8; LEAST_REPORT];
    let lens = judge_twice(file, &mut rows, &mut flat);
    let (text, rest) = rows.split_at(lens.0.min(LEAST_REPORT));
    let mut stdout = rt.stdout();
    stdout.write_all(name)?;
    stdout.write_all(b":\n")?;
    stdout.write_all(text)?;
    if lens.0 != lens.1 || rows != flat {
        stdout.write_all(b"the report on the flat store differs\n")?;
    }
    if rest.iter().any(|byte| *byte != 0) {
        stdout.write_all(b"the buffer is not zero behind the report\n")?;
    }
    Ok(())
}

// A job of a pack, and what follows it there.
#[derive(Clone, Copy)]
struct Packed<'a> {
    name: &'a [u8],
    file: &'a [u8],
    rest: &'a [u8],
}

// The number that the digits among the bytes make. One that is too large wraps round.
fn number(bytes: &[u8]) -> usize {
    let mut number: usize = 0;
    for byte in bytes {
        if byte.is_ascii_digit() {
            number = number
                .wrapping_mul(10)
                .wrapping_add(usize::from(*byte & 15));
        }
    }
    number
}

// The job in front, none at the pack's end. A heading that lacks a part, and a job that is cut, count as what
// is there of them.
fn first_job(pack: &[u8]) -> Option<Packed<'_>>
    ensures { IfSome result (λ job. length job.rest.now < length pack.now) }
{
    if pack.is_empty() {
        return None;
    }
    let is_end = |byte: &u8| *byte == b'\n';
    let end = pack.iter().position(is_end).unwrap_or(pack.len());
    let (heading, after) = pack.split_at(end);
    let is_space = |byte: &u8| *byte == b' ';
    let space = heading.iter().rposition(is_space).unwrap_or(heading.len());
    let (name, length) = heading.split_at(space);
    let job = &after[after.len().min(1)..];
    let (file, rest) = job.split_at(number(length).min(job.len()));
    let name = &name[name.len().min(2)..];
    Some(Packed { name, file, rest })
}

fn show_all(rt: &HostRuntime, pack: &[u8]) -> io::Result<()> {
    let mut rest = pack;
    while let Some(job) = first_job(rest) {
        show(rt, job.name, job.file)?;
        rest = job.rest;
    }
    Ok(())
}

// Files of 65,535 and 65,536 bytes.
fn show_large(rt: &HostRuntime) -> io::Result<()> {
    let file = vec![in rt.alloc(); b'N'; MOST_FILE + 1]?;
    show(rt, b"65535 bytes", &file[..MOST_FILE])?;
    show(rt, b"65536 bytes", &file)
}

// A buffer one byte too short is left as it is, and the answer is 0.
fn show_short(rt: &HostRuntime) -> io::Result<()> {
    let mut report = [7u8; LEAST_REPORT - 1];
    let len = judge(b"", &mut report);
    let kept = report.iter().all(|byte| *byte == 7);
    println!(rt; "a buffer of 2399 bytes: {len} {kept}")
}

fn main(rt: HostRuntime) -> io::Result<()> {
    let mut pack = vec![in rt.alloc()]?;
    rt.stdin().take(MOST_PACK).read_to_end(&mut pack)?;
    show_all(&rt, &pack)?;
    show_large(&rt)?;
    show_short(&rt)
}
