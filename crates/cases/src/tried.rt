//! All cases of all files.
use super::answer::Outcome;
use super::case::{Case, digest_of};
use entry::Program;
use std::{fs, io};

/// How many cases were tried, and how many of them differ.
#[derive(Clone, Copy, Debug, Default)]
pub struct Tally {
    pub tried: u32,
    pub differ: u32,
}

/// Says of a case that ends at this line of the file of this name what was answered instead, with the first bytes of the output where they are
/// text.
fn tell(rt: &HostRuntime, end: (&str, u32), got: &Outcome) -> io::Result<()> {
    let (name, line) = end;
    let front = got.output.get(..4096).unwrap_or(&got.output);
    let output = str::from_utf8(front).unwrap_or("(no text)");
    let status = got.status;
    let notice = &got.notice;
    let digest = digest_of(rt.alloc(), &got.output)?;
    println!(rt;
        "{name} line {line}\nstatus: {status}\nnotice: {notice}\ndigest: {digest}\n{output}"
    )
}

/// Tries a case that ends at this line of the file of this name.
fn judge<P: Program>(
    rt: &HostRuntime,
    program: &P,
    end: (&str, u32),
    case: Case,
    tally: &mut Tally,
) -> io::Result<()> {
    if case.asks_nothing() {
        return Ok(());
    }
    tally.tried = tally.tried.saturating_add(1);
    if let Some(got) = case.difference(rt.alloc(), program)? {
        tally.differ = tally.differ.saturating_add(1);
        tell(rt, end, &got)?;
    }
    Ok(())
}

/// Tries the cases of a file, which are parted by empty lines. A line that begins with `#` is a note.
fn try_file<P: Program>(
    rt: &HostRuntime,
    program: &P,
    name: &str,
    tally: &mut Tally,
) -> io::Result<()> {
    let text = fs::read_to_string(rt, name)?;
    let mut case = Case::new(rt.alloc());
    let mut number: u32 = 0;
    for line in text.lines() {
        number = number.saturating_add(1);
        if line.is_empty() {
            judge(rt, program, (name, number), case, tally)?;
            case = Case::new(rt.alloc());
        } else if !line.starts_with('#') {
            let (key, rest) = line.split_once(':').unwrap_or((line, ""));
            let rest = rest.strip_prefix(' ').unwrap_or(rest);
            if !case.read_line(rt, program, key, rest)? {
                tally.differ = tally.differ.saturating_add(1);
                println!(rt; "{name} line {number}: no such line")?;
            }
        }
    }
    judge(rt, program, (name, number), case, tally)
}

/// Tries the cases of the files that the file `list` names, and says how many there are and how many of them differ.
pub fn all<P: Program>(rt: &HostRuntime, program: &P) -> io::Result<Tally> {
    let list = fs::read_to_string(rt, "list")?;
    let mut tally = Tally::default();
    for name in list.lines() {
        try_file(rt, program, name, &mut tally)?;
    }
    let Tally { tried, differ } = tally;
    println!(rt; "{tried} cases, {differ} differ")?;
    Ok(tally)
}
