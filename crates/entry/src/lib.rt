//! The way from a program's `main` to its end: the words after its name, standard input or files as sources, standard output as a sink,
//! a line on standard error where there is something to say, and the status.
#![tactic(auto)]

ghost use Rattle.std.specs.Prelude.{◌≡◌, ◌≢◌, ◌≤◌, ℕ, length, List, String, Option, None, IfErr};
ghost use Rattle.std.specs.declared.alloc.Global.{Global};
ghost use Rattle.std.specs.IoError.{error_kind};
ghost use Rattle.std.specs.Process.{exit_status};
ghost use Rattle.std.specs.declared.io.ErrorKind.TheVariants.{OutOfMemory};

use job_io::{ReaderSource, Sink, Source, WriterSink};
use std::alloc::{AllocError, Global};
use std::fs::File;
use std::io::{Eprint, IsTerminal, Read, Stderr, Write};
use std::process::{ExitCode, Termination};
use std::time::Instant;
use std::{env, fmt, fs, io};

/// What the ends of the program are called where no file is named.
const STDIN: &str = "standard input";

const STDOUT: &str = "standard output";

/// What wipes a terminal's line from the cursor on.
const WIPE: &str = "\x1b[K";

/// How a run ended: its status, and why, where there is something to say.
#[derive(Clone, Copy, Debug, Drop)]
pub struct Ended<C> {
    pub status: u8,
    pub cause: Option<C>,
}

impl<C> Ended<C> {
    /// An end of which there is no more to say than its status does.
    pub fn silent(status: u8) -> Ended<C>
        ensures { result ≡ record { status = status; cause = None } }
    {
        Ended {
            status,
            cause: None,
        }
    }
}

/// A program over any source and sink.
pub trait Program {
    ghost use Rattle.entry.specs.declared.Ended.{Ended};

    /// Why a run ended as it did, as a line without a line feed.
    type Cause: fmt::Display + Drop;

    /// What a run with these words does: between a source's state before and behind it, of which are known the bytes to come and how often
    /// it failed, a sink's, of which are known the bytes taken and how often it failed, and its end.
    ghost does: { (X Y : Type 0) → List (String Global)
        → (X → Option (List ℕ)) → (X → ℕ) → X → X → (Y → Option (List ℕ)) → (Y → ℕ) → Y → Y
        → Ended Self.Cause → Type 0 };

    /// What holds whatever a run is given.
    ghost promises: { Type 0 };

    /// The program's name, with which its lines begin.
    fn name(&self) -> &'static str;

    /// How many of the last of these words are names of files, which are to be read in place of standard input one after the other.
    fn name_count(&self, words: &Vec<String>) -> usize
        ensures { result ≤ length words.now.items };

    /// Whether any number of names of files, and of folders, may stand behind these words.
    fn takes_several(&self, words: &Vec<String>) -> bool;

    /// What stands before the output for the file of this name, which is one of so many: it is written where there is an output.
    fn heading(
        &self,
        alloc: Global,
        words: &Vec<String>,
        name: &str,
        count: usize,
    ) -> Result<Vec<u8>, AllocError>;

    /// Whether the third of these words is the name of a file that the output goes to, where the status is 0.
    fn names_output(&self, words: &Vec<String>) -> bool;

    /// How much input is more than a run with these words takes.
    fn excess(&self, words: &Vec<String>) -> &'static str;

    /// Does what the words ask for, and says how it ended.
    fn run<S: Source, K: Sink>(
        &self,
        alloc: Global,
        words: &Vec<String>,
        source: &mut S,
        sink: &mut K,
    ) -> Ended<Self::Cause>
        ensures { does _ _ words.now.items
            S.left S.faults source.old source.new K.held K.faults sink.old sink.new result };

    /// What a status says to a person where the run gave no cause.
    fn notice(&self, status: u8) -> Option<&'static str>;

    /// A law: what it promises holds.
    fn promised(&self)
        ensures { promises };
}

/// A reader or a writer, of which it is kept how it failed last.
#[derive(Drop)]
struct Watched<T> {
    inner: T,
    failure: Option<io::Error>,
}

impl<T> Watched<T> {
    fn new(inner: T) -> Watched<T> {
        Watched {
            inner,
            failure: None,
        }
    }

    /// Keeps the failure of this call, where it failed.
    fn note<V>(&mut self, done: &io::Result<V>) {
        if let Err(error) = done {
            self.failure = Some(*error);
        }
    }
}

impl<R: Read> Read for Watched<R> {
    fn read(&mut self, buf: &mut [u8]) -> io::Result<usize> {
        let done = self.inner.read(buf);
        self.note(&done);
        done
    }
}

impl<W: Write> Write for Watched<W> {
    fn write(&mut self, bytes: &[u8]) -> io::Result<usize> {
        let done = self.inner.write(bytes);
        self.note(&done);
        done
    }

    fn flush(&mut self) -> io::Result<()> {
        let done = self.inner.flush();
        self.note(&done);
        done
    }
}

/// The words after the program's name.
fn words(rt: &HostRuntime) -> io::Result<Vec<String>> {
    Ok(env::args(rt)?.skip(1).collect(rt.alloc())?)
}

/// Says on standard error what a status means. Where that fails there is nobody to tell.
fn tell_notice<P: Program>(rt: &HostRuntime, program: &P, status: u8) {
    if let Some(notice) = program.notice(status) {
        let _ = rt.eprintln(notice);
    }
}

/// Says on standard error what a status means, and answers it.
fn fail_with<P: Program>(rt: &HostRuntime, program: &P, status: u8) -> u8
    ensures { result ≡ status }
{
    tell_notice(rt, program, status);
    status
}

/// Whether the reader of standard output has gone, which is no news to anybody.
fn is_gone(failure: Option<io::Error>) -> bool {
    failure.is_some_and(|error| error.kind() == io::ErrorKind::BrokenPipe)
}

/// A writer that writes these bytes before the first that it is given, and before them what wipes a line on standard error.
#[derive(Drop)]
struct Headed<W> {
    inner: W,
    heading: Vec<u8>,
    stderr: Stderr,
    wipe: &'static str,
}

impl<W: Write> Write for Headed<W> {
    fn write(&mut self, bytes: &[u8]) -> io::Result<usize> {
        let _ = self.stderr.eprint(self.wipe);
        self.wipe = "";
        self.inner.write_all(&self.heading)?;
        self.heading.clear();
        self.inner.write(bytes)
    }

    fn flush(&mut self) -> io::Result<()> {
        self.inner.flush()
    }
}

/// A program that is to be run on a file, which is one of so many: its words, and the file's name, or `-` for standard input; and how many
/// files are done since when.
#[derive(Drop)]
struct Turn<'a, P> {
    rt: &'a HostRuntime,
    program: &'a P,
    words: &'a Vec<String>,
    name: &'a str,
    count: usize,
    done: usize,
    began: io::Result<Instant>,
}

impl<'a, P: Program> Turn<'a, P> {
    /// What the file is called in a line for a person.
    fn input(&self) -> &'a str {
        if self.name == "-" {
            return STDIN;
        }
        self.name
    }

    /// Says what is wrong with the file, or with an end of the program.
    fn tell_of<D: fmt::Display + Drop>(&self, name: &str, reason: D) {
        let _ = eprintln!(self.rt; "{}: {name}: {reason}", self.program.name());
    }

    /// Says of the file, or of an end of the program, how it failed; or where that isn't known what the status means.
    fn tell_failure(&self, name: &str, failure: Option<io::Error>, status: u8) {
        match failure {
            Some(error) => self.tell_of(name, error),
            None => tell_notice(self.rt, self.program, status),
        }
    }

    /// Says why the run ended as it did, of which of several files.
    fn tell_cause(&self, cause: P::Cause) {
        let _ = if self.count > 1 {
            eprintln!(self.rt; "{}: {cause}", self.input())
        } else {
            self.rt.eprintln(cause)
        };
    }

    /// Says on a terminal how many files are done where that took over a second, and answers what wipes this line, over which the next
    /// is written.
    fn show_progress(&self) -> io::Result<&'static str> {
        if self.began?.elapsed(self.rt)?.as_secs() == 0 || !self.rt.stderr().is_terminal() {
            return Ok("");
        }
        eprint!(self.rt; "{} of {} files\r", self.done, self.count)?;
        Ok(WIPE)
    }

    /// Runs the program over this reader and a writer, and says what there is to say. A reader of standard output that has enough learns
    /// nothing.
    fn run_between<R: Read + Drop, W: Write + Drop>(&self, reader: R, writer: W) -> u8 {
        let rt = self.rt;
        let named = self
            .program
            .heading(rt.alloc(), self.words, self.name, self.count);
        let Ok(heading) = named else {
            return fail_with(rt, self.program, 5);
        };
        let wipe = self.show_progress().unwrap_or("");
        let mut input = Watched::new(reader);
        let mut output = Watched::new(Headed {
            inner: writer,
            heading,
            stderr: rt.stderr(),
            wipe,
        });
        let mut source = ReaderSource::new(&mut input);
        let mut sink = WriterSink::new(&mut output);
        let ended = self
            .program
            .run(rt.alloc(), self.words, &mut source, &mut sink);
        let _ = rt.eprint(wipe);
        let Ended { status, cause } = ended;
        match (cause, status) {
            (Some(cause), _) => self.tell_cause(cause),
            (None, _) if is_gone(output.failure) => {}
            (None, 3) => self.tell_failure(self.input(), input.failure, status),
            (None, 4) => self.tell_failure(STDOUT, output.failure, status),
            (None, 6) => self.tell_of(self.input(), self.program.excess(self.words)),
            (None, _) => tell_notice(rt, self.program, status),
        }
        status
    }

    /// Puts the output of a run into the file of this name where the status is 0, and else on standard output. It says the status, which
    /// is 4 where that failed.
    fn deliver(&self, to: &str, output: &Vec<u8>, status: u8) -> u8 {
        let (place, done) = if status == 0 {
            (to, fs::write(self.rt, to, output.as_slice()))
        } else {
            (STDOUT, self.rt.stdout().write_all(output))
        };
        match done {
            Ok(()) => status,
            Err(error) => {
                self.tell_of(place, error);
                4
            }
        }
    }

    /// Runs the program over this reader, with standard output as its sink, or the file that the words name.
    fn run_on<R: Read + Drop>(&self, reader: R) -> u8 {
        match self.words.get(2) {
            Some(to) if self.program.names_output(self.words) => {
                let mut output = Vec::new(self.rt.alloc());
                let status = self.run_between(reader, &mut output);
                self.deliver(to, &output, status)
            }
            _ => self.run_between(reader, self.rt.stdout()),
        }
    }

    /// Runs the program on the file. One that can't be opened is status 3.
    fn run(&self) -> u8 {
        if self.name == "-" {
            return self.run_on(self.rt.stdin());
        }
        match File::open(self.rt, self.name) {
            Ok(file) => self.run_on(file),
            Err(error) => {
                self.tell_of(self.name, error);
                3
            }
        }
    }
}

/// Whether this is the name of a folder.
fn is_folder(rt: &HostRuntime, name: &str) -> bool {
    fs::metadata(rt, name).is_ok_and(|metadata| metadata.is_dir())
}

/// The files of a folder in order of their names, each with the folder before it, without those of folders in it.
fn files_of(rt: &HostRuntime, folder: &str) -> io::Result<Vec<String>> {
    let mut files = Vec::new(rt.alloc());
    for entry in fs::read_dir(rt, folder)? {
        let entry = entry?;
        let path = entry.path().as_str();
        if !is_folder(rt, path) {
            files.push(String::from_str(rt.alloc(), path)?)?;
        }
    }
    files.sort()?;
    Ok(files)
}

/// The names of files in order, where a folder that can be listed stands for its files.
fn files_named(rt: &HostRuntime, names: Vec<String>) -> io::Result<Vec<String>> {
    let mut files = Vec::new(rt.alloc());
    for name in names {
        match files_of(rt, &name) {
            Ok(mut found) if name.as_str() != "-" => files.append(&mut found)?,
            _ => files.push(name)?,
        }
    }
    Ok(files)
}

/// Runs the program on the file of each of these names, one after the other, and says the greatest status.
fn run_on_each<P: Program>(
    rt: &HostRuntime,
    program: &P,
    words: &Vec<String>,
    names: &Vec<String>,
) -> u8 {
    let began = Instant::now(rt);
    let mut greatest = 0;
    for (done, name) in names.iter().enumerate() {
        let turn = Turn {
            rt,
            program,
            words,
            name,
            count: names.len(),
            done,
            began,
        };
        greatest = greatest.max(turn.run());
    }
    greatest
}

/// The status of a program whose words can't be read: 5 where memory ran out before they were there, and 2 where they aren't text.
fn wordless(error: &io::Error) -> u8
    ensures starved { error_kind error.now ≡ OutOfMemory → result ≡ 5 }
    ensures garbled { error_kind error.now ≢ OutOfMemory → result ≡ 2 }
{
    if error.kind() == io::ErrorKind::OutOfMemory {
        return 5;
    }
    2
}

/// Takes the names of files from the end of the words: `-` where there are none, and for a folder its files where the words take several.
fn take_names<P: Program>(
    rt: &HostRuntime,
    program: &P,
    words: &mut Vec<String>,
) -> io::Result<Vec<String>> {
    let start = words.len() - program.name_count(words);
    let mut names = words.split_off(start)?;
    if names.is_empty() {
        names.push(String::from_str(rt.alloc(), "-")?)?;
    } else if program.takes_several(words) {
        return files_named(rt, names);
    }
    Ok(names)
}

/// Runs the program with these words over standard input, or over the files that the last of them name, and says the greatest status.
fn run_on_words<P: Program>(rt: &HostRuntime, program: &P, mut words: Vec<String>) -> u8 {
    match take_names(rt, program, &mut words) {
        Ok(names) => run_on_each(rt, program, &words, &names),
        Err(_) => fail_with(rt, program, 5),
    }
}

/// Runs the program, with these words, over standard input, or over the files that the last of them name, and standard output.
fn run_with<P: Program>(rt: &HostRuntime, program: &P, words: io::Result<Vec<String>>) -> u8
    ensures starved { IfErr words (λ e. error_kind e ≡ OutOfMemory → result ≡ 5) }
    ensures garbled { IfErr words (λ e. error_kind e ≢ OutOfMemory → result ≡ 2) }
{
    match words {
        Ok(words) => run_on_words(rt, program, words),
        Err(error) => fail_with(rt, program, wordless(&error)),
    }
}

/// The end of a program that was run. `run` alone makes one: so a `main` that has one ran its program, and the process ends with that
/// run's status.
#[derive(Debug, Drop)]
pub struct Ran {
    status: u8,
}

impl Termination for Ran {
    /// The run's status.
    fn report<R: Eprint>(self, _rt: &R) -> ExitCode
        ensures { exit_status result ≡ self.status }
    {
        ExitCode::from(self.status)
    }
}

/// Runs the program over standard input, or over the files that its last words name, one after the other, and standard output. The status
/// is the greatest of these runs. It is 5 where memory ran out before the words were there, and 2 where they aren't text.
/// Where several files take over a second, standard error shows how many are done, if it is a terminal.
pub fn run<P: Program>(rt: &HostRuntime, program: &P) -> Ran
    ensures { P.promises }
{
    program.promised();
    Ran {
        status: run_with(rt, program, words(rt)),
    }
}
