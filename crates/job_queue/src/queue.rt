//! The queue.
ghost use Rattle.std.specs.Prelude.{◌≡◌, ◌≤◌, ◌<◌, ◌^◌, ◌++◌, length, IfOk, IfNone, None, IsErr};
ghost use Rattle.job_queue.specs.Past.{none_yet, submit_answer, start_answer, bin_answer, render_answer, after_submit, after_start, after_bin, after_render};
ghost use Rattle.job_queue.specs.Past.{first_unknown as unknown};
ghost use Rattle.job_queue.specs.Desk.{Agrees, Answers, greatest, writers_after};
ghost use Rattle.job_queue.specs.Laws.{StartsLate};

use field_words::NoMemory;
use std::alloc::Global;
use std::marker::Model;

/// The most jobs that haven't rendered.
const MOST_WAITING: u64 = 4096;

/// Why a call was refused. A refusal changes nothing.
#[derive(Clone, Copy, Debug, PartialEq, Eq)]
pub enum QueueFault {
    /// A number that is no buffer's: the first such of a job's reads, and then of its writes.
    Unknown { buffer: u32 },
    /// 4,096 jobs haven't rendered.
    Full,
    /// This job is binning.
    Binning { job: u64 },
    /// Each submitted job was started.
    NoJob,
    /// This job writes a buffer that the next one reads, and hasn't rendered; it is the last such job.
    Waits { writer: u64 },
    /// No job is binning.
    NotBinning,
    /// Each binned job has rendered.
    NotBinned,
}

/// Jobs in order, each with the buffers that it reads and writes. Jobs count from 1.
#[derive(Drop)]
pub struct Queue {
    writers: Vec<u64>,
    waits: Vec<u64>,
    submitted: u64,
    started: u64,
    binned: u64,
    rendered: u64,
}

impl Model for Queue {
    ghost use Rattle.std.specs.Prelude.{◌≡◌, ◌≤◌, length};
    ghost use Rattle.job_queue.specs.Desk.{Desk, IsSound};

    ghost Value = { Desk };

    ghost view = { λ q. record {
      writers = q.writers.items;
      waits = q.waits.items;
      submitted = q.submitted;
      started = q.started;
      binned = q.binned;
      rendered = q.rendered;
    } };

    ghost invariant = { λ q. IsSound q.waits.items q.submitted q.started q.binned q.rendered };
}

// The first of these numbers that is no buffer's.
#[tactic(auto, using(crate::proofs::Loops::unknown_more, crate::proofs::Loops::unknown_end))]
fn first_unknown(numbers: &[u32], buffers: usize) -> Option<u32>
    ensures { result ≡ unknown buffers numbers.now }
{
    for number in numbers {
        if *number as usize >= buffers {
            return Some(*number);
        }
    }
    None
}

// The first number among what a job reads, and then what it writes, that is no buffer's.
#[tactic(auto, using(crate::proofs::Loops::unknown_front, crate::proofs::Loops::unknown_back))]
fn unknown_buffer(writers: &[u64], reads: &[u32], writes: &[u32]) -> Option<u32>
    ensures first { result ≡ unknown (length writers.now) (reads.now ++ writes.now) }
    ensures reads { IfNone result (unknown (length writers.now) reads.now ≡ None) }
    ensures writes { IfNone result (unknown (length writers.now) writes.now ≡ None) }
{
    match first_unknown(reads, writers.len()) {
        Some(buffer) => Some(buffer),
        None => first_unknown(writes, writers.len()),
    }
}

// The last job that writes one of these buffers, or 0.
#[tactic(auto, using(crate::proofs::Loops::known_here, crate::proofs::Loops::greatest_end))]
fn last_writer(writers: &[u64], reads: &[u32]) -> u64
    requires { unknown (length writers.now) reads.now ≡ None }
    ensures { result ≡ greatest writers.now 0 reads.now }
{
    let mut last = 0;
    for buffer in reads {
        let writer = writers[*buffer as usize];
        if writer > last {
            last = writer;
        }
    }
    last
}

// The job becomes the last writer of these buffers.
#[tactic(auto, using(crate::proofs::Loops::known_here))]
fn set_writer(writers: &mut [u64], writes: &[u32], job: u64)
    requires { unknown (length writers.old) writes.now ≡ None }
    ensures { writers.new ≡ writers_after writers.old writes.now job }
{
    for buffer in writes {
        writers[*buffer as usize] = job;
    }
}

impl Queue {
    /// A queue without jobs, for jobs on this many buffers.
    pub fn new(alloc: Global, buffers: u32) -> Result<Queue, NoMemory>
        requires { buffers ≤ 1024 }
        ensures { IfOk result (λ queue. Agrees (none_yet buffers) queue) }
    {
        let writers = vec![in alloc; 0u64; buffers as usize]?;
        let waits = vec![in alloc; 0u64; MOST_WAITING as usize]?;
        Ok(Queue {
            writers,
            waits,
            submitted: 0,
            started: 0,
            binned: 0,
            rendered: 0,
        })
    }

    /// Takes a job in, and gives its number. Refused are, in this order: a job that names a number that is no buffer's; a job while
    /// 4,096 jobs haven't rendered. It takes no memory.
    pub fn submit(&mut self, reads: &[u32], writes: &[u32]) -> Result<u64, QueueFault>
        requires { self.old.submitted < 2 ^ 63 }
        ensures answers { Answers (λ past. submit_answer past reads.now writes.now)
            (λ past. after_submit past reads.now writes.now) result self.old self.new }
        ensures same { IsErr result → self.new ≡ self.old }
    {
        if let Some(buffer) = unknown_buffer(&self.writers, reads, writes) {
            return Err(QueueFault::Unknown { buffer });
        }
        if self.submitted - self.rendered >= MOST_WAITING {
            return Err(QueueFault::Full);
        }
        let last = last_writer(&self.writers, reads);
        self.waits[(self.submitted % MOST_WAITING) as usize] = last;
        self.submitted += 1;
        set_writer(&mut self.writers, writes, self.submitted);
        Ok(self.submitted)
    }

    /// Starts binning the least job that wasn't started, and gives its number. Refused are, in this order: while a job is binning;
    /// where each job was started; while an earlier job that writes a buffer which this one reads hasn't rendered. It takes no
    /// memory.
    pub fn start(&mut self) -> Result<u64, QueueFault>
        ensures answers { Answers start_answer after_start result self.old self.new }
        ensures same { IsErr result → self.new ≡ self.old }
    {
        if self.started > self.binned {
            return Err(QueueFault::Binning { job: self.started });
        }
        if self.started == self.submitted {
            return Err(QueueFault::NoJob);
        }
        let writer = self.waits[(self.started % MOST_WAITING) as usize];
        if writer > self.rendered {
            return Err(QueueFault::Waits { writer });
        }
        self.started += 1;
        Ok(self.started)
    }

    /// Ends the binning, and gives the job's number. It is refused where none is binning. It takes no memory.
    pub fn bin_done(&mut self) -> Result<u64, QueueFault>
        ensures answers { Answers bin_answer after_bin result self.old self.new }
        ensures same { IsErr result → self.new ≡ self.old }
    {
        if self.started == self.binned {
            return Err(QueueFault::NotBinning);
        }
        self.binned = self.started;
        Ok(self.binned)
    }

    /// Says that the least binned job that hasn't rendered has rendered, and gives its number. It is refused where each binned job
    /// has. It takes no memory.
    pub fn render_done(&mut self) -> Result<u64, QueueFault>
        ensures answers { Answers render_answer after_render result self.old self.new }
        ensures same { IsErr result → self.new ≡ self.old }
    {
        if self.rendered == self.binned {
            return Err(QueueFault::NotBinned);
        }
        self.rendered += 1;
        Ok(self.rendered)
    }
}

/// A law: where a job is started, each earlier job that writes a buffer which this one reads has rendered.
pub fn starts_late()
    ensures { StartsLate }
{}
