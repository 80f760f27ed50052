//! A job file whose contents and lists are slices: of the file's bytes, or of whatever holds them.
ghost use Rattle.std.specs.Prelude.{◌≡◌, map, IfOk};
ghost use Rattle.job_format.specs.Model.{job_view, file_view};
ghost use Rattle.job_format.specs.Parts.{numbers_in, job_parts_view, parts_view};

use crate::file::{Frame, Job, JobFile};
use buffer_table::{Buffer, Regions};
use field_words::NoMemory;
use std::alloc::{AllocError, Global};

/// Numbers of buffers: a slice of whatever holds them, or a list of their own where they were read from bytes.
#[derive(Debug, Drop)]
pub enum Numbers<'a> {
    Lent(&'a [u32]),
    Own(Vec<u32>),
}

impl<'a> Numbers<'a> {
    /// The numbers.
    pub fn as_slice(&self) -> &[u32]
        ensures { result.now ≡ numbers_in self.now }
    {
        match self {
            Numbers::Lent(numbers) => numbers,
            Numbers::Own(numbers) => numbers,
        }
    }
}

/// A job as `Job` is, whose lists are slices.
#[derive(Debug, Drop)]
pub struct JobParts<'a> {
    pub client: u32,
    pub handles: Numbers<'a>,
    pub bin: &'a [u8],
    pub records: &'a [u8],
    pub declared: u32,
    pub uniforms: &'a [u8],
    pub frame: Frame,
}

/// A job file as `JobFile` is, whose contents and lists are slices.
#[derive(Debug, Drop)]
pub struct FileParts<'a> {
    pub version: u32,
    pub mem_size: u32,
    pub regions: Regions,
    pub buffers: Vec<Buffer>,
    pub contents: Vec<&'a [u8]>,
    pub jobs: Vec<JobParts<'a>>,
}

/// A copy of each slice.
fn copied(alloc: Global, contents: &[&[u8]]) -> Result<Vec<Vec<u8>>, AllocError>
    ensures { IfOk result (λ v. map (λ c. c.items) v.items ≡ map (λ c. c.now) contents.now) }
{
    let mut copies = Vec::with_capacity(alloc, contents.len())?;
    for content in contents {
        copies.push(Vec::from_slice(alloc, content)?)?;
    }
    Ok(copies)
}

/// A job with lists of its own.
fn job_of(alloc: Global, job: &JobParts) -> Result<Job, AllocError>
    ensures { IfOk result (λ j. job_view j ≡ job_parts_view job.now) }
{
    Ok(Job {
        client: job.client,
        handles: Vec::from_slice(alloc, job.handles.as_slice())?,
        bin: Vec::from_slice(alloc, job.bin)?,
        records: Vec::from_slice(alloc, job.records)?,
        declared: job.declared,
        uniforms: Vec::from_slice(alloc, job.uniforms)?,
        frame: job.frame,
    })
}

/// Copies of all jobs.
fn jobs_of(alloc: Global, jobs: &[JobParts]) -> Result<Vec<Job>, AllocError>
    ensures { IfOk result (λ v. map job_view v.items ≡ map job_parts_view jobs.now) }
{
    let mut copies = Vec::with_capacity(alloc, jobs.len())?;
    for job in jobs {
        copies.push(job_of(alloc, job)?)?;
    }
    Ok(copies)
}

impl<'a> FileParts<'a> {
    /// The file with contents and lists of its own.
    pub fn to_file(&self, alloc: Global) -> Result<JobFile, NoMemory>
        ensures { IfOk result (λ f. file_view f ≡ parts_view self.now) }
    {
        Ok(JobFile {
            version: self.version,
            mem_size: self.mem_size,
            regions: self.regions,
            buffers: Vec::from_slice(alloc, &self.buffers)?,
            contents: copied(alloc, &self.contents)?,
            jobs: jobs_of(alloc, &self.jobs)?,
        })
    }
}

/// Each list of bytes as a slice.
fn lent<'a>(alloc: Global, contents: &'a [Vec<u8>]) -> Result<Vec<&'a [u8]>, AllocError>
    ensures { IfOk result (λ v. map (λ c. c.now) v.items ≡ map (λ c. c.items) contents.now) }
{
    let mut slices: Vec<&'a [u8]> = Vec::with_capacity(alloc, contents.len())?;
    for content in contents {
        slices.push(content)?;
    }
    Ok(slices)
}

/// A job whose lists are lent.
fn parts_of_job<'a>(job: &'a Job) -> JobParts<'a>
    ensures { job_parts_view result ≡ job_view job.now }
{
    JobParts {
        client: job.client,
        handles: Numbers::Lent(&job.handles),
        bin: &job.bin,
        records: &job.records,
        declared: job.declared,
        uniforms: &job.uniforms,
        frame: job.frame,
    }
}

/// The parts of all jobs.
fn parts_of_jobs<'a>(alloc: Global, jobs: &'a [Job]) -> Result<Vec<JobParts<'a>>, AllocError>
    ensures { IfOk result (λ v. map job_parts_view v.items ≡ map job_view jobs.now) }
{
    let mut parts = Vec::with_capacity(alloc, jobs.len())?;
    for job in jobs {
        parts.push(parts_of_job(job))?;
    }
    Ok(parts)
}

impl JobFile {
    /// The file whose contents and lists are lent.
    pub fn parts<'a>(&'a self, alloc: Global) -> Result<FileParts<'a>, NoMemory>
        ensures { IfOk result (λ f. parts_view f ≡ file_view self.now) }
    {
        Ok(FileParts {
            version: self.version,
            mem_size: self.mem_size,
            regions: self.regions,
            buffers: Vec::from_slice(alloc, &self.buffers)?,
            contents: lent(alloc, &self.contents)?,
            jobs: parts_of_jobs(alloc, &self.jobs)?,
        })
    }
}
