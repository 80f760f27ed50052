//! A case, line by line, and whether the program answers as it says.
use super::answer::{Outcome, answer};
use super::input::{changed, made};
use entry::Program;
use memchr::memmem::find;
use std::alloc::{AllocError, Global};
use std::{fs, io};

/// What is asked, and what of the answer is known.
#[derive(Drop)]
pub struct Case {
    words: Option<String>,
    input: Vec<u8>,
    status: u8,
    output: Vec<u8>,
    parts: Vec<String>,
    digest: Option<String>,
    notice: Option<String>,
}

/// A sum of bytes, FNV-1a of 64 bits, in hexadecimal digits.
pub fn digest_of(alloc: Global, bytes: &[u8]) -> Result<String, AllocError> {
    let mut sum: u64 = 0xcbf2_9ce4_8422_2325;
    for byte in bytes {
        sum = (sum ^ u64::from(*byte)).wrapping_mul(0x100_0000_01b3);
    }
    format!(in alloc; "{sum:x}")
}

impl Case {
    /// A case of which no line was read yet.
    pub fn new(alloc: Global) -> Case {
        Case {
            words: None,
            input: Vec::new(alloc),
            status: 0,
            output: Vec::new(alloc),
            parts: Vec::new(alloc),
            digest: None,
            notice: None,
        }
    }

    /// Whether no line said which words are given.
    pub fn asks_nothing(&self) -> bool {
        self.words.is_none()
    }

    /// Reads a line of the case, of this key, and says whether there is such a line.
    pub fn read_line<P: Program>(
        &mut self,
        rt: &HostRuntime,
        program: &P,
        key: &str,
        rest: &str,
    ) -> io::Result<bool> {
        Ok(
            self.read_input(rt, program, key, rest)?
                || self.read_wanted(rt.alloc(), program, key, rest)?,
        )
    }

    /// Whether the line says what is asked, which is then read.
    fn read_input<P: Program>(
        &mut self,
        rt: &HostRuntime,
        program: &P,
        key: &str,
        rest: &str,
    ) -> io::Result<bool> {
        let alloc = rt.alloc();
        match key {
            "words" => self.words = Some(String::from_str(alloc, rest)?),
            "text" => {
                self.input.extend_from_slice(rest.as_bytes())?;
                self.input.push(b'\n')?;
            }
            "part" => self.input.extend_from_slice(rest.as_bytes())?,
            "through" => {
                let input = self.input.to_vec(alloc)?;
                self.input = answer(alloc, program, rest, input)?.output;
            }
            "make" => match made(alloc, program, &fs::read(rt, rest)?)? {
                Some(bytes) => self.input.extend_from_slice(&bytes)?,
                None => return Ok(false),
            },
            "bytes" => match made(alloc, program, rest.as_bytes())? {
                Some(bytes) => self.input.extend_from_slice(&bytes)?,
                None => return Ok(false),
            },
            "cut" => match rest.parse::<usize>() {
                Ok(length) => self.input.truncate(length),
                Err(_) => return Ok(false),
            },
            "change" | "fill" | "repeat" => {
                return Ok(changed(alloc, program, &mut self.input, key, rest)?);
            }
            _ => return Ok(false),
        }
        Ok(true)
    }

    /// Whether the line says what is answered, which is then read.
    fn read_wanted<P: Program>(
        &mut self,
        alloc: Global,
        program: &P,
        key: &str,
        rest: &str,
    ) -> Result<bool, AllocError> {
        match key {
            "status" => match rest.parse::<u8>() {
                Ok(status) => self.status = status,
                Err(_) => return Ok(false),
            },
            "output" => {
                self.output.extend_from_slice(rest.as_bytes())?;
                self.output.push(b'\n')?;
            }
            "refused" => {
                self.status = 1;
                self.output
                    .extend_from_slice(format!(in alloc; "refused {rest}\n")?.as_bytes())?;
            }
            "output-bytes" => match made(alloc, program, rest.as_bytes())? {
                Some(bytes) => self.output.extend_from_slice(&bytes)?,
                None => return Ok(false),
            },
            "has" => self.parts.push(String::from_str(alloc, rest)?)?,
            "digest" => self.digest = Some(String::from_str(alloc, rest)?),
            "notice" => match &mut self.notice {
                Some(notice) => {
                    notice.push('\n')?;
                    notice.push_str(rest)?;
                }
                None => self.notice = Some(String::from_str(alloc, rest)?),
            },
            _ => return Ok(false),
        }
        Ok(true)
    }

    /// Whether the output is as the case says: the whole of it, or parts of it, or its digest.
    fn is_output(&self, alloc: Global, output: &[u8]) -> Result<bool, AllocError> {
        for part in &self.parts {
            if find(output, part.as_bytes()).is_none() {
                return Ok(false);
            }
        }
        if let Some(digest) = &self.digest {
            return Ok(digest_of(alloc, output)?.as_str() == digest.as_str());
        }
        Ok(!self.parts.is_empty() || output == self.output.as_slice())
    }

    /// What the program answers, where it doesn't answer as the case says. Lines without words ask nothing.
    pub fn difference<P: Program>(
        self,
        alloc: Global,
        program: &P,
    ) -> Result<Option<Outcome>, AllocError> {
        let Some(words) = &self.words else {
            return Ok(None);
        };
        let input = self.input.to_vec(alloc)?;
        let got = answer(alloc, program, words.as_str(), input)?;
        let is_noticed = match &self.notice {
            Some(notice) => notice.as_str() == got.notice.as_str(),
            None => true,
        };
        let same = is_noticed && got.status == self.status && self.is_output(alloc, &got.output)?;
        Ok(if same { None } else { Some(got) })
    }
}
