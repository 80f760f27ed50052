//! The session: one memory, and each client's buffers in it.
ghost use Rattle.std.specs.Prelude.{◌≡◌, ◌≤◌, ◌<◌, ◌+◌, ◌*◌, ◌++◌, ℕ, List, length, replicate, IfOk, IfErr, IfSome, OnOk, Ok};
ghost use Rattle.field_words.specs.Sizes.{most_code};
ghost use Rattle.buffer_table.specs.declared.buffer.Kind.TheVariants.{Plain};
ghost use Rattle.session_pages.specs.Map.{first_place};
ghost use Rattle.job_session.specs.Own.{most_buffers};
ghost use Rattle.job_session.specs.Submit.{buffers_packed, content_of, all_contents, laid_in, contents_at};
ghost use Rattle.job_session.specs.Desk.{slot_count, slot_of, empty, least_id, page_total, held_in};
ghost use Rattle.job_session.specs.Desk.{new_id, after_place, create_answer, after_create, code_answer, after_code, free_answer, after_free};
ghost use Rattle.job_session.specs.Desk.{write_answer, after_write, read_answer, submit_answer, IsStop, IsRefusal};

use super::denied::Denied;
use super::job_file::job_file;
use super::rules::{check_file, check_shader};
use buffer_table::{Buffer, Kind};
use field_words::{NoMemory, PAGE_SIZE, Stop};
use session_pages::{FIRST_PLACE, Pages};
use std::alloc::Global;
use std::marker::Model;

/// How many buffers a client may have.
pub const MOST_BUFFERS: u32 = 64;

/// How many pages a buffer may have.
pub const MOST_PAGES: u32 = 1024;

/// How many bytes one read may ask for.
pub const MOST_READ: u32 = 256;

/// The memory, and for each slot the first page of its buffer, how many pages it has, and its kind. A client has 64 slots, one for
/// each id.
#[derive(Drop)]
pub struct Session {
    pages: Pages,
    firsts: [u32; 512],
    counts: [u32; 512],
    kinds: [Kind; 512],
}

impl Model for Session {
    ghost use Rattle.job_session.specs.Desk.{Desk, SlotsFit};

    ghost Value = { Desk };

    ghost view = { λ s. record { map = s.pages; firsts = s.firsts; counts = s.counts; kinds = s.kinds } };

    ghost invariant = { λ s. SlotsFit s.firsts s.counts };
}

// A zero for each slot.
fn none() -> [u32; 512]
    ensures { result ≡ replicate slot_count 0 }
{
    [0; 512]
}

// The kind of each slot before a buffer lives there.
fn plain() -> [Kind; 512]
    ensures { result ≡ replicate slot_count Plain }
{
    [Kind::Plain; 512]
}

// Where the slot of a client's buffer stands.
fn slot(client: u8, id: u32) -> usize
    requires client { client < 8 }
    requires id { id < 64 }
    ensures { result ≡ slot_of client id }
{
    64 * client as usize + id as usize
}

// The least id that the client doesn't use.
fn free_id(counts: &[u32; 512], client: u8) -> Option<u32>
    requires { client < 8 }
    ensures first { result ≡ least_id counts.now client }
    ensures inside { IfSome result (λ id. id < 64) }
{
    for id in 0..MOST_BUFFERS {
        if counts[slot(client, id)] == 0 {
            return Some(id);
        }
    }
    None
}

// How many bytes a buffer of so many gives to the contents of a job's file.
fn content_size(kind: Kind, size: u32) -> u32
    ensures content { (bytes : List ℕ) → length bytes ≡ size
        → result ≡ length (content_of kind bytes) }
{
    match kind {
        Kind::Plain => 0,
        Kind::Code => size,
    }
}

impl Session {
    /// A session without buffers: all pages are free and zero. It may run out of memory.
    pub fn new(alloc: Global) -> Result<Session, NoMemory>
        ensures { IfOk result (λ session. session ≡ empty) }
    {
        Ok(Session {
            pages: Pages::new(alloc)?,
            firsts: none(),
            counts: none(),
            kinds: plain(),
        })
    }

    // A buffer of so many free pages, as they are, by its id. Refused are 4 and 6.
    fn place(&mut self, client: u8, pages: u32, kind: Kind) -> Result<u32, u8>
        requires client { client < 8 }
        requires some { 1 ≤ pages }
        ensures answer { result ≡ new_id self.old client pages }
        ensures left { self.new ≡ after_place self.old client pages kind result }
        ensures held { IfOk result (λ id. page_total self.new client id ≡ pages) }
        ensures inside { IfOk result (λ id. id < 64) }
    {
        let Some(id) = free_id(&self.counts, client) else {
            return Err(4);
        };
        let slot = slot(client, id);
        let Some(first) = self.pages.take(pages, (slot + 1) as u16) else {
            return Err(6);
        };
        self.firsts[slot] = first;
        self.counts[slot] = pages;
        self.kinds[slot] = kind;
        Ok(id)
    }

    /// Gives a client a buffer of so many zero pages, by its id. The first of these that is broken refuses it, and a refusal changes
    /// nothing: 5 where `pages` is 0 or over 1,024; 4 where the client has 64 buffers; 6 where no run of free pages is long enough.
    /// It takes no memory.
    pub fn create(&mut self, client: u8, pages: u32) -> Result<u32, u8>
        requires { client < 8 }
        ensures answer { result ≡ create_answer self.old client pages }
        ensures left { self.new ≡ after_create self.old client pages result }
    {
        if pages == 0 || pages > MOST_PAGES {
            return Err(5);
        }
        self.place(client, pages, Kind::Plain)
    }

    /// Gives a client a Code buffer of the least number of pages that holds these bytes, by its id. The rest of its pages is zero. The
    /// first broken rule of shaders refuses it, at 8 times the index of its instruction; and then 4 where the client has 64
    /// buffers, and 6 where no run of free pages is long enough. A refusal changes nothing. It may run out of memory, which changes
    /// nothing either.
    pub fn code(&mut self, alloc: Global, client: u8, bytes: &[u8]) -> Result<u32, Stop<Denied>>
        requires client { client < 8 }
        requires few { length bytes.now ≤ most_code }
        ensures made { IfOk result (λ id. code_answer self.old client bytes.now ≡ Ok id) }
        ensures refused { IfErr result (IsRefusal (code_answer self.old client bytes.now)) }
        ensures left { self.new ≡ after_code self.old client bytes.now result }
    {
        check_shader(alloc, bytes)?;
        let pages = bytes.len().div_ceil(PAGE_SIZE as usize) as u32;
        match self.place(client, pages, Kind::Code) {
            Ok(id) => {
                self.pages.write(self.firsts[slot(client, id)], 0, bytes);
                Ok(id)
            }
            Err(refusal) => Err(Stop::Fault(Denied::Session(refusal))),
        }
    }

    /// Frees a client's buffer; its pages are zero from then on. Refusal 1, where the client has no such buffer, changes nothing. It
    /// takes no memory.
    pub fn free(&mut self, client: u8, id: u32) -> Result<(), u8>
        requires { client < 8 }
        ensures answer { result ≡ free_answer self.old client id }
        ensures left { self.new ≡ after_free self.old client id }
    {
        if id >= MOST_BUFFERS || self.counts[slot(client, id)] == 0 {
            return Err(1);
        }
        let slot = slot(client, id);
        self.pages.give_back(self.firsts[slot], self.counts[slot]);
        self.counts[slot] = 0;
        Ok(())
    }

    /// Writes these bytes into a client's buffer from byte `at` on. The first of these that is broken refuses it, and a refusal changes
    /// nothing: 1 where the client has no such buffer, 3 where it is Code, 2 where they would end past its end. It takes no memory.
    pub fn write(&mut self, client: u8, id: u32, at: u32, part: &[u8]) -> Result<(), u8>
        requires { client < 8 }
        ensures answer { result ≡ write_answer self.old client id at (length part.now) }
        ensures left { self.new ≡ after_write self.old client id at part.now result }
    {
        if id >= MOST_BUFFERS || self.counts[slot(client, id)] == 0 {
            return Err(1);
        }
        let slot = slot(client, id);
        if let Kind::Code = self.kinds[slot] {
            return Err(3);
        }
        if u64::from(PAGE_SIZE * self.counts[slot]) < u64::from(at) + part.len() as u64 {
            return Err(2);
        }
        self.pages.write(self.firsts[slot], at, part);
        Ok(())
    }

    /// The `len` bytes of a client's buffer from byte `at` on. The first of these that is broken refuses it: 1 where the client has no
    /// such buffer, 2 where they would end past its end or are over 256. It may run out of memory.
    pub fn read(
        &self,
        alloc: Global,
        client: u8,
        id: u32,
        at: u32,
        len: u32,
    ) -> Result<Vec<u8>, Stop<u8>>
        requires { client < 8 }
        ensures read { IfOk result (λ bytes. read_answer self.now client id at len
            ≡ Ok bytes.items) }
        ensures refused { IfErr result (λ stop. IsStop stop
            (read_answer self.now client id at len)) }
    {
        if id >= MOST_BUFFERS || self.counts[slot(client, id)] == 0 {
            return Err(Stop::Fault(1));
        }
        let slot = slot(client, id);
        if len > MOST_READ
            || u64::from(PAGE_SIZE * self.counts[slot]) < u64::from(at) + u64::from(len)
        {
            return Err(Stop::Fault(2));
        }
        Ok(self.pages.read(alloc, self.firsts[slot], at, len)?)
    }

    /// Checks a client's job, and doesn't run it. `parts` is the job's entry of 124 bytes, its handles, its binner list, its records and
    /// its uniforms. It is asked of the file of version 2 that holds the client's live buffers in order of id, each directly behind the
    /// one before, and this job of the client: its entry's client field is set as far as it is there. A Code buffer has all its bytes
    /// as contents there, and a data buffer none, so no content of data buffers is read.
    ///
    /// # Errors
    /// The first broken rule of that file, with its offset there; or want of memory.
    pub fn submit(&self, alloc: Global, client: u8, parts: &[u8]) -> Result<(), Stop<Denied>>
        requires { client < 8 }
        ensures accepted { IfOk result (λ done. submit_answer self.now client parts.now ≡ Ok done) }
        ensures refused { IfErr result (IsRefusal (submit_answer self.now client parts.now)) }
    {
        let file = job_file(alloc, self, client, parts)?;
        check_file(alloc, &file)
    }

    // A live buffer as the file of a job lists it, at this place.
    fn laid(&self, client: u8, id: u32, place: u32) -> Option<Buffer>
        requires client { client < 8 }
        requires id { id < 64 }
        ensures buffer { result ≡ laid_in client place (held_in self.now client id) }
        ensures size { IfSome result (λ buffer. buffer.size ≤ 16777216) }
    {
        let slot = slot(client, id);
        if self.counts[slot] == 0 {
            return None;
        }
        // Its pages are pages of the memory, which is as long as it always is.
        let _ = self.pages.size();
        let kind = self.kinds[slot];
        let size = PAGE_SIZE * self.counts[slot];
        Some(Buffer {
            place,
            size,
            client: u32::from(client),
            kind,
            content: content_size(kind, size),
        })
    }

    /// A client's live buffers as the file of a job lists them, each directly behind the one before.
    pub(crate) fn packed(&self, alloc: Global, client: u8) -> Result<Vec<Buffer>, NoMemory>
        requires { client < 8 }
        ensures all { IfOk result (λ buffers. buffers.items
            ≡ buffers_packed client (held_in self.now client) 0 most_buffers first_place) }
        ensures few { IfOk result (λ buffers. length buffers.items ≤ most_buffers) }
    {
        let mut buffers = Vec::new(alloc);
        let mut place = FIRST_PLACE;
        for id in 0..MOST_BUFFERS {
            if let Some(buffer) = self.laid(client, id, place) {
                place += buffer.size;
                buffers.push(buffer)?;
            }
        }
        Ok(buffers)
    }

    // Puts what a buffer gives to the contents of a job's file: all its bytes where it is Code.
    fn put_content(
        &self,
        alloc: Global,
        client: u8,
        id: u32,
        file: &mut Vec<u8>,
    ) -> Result<(), NoMemory>
        requires client { client < 8 }
        requires id { id < 64 }
        ensures { OnOk result (file.new.items ≡ file.old.items
            ++ contents_at (held_in self.now client id)) }
    {
        let slot = slot(client, id);
        if self.counts[slot] == 0 {
            return Ok(());
        }
        if let Kind::Code = self.kinds[slot] {
            let size = PAGE_SIZE * self.counts[slot];
            let bytes = self.pages.read(alloc, self.firsts[slot], 0, size)?;
            file.extend_from_slice(&bytes)?;
        }
        Ok(())
    }

    /// Puts the contents of a client's Code buffers, in order of id.
    pub(crate) fn put_contents(
        &self,
        alloc: Global,
        client: u8,
        file: &mut Vec<u8>,
    ) -> Result<(), NoMemory>
        requires { client < 8 }
        ensures { OnOk result (file.new.items ≡ file.old.items
            ++ all_contents (held_in self.now client)) }
    {
        for id in 0..MOST_BUFFERS {
            self.put_content(alloc, client, id, file)?;
        }
        Ok(())
    }
}
