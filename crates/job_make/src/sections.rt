//! The sections of a text, by their names.
ghost use Rattle.std.specs.Prelude.{◌≡◌};
ghost use Rattle.job_make.specs.Made.{number_said};
ghost use Rattle.job_make.specs.Seen.{sections_in};

use crate::fault::Mistake;
use crate::words::number_named;
use std::collections::BTreeMap;

/// A section: the number of the line that names it, and how many bytes the lines behind that one give.
#[derive(Clone, Copy)]
pub struct Section {
    pub line: usize,
    pub size: usize,
}

/// The sections of a text by their names; or, while bytes are counted, one of any name.
#[derive(Drop)]
pub enum Sections<'a> {
    Any,
    Of(BTreeMap<&'a [u8], Section>),
}

impl<'a> Sections<'a> {
    /// The section of a name.
    pub fn find(&self, name: &[u8]) -> Option<Section>
        ensures { result ≡ sections_in self.now name.now }
    {
        match self {
            Sections::Any => Some(Section { line: 0, size: 0 }),
            Sections::Of(by_name) => by_name.get(name).copied(),
        }
    }

    /// The number that a text names, or behind `len:` the length of the section of that name.
    #[tactic(auto, unfolding(crate::specs::Made::number_said))]
    pub fn number_said(&self, text: &[u8]) -> Result<usize, Mistake>
        ensures { result ≡ number_said (sections_in self.now) text.now }
    {
        let Some(name) = text.strip_prefix(b"len:") else {
            return number_named(text).ok_or(Mistake::WrongNumber);
        };
        match self.find(name) {
            Some(section) => Ok(section.size),
            None => Err(Mistake::UnknownSection),
        }
    }
}
