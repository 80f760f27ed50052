//! The facts as a person reads them.
ghost use Rattle.std.specs.Prelude.{◌≡◌, Some};
ghost use Rattle.refusal_facts.specs.Text.{hex, item_name, item_text, off_text, client_text, owner_text, handle_text, address_text, cause_of, buffer_text, attribute_text, vertex_text, fact_text, facts_text};

use crate::fact::{AttributeFact, BufferFact, Facts, HandleFact, ItemFact, PastFact, VertexFact};
use field_words::PAGE_SIZE;
use std::fmt;

/// An item of the memory table by its number.
#[derive(Clone, Copy)]
struct ItemName {
    item: u64,
}

impl fmt::Display for ItemName {
    ghost output = { λ name. Some (item_name name.item) };

    #[tactic(auto, unfolding(crate::specs::Text::item_name))]
    fn fmt<W: fmt::Write>(&self, f: &mut fmt::Formatter<W>) -> fmt::Result {
        match self.item {
            0 => f.write_str("memory"),
            1 => f.write_str("lists' region"),
            2 => f.write_str("tile region"),
            item => write!(f, "buffer {}", item - 3),
        }
    }
}

impl fmt::Display for ItemFact {
    ghost output = { λ item. Some (item_text item) };

    #[tactic(auto, unfolding(crate::specs::Text::item_text, crate::specs::Text::hex))]
    fn fmt<W: fmt::Write>(&self, f: &mut fmt::Formatter<W>) -> fmt::Result {
        let name = ItemName { item: self.item };
        write!(f, "{}: place 0x{:x}, {} bytes", name, self.place, self.size)
    }
}

impl ItemFact {
    /// Which part of M2 is broken.
    #[tactic(auto, unfolding(crate::specs::Text::off_text))]
    fn off(&self) -> &'static str
        ensures { result.now ≡ off_text self.now }
    {
        let page = u64::from(PAGE_SIZE);
        if self.place % page != 0 {
            return "the place is no multiple of 4096";
        }
        if self.size % page != 0 {
            return "the size is no multiple of 4096";
        }
        "the size is 0"
    }
}

/// A buffer that is a client's.
#[derive(Clone, Copy)]
struct Owner {
    number: u32,
    client: u32,
}

impl fmt::Display for Owner {
    ghost output = { λ owner. Some (client_text owner.number owner.client) };

    #[tactic(auto, unfolding(crate::specs::Text::client_text))]
    fn fmt<W: fmt::Write>(&self, f: &mut fmt::Formatter<W>) -> fmt::Result {
        write!(f, "buffer {} is client {}'s", self.number, self.client)
    }
}

/// Whose buffer a number is.
#[derive(Clone, Copy)]
struct Owned {
    number: u32,
    owner: Option<u32>,
}

impl fmt::Display for Owned {
    ghost output = { λ owned. Some (owner_text owned.number owned.owner) };

    #[tactic(auto, unfolding(crate::specs::Text::owner_text))]
    fn fmt<W: fmt::Write>(&self, f: &mut fmt::Formatter<W>) -> fmt::Result {
        match self.owner {
            None => write!(f, "there is no buffer {}", self.number),
            Some(client) => {
                let owner = Owner {
                    number: self.number,
                    client,
                };
                write!(f, "{}", owner)
            }
        }
    }
}

impl fmt::Display for HandleFact {
    ghost output = { λ handle. Some (handle_text handle) };

    #[tactic(auto, unfolding(crate::specs::Text::handle_text))]
    fn fmt<W: fmt::Write>(&self, f: &mut fmt::Formatter<W>) -> fmt::Result {
        let owned = Owned {
            number: self.number,
            owner: self.owner,
        };
        write!(f, "client {}; {}", self.client, owned)
    }
}

/// An address, which may be meant as a negative number.
#[derive(Clone, Copy)]
pub(crate) struct Address {
    pub(crate) address: u32,
}

/// The least address that may be.
const NEGATIVE: u32 = 1 << 31;

impl fmt::Display for Address {
    ghost output = { λ a. Some (address_text a.address) };

    #[tactic(auto, unfolding(crate::specs::Text::address_text, crate::specs::Text::hex))]
    fn fmt<W: fmt::Write>(&self, f: &mut fmt::Formatter<W>) -> fmt::Result {
        let address = self.address;
        if address >= NEGATIVE {
            let below = u32::MAX - address + 1;
            write!(f, "0x{:x} (-{})", address, below)
        } else {
            write!(f, "0x{:x}", address)
        }
    }
}

/// What an address that may be negative comes from.
#[tactic(auto, unfolding(crate::specs::Text::cause_of))]
fn cause_of(address: u32) -> &'static str
    ensures { result.now ≡ cause_of address }
{
    if address >= NEGATIVE {
        "; usual cause: a negative index bias that wrapped"
    } else {
        ""
    }
}

impl fmt::Display for BufferFact {
    ghost output = { λ buffer. Some (buffer_text buffer) };

    #[tactic(auto, unfolding(crate::specs::Text::buffer_text))]
    fn fmt<W: fmt::Write>(&self, f: &mut fmt::Formatter<W>) -> fmt::Result {
        write!(f, "buffer {}: {} bytes", self.number, self.size)
    }
}

impl fmt::Display for AttributeFact {
    ghost output = { λ attribute. Some (attribute_text attribute) };

    #[tactic(auto, unfolding(crate::specs::Text::attribute_text))]
    fn fmt<W: fmt::Write>(&self, f: &mut fmt::Formatter<W>) -> fmt::Result {
        let address = Address {
            address: self.address,
        };
        let cause = cause_of(self.address);
        write!(
            f,
            "{}; address {}, {} bytes{}",
            self.buffer, address, self.length, cause
        )
    }
}

impl fmt::Display for VertexFact {
    ghost output = { λ vertex. Some (vertex_text vertex) };

    #[tactic(auto, unfolding(crate::specs::Text::vertex_text))]
    fn fmt<W: fmt::Write>(&self, f: &mut fmt::Formatter<W>) -> fmt::Result {
        write!(
            f,
            "{}; stride {}, greatest index {}",
            self.attribute, self.stride, self.index
        )
    }
}

/// Facts without the brackets, nothing where there are none. It takes no memory, also to print.
#[derive(Clone, Copy, Debug, PartialEq, Eq)]
pub struct Inside {
    pub facts: Facts,
}

impl fmt::Display for Inside {
    ghost output = { λ inside. Some (fact_text inside.facts) };

    #[tactic(auto, unfolding(crate::specs::Text::fact_text))]
    fn fmt<W: fmt::Write>(&self, f: &mut fmt::Formatter<W>) -> fmt::Result {
        match self.facts {
            Facts::Nothing => f.write_str(""),
            Facts::Room(room) => write!(f, "{}", room.at("has")),
            Facts::Off(item) => write!(f, "{}; {}", item, item.off()),
            Facts::Past(PastFact { item, memory }) => {
                write!(f, "the memory has {} bytes; {}", memory, item)
            }
            Facts::Pair(pair) => write!(f, "{}; {}", pair.later, pair.earlier),
            Facts::Handle(handle) => write!(f, "{}", handle),
            Facts::Indexes(indexes) => write!(f, "{}", indexes),
            Facts::States(states) => write!(f, "{}", states),
            Facts::Threads(threads) => write!(f, "{}", threads),
            Facts::Attribute(attribute) => write!(f, "{}", attribute),
            Facts::Vertex(vertex) => write!(f, "{}", vertex),
            Facts::Use(shader) => write!(f, "{}", shader),
            Facts::Level(end) => write!(f, "{}", end.of("level 0")),
            Facts::Name(name) => write!(f, "{}", name),
            Facts::Pixels(pixels) => write!(f, "{}", pixels),
            Facts::Surface(end) => write!(f, "{}", end.of("surface")),
            Facts::Tile(end) => write!(f, "{}", end.of("last tile")),
            Facts::Region(room) => write!(f, "{}", room.at("the region has")),
        }
    }
}

impl fmt::Display for Facts {
    ghost output = { λ facts. Some (facts_text facts) };

    #[tactic(auto, unfolding(crate::specs::Text::facts_text))]
    fn fmt<W: fmt::Write>(&self, f: &mut fmt::Formatter<W>) -> fmt::Result {
        let inside = Inside { facts: *self };
        match self {
            Facts::Nothing => f.write_str(""),
            _ => write!(f, " [{}]", inside),
        }
    }
}
