//! Tested telegrams, gathered one after another in one array of bytes.
ghost use Rattle.std.specs.Prelude.{◌≡◌, ◌<◌, List, [], ◌∷◌, ◌++◌, length};
ghost use Rattle.std.specs.Iterator.{YieldsFirstBy};
ghost use Rattle.packets.specs.declared.packet.Packet.{Packet};
ghost use Rattle.telegram.specs.Walks.{Walk, packets_of};

use crate::header::Header;
use crate::received::Received;
use crate::walk::Packets;
use arrayvec::ArrayVec;
use packets::TELEGRAM_BYTES;
use std::marker::Model;

/// The most telegrams that are gathered: as many as a group has balises (SUBSET-026, 3.4).
const MOST: usize = 8;

/// The bytes of so many telegrams at most.
const MOST_BYTES: usize = MOST * TELEGRAM_BYTES;

/// How many bytes a telegram has, and how many packets.
#[derive(Clone, Copy)]
pub struct Extent {
    pub(crate) bytes: u32,
    pub(crate) packets: u32,
}

/// Fills unused elements.
impl Default for Extent {
    fn default() -> Extent {
        Extent {
            bytes: 0,
            packets: 0,
        }
    }
}

/// The packets of at most eight telegrams, in the bytes of the telegrams as they came. They are read again where they
/// lie, each time that they are wanted.
#[derive(Drop)]
pub struct Gathered {
    bytes: ArrayVec<u8, MOST_BYTES>,
    extents: ArrayVec<Extent, MOST>,
}

impl Model for Gathered {
    ghost use Rattle.std.specs.Prelude.{◌≡◌, ◌≤◌, List, length};
    ghost use Rattle.packets.specs.declared.packet.Packet.{Packet};
    ghost use Rattle.telegram.specs.Gathering.{packets_of_each, AreGathered};

    ghost Value = { List (List Packet) };

    ghost view = { λ g. packets_of_each g.extents.items g.bytes.items };

    ghost invariant = { λ g. AreGathered g.extents.items g.bytes.items };
}

impl Gathered {
    /// No telegrams.
    pub fn new() -> Self
        ensures { result ≡ [] }
    {
        Gathered {
            bytes: ArrayVec::new(),
            extents: ArrayVec::new(),
        }
    }

    /// Adds the packets of one more telegram.
    pub fn push(&mut self, telegram: &Received)
        requires { length self.old < 8 }
        ensures { self.new ≡ self.old ++ telegram.now.packets.items ∷ [] }
    {
        let bytes = telegram.bytes();
        self.bytes.try_extend_from_slice(bytes).unwrap();
        self.extents.push(Extent {
            bytes: bytes.len() as u32,
            packets: telegram.count(),
        });
    }

    /// The packets of each telegram, in turn.
    pub fn iter(&self) -> PacketsOfEach<'_>
        ensures { result ≡ self.now }
    {
        PacketsOfEach {
            bytes: self.bytes.as_slice(),
            extents: self.extents.as_slice(),
        }
    }
}

/// The packets of telegrams, one telegram after another.
#[derive(Drop)]
pub struct PacketsOfEach<'a> {
    bytes: &'a [u8],
    extents: &'a [Extent],
}

impl<'a> Model for PacketsOfEach<'a> {
    ghost use Rattle.std.specs.Prelude.{List};
    ghost use Rattle.packets.specs.declared.packet.Packet.{Packet};
    ghost use Rattle.telegram.specs.Gathering.{packets_of_each, AreGathered};

    ghost Value = { List (List Packet) };

    ghost view = { λ w. packets_of_each w.extents.now w.bytes.now };

    ghost invariant = { λ w. AreGathered w.extents.now w.bytes.now };
}

impl<'a> PacketsOfEach<'a> {
    /// The packets of the next telegram, to be read one by one where they lie; None after the last one.
    pub fn next_telegram(&mut self) -> Option<Packets<'a>>
        ensures { YieldsFirstBy (λ (w : Walk). packets_of w.items) (λ (ps : List (List Packet)). ps) self.old result self.new }
    {
        let (first, others) = self.extents.split_first()?;
        let (bytes, more) = self.bytes.split_at(first.bytes as usize);
        self.bytes = more;
        self.extents = others;
        Some(Packets::after_header(Header::default(), bytes, first.packets))
    }
}
