//! A telegram kept as its bytes: tested once, and read again when its packets are wanted.
ghost use Rattle.std.specs.Prelude.{◌≡◌, ◌≤◌, ◌↔◌, Ok, Err, length, drop};
ghost use Rattle.bits.specs.Bits.{bits_of};
ghost use Rattle.telegram.specs.Telegrams.{header_bits, Carries, RefusesBytes};
ghost use Rattle.telegram.specs.Walks.{packets_of, packets_in, HoldPackets};
ghost use Rattle.telegram.specs.declared.fault.TelegramFault.{TelegramFault};
ghost use Rattle.telegram.specs.declared.message.Telegram.{Telegram};

use crate::fault::TelegramFault;
use crate::header::Header;
use crate::validation::packets;
use crate::walk::Packets;
use arrayvec::ArrayVec;
use packets::TELEGRAM_BYTES;
use std::marker::Model;

/// The bytes of a telegram, tested once (SUBSET-026, 8.4.2). Its packets are read again where they lie, each time that
/// they are wanted.
#[derive(Drop)]
pub struct Received {
    bytes: ArrayVec<u8, TELEGRAM_BYTES>,
    header: Header,
    /// The number of its packets.
    count: u32,
}

impl Model for Received {
    ghost use Rattle.telegram.specs.Walks.{received, HoldPackets};
    ghost use Rattle.telegram.specs.declared.message.Telegram.{Telegram};

    ghost Value = { Telegram };

    ghost view = { λ r. received r.header r.count r.bytes.items };

    ghost invariant = { λ r. HoldPackets r.count r.bytes.items };
}

// An equal run of bytes.
fn copy_of(bytes: &[u8]) -> ArrayVec<u8, TELEGRAM_BYTES>
    requires { length bytes.now ≤ TELEGRAM_BYTES }
    ensures { result.items ≡ bytes.now }
{
    ArrayVec::try_from(bytes).unwrap()
}

impl Received {
    /// The telegram that the bytes carry (SUBSET-026, 8.4.2), with a copy of them. The whole telegram is tested here,
    /// and a fault is the one that `decode` answers.
    pub fn new(bytes: &[u8]) -> Result<Received, TelegramFault>
        ensures found { (t : Telegram) → (result ≡ Ok t) ↔ Carries bytes.now t }
        ensures fault { (e : TelegramFault) → (result ≡ Err e) ↔ RefusesBytes e bytes.now }
    {
        let walk = packets(bytes)?;
        Ok(Received {
            bytes: copy_of(bytes),
            header: walk.header(),
            count: walk.len(),
        })
    }

    /// The header.
    pub fn header(&self) -> Header
        ensures { result ≡ self.now.header }
    {
        self.header
    }

    /// The packets, at most 33, to be read one by one where they lie; the telegram isn't tested again.
    pub fn packets(&self) -> Packets<'_>
        ensures packets { packets_of result.items ≡ self.now.packets.items }
        ensures few { length self.now.packets.items ≤ 33 }
        ensures header { result.header ≡ self.now.header }
    {
        Packets::after_header(self.header, self.bytes.as_slice(), self.count)
    }

    /// Its bytes.
    pub(crate) fn bytes(&self) -> &[u8]
        ensures packets { packets_in (length self.now.packets.items) (drop header_bits (bits_of result.now)) ≡ self.now.packets.items }
        ensures held { HoldPackets (length self.now.packets.items) result.now }
    {
        self.bytes.as_slice()
    }

    /// How many packets it has, at most 33.
    pub fn count(&self) -> u32
        ensures value { result ≡ length self.now.packets.items }
        ensures few { result ≤ 33 }
    {
        self.count
    }

    /// An equal value.
    pub fn copy(&self) -> Received
        ensures { result ≡ self.now }
    {
        Received {
            bytes: copy_of(self.bytes.as_slice()),
            header: self.header,
            count: self.count,
        }
    }
}

/// A telegram with no packets, to be filled.
impl Default for Received {
    ghost use Rattle.std.specs.Prelude.{◌≡◌, []};

    ghost is_default = { λ t. t.packets.items ≡ [] };

    fn default() -> Received {
        Received {
            bytes: copy_of(&[0; 7]),
            header: Header::default(),
            count: 0,
        }
    }
}
