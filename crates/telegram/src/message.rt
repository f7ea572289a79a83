//! A telegram as a value: a header and at most 33 packets, decoded or put together packet by packet.
ghost use Rattle.std.specs.Prelude.{◌≡◌, ◌+◌, ◌*◌, ◌<◌, ◌^◌, ◌≤◌, ◌↔◌, ◌∷◌, ◌++◌, List, [], Bool, length, IsTrue, IsOk, OnOk, OnErr};
ghost use Rattle.std.specs.List.{AllByRecursion as Each};
ghost use Rattle.bits.specs.Layout.{Spells};
ghost use Rattle.packets.specs.Packets.{packet as packet_layout};
ghost use Rattle.telegram.specs.Telegrams.{SpellsTelegram};
ghost use Rattle.telegram.specs.Sequences.{length_of_all};

use crate::encoding::TooLong;
use crate::header::{HEADER_BITS, Header};
use arrayvec::ArrayVec;
use packets::Packet;

/// The telegram of a balise: its header and its packets up to the end mark (SUBSET-026, 8.4.2).
#[derive(Drop)]
pub struct Telegram<'a> {
    /// What stands in front (SUBSET-026, 8.4.2).
    pub header: Header,
    /// The packets in order, without the end mark.
    pub packets: ArrayVec<Packet<'a>, 33>,
}

/// The bits of packets.
fn bits_of_all(packets: &[Packet<'_>]) -> u64
    requires { length packets.now ≤ 33 }
    ensures bits { result ≡ length_of_all packets.now }
    ensures bound { result < 2 ^ 40 }
{
    let mut total = 0;
    for packet in packets {
        total += packet.length();
    }
    total
}

impl<'a> Telegram<'a> {
    /// A telegram with no packets, to be filled.
    pub fn new() -> Self
        ensures { result.packets.items ≡ [] }
    {
        Telegram {
            header: Header::default(),
            packets: ArrayVec::new(),
        }
    }

    /// The number of bits up to and with the end mark.
    pub fn bits(&self) -> u64
        ensures value { result ≡ HEADER_BITS + 8 + length_of_all self.now.packets.items }
        ensures spelled { (bits : List Bool) → SpellsTelegram self.now bits → length bits ≡ result }
    {
        u64::from(HEADER_BITS) + 8 + bits_of_all(self.packets.as_slice())
    }
}

/// Whether all packets have a spelling.
fn all_have_spelling(packets: &[Packet<'_>]) -> bool
    ensures { IsTrue result ↔ Each (λ p. (bits : List Bool) × Spells packet_layout p bits) packets.now }
{
    for packet in packets {
        if !packet.has_spelling() {
            return false;
        }
    }
    true
}

impl<'a> Telegram<'a> {
    /// Whether there are bits that spell it: its header has N_PIG up to N_TOTAL, and each packet has a spelling.
    #[tactic(auto, using(crate::proofs::Spelling::telegram_spelled))]
    pub fn has_spelling(&self) -> bool
        ensures { IsTrue result ↔ ((bits : List Bool) × SpellsTelegram self.now bits) }
    {
        self.header.fits() && all_have_spelling(self.packets.as_slice())
    }
}

impl<'a> Telegram<'a> {
    /// Appends a packet. TooLong where there are 33 packets already, and then nothing changes. A telegram that has a
    /// spelling has one still where the packet has one (`Packet::has_spelling`).
    pub fn push(&mut self, packet: Packet<'a>) -> Result<(), TooLong>
        ensures space { IsOk result ↔ (length self.old.packets.items < 33) }
        ensures packets { OnOk result (self.new.packets.items ≡ self.old.packets.items ++ packet.entry ∷ []) }
        ensures header { self.new.header ≡ self.old.header }
        ensures spelled { ((bits : List Bool) × SpellsTelegram self.old bits) → ((bits : List Bool) × Spells packet_layout packet.entry bits)
            → OnOk result ((bits : List Bool) × SpellsTelegram self.new bits) }
        ensures err { OnErr result (self.new ≡ self.old) }
    {
        if self.packets.is_full() {
            return Err(TooLong);
        }
        self.packets.push(packet);
        Ok(())
    }
}

impl<'a> Default for Telegram<'a> {
    ghost is_default = { λ t. t.packets.items ≡ [] };

    fn default() -> Telegram<'a> {
        Telegram::new()
    }
}
