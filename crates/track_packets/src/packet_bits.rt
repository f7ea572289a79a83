//! The bits of one packet, in front of a reader of its telegram.
ghost use Rattle.std.specs.Prelude.{◌≡◌, ◌↔◌, ◌<◌, ◌≤◌, ◌^◌, length, take, drop, IsSome, IfSome, OnSome, IfNone};
ghost use Rattle.bits.specs.Bits.{number};

use bits::BitReader;
use std::marker::Model;

/// So many bits in front of a reader, and nothing after them.
#[derive(Drop)]
pub(crate) struct PacketBits<'a> {
    reader: BitReader<'a>,
    left: u32,
}

impl<'a> Model for PacketBits<'a> {
    ghost use Rattle.std.specs.Prelude.{◌≤◌, List, Bool, length, take};

    ghost Value = { List Bool };

    ghost view = { λ p. take p.left p.reader };

    ghost invariant = { λ p. p.left ≤ length p.reader };
}

impl<'a> PacketBits<'a> {
    /// The first bits of a reader. The caller owes that it has so many.
    pub(crate) fn new(reader: &BitReader<'a>, len: u32) -> Self
        requires { len ≤ length reader.now }
        ensures { result ≡ take len reader.now }
    {
        PacketBits {
            reader: reader.fork(),
            left: len,
        }
    }

    /// How many bits are left.
    #[tactic(auto, using(crate::proofs::Bounded::left_is))]
    pub(crate) fn len(&self) -> u32
        ensures { result ≡ length self.now }
    {
        self.left
    }

    /// The number of the next n bits, the highest first. None where fewer are left, and then nothing is taken. The
    /// caller owes n up to 64.
    pub(crate) fn take(&mut self, n: u32) -> Option<u64>
        requires { n ≤ 64 }
        ensures found { IsSome result ↔ (n ≤ length self.old) }
        ensures value { IfSome result (λ v. v ≡ number (take n self.old)) }
        ensures rest { OnSome result (self.new ≡ drop n self.old) }
        ensures none { IfNone result (self.new ≡ self.old) }
    {
        if self.left < n {
            return None;
        }
        let number = self.reader.take(n)?;
        self.left -= n;
        Some(number)
    }
}
