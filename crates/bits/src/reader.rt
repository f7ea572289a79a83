//! Bits are taken from bytes, as numbers or as runs that stay where they lie.
ghost use Rattle.std.specs.Prelude.{◌≡◌, ℕ, ◌+◌, ◌-◌, ◌*◌, ◌<◌, ◌≤◌, ◌^◌, ◌↔◌, Bool, List, [], ◌∷◌, ◌++◌, length, take, drop, IsTrue, IsSome, IfSome, OnSome, IfNone};
ghost use Rattle.bits.specs.Bits.{bits_of, number};
ghost use Rattle.bits.specs.Window.{window_bits};

use crate::window::Window;
use std::marker::Model;

/// The bits of bytes that are still to be read, the highest of each byte first.
#[derive(Drop)]
pub struct BitReader<'a> {
    window: Window<'a>,
}

impl<'a> Model for BitReader<'a> {
    ghost Value = { List Bool };

    ghost view = { λ r. window_bits r.window };

    ghost invariant = { λ r. r.window.held < 64 };
}

/// A run of bits, which lie where they were read.
#[derive(Drop)]
pub struct Run<'a> {
    bits: BitReader<'a>,
    len: u32,
}

impl<'a> Model for Run<'a> {
    ghost Value = { List Bool };

    ghost view = { λ r. take r.len r.bits };

    ghost invariant = { λ r. r.len ≤ length r.bits };
}

impl<'a> Run<'a> {
    /// The number of bits.
    pub fn len(&self) -> u32
        ensures { result ≡ length self.now }
    {
        self.len
    }

    /// Whether there are no bits.
    pub fn is_empty(&self) -> bool
        ensures { IsTrue result ↔ (self.now ≡ []) }
    {
        self.len == 0
    }

    /// A reader with the bits in front of it.
    pub(crate) fn bits(&self) -> BitReader<'a>
        ensures front { take (length self.now) result ≡ self.now }
        ensures some { length self.now ≤ length result }
    {
        self.bits.fork()
    }
}

impl<'a> BitReader<'a> {
    /// A reader of all bits of the bytes.
    pub fn new(bytes: &'a [u8]) -> Self
        ensures { result ≡ bits_of bytes.now }
    {
        BitReader {
            window: Window {
                word: 0,
                held: 0,
                rest: bytes,
            },
        }
    }

    /// A second reader of the same bits.
    #[inline]
    pub fn fork(&self) -> Self
        ensures { result ≡ self.now }
    {
        BitReader {
            window: Window {
                word: self.window.word,
                held: self.window.held,
                rest: self.window.rest,
            },
        }
    }

    /// How many bits are left.
    #[inline]
    pub fn remaining(&self) -> u128
        ensures value { result ≡ length self.now }
        ensures bound { result < 2 ^ 68 }
    {
        u128::from(self.window.held) + 8 * self.window.rest.len() as u128
    }

    /// The next n bits as a run, not copied. None where fewer are left, and then nothing is taken.
    pub fn run(&mut self, n: u32) -> Option<Run<'a>>
        ensures found { IsSome result ↔ (n ≤ length self.old) }
        ensures value { IfSome result (λ b. b ≡ take n self.old) }
        ensures rest { OnSome result (self.new ≡ drop n self.old) }
        ensures none { IfNone result (self.new ≡ self.old) }
    {
        if !self.has(n) {
            return None;
        }
        let bits = self.fork();
        self.window.skip(n);
        Some(Run { bits, len: n })
    }

    /// Whether at least n bits are left.
    #[inline]
    fn has(&self, n: u32) -> bool
        ensures { IsTrue result ↔ (n ≤ length self.now) }
    {
        if n <= self.window.held {
            return true;
        }
        let more = (n - self.window.held) as usize;
        more.div_ceil(8) <= self.window.rest.len()
    }

    /// The number of the next n bits, the highest first. None where fewer are left, and then nothing is taken. The
    /// caller owes n up to 64.
    #[inline(always)]
    pub fn take(&mut self, n: u32) -> Option<u64>
        requires { n ≤ 64 }
        ensures found { IsSome result ↔ (n ≤ length self.old) }
        ensures value { IfSome result (λ v. v ≡ number (take n self.old)) }
        ensures bound { IfSome result (λ v. v < 2 ^ n) }
        ensures rest { OnSome result (self.new ≡ drop n self.old) }
        ensures none { IfNone result (self.new ≡ self.old) }
    {
        if n <= 32 {
            self.take_short(n)
        } else {
            self.take_long(n)
        }
    }

    #[inline(always)]
    fn take_short(&mut self, n: u32) -> Option<u64>
        requires { n ≤ 32 }
        ensures found { IsSome result ↔ (n ≤ length self.old) }
        ensures value { IfSome result (λ v. v ≡ number (take n self.old)) }
        ensures bound { IfSome result (λ v. v < 2 ^ n) }
        ensures rest { OnSome result (self.new ≡ drop n self.old) }
        ensures none { IfNone result (self.new ≡ self.old) }
    {
        if !self.window.ready(n) {
            return None;
        }
        self.window.held -= n;
        Some((self.window.word >> self.window.held) % (1u64 << n))
    }

    fn take_long(&mut self, n: u32) -> Option<u64>
        requires { (32 < n) × (n ≤ 64) }
        ensures found { IsSome result ↔ (n ≤ length self.old) }
        ensures value { IfSome result (λ v. v ≡ number (take n self.old)) }
        ensures bound { IfSome result (λ v. v < 2 ^ n) }
        ensures rest { OnSome result (self.new ≡ drop n self.old) }
        ensures none { IfNone result (self.new ≡ self.old) }
    {
        if !self.has(n) {
            return None;
        }
        let high = self.take_short(n - 32)?;
        let low = self.take_short(32)?;
        Some(high * 0x1_0000_0000 + low)
    }
}
