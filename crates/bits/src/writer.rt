//! Numbers and runs are appended as bits, to at most N bytes.
ghost use Rattle.std.specs.Prelude.{◌≡◌, ℕ, ◌+◌, ◌-◌, ◌*◌, ◌/◌, ◌%◌, ◌<◌, ◌≤◌, ◌^◌, ◌↔◌, Bool, false, List, [], ◌++◌, length, take, drop, replicate, IsTrue, IsOk, OnOk, OnErr};
ghost use Rattle.bits.specs.Bits.{bits_of, number_bits};

use crate::reader::{BitReader, Run};
use arrayvec::ArrayVec;
use std::marker::Model;
use thiserror::Error;

/// The bits do not fit.
#[derive(Clone, Copy, Debug, Error)]
#[error("Full")]
pub struct Full;

/// Bits that are written into at most N bytes, the highest of each byte first.
#[derive(Drop)]
pub struct BitWriter<const N: usize> {
    bytes: ArrayVec<u8, N>,
    /// The bits after those of the bytes: its lowest `held`. What is above them doesn't matter.
    word: u64,
    held: u32,
}

impl<const N: usize> Model for BitWriter<N> {
    ghost Value = { List Bool };

    ghost view = { λ w. bits_of w.bytes.items ++ number_bits w.held w.word };

    ghost invariant = { λ w. (w.held < 32) × (8 * length w.bytes.items + w.held ≤ 8 * N) };
}

/// Appends four bytes, the highest first.
#[inline(always)]
fn push_word<const N: usize>(bytes: &mut ArrayVec<u8, N>, word: u32)
    requires { length bytes.old.items + 4 ≤ N }
    ensures len { length bytes.new.items ≡ length bytes.old.items + 4 }
    ensures bits { bits_of bytes.new.items ≡ bits_of bytes.old.items ++ number_bits 32 word }
{
    // The caller has seen to the room, so this is `Ok`.
    let _fits = bytes.try_extend_from_slice(&word.to_be_bytes());
}

/// The bytes of the lowest `held` bits of a word, padded with zero bits, and how many bytes these bits take.
fn last_bytes(word: u64, held: u32) -> ([u8; 4], usize)
    requires { held < 32 }
    ensures len { result.1 ≡ (held + 7) / 8 }
    ensures bits { bits_of (take result.1 result.0) ≡ number_bits held word ++ replicate (8 * result.1 - held) false }
{
    let padded = (((word % 0x1_0000_0000) << (32 - held)) % 0x1_0000_0000) as u32;
    (padded.to_be_bytes(), (held as usize).div_ceil(8))
}

/// Writes a part over the bytes from `at` on.
fn write_over(out: &mut [u8], at: usize, part: &[u8])
    requires { at + length part.now ≤ length out.old }
    ensures { out.new ≡ take at out.old ++ part.now ++ drop (at + length part.now) out.old }
{
    out[at..at + part.len()].copy_from_slice(part);
}

impl<const N: usize> BitWriter<N> {
    /// No bits.
    pub fn new() -> Self
        ensures { result ≡ [] }
    {
        BitWriter {
            bytes: ArrayVec::new(),
            word: 0,
            held: 0,
        }
    }

    /// Whether n more bits fit.
    #[inline]
    pub fn has_space(&self, n: u64) -> bool
        ensures { IsTrue result ↔ (length self.now + n ≤ 8 * N) }
    {
        let left = N - self.bytes.len();
        n / 8 + (n % 8 + self.held as u64).div_ceil(8) <= left as u64
    }

    /// Writes the lowest n bits of a number, the highest first. Full where they do not fit, and then nothing is
    /// written. The caller owes n up to 64 and a number below 2^n.
    #[inline]
    pub fn put(&mut self, n: u32, v: u64) -> Result<(), Full>
        requires bits { n ≤ 64 }
        requires value { v < 2 ^ n }
        ensures space { IsOk result ↔ (length self.old + n ≤ 8 * N) }
        ensures ok { OnOk result (self.new ≡ self.old ++ number_bits n v) }
        ensures err { OnErr result (self.new ≡ self.old) }
    {
        if !self.has_space(n as u64) {
            return Err(Full);
        }
        self.write(n, v);
        Ok(())
    }

    /// Writes the lowest n bits of a number, the highest first. The caller owes n up to 64, a number below 2^n, and
    /// room.
    #[inline]
    pub fn write(&mut self, n: u32, v: u64)
        requires bits { n ≤ 64 }
        requires value { v < 2 ^ n }
        requires space { length self.old + n ≤ 8 * N }
        ensures value { self.new ≡ self.old ++ number_bits n v }
        ensures len { length self.new ≡ length self.old + n }
    {
        if n <= 32 {
            self.write_short(n, v);
        } else {
            self.write_short(n - 32, v >> 32);
            self.write_short(32, v % 0x1_0000_0000);
        }
    }

    #[inline]
    fn write_short(&mut self, n: u32, v: u64)
        requires bits { n ≤ 32 }
        requires value { v < 2 ^ n }
        requires space { length self.old + n ≤ 8 * N }
        ensures value { self.new ≡ self.old ++ number_bits n v }
        ensures len { length self.new ≡ length self.old + n }
    {
        // Fewer than 32 bits are held, so a word has room for 32 more. What is shifted out isn't held.
        self.word = (self.word << n) + v;
        self.held += n;
        if self.held >= 32 {
            self.held -= 32;
            push_word(
                &mut self.bytes,
                ((self.word >> self.held) % 0x1_0000_0000) as u32,
            );
        }
    }

    /// Writes the bits of a run. The caller owes that they fit.
    pub fn write_run(&mut self, run: &Run<'_>)
        requires { length self.old + length run.now ≤ 8 * N }
        ensures value { self.new ≡ self.old ++ run.now }
        ensures len { length self.new ≡ length self.old + length run.now }
    {
        let mut bits = run.bits();
        let len = run.len();
        for i in 0..len / 32 {
            self.copy(&mut bits, 32);
        }
        self.copy(&mut bits, len % 32);
    }

    /// Moves the next n bits of a reader.
    #[inline]
    fn copy(&mut self, bits: &mut BitReader<'_>, n: u32)
        requires bits { n ≤ 32 }
        requires some { n ≤ length bits.old }
        requires space { length self.old + n ≤ 8 * N }
        ensures value { self.new ≡ self.old ++ take n bits.old }
        ensures rest { bits.new ≡ drop n bits.old }
    {
        if let Some(v) = bits.take(n) {
            self.write_short(n, v);
        }
    }

    /// Copies the bits to the front of `out`, padded with zero bits to whole bytes, and returns how many bytes
    /// these are. The rest of `out` stays.
    pub fn copy_to(&self, out: &mut [u8; N]) -> usize
        ensures len { result ≡ (length self.now + 7) / 8 }
        ensures bits { bits_of (take result out.new) ≡ self.now ++ replicate (8 * result - length self.now) false }
        ensures rest { drop result out.new ≡ drop result out.old }
    {
        let whole = self.bytes.len();
        let (last, more) = last_bytes(self.word, self.held);
        write_over(out, 0, self.bytes.as_slice());
        write_over(out, whole, &last[..more]);
        whole + more
    }
}
