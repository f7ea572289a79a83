//! Laws: how many packets a telegram has, how it is spelled, where its packets stand, what sinks take.
ghost use Rattle.std.specs.Prelude.{◌≡◌, ◌≤◌, ◌++◌, ℕ, List, Bool, length, All};
ghost use Rattle.bits.specs.Writing.{taken, field_list, each_field};
ghost use Rattle.telegram.specs.Telegrams.{header, Carries, SpellsTelegram};
ghost use Rattle.telegram.specs.declared.header.Header.{Header};
ghost use Rattle.telegram.specs.Walks.{Walk, IsWalkOf, StandsInPlace};
ghost use Rattle.telegram.specs.declared.message.Telegram.{Telegram};

use packets::FieldSink;

/// A telegram has at most 33 packets. Its bytes have 832 bits: `HEADER_BITS` are of the header, 8 of the end mark, and
/// at least 23 of each packet.
pub fn at_most_33_packets()
    ensures { (bytes : List ℕ) (t : Telegram) → Carries bytes t → length t.packets.items ≤ 33 }
{}

/// No spelling of a telegram begins another one, and no two telegrams share one.
pub fn telegrams_spelled_once()
    ensures { (s t : Telegram) (a b u v : List Bool) → SpellsTelegram s a → SpellsTelegram t b → a ++ u ≡ b ++ v → (s ≡ t) × (a ≡ b) }
{}

/// Each packet of a telegram is spelled in the bytes of its place, and none of these bytes is without a bit of it.
pub fn packets_stand_in_place()
    ensures { (bytes : List ℕ) (w : Walk) → IsWalkOf bytes w → All StandsInPlace w.items }
{}

/// Whatever sink a header is handed to takes the list of the header's fields, one after another, and nothing else.
pub fn sinks_take_header_fields<S: FieldSink>()
    ensures { (h : Header) (s : S.Seen) → taken S.took header h s ≡ each_field S.took (field_list header h) s }
{}
