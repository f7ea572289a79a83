//! What is found in a packet, and in a telegram that is refused.
ghost use Rattle.std.specs.Prelude.{◌≡◌, ◌<◌, ◌≤◌, drop};
ghost use Rattle.bits.specs.Bits.{bits_of};
ghost use Rattle.track_guard.specs.Findings.{ends_in_one as ends_in_one_of, field_at as field_of, finding_in, finding_of_fault, has_known_packets as has_known_packets_of, is_endless as is_endless_of, refused_found, unless as unless_of, version_found};

use crate::finding::Finding;
use bits::BitReader;
use telegram::TelegramFault;
use track_packets::PacketPlace;

/// The number of a field of so many bits, so many bits after a place; None where there are fewer bits.
fn field_at(bytes: &[u8], start: u32, at: u32, width: u32) -> Option<u64>
    requires { (0 < width) × (width ≤ 64) }
    ensures { result ≡ field_of at width (drop start (bits_of bytes.now)) }
{
    let mut reader = BitReader::new(bytes);
    let _before = reader.run(start)?;
    let _between = reader.run(at)?;
    reader.take(width)
}

/// Whether a packet has the length of its layout, and its last bit is 1.
fn ends_in_one(bytes: &[u8], place: PacketPlace, layout: u32) -> bool
    requires { 0 < layout }
    ensures { result ≡ ends_in_one_of layout place.length (drop place.start (bits_of bytes.now)) }
{
    place.length == layout && field_at(bytes, place.start, layout - 1, 1) == Some(1)
}

/// Whether a packet 12 has a V_LOA above 0 that never ends.
fn is_endless(bytes: &[u8], start: u32) -> bool
    ensures { result ≡ is_endless_of (drop start (bits_of bytes.now)) }
{
    matches!(field_at(bytes, start, 32, 7), Some(1..))
        && field_at(bytes, start, 39, 10) == Some(1_023)
}

/// A finding, unless the packet says that it doesn't restrict.
fn unless(is_free: bool, finding: Finding) -> Option<Finding>
    ensures { result ≡ unless_of is_free finding }
{
    if is_free { None } else { Some(finding) }
}

/// What is found in a packet, if anything.
pub(crate) fn finding_in_packet(bytes: &[u8], place: PacketPlace) -> Option<Finding>
    ensures { result ≡ finding_in place.number place.length (drop place.start (bits_of bytes.now)) }
{
    match place.number {
        12 if is_endless(bytes, place.start) => Some(Finding::EndlessEndSpeed),
        16 => Some(Finding::Repositioning),
        46 => Some(Finding::ConditionalLevel),
        49 => Some(Finding::ShuntingBalises),
        51 => Some(Finding::AxleLoadSpeeds),
        70 => Some(Finding::RouteSuitability),
        71 => unless(ends_in_one(bytes, place, 56), Finding::SlipperyRail),
        132 => unless(ends_in_one(bytes, place, 24), Finding::DangerForShunting),
        135 => Some(Finding::StopShunting),
        137 => unless(
            ends_in_one(bytes, place, 24),
            Finding::StopInStaffResponsible,
        ),
        _ => None,
    }
}

/// Which version a telegram is of that isn't of version 1.0.
fn find_version(bytes: &[u8]) -> Finding
    ensures { result ≡ version_found (field_of 1 7 (bits_of bytes.now)) }
{
    match field_at(bytes, 0, 1, 7) {
        Some(32..) => Finding::GreaterVersion,
        Some(16..) => Finding::SameVersion,
        _ => Finding::LesserVersion,
    }
}

/// Whether a telegram that is refused may be announced by linking.
fn find_refused(bytes: &[u8]) -> Finding
    ensures { result ≡ refused_found (bits_of bytes.now) }
{
    match field_at(bytes, 0, 49, 1) {
        Some(0) => Finding::RefusedUnlinked,
        _ => Finding::Refused,
    }
}

/// What is found in a telegram that is refused.
pub(crate) fn finding_in_refused(bytes: &[u8], fault: TelegramFault) -> Finding
    ensures { result ≡ finding_of_fault fault (bits_of bytes.now) }
{
    match fault {
        TelegramFault::WrongVersion => find_version(bytes),
        TelegramFault::NotUplink | TelegramFault::NotBalise => Finding::Refused,
        TelegramFault::Truncated
        | TelegramFault::WrongLength
        | TelegramFault::Spare
        | TelegramFault::OutOfRange
        | TelegramFault::NoEnd
        | TelegramFault::TooLong => find_refused(bytes),
    }
}

/// Whether a telegram is of a balise, and of a version whose first number is 1, so that its packets can be distinguished.
pub(crate) fn has_known_packets(bytes: &[u8]) -> bool
    ensures { result ≡ has_known_packets_of (bits_of bytes.now) }
{
    let is_uplink = field_at(bytes, 0, 0, 1) == Some(1);
    let is_balise = field_at(bytes, 0, 8, 1) == Some(0);
    is_uplink && is_balise && matches!(field_at(bytes, 0, 1, 7), Some(16..=31))
}
