//! Lists of links (packet 5).
ghost use Rattle.std.specs.Prelude.{◌≡◌, ◌+◌, ◌≤◌, List};
ghost use Rattle.std.specs.Int.RustNames.{unsigned_abs};
ghost use Rattle.units.specs.Limits.{reach, HasReach};
ghost use Rattle.linking.specs.Linking.{LinkEntry, known};
ghost use Rattle.track_picture.specs.Announcing.{announced, announcements_of};
ghost use Rattle.track_picture.specs.Columns.{after_links};
ghost use Rattle.track_picture.specs.Steps.{fact_of};

use crate::using::Use;
use arrayvec::ArrayVec;
use linking::{Announcement, Links, MOST_ANNOUNCED};
use packets::{Link, Linking, Packet};
use units::{Cm, GroupPlace};
use vars::{Country, GroupIdentity, Scale};

// From where the next link counts.
#[derive(Clone, Copy)]
struct Chain {
    scale: Scale,
    place: Cm,
    country: Country,
}

// The group that a link announces; the next one counts from it.
fn announced(chain: &mut Chain, link: &Link) -> Announcement
    requires { HasReach chain.old.place }
    ensures value { result ≡ announced chain.old.scale chain.old.place chain.old.country link.now }
    ensures next { chain.new ≡ record { scale = chain.old.scale; place = result.place; country = result.group.country } }
    ensures near { unsigned_abs chain.new.place ≤ unsigned_abs chain.old.place + reach }
{
    chain.place = chain.place.ahead(link.distance.in_scale(chain.scale));
    chain.country = link.country.unwrap_or(chain.country);
    Announcement {
        number: 0,
        group: GroupIdentity {
            country: chain.country,
            number: link.group,
        },
        place: chain.place,
        accuracy: link.accuracy,
        direction: link.orientation,
        reaction: link.reaction,
    }
}

// The groups that a list of links announces.
fn announcements(
    packet: &Linking,
    group: &GroupIdentity,
    place: GroupPlace,
) -> ArrayVec<Announcement, MOST_ANNOUNCED>
    ensures { result.items ≡ announcements_of group.now place packet.now }
{
    let mut announcements: ArrayVec<Announcement, MOST_ANNOUNCED> = ArrayVec::new();
    let mut chain = Chain {
        scale: packet.scale,
        place: place.to_cm(),
        country: group.country,
    };
    for link in packet.links.as_slice() {
        announcements.push(announced(&mut chain, link));
    }
    announcements
}

/// Takes a packet, where it is a list of links.
pub fn take(links: &mut Links, packet: &Packet<'_>, used: &Use)
    ensures { (entries : List LinkEntry) → links.old ≡ known entries
        → links.new ≡ known (after_links (fact_of used.now packet.now) entries) }
{
    if let Packet::Linking(packet) = packet {
        links.replace(&announcements(packet, &used.group, used.place));
    }
}
