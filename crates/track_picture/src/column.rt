//! What a mode deletes that is entered.
ghost use Rattle.std.specs.Prelude.{◌≡◌, ◌≤◌, List, None, Some};
ghost use Rattle.areas.specs.Areas.{stored};
ghost use Rattle.areas.specs.Entries.{AreaEntry};
ghost use Rattle.areas.specs.Levels.{LevelEntry, waiting};
ghost use Rattle.authority.specs.Entries.{AuthorityEntry};
ghost use Rattle.authority.specs.Known.{known as known_authority};
ghost use Rattle.linking.specs.Linking.{LinkEntry, known as known_links};
ghost use Rattle.mode_table.specs.declared.statuses.Item.TheVariants as item;
ghost use Rattle.track_store.specs.Facts.{MarkedFacts, profile_of};
ghost use Rattle.track_store.specs.Profiles.{profile_with};
ghost use Rattle.track_picture.specs.Entry.{TrackEntry};
ghost use Rattle.track_picture.specs.Live.{deleting};
ghost use Rattle.track_picture.specs.Columns.{after_mode, links_deleted, authority_deleted, areas_deleted, level_deleted, none_reported, TrackReports, known_by, after_entering};
ghost use Rattle.track_picture.specs.StandsFor.{Life, StandsForLife, grown, size_in};

use crate::parts::Parts;
use crate::state::TracksideOver;
use crate::stores::ProfileStores;
use areas::{AnnouncedLevel, Areas};
use authority::Authority;
use linking::Links;
use mode_table::{Fate, Item, Mode, status_on};
use track_store::ProfileStore;

// Whether a mode deletes an item that is entered.
fn is_deleted(item: Item, mode: Mode) -> bool
    ensures { result ≡ deleting item mode }
{
    matches!(status_on(item, mode), Fate::Deleted)
}

fn leave_links(links: &mut Links, mode: Mode)
    ensures { (entries : List LinkEntry) → links.old ≡ known_links entries
        → links.new ≡ known_links (after_mode item.Linking links_deleted mode entries) }
{
    if is_deleted(Item::Linking, mode) {
        links.clear();
    }
}

fn leave_authority(authority: &mut Authority, mode: Mode)
    ensures { (entries : List AuthorityEntry) → authority.old ≡ known_authority entries
        → authority.new ≡ known_authority (after_mode item.Authority authority_deleted mode entries) }
{
    if is_deleted(Item::Authority, mode) {
        authority.clear();
    }
}

fn leave_areas(areas: &mut Areas, mode: Mode)
    ensures { (entries : List AreaEntry) → areas.old ≡ stored entries
        → areas.new ≡ stored (after_mode item.ModeAreas areas_deleted mode entries) }
{
    if is_deleted(Item::ModeAreas, mode) {
        areas.clear();
    }
}

fn leave_level(level: &mut AnnouncedLevel, mode: Mode)
    ensures { (entries : List LevelEntry) → level.old ≡ waiting entries
        → level.new ≡ waiting (after_mode item.LevelAnnouncement level_deleted mode entries) }
{
    if is_deleted(Item::LevelAnnouncement, mode) {
        level.clear();
    }
}

fn leave_profile<T, P: ProfileStore<T>>(profile: &mut P, mode: Mode)
    ensures profile { (reported : MarkedFacts T) → P.profile profile.old ≡ profile_of reported
        → P.profile profile.new ≡ profile_of (record reported { facts = after_mode item.Profiles none_reported mode reported.facts }) }
    ensures size { P.size profile.new ≤ P.size profile.old }
{
    if is_deleted(Item::Profiles, mode) {
        profile.clear();
    }
}

impl Parts {
    // A mode is entered.
    fn enter(&mut self, mode: Mode)
        ensures { (life : Life) (reported : TrackReports) → self.old ≡ known_by life reported → self.new ≡ known_by life (after_entering mode reported) }
    {
        leave_links(&mut self.links, mode);
        leave_authority(&mut self.authority, mode);
        leave_areas(&mut self.areas, mode);
        leave_level(&mut self.level, mode);
    }
}

impl<T: ProfileStores> TracksideOver<T> {
    /// Another mode is entered: what the table of statuses deletes there is deleted.
    pub fn enter(&mut self, mode: Mode)
        ensures stands { (life : Life) (event : TrackEntry) → StandsForLife T.stores self.old (grown life (record event { entered = None }))
            → StandsForLife T.stores self.new (grown life (record event { entered = Some mode })) }
        ensures size { size_in T.stores self.new ≤ size_in T.stores self.old }
    {
        self.parts.enter(mode);
        leave_profile(&mut self.gradients, mode);
        leave_profile(&mut self.speeds, mode);
    }
}
