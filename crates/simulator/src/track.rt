//! The balises of a track in their order, and those that the train drives over.
ghost use Rattle.std.specs.Prelude.{◌≡◌, ◌^◌, ◌+ℤ◌, ◌≤ℤ◌, ◌<ℤ◌, pos, neg_ℤ, IfOk, All};
ghost use Rattle.std.specs.List.Sorted.{IsNonDecreasingBy};
ghost use Rattle.simulator.specs.Passing.{passed, AreUpTo};

use crate::balise::Balise;
use units::NoMemory;

/// The balises on the track, in the order of their places; those of one place in the order of the file (this project's
/// profile).
#[derive(Drop)]
pub struct Track {
    /// The balises, with their places in centimetres ahead of the start.
    pub balises: Vec<Balise>,
    ghost rises: { IsNonDecreasingBy (λ b. b.at) balises.items },
}

impl Track {
    /// The track with these balises. NoMemory where memory to sort them was refused.
    pub fn new(mut balises: Vec<Balise>) -> Result<Track, NoMemory>
        ensures { IfOk result (λ track. passed track.balises.items ≡ passed balises.items) }
    {
        balises.sort_by_key(|balise| balise.at)?;
        Ok(Track { balises })
    }

    // How many balises lie at or before a place.
    fn up_to(&self, place: i128) -> usize
        ensures { AreUpTo self.now.balises.items place result }
    {
        self.balises
            .as_slice()
            .partition_point(|balise| i128::from(balise.at) <= place)
    }

    /// The balises that a way of so many centimetres ahead of a place leads over, in their order: those beyond the
    /// place, up to the end of the way. The caller owes a place within 2^99 cm of the start.
    pub fn ahead(&self, from: i128, cm: u32) -> &[Balise]
        requires low { neg_ℤ (pos (2 ^ 99)) ≤ℤ from }
        requires high { from ≤ℤ pos (2 ^ 99) }
        ensures exact { result.now ≡ passed self.now.balises.items from cm }
        ensures near { All (λ b. (from <ℤ pos b.at) × (pos b.at ≤ℤ (from +ℤ pos cm))) result.now }
    {
        let first = self.up_to(from);
        let end = self.up_to(from + i128::from(cm));
        &self.balises[first..end]
    }
}
