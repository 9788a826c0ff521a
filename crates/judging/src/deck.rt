ghost use Rattle.std.specs.Prelude.{◌-◌, ◌≤◌, take, drop, ◌≡◌, length};
ghost use Rattle.kinds.specs.Houses.{house_at};
ghost use Rattle.tree.specs.Trees.{SegmentTree};
ghost use Rattle.judging.specs.Decks.{Sound, Whole};

use book::Station;
use kinds::{House, Judged, Kind};
use tree::range;

// A deck as it is brought with a call: its stations, and the nodes of its tree.
#[derive(Clone, Copy)]
pub(crate) struct Deck<'a, J> {
    pub(crate) stations: &'a [Station],
    pub(crate) nodes: &'a [J],
}

impl<J: Judged> Deck<'_, J> {
    // The house summary of the stations from `from` up to `to` - 1, as the nodes have it.
    pub(crate) fn part(&self, from: usize, to: usize) -> House
        ensures { SegmentTree J.Kind self.now.nodes.now self.now.stations.now → to ≤ length self.now.stations.now → result ≡ house_at from (take (to - from) (drop from self.now.stations.now)) }
    {
        // A match: by `map_or_else` the clause, which speaks of the range's value, stays open.
        match range(self.nodes, self.stations.len(), from, to) {
            Ok(value) => value.house(),
            Err(_) => House::empty(),
        }
    }

    // That of the whole deck.
    pub(crate) fn whole(&self) -> House
        ensures house { SegmentTree J.Kind self.now.nodes.now self.now.stations.now → result ≡ house_at 0 self.now.stations.now }
        ensures few { SegmentTree J.Kind self.now.nodes.now self.now.stations.now → length self.now.stations.now ≤ 256 }
        ensures whole { Sound J.Kind self.now → Whole self.now.stations.now result }
    {
        self.part(0, self.stations.len())
    }
}
