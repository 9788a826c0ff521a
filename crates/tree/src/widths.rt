ghost use Rattle.std.specs.Prelude.{◌≡◌, ◌*◌, ◌^◌, ◌≤◌};
ghost use Rattle.std.specs.Bool.{then_some};
ghost use Rattle.tree.specs.Widths.{width, deck, fits, WidthsAreLeast};

// Whether a deck may have so many stations.
fn is_deck(stations: usize) -> bool
    ensures { result ≡ deck stations }
{
    (1..=256).contains(&stations)
}

// The width of the tree of a deck.
fn width_of(stations: usize) -> usize
    requires { stations ≤ 256 }
    ensures value { result ≡ width stations }
    ensures upper_bound { result ≤ 256 }
{
    stations.next_power_of_two()
}

// How many nodes the tree of a deck has, twice its width: none where no deck has so many stations.
pub fn nodes_for(stations: usize) -> Option<usize>
    ensures value { result ≡ then_some (deck stations) (2 * width stations) }
    ensures least { WidthsAreLeast }
{
    is_deck(stations).then(|| 2 * width_of(stations))
}

// Whether so many nodes are the node memory of a deck of so many stations.
pub fn fits(stations: usize, nodes: usize) -> bool
    ensures { result ≡ fits stations nodes }
{
    nodes_for(stations).is_some_and(|count| nodes == count)
}
