// The node memory of a deck.
use kinds::Kind;
use std::alloc::{AllocError, Global};
use tree::nodes_for;

// As many empty nodes as the tree of so many stations has: none where no deck has so many.
pub(crate) fn nodes_of<K: Kind + Drop>(
    heap: Global,
    stations: usize,
) -> Result<Vec<K>, AllocError> {
    let count = nodes_for(stations).unwrap_or(0);
    Ok(vec![in heap; K::empty(); count]?)
}
