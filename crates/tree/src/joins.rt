ghost use Rattle.std.specs.Prelude.{◌+◌, ◌*◌, ◌<◌, length};
ghost use Rattle.tree.specs.Under.{ChildrenJoin, JoinsNode, NodeJoins};

use kinds::Kind;

// The two nodes below a node joined, the forward one first.
pub(crate) fn children_joined<K: Kind>(nodes: &[K], i: usize) -> K
    requires { 2 * i + 1 < length nodes.now }
    ensures { ChildrenJoin K.Kind nodes.now i result }
{
    nodes[2 * i].join(nodes[2 * i + 1])
}

// One node more behind what stands before it.
pub(crate) fn onto_fore<K: Kind>(fore: K, nodes: &[K], i: usize) -> K
    requires { i < length nodes.now }
    ensures { JoinsNode K.Kind fore nodes.now i result }
{
    fore.join(nodes[i])
}

// One node more before what stands behind it.
pub(crate) fn onto_aft<K: Kind>(nodes: &[K], i: usize, aft: K) -> K
    requires { i < length nodes.now }
    ensures { NodeJoins K.Kind nodes.now i aft result }
{
    nodes[i].join(aft)
}
