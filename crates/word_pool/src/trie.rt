//! The nodes of a pool, and the walks over them. A node's number is its place in the vector.

ghost use Rattle.std.specs.Prelude.{◌≡◌, ◌<◌, ◌≤◌, ◌⊎◌, length, MatchBool};
ghost use Rattle.word_pool.specs.Trie.{node_at, words_of, IsChild, IsLinked, IsTrie, IsPlace, IsNext, Links};

/// One word of a pool: its longest proper prefix and its last letter.
///
/// The children of a node, its extensions by one letter, form a ring in ascending order of letters, in which the
/// last is followed by the first. The node keeps the child that was named last, so that naming the children in
/// ascending order costs one step each.
#[derive(Clone, Copy)]
pub struct Node {
    /// The number of the longest proper prefix, below the node's own; 0 at the root.
    pub parent: u32,
    /// The last letter; 0 at the root.
    pub letter: u16,
    /// How many letters the word has.
    pub depth: u32,
    /// The child that was named last, or 0 where there is none: the root is no child.
    pub child: u32,
    /// The next child of the same parent; the node itself where it is the only one.
    pub sibling: u32,
}

/// Whether the ring goes up from `at` to a letter that is at most `letter`.
fn goes_on(nodes: &[Node], at: u32, letter: u16) -> bool
    requires linked { IsLinked nodes.now }
    requires root { 0 < at }
    requires inside { at < length nodes.now }
    ensures { let here = node_at nodes.now at in
        let next = node_at nodes.now here.sibling in
        MatchBool result
        ((here.letter < next.letter) × (next.letter ≤ letter))
        ((next.letter ≤ here.letter) ⊎ ((letter < next.letter) × (next.letter ≤ u16.MAX))) }
{
    let here = nodes[at as usize];
    let next = nodes[here.sibling as usize];
    here.letter < next.letter && next.letter <= letter
}

/// The node that the ring reaches from `from` as it goes up while letters are at most `letter`.
pub fn climb(nodes: &[Node], from: u32, letter: u16) -> u32
    requires linked { IsLinked nodes.now }
    requires root { 0 < from }
    requires inside { from < length nodes.now }
    ensures child { IsChild nodes.now (node_at nodes.now from).parent result }
    ensures below { (node_at nodes.now from).letter ≤ letter → (node_at nodes.now result).letter ≤ letter }
    ensures stops { let here = node_at nodes.now result in
        let next = node_at nodes.now here.sibling in
        (next.letter ≤ here.letter) ⊎ ((letter < next.letter) × (next.letter ≤ u16.MAX)) }
{
    let mut at = from;
    while goes_on(nodes, at, letter) {
        at = nodes[at as usize].sibling;
    }
    at
}

/// Where a letter stands or belongs among the children of `parent`.
pub fn place_of(nodes: &[Node], parent: u32, letter: u16) -> u32
    requires linked { IsLinked nodes.now }
    requires inside { parent < length nodes.now }
    ensures { IsPlace nodes.now parent letter result }
{
    let child = nodes[parent as usize].child;
    if child == 0 {
        return 0;
    }
    if nodes[child as usize].letter <= letter {
        return climb(nodes, child, letter);
    }
    let last = climb(nodes, child, u16::MAX);
    let first = nodes[last as usize].sibling;
    if letter < nodes[first as usize].letter {
        return last;
    }
    climb(nodes, first, letter)
}

/// Whether the child at a place has the letter.
pub fn is_here(nodes: &[Node], place: u32, letter: u16) -> bool
    requires { place < length nodes.now }
    ensures { let here = node_at nodes.now place in
        MatchBool result ((0 < place) × (here.letter ≡ letter)) (0 < place → ¬ (here.letter ≡ letter)) }
{
    place > 0 && nodes[place as usize].letter == letter
}

/// Makes the node `number` a child of its parent, in the ring after `place`, or alone where that is 0.
pub fn link(nodes: &mut [Node], place: u32, number: u32)
    requires number { number < length nodes.old }
    requires place { place < number }
    requires parent { (node_at nodes.old number).parent < number }
    ensures { Links nodes.old nodes.new place number }
{
    let parent = nodes[number as usize].parent;
    nodes[parent as usize].child = number;
    if place > 0 {
        nodes[number as usize].sibling = nodes[place as usize].sibling;
        nodes[place as usize].sibling = number;
    }
}

/// The number of the word after that of `number` in lexicographic order, or 0 where that is the last.
pub fn next_of(nodes: &[Node], number: u32) -> u32
    requires trie { IsTrie nodes.now (words_of nodes.now) }
    requires inside { number < length nodes.now }
    ensures { IsNext (words_of nodes.now) number result }
{
    let child = nodes[number as usize].child;
    if child > 0 {
        let last = climb(nodes, child, u16::MAX);
        return nodes[last as usize].sibling;
    }
    let mut at = number;
    while at > 0 {
        let here = nodes[at as usize];
        if here.letter < nodes[here.sibling as usize].letter {
            return here.sibling;
        }
        at = here.parent;
    }
    0
}
