// A spanning forest of the bonds, grown from each atom that wasn't reached before.
ghost use Rattle.std.specs.Prelude.{◌≡◌, ◌≢◌, ◌≤◌, ◌<◌, ◌+◌, ◌*◌, ◌-◌, ◌^◌, ℕ, [], IfOk, IsTrue, OnOk, length};
ghost use Rattle.mk_model.specs.Edges.{AreBetween, HasEnds, numbers_at, rows_of, touches};
ghost use Rattle.mk_rings.specs.Forests.{IsForest, IsGrown, node, unreached};
ghost use Rattle.mk_rings.specs.Growing.{AllDone, IsInTree, IsReaching, StayReached};

use crate::node::Node;
use mk_model::{Edge, Memory, Neighbours};
use std::alloc::Global;

const UNREACHED: Node = Node {
    parent: 0,
    via: 0,
    depth: 0,
    root: 0,
};

/// A spanning forest; atom x stands at index x.
pub fn forest_of(
    alloc: Global,
    near: &Neighbours,
    atoms: u32,
    bonds: &[Edge],
) -> Result<Vec<Node>, Memory>
    requires ends { AreBetween atoms bonds.now }
    requires rows { near.now ≡ rows_of atoms bonds.now }
    ensures { IfOk result (λ nodes. IsForest atoms bonds.now nodes.items) }
{
    let mut nodes = vec![in alloc; UNREACHED; atoms as usize + 1]?;
    let mut stack = Vec::with_capacity(alloc, atoms as usize)?;
    grow_all(&mut nodes, &mut stack, near, bonds)?;
    Ok(nodes)
}

// Grows a tree from each atom that wasn't reached by the earlier ones.
fn grow_all(
    nodes: &mut [Node],
    stack: &mut Vec<u32>,
    near: &Neighbours,
    bonds: &[Edge],
) -> Result<(), Memory>
    requires grown { IsGrown bonds.now nodes.old }
    requires done { AllDone bonds.now nodes.old }
    requires empty { stack.old.items ≡ [] }
    requires few { (0 < length nodes.old) × (length nodes.old ≤ 2 ^ 32) }
    requires ends { AreBetween (length nodes.old - 1) bonds.now }
    requires rows { near.now ≡ rows_of (length nodes.old - 1) bonds.now }
    ensures { OnOk result (IsForest (length nodes.new - 1) bonds.now nodes.new) }
{
    for top in 1..nodes.len() {
        if nodes[top].root != 0 {
            continue;
        }
        grow(nodes, stack, near, bonds, top as u32)?;
    }
    Ok(())
}

// Grows the tree of an atom that wasn't reached.
fn grow(
    nodes: &mut [Node],
    stack: &mut Vec<u32>,
    near: &Neighbours,
    bonds: &[Edge],
    top: u32,
) -> Result<(), Memory>
    requires grown { IsGrown bonds.now nodes.old }
    requires done { AllDone bonds.now nodes.old }
    requires empty { stack.old.items ≡ [] }
    requires within { (1 ≤ top) × (top < length nodes.old) }
    requires few { length nodes.old ≤ 2 ^ 32 }
    requires new { (node nodes.old top).root ≡ 0 }
    requires ends { AreBetween (length nodes.old - 1) bonds.now }
    requires rows { near.now ≡ rows_of (length nodes.old - 1) bonds.now }
    ensures grown { OnOk result (IsGrown bonds.now nodes.new) }
    ensures done { OnOk result (AllDone bonds.now nodes.new) }
    ensures empty { OnOk result (stack.new.items ≡ []) }
    ensures reached { OnOk result ((node nodes.new top).root ≢ 0) }
    ensures stay { OnOk result (StayReached nodes.old nodes.new) }
{
    nodes[top as usize].root = top;
    stack.push(top)?;
    while let Some(x) = stack.pop() {
        follow(nodes, stack, near.at(x), bonds, x)?;
    }
    Ok(())
}

// Follows the bonds of an atom of the tree, and puts the atoms that are reached first onto the
// stack.
fn follow(
    nodes: &mut [Node],
    stack: &mut Vec<u32>,
    numbers: &[u32],
    bonds: &[Edge],
    x: u32,
) -> Result<(), Memory>
    requires reaching { IsReaching bonds.now nodes.old stack.old.items (node nodes.old x).root x }
    requires within { IsInTree nodes.old (node nodes.old x).root x }
    requires reached { (node nodes.old x).root ≢ 0 }
    requires ends { AreBetween (length nodes.old - 1) bonds.now }
    requires few { length nodes.old ≤ 2 ^ 32 }
    requires numbers { numbers.now ≡ numbers_at bonds.now x }
    ensures reaching { OnOk result (IsReaching bonds.now nodes.new stack.new.items (node nodes.old x).root 0) }
    ensures stay { OnOk result (StayReached nodes.old nodes.new) }
    ensures fewer { OnOk result (2 * unreached nodes.new + length stack.new.items ≤ 2 * unreached nodes.old + length stack.old.items) }
{
    let here = nodes[x as usize];
    for number in numbers {
        let b = *number - 1;
        let y = bonds[b as usize].other_end(x);
        if nodes[y as usize].root != 0 {
            continue;
        }
        nodes[y as usize] = Node {
            parent: x,
            via: b,
            depth: here.depth + 1,
            root: here.root,
        };
        stack.push(y)?;
    }
    Ok(())
}
