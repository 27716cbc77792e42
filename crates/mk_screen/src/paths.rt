// The bits of all paths: of the atoms alone, and then of the paths around each bond, which are its
// ends, those with a neighbour of one end, and those with a neighbour of each. Each path and its
// reverse are met at its middle bond.
ghost use Rattle.std.specs.Prelude.{◌≡◌, ◌≢◌, ◌≤◌, ◌<◌, ◌↔◌, ℕ, IsTrue, length};
ghost use Rattle.mk_model.specs.Screens.{IsBitOf, element_at, has_bit};
ghost use Rattle.mk_screen.specs.Paths.{Adds, IsPair, bits_all_before, bits_all_behind, bits_around, bits_before, bits_behind, bits_of_atom, bits_of_atoms, bits_of_bond, bits_of_bonds};

use crate::drawn::{Drawn, end_of};
use crate::marks::put_bit;

/// The bits of all paths.
pub fn bits_of<D: Drawn>(drawn: &D) -> [u64; 8]
    ensures { (b : ℕ) → b < 512 → IsTrue (has_bit result b) ↔ IsBitOf (D.shown drawn.now) b }
{
    let mut bits = [0; 8];
    put_atoms(drawn, &mut bits);
    put_bonds(drawn, &mut bits);
    bits
}

// Sets the bits of single atoms.
fn put_atoms<D: Drawn>(drawn: &D, bits: &mut [u64; 8])
    ensures size { length bits.new ≡ 8 }
    ensures put { Adds (bits_of_atoms (D.shown drawn.now) (length (D.shown drawn.now).elements)) bits.old bits.new }
{
    for k in 0..drawn.size() {
        put_atom(drawn, k + 1, bits);
    }
}

// Sets the bit of one atom.
fn put_atom<D: Drawn>(drawn: &D, a: u32, bits: &mut [u64; 8])
    requires least { 1 ≤ a }
    requires most { a ≤ length (D.shown drawn.now).elements }
    ensures size { length bits.new ≡ 8 }
    ensures put { Adds (bits_of_atom (D.shown drawn.now) a) bits.old bits.new }
{
    let x = u32::from(drawn.element(a));
    if x < 2 {
        return;
    }
    put_bit(bits, (131 + x) % 512);
}

// Sets the bits of the paths around each bond.
fn put_bonds<D: Drawn>(drawn: &D, bits: &mut [u64; 8])
    ensures size { length bits.new ≡ 8 }
    ensures put { Adds (bits_of_bonds (D.shown drawn.now) (length (D.shown drawn.now).bonds)) bits.old bits.new }
{
    for k in 0..drawn.bond_count() {
        let edge = drawn.edge(k + 1);
        put_bond(drawn, edge.first, edge.second, bits);
    }
}

// Sets the bits of the paths around a bond between b and c.
fn put_bond<D: Drawn>(drawn: &D, b: u32, c: u32, bits: &mut [u64; 8])
    requires first { (1 ≤ b) × (b ≤ length (D.shown drawn.now).elements) }
    requires second { (1 ≤ c) × (c ≤ length (D.shown drawn.now).elements) }
    requires differ { b ≢ c }
    ensures size { length bits.new ≡ 8 }
    ensures put { Adds (bits_of_bond (D.shown drawn.now) b c) bits.old bits.new }
{
    let y = u32::from(drawn.element(b));
    let z = u32::from(drawn.element(c));
    if y < 2 || z < 2 {
        return;
    }
    put_bit(bits, (2 * 131 * 131 + y * 131 + z) % 512);
    put_bit(bits, (2 * 131 * 131 + z * 131 + y) % 512);
    put_all_before(drawn, b, c, y, z, bits);
    put_all_behind(drawn, b, c, y, z, bits);
}

// Sets the bits of the paths with a neighbour of b in front.
fn put_all_before<D: Drawn>(drawn: &D, b: u32, c: u32, y: u32, z: u32, bits: &mut [u64; 8])
    requires first { (1 ≤ b) × (b ≤ length (D.shown drawn.now).elements) }
    requires second { (1 ≤ c) × (c ≤ length (D.shown drawn.now).elements) }
    requires pair { IsPair (D.shown drawn.now) b c y z }
    ensures size { length bits.new ≡ 8 }
    ensures put { Adds (bits_all_before (D.shown drawn.now) b c) bits.old bits.new }
{
    for number in drawn.numbers(b) {
        put_before(drawn, end_of(drawn, *number, b), b, c, y, z, bits);
    }
}

// Sets the bits of the paths with a neighbour of c at the end.
fn put_all_behind<D: Drawn>(drawn: &D, b: u32, c: u32, y: u32, z: u32, bits: &mut [u64; 8])
    requires second { (1 ≤ c) × (c ≤ length (D.shown drawn.now).elements) }
    requires pair { IsPair (D.shown drawn.now) b c y z }
    ensures size { length bits.new ≡ 8 }
    ensures put { Adds (bits_all_behind (D.shown drawn.now) b c) bits.old bits.new }
{
    for number in drawn.numbers(c) {
        put_behind(drawn, b, c, end_of(drawn, *number, c), y, z, bits);
    }
}

// Sets the bits of the paths of b, c and d.
fn put_behind<D: Drawn>(drawn: &D, b: u32, c: u32, d: u32, y: u32, z: u32, bits: &mut [u64; 8])
    requires last { (1 ≤ d) × (d ≤ length (D.shown drawn.now).elements) }
    requires other { d ≢ c }
    requires pair { IsPair (D.shown drawn.now) b c y z }
    ensures size { length bits.new ≡ 8 }
    ensures put { Adds (bits_behind (D.shown drawn.now) b c d) bits.old bits.new }
{
    let w = u32::from(drawn.element(d));
    if w < 2 || d == b {
        return;
    }
    put_bit(bits, (3 * 131 * 131 * 131 + (y * 131 + z) * 131 + w) % 512);
    put_bit(bits, (3 * 131 * 131 * 131 + (w * 131 + z) * 131 + y) % 512);
}

// Sets the bits of the paths that begin with a, b and c, and of their reverses.
fn put_before<D: Drawn>(drawn: &D, a: u32, b: u32, c: u32, y: u32, z: u32, bits: &mut [u64; 8])
    requires first { (1 ≤ a) × (a ≤ length (D.shown drawn.now).elements) }
    requires second { (1 ≤ c) × (c ≤ length (D.shown drawn.now).elements) }
    requires other { a ≢ b }
    requires pair { IsPair (D.shown drawn.now) b c y z }
    ensures size { length bits.new ≡ 8 }
    ensures put { Adds (bits_before (D.shown drawn.now) a b c) bits.old bits.new }
{
    let x = u32::from(drawn.element(a));
    if x < 2 || a == c {
        return;
    }
    put_bit(bits, (3 * 131 * 131 * 131 + (x * 131 + y) * 131 + z) % 512);
    put_bit(bits, (3 * 131 * 131 * 131 + (z * 131 + y) * 131 + x) % 512);
    for number in drawn.numbers(c) {
        put_around(drawn, a, b, c, end_of(drawn, *number, c), x, y, z, bits);
    }
}

// Sets the bits of the path of a, b, c and d, and of its reverse.
fn put_around<D: Drawn>(
    drawn: &D,
    a: u32,
    b: u32,
    c: u32,
    d: u32,
    x: u32,
    y: u32,
    z: u32,
    bits: &mut [u64; 8],
)
    requires last { (1 ≤ d) × (d ≤ length (D.shown drawn.now).elements) }
    requires other { d ≢ c }
    requires first { x ≡ element_at (D.shown drawn.now).elements a }
    requires few { x ≤ 118 }
    requires pair { IsPair (D.shown drawn.now) b c y z }
    ensures size { length bits.new ≡ 8 }
    ensures put { Adds (bits_around (D.shown drawn.now) a b c d) bits.old bits.new }
{
    let w = u32::from(drawn.element(d));
    if w < 2 || d == a || d == b {
        return;
    }
    put_bit(
        bits,
        (4 * 131 * 131 * 131 * 131 + ((x * 131 + y) * 131 + z) * 131 + w) % 512,
    );
    put_bit(
        bits,
        (4 * 131 * 131 * 131 * 131 + ((w * 131 + z) * 131 + y) * 131 + x) % 512,
    );
}
