// What is demanded of attachment points.
ghost use Rattle.std.specs.Prelude.{◌≡◌, ◌≢◌, ◌↔◌, false, true, IsTrue};
ghost use Rattle.mk_text.specs.Items.{FindsLeast};
ghost use Rattle.mk_query.specs.AtomMarks.{bears, is_link, is_marked_site};
ghost use Rattle.mk_query.specs.LinkChecks.{HasPoint};
ghost use Rattle.mk_query.specs.PointSearch.{IsFirstBearer, IsPointedBy};

use crate::atom_marks::{Standing, bears, is_link, is_marked_site};
use crate::notes::Notes;

/// The first atom that bears a point where there may be none, a point that a lower atom bears, or
/// point 2 alone.
pub fn first_misplaced_point(is_root: bool, notes: &Notes<'_>) -> Option<u32>
    ensures { FindsLeast (HasPoint is_root notes.now.table.now) result }
{
    let standing = &notes.standing;
    let atoms = notes.table.atoms.as_slice();
    let first = first_bearer(standing, 1, atoms.len() as u32);
    let second = first_bearer(standing, 2, atoms.len() as u32);
    for i in 0..atoms.len() {
        if !is_pointed(is_root, standing, first, second, i as u32 + 1) {
            return Some(i as u32 + 1);
        }
    }
    None
}

// The lowest of so many atoms that bears point p, and 0 where none does.
fn first_bearer(standing: &Standing, p: u32, atoms: u32) -> u32
    ensures { IsFirstBearer standing.now p atoms result }
{
    for i in 0..atoms {
        if bears(standing, p, i + 1) {
            return i + 1;
        }
    }
    0
}

// Whether atom x may bear what it bears, where the lowest atoms that bear point 1 and point 2 are
// these.
fn is_pointed(is_root: bool, standing: &Standing, first: u32, second: u32, x: u32) -> bool
    ensures { IsTrue result ↔ IsPointedBy is_root standing.now first second x }
{
    let one = bears(standing, 1, x);
    let two = bears(standing, 2, x);
    if !one && !two {
        return true;
    }
    is_free(is_root, is_marked_site(standing, x), is_link(standing, x))
        && is_alone(one, first, x)
        && is_alone(two, second, x)
        && has_first(two, first)
}

fn is_free(is_root: bool, site: bool, link: bool) -> bool
    ensures { IsTrue result ↔ ((is_root ≡ false) × (site ≡ false) × (link ≡ false)) }
{
    !is_root && !site && !link
}

fn is_alone(bears: bool, lowest: u32, x: u32) -> bool
    ensures { IsTrue result ↔ (bears ≡ true → lowest ≡ x) }
{
    !bears || lowest == x
}

fn has_first(two: bool, first: u32) -> bool
    ensures { IsTrue result ↔ (two ≡ true → first ≢ 0) }
{
    !two || first != 0
}
