// The atoms by which a template is joined on.
ghost use Rattle.std.specs.Prelude.{◌≡◌, ◌≤◌, ◌++◌, IfOk, OnOk, length};
ghost use Rattle.mk_query.specs.Compiled.{points_of};
ghost use Rattle.mk_query.specs.TemplateMarks.{bearers, bears_by};

use crate::atom_marks::gives_point;
use crate::notes::Notes;
use mk_text::{Memory, Numbers};
use std::alloc::Global;

/// The atoms with attachment point 1 and with point 2.
pub fn points_of(alloc: Global, notes: &Notes<'_>) -> Result<Numbers, Memory>
    ensures { IfOk result (λ points. points ≡ points_of notes.now.table.now) }
{
    let values = &notes.standing.points;
    let mut points = Vec::with_capacity(alloc, 2)?;
    put_bearers(&mut points, values, 1)?;
    put_bearers(&mut points, values, 2)?;
    Ok(Numbers::of(points))
}

// Puts the atoms to which the values give point p behind the others.
fn put_bearers(points: &mut Vec<u32>, values: &[i32], p: u32) -> Result<(), Memory>
    requires { length values.now ≤ 999 }
    ensures { OnOk result (points.new.items ≡ points.old.items ++ bearers values.now p (length values.now)) }
{
    for i in 0..values.len() {
        let x = i as u32 + 1;
        if !bears_by(values, p, x) {
            continue;
        }
        points.push(x)?;
    }
    Ok(())
}

fn bears_by(values: &[i32], p: u32, x: u32) -> bool
    requires least { 1 ≤ x }
    requires most { x ≤ length values.now }
    ensures { result ≡ bears_by values.now p x }
{
    gives_point(values[x as usize - 1], p)
}
