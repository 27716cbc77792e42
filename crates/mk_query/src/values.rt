// The values that the last entries of one kind of property give to atoms.
ghost use Rattle.std.specs.Prelude.{◌≡◌, ◌∷◌, [], IfOk, length};
ghost use Rattle.mk_query.specs.LastValues.{AreLastValues, AreValuesPut, pairs_of};

use mk_demands::natural;
use mk_props::{Pair, Property};
use mk_text::Memory;
use std::alloc::Global;

/// A kind of property that gives an atom one value: the last that is given holds.
#[derive(Clone, Copy)]
pub enum ValueKind {
    RingBonds,
    Substitution,
    Unsaturation,
    Points,
}

/// For each of so many atoms the value that the last entry of a kind gives it, and 0 where none
/// names it.
pub fn last_values(
    alloc: Global,
    atoms: u32,
    props: &[Property],
    kind: ValueKind,
) -> Result<Vec<i32>, Memory>
    ensures size { IfOk result (λ values. length values.items ≡ atoms) }
    ensures last { IfOk result (λ values. AreLastValues (pairs_of kind) props.now values.items) }
{
    let mut values = vec![in alloc; 0i32; atoms as usize]?;
    for property in props {
        put_values(&mut values, pairs_of(kind, property));
    }
    Ok(values)
}

// The pairs of a property of this kind, and none of another.
fn pairs_of(kind: ValueKind, property: &Property) -> &[Pair]
    ensures { result.now ≡ pairs_of kind property.now }
{
    match (kind, property) {
        (ValueKind::RingBonds, Property::RingBonds(pairs)) => pairs.as_slice(),
        (ValueKind::Substitution, Property::Substitution(pairs)) => pairs.as_slice(),
        (ValueKind::Unsaturation, Property::Unsaturation(pairs)) => pairs.as_slice(),
        (ValueKind::Points, Property::Points(pairs)) => pairs.as_slice(),
        _ => &[],
    }
}

// Puts the values of the pairs, a later one in place of an earlier one.
fn put_values(values: &mut Vec<i32>, pairs: &[Pair])
    ensures { AreValuesPut pairs.now values.old.items values.new.items }
{
    for pair in pairs {
        put_value(values, *pair);
    }
}

fn put_value(values: &mut Vec<i32>, pair: Pair)
    ensures { AreValuesPut (pair ∷ []) values.old.items values.new.items }
{
    let place = natural(pair.atom) as usize;
    if place >= 1 && place <= values.len() {
        values[place - 1] = pair.value;
    }
}
