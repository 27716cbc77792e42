// The plain program on one molecule: the least code and hit from a place on, each code begun anew.
ghost use Rattle.std.specs.Prelude.{◌≡◌, ◌≤◌, ◌++◌, IfOk};
ghost use Rattle.mk_text.specs.Rising.{IsLeastFrom};
ghost use Rattle.mk_model.specs.Codes.{IsCode};
ghost use Rattle.mk_model.specs.Expansions.{IsExpansion};
ghost use Rattle.mk_model.specs.Graphs.{GraphView};
ghost use Rattle.mk_model.specs.Hits.{IsHit};
ghost use Rattle.mk_model.specs.Keys.{IsOccurrence};
ghost use Rattle.mk_model.specs.QueryFits.{QueryFits};
ghost use Rattle.mk_expansions.specs.Starts.{IsStart};

use crate::starts::{behind, start};
use mk_choice::Codes;
use mk_expand::expand;
use mk_match::least_map;
use mk_model::{Key, Map, Memory, Mol, Query, Steps};
use std::alloc::Global;
use std::sync::ledger::Ledger;

/// The least code and hit, one behind the other, that aren't below the place. None exactly where
/// there are none.
pub fn least_key_of<L: Ledger>(
    alloc: Global,
    mol: &Mol,
    query: &Query,
    place: &[u32],
    steps: &mut Steps<L>,
) -> Result<Option<Key>, Memory>
    ensures least { IfOk result (IsLeastFrom place.now (IsOccurrence query.now mol.now)) }
    ensures steps { steps.old ≤ steps.new }
{
    // The reader's clause says what every query keeps.
    let _kept = query.templates();
    let mut codes = Codes::from_place(alloc, query, start(query, place))?;
    let key = least_key_from(alloc, mol, query, place, &mut codes, steps);
    // For the proof alone: a call lets it go, and not the end of the block.
    drop(codes);
    key
}

// The least code and hit, by the codes from where the place starts.
fn least_key_from<L: Ledger>(
    alloc: Global,
    mol: &Mol,
    query: &Query,
    place: &[u32],
    codes: &mut Codes<'_>,
    steps: &mut Steps<L>,
) -> Result<Option<Key>, Memory>
    requires fits { QueryFits query.now }
    requires query { codes.old.query ≡ query.now }
    requires starts { IsStart query.now place.now codes.old.place }
    ensures least { IfOk result (IsLeastFrom place.now (IsOccurrence query.now mol.now)) }
    ensures steps { steps.old ≤ steps.new }
{
    while let Some(code) = codes.next() {
        let back = behind(code, place);
        if let Some(hit) = least_hit_by(alloc, mol, query, code, back, steps)? {
            return Ok(Some(joined(alloc, code, hit.as_slice())?));
        }
    }
    Ok(None)
}

// The least hit of the expansion by a code that isn't below the place.
fn least_hit_by<L: Ledger>(
    alloc: Global,
    mol: &Mol,
    query: &Query,
    code: &[u32],
    place: &[u32],
    steps: &mut Steps<L>,
) -> Result<Option<Map>, Memory>
    requires { IsCode query.now 0 code.now }
    ensures least { IfOk result (λ found. (graph : GraphView) × IsExpansion query.now code.now graph × IsLeastFrom place.now (IsHit graph mol.now) found) }
    ensures steps { steps.old ≤ steps.new }
{
    let graph = expand(alloc, query, code)?;
    let hit = least_map(alloc, &graph, mol, place, steps);
    drop(graph);
    hit
}

// Numbers, and others behind them.
fn joined(alloc: Global, front: &[u32], back: &[u32]) -> Result<Key, Memory>
    ensures { IfOk result (λ key. key ≡ front.now ++ back.now) }
{
    let mut key = Vec::from_slice(alloc, front)?;
    key.extend_from_slice(back)?;
    Ok(Key::of(key))
}
