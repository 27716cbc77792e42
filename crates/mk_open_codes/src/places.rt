// Where the slots of the root stand in a code.
ghost use Rattle.std.specs.Prelude.{OnOk};
ghost use Rattle.mk_model.specs.Codes.{IsCode};
ghost use Rattle.mk_open_codes.specs.Alone.{ArePlaces};

use crate::slots::{behind_slot, slots_of_root};
use mk_model::{Memory, Query};

/// Writes for each slot of the root the place of its number in a structural code, from 0 on.
pub fn root_places(query: &Query, code: &[u32], places: &mut Vec<u32>) -> Result<(), Memory>
    requires { IsCode query.now 0 code.now }
    ensures { OnOk result (ArePlaces query.now code.now places.new.items) }
{
    places.clear();
    let mut at = 0;
    for slot in slots_of_root(query) {
        places.push(at as u32)?;
        at = behind_slot(query, slot, code, at)?;
    }
    Ok(())
}
