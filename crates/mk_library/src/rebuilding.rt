// A library built anew from its texts.
ghost use Rattle.std.specs.Prelude.{◌≡◌, IfOk};
ghost use Rattle.mk_library.specs.Library.{HaveSamePostings, IsSame};

use crate::Library;
use crate::molecules::molecule_of_text;
use crate::restoring::copied;
use mk_mol::one_filled_molecule;
use mk_outside::Memory;
use std::alloc::Global;

// Two libraries of the same records have the same molecules, since a text has one. A step for the
// proof alone.
fn have_same_molecules(library: &Library, other: &Library)
    requires { other.now.records ≡ library.now.records }
    ensures { other.now.rows ≡ library.now.rows }
{
    one_filled_molecule();
    library.shelf();
    other.shelf();
}

impl Library {
    /// The same library, with every molecule made anew from its text.
    pub fn rebuilt(&self, alloc: Global) -> Result<Library, Memory>
        ensures same { IfOk result (IsSame self.now) }
        ensures postings { IfOk result (HaveSamePostings self.now) }
    {
        let mut library = Library::with_next(alloc, self.next_number());
        for row in self.texts() {
            let Some(mol) = molecule_of_text(alloc, row.item.as_slice())? else {
                unreachable!()
            };
            let text = copied(alloc, row.item.as_slice())?;
            library.reserve(1)?;
            library.put_stored(row.number, text, mol);
        }
        have_same_molecules(self, &library);
        Ok(library)
    }
}
