// Laws of structural codes, of labels, of keys and of nodes, each carried by a function that does nothing.
ghost use Rattle.std.specs.Prelude.{ℕ, List};
ghost use Rattle.mk_model.specs.Codes.{CodesAreReadOneWay, NoCodeBeginsAnother};
ghost use Rattle.mk_model.specs.Hits.{EmbeddingsHaveHits, HitsAreOneByHydrogens};
ghost use Rattle.mk_model.specs.Keys.{IsAmong, NoKeyBeginsAnother, OccurrencesAreReadOneWay};
ghost use Rattle.mk_model.specs.Molecules.{Molecule};
ghost use Rattle.mk_model.specs.Nodes.{AheadAddsUp};
ghost use Rattle.mk_model.specs.PlainCodes.{ValidCodesAreListed};
ghost use Rattle.mk_model.specs.SingleLabels.{SingleLabelsAsBefore};

/// No structural code is a proper prefix of another.
pub fn no_code_begins_another()
    ensures { NoCodeBeginsAnother }
{}

/// A text of numbers is a structural code of a template in at most one way.
pub fn codes_are_read_one_way()
    ensures { CodesAreReadOneWay }
{}

/// The plain program lists the valid codes of a query, all of them and in order.
pub fn valid_codes_are_listed()
    ensures { ValidCodesAreListed }
{}

/// A structural code, and the hit behind it, stand in an occurrence in one way.
pub fn occurrences_are_read_one_way()
    ensures { OccurrencesAreReadOneWay }
{}

/// No key is a proper prefix of another.
pub fn no_key_begins_another()
    ensures { NoKeyBeginsAnother }
{}

/// Where each site of a query bears one label, its codes, expansions and keys are what they were
/// when no site bore more.
pub fn single_labels_are_as_before()
    ensures { SingleLabelsAsBefore }
{}

/// What lies ahead from a place to a second, and from there to a third, adds up. `AheadAddsUp` says it
/// of any molecules that are held, and crates above say it of theirs.
pub fn ahead_adds_up()
    ensures { (molecules : List (ℕ × Molecule)) → AheadAddsUp (IsAmong molecules) }
{}

/// Each embedding has a hit that agrees with it at all atoms but plain hydrogens, and hits that agree
/// there are one, where all plain hydrogens lie on plain hydrogens.
pub fn hydrogens_are_taken_once()
    ensures kept { EmbeddingsHaveHits }
    ensures one { HitsAreOneByHydrogens }
{}
