// The rule of added hydrogens.
ghost use Rattle.std.specs.Prelude.{◌≡◌, ◌≤◌, ◌+◌, All, find, length, nat_le};
ghost use Rattle.mk_valence.specs.Hydrogens.{added_hydrogens, aromatic_orders, bond_orders_sum, radical_share, up_to_valence};

use mk_elements::valences;

/// Gives the hydrogens that an atom gains whose bonds have these types. Mark 0 is no mark.
pub fn hydrogens(element: u8, charge: i8, radical: u8, mark: u8, kinds: &[u8]) -> u8
    requires element { (1 ≤ element) × (element ≤ 118) }
    requires radical { radical ≤ 3 }
    requires mark { mark ≤ 15 }
    requires few { length kinds.now ≤ 20 }
    requires kinds { All (λ kind. (1 ≤ kind) × (kind ≤ 4)) kinds.now }
    ensures { result ≡ added_hydrogens element charge radical mark kinds.now }
{
    let orders = bond_orders_sum(kinds);
    if mark != 0 {
        let valence = if mark == 15 { 0 } else { mark };
        return valence.saturating_sub(orders);
    }
    up_to_valence(orders + radical_share(radical), valences(element, charge))
}

// What is missing up to the first valence of the row that isn't below the sum.
fn up_to_valence(total: u8, row: &[u8]) -> u8
    ensures { result ≡ up_to_valence total (find (λ valence. nat_le total valence) row.now) }
{
    for valence in row {
        if *valence >= total {
            return *valence - total;
        }
    }
    0
}

// What the bonds of these types add up to.
fn bond_orders_sum(kinds: &[u8]) -> u8
    requires few { length kinds.now ≤ 20 }
    requires kinds { All (λ kind. (1 ≤ kind) × (kind ≤ 4)) kinds.now }
    ensures sum { result ≡ bond_orders_sum kinds.now }
    ensures small { result ≤ 81 }
{
    let mut orders = 0u8;
    let mut aromatic = 0u8;
    for kind in kinds {
        if *kind == 4 {
            aromatic += 1;
        } else {
            orders += *kind;
        }
    }
    orders + aromatic_orders(aromatic)
}

// What so many bonds of type 4 add together.
fn aromatic_orders(bonds: u8) -> u8
    requires { bonds ≤ 20 }
    ensures orders { result ≡ aromatic_orders bonds }
    ensures small { result ≤ bonds + 1 }
{
    match bonds {
        0 => 0,
        1 => 1,
        _ => bonds + 1,
    }
}

// How many bonds a radical counts as.
fn radical_share(radical: u8) -> u8
    requires { radical ≤ 3 }
    ensures share { result ≡ radical_share radical }
    ensures small { result ≤ 2 }
{
    match radical {
        0 => 0,
        2 => 1,
        _ => 2,
    }
}
