// The columns of an atom's test against the numbers that they compare.
ghost use Rattle.std.specs.Prelude.{◌≡◌, ◌≤ℤ◌, ◌+◌, ◌&&◌, ℕ, pos, nat_le};
ghost use Rattle.mk_model.specs.Tests.{charge_fits, hydrogens_fit, radical_fits, ring_bonds_fit, substitution_fits};

/// A charge other than 0 is the same.
pub fn charge_meets(asked: i8, charge: i8) -> bool
    ensures { result ≡ charge_fits asked charge }
{
    asked == 0 || asked == charge
}

/// A radical other than 0 is the same.
pub fn radical_meets(asked: u8, radical: u8) -> bool
    ensures { result ≡ radical_fits asked radical }
{
    asked == 0 || asked == radical
}

/// The hydrogens are as many as the column asks for, where so many are drawn and so many ends are
/// free.
pub fn hydrogens_meet(column: u8, drawn: usize, free: u32, count: usize) -> bool
    ensures { result ≡ hydrogens_fit column drawn free count }
{
    if column == 0 {
        return true;
    }
    if column == 1 {
        return lies_within(drawn, free, count);
    }
    if count < drawn {
        return false;
    }
    column as usize - 1 <= count - drawn
}

/// The ring bonds are as many as a column that isn't negative asks for.
pub fn ring_bonds_meet(column: i8, count: usize) -> bool
    requires { pos 0 ≤ℤ column }
    ensures { (drawn : ℕ) → result ≡ ring_bonds_fit column drawn count }
{
    match column {
        0 => true,
        4 => count >= 4,
        _ => count == column as usize,
    }
}

/// The other neighbours are as many as a column that isn't negative asks for.
pub fn substitution_meets(column: i8, count: usize) -> bool
    requires { pos 0 ≤ℤ column }
    ensures { (drawn free : ℕ) → result ≡ substitution_fits column drawn free count }
{
    match column {
        0 => true,
        6 => count >= 6,
        _ => count == column as usize,
    }
}

/// The number is that of what is drawn, and at most one for each free end more.
pub fn lies_within(drawn: usize, free: u32, count: usize) -> bool
    ensures { result ≡ (nat_le drawn count && nat_le count (drawn + free)) }
{
    if count < drawn {
        return false;
    }
    count - drawn <= free as usize
}
