// Numbers of columns and entries.
ghost use Rattle.std.specs.Prelude.{◌≡◌, ◌↔◌, IsTrue, pos};
ghost use Rattle.mk_demands.specs.Numbers.{byte, IsAtom, IsWithin, natural};

/// The number, where one below 0 counts as 0.
pub fn natural(z: i32) -> u32
    ensures { result ≡ natural z }
{
    if z < 0 { 0 } else { z as u32 }
}

/// The number, where one that is no byte counts as 0.
pub fn byte(z: i32) -> u8
    ensures { result ≡ byte z }
{
    if z < 0 || z > 255 { 0 } else { z as u8 }
}

/// Whether the number is one of so many atoms.
pub fn is_atom(atoms: u32, z: i32) -> bool
    ensures { IsTrue result ↔ IsAtom atoms z }
{
    z >= 1 && natural(z) <= atoms
}

/// Whether the number is one of those from low to high.
pub fn is_within(low: i32, high: i32, z: i32) -> bool
    ensures { IsTrue result ↔ IsWithin low high z }
{
    low <= z && z <= high
}
