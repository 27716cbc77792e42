// The valences by element and charge.
ghost use Rattle.std.specs.Prelude.{◌≡◌};
ghost use Rattle.std.specs.List.Sorted.{IsStrictlyIncreasing};
ghost use Rattle.mk_elements.specs.Valences.{negative, positive, row_of, uncharged, valences_of};

/// Gives the valences of an element at a charge, rising, or nothing.
pub fn valences(z: u8, charge: i8) -> &'static [u8]
    ensures row { result.now ≡ valences_of z charge }
    ensures rising { IsStrictlyIncreasing result.now }
{
    match charge {
        0 => uncharged(z),
        1 => positive(z),
        -1 => negative(z),
        _ => &[],
    }
}

fn uncharged(z: u8) -> &'static [u8]
    ensures row { result.now ≡ row_of z uncharged }
    ensures rising { IsStrictlyIncreasing result.now }
{
    match z {
        5 => &[3],
        6 | 14 => &[4],
        7 | 15 | 33 => &[3, 5],
        8 => &[2],
        9 | 17 | 35 | 53 => &[1],
        16 | 34 => &[2, 4, 6],
        _ => &[],
    }
}

fn positive(z: u8) -> &'static [u8]
    ensures row { result.now ≡ row_of z positive }
    ensures rising { IsStrictlyIncreasing result.now }
{
    match z {
        6 | 8 => &[3],
        7 | 15 => &[4],
        16 => &[3, 5],
        _ => &[],
    }
}

fn negative(z: u8) -> &'static [u8]
    ensures row { result.now ≡ row_of z negative }
    ensures rising { IsStrictlyIncreasing result.now }
{
    match z {
        5 => &[4],
        6 => &[3],
        7 | 15 => &[2],
        8 | 16 => &[1],
        _ => &[],
    }
}
