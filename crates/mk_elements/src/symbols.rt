// The symbols: one text from numbers to symbols, and one table from letters to numbers.
ghost use Rattle.std.specs.Prelude.{◌≡◌, ◌≤◌, ◌<◌, ◌+◌, ◌*◌, ◌↔◌, ℕ, IfSome, Some, length, slice_index};
ghost use Rattle.mk_elements.specs.Symbols.{IsSymbol, NamesElement};
ghost use Rattle.mk_elements.specs.Letters.{at_letters, by_letters, columns_of};

// Two columns for each element, by rising atomic number. A symbol of one letter has a blank behind
// it.
const SYMBOLS: &[u8; 236] =
    b"H HeLiBeB C N O F NeNaMgAlSiP S ClArK CaScTiV CrMnFeCoNiCuZnGaGeAsSeBrKrRbSrY ZrNbMoTcRuRhPdAgCdInSnSbTeI XeCsBaLaCePrNdPmSmEuGdTbDyHoErTmYbLuHfTaW ReOsIrPtAuHgTlPbBiPoAtRnFrRaAcThPaU NpPuAmCmBkCfEsFmMdNoLrRfDbSgBhHsMtDsRgCnNhFlMcLvTsOg";

// A row for each first letter. Its columns are no second letter, then `a` to `z`. 0 is no element.
const NUMBERS: &[u8; 702] = &[
    0, 0, 0, 89, 0, 0, 0, 47, 0, 0, 0, 0, 13, 95, 0, 0, 0, 0, 18, 33, 85, 79, 0, 0, 0, 0, 0, // A
    5, 56, 0, 0, 0, 4, 0, 0, 107, 83, 0, 97, 0, 0, 0, 0, 0, 0, 35, 0, 0, 0, 0, 0, 0, 0, 0, // B
    6, 20, 0, 0, 48, 58, 98, 0, 0, 0, 0, 0, 17, 96, 112, 27, 0, 0, 24, 55, 0, 29, 0, 0, 0, 0, 0, // C
    1, 0, 105, 0, 0, 0, 0, 0, 0, 0, 0, 0, 0, 0, 0, 0, 0, 0, 0, 110, 0, 0, 0, 0, 0, 66, 0, // D
    0, 0, 0, 0, 0, 0, 0, 0, 0, 0, 0, 0, 0, 0, 0, 0, 0, 0, 68, 99, 0, 63, 0, 0, 0, 0, 0, // E
    9, 0, 0, 0, 0, 26, 0, 0, 0, 0, 0, 0, 114, 100, 0, 0, 0, 0, 87, 0, 0, 0, 0, 0, 0, 0, 0, // F
    0, 31, 0, 0, 64, 32, 0, 0, 0, 0, 0, 0, 0, 0, 0, 0, 0, 0, 0, 0, 0, 0, 0, 0, 0, 0, 0, // G
    1, 0, 0, 0, 0, 2, 72, 80, 0, 0, 0, 0, 0, 0, 0, 67, 0, 0, 0, 108, 0, 0, 0, 0, 0, 0, 0, // H
    53, 0, 0, 0, 0, 0, 0, 0, 0, 0, 0, 0, 0, 0, 49, 0, 0, 0, 77, 0, 0, 0, 0, 0, 0, 0, 0, // I
    0, 0, 0, 0, 0, 0, 0, 0, 0, 0, 0, 0, 0, 0, 0, 0, 0, 0, 0, 0, 0, 0, 0, 0, 0, 0, 0, // J
    19, 0, 0, 0, 0, 0, 0, 0, 0, 0, 0, 0, 0, 0, 0, 0, 0, 0, 36, 0, 0, 0, 0, 0, 0, 0, 0, // K
    0, 57, 0, 0, 0, 0, 0, 0, 0, 3, 0, 0, 0, 0, 0, 0, 0, 0, 103, 0, 0, 71, 116, 0, 0, 0, 0, // L
    0, 0, 0, 115, 101, 0, 0, 12, 0, 0, 0, 0, 0, 0, 25, 42, 0, 0, 0, 0, 109, 0, 0, 0, 0, 0, 0, // M
    7, 11, 41, 0, 60, 10, 0, 0, 113, 28, 0, 0, 0, 0, 0, 102, 93, 0, 0, 0, 0, 0, 0, 0, 0, 0, 0, // N
    8, 0, 0, 0, 0, 0, 0, 118, 0, 0, 0, 0, 0, 0, 0, 0, 0, 0, 0, 76, 0, 0, 0, 0, 0, 0, 0, // O
    15, 91, 82, 0, 46, 0, 0, 0, 0, 0, 0, 0, 0, 61, 0, 84, 0, 0, 59, 0, 78, 94, 0, 0, 0, 0, 0, // P
    0, 0, 0, 0, 0, 0, 0, 0, 0, 0, 0, 0, 0, 0, 0, 0, 0, 0, 0, 0, 0, 0, 0, 0, 0, 0, 0, // Q
    0, 88, 37, 0, 0, 75, 104, 111, 45, 0, 0, 0, 0, 0, 86, 0, 0, 0, 0, 0, 0, 44, 0, 0, 0, 0, 0, // R
    16, 0, 51, 21, 0, 34, 0, 106, 0, 14, 0, 0, 0, 62, 50, 0, 0, 0, 38, 0, 0, 0, 0, 0, 0, 0, 0, // S
    1, 73, 65, 43, 0, 52, 0, 0, 90, 22, 0, 0, 81, 69, 0, 0, 0, 0, 0, 117, 0, 0, 0, 0, 0, 0, 0, // T
    92, 0, 0, 0, 0, 0, 0, 0, 0, 0, 0, 0, 0, 0, 0, 0, 0, 0, 0, 0, 0, 0, 0, 0, 0, 0, 0, // U
    23, 0, 0, 0, 0, 0, 0, 0, 0, 0, 0, 0, 0, 0, 0, 0, 0, 0, 0, 0, 0, 0, 0, 0, 0, 0, 0, // V
    74, 0, 0, 0, 0, 0, 0, 0, 0, 0, 0, 0, 0, 0, 0, 0, 0, 0, 0, 0, 0, 0, 0, 0, 0, 0, 0, // W
    0, 0, 0, 0, 0, 54, 0, 0, 0, 0, 0, 0, 0, 0, 0, 0, 0, 0, 0, 0, 0, 0, 0, 0, 0, 0, 0, // X
    39, 0, 70, 0, 0, 0, 0, 0, 0, 0, 0, 0, 0, 0, 0, 0, 0, 0, 0, 0, 0, 0, 0, 0, 0, 0, 0, // Y
    0, 0, 0, 0, 0, 0, 0, 0, 0, 0, 0, 0, 0, 0, 30, 0, 0, 0, 40, 0, 0, 0, 0, 0, 0, 0, 0, // Z
];

/// Gives the symbol of an element.
pub fn symbol_of(z: u8) -> &'static [u8]
    requires least { 1 ≤ z }
    requires most { z ≤ 118 }
    ensures { IsSymbol result.now z }
{
    columns_of(SYMBOLS, z)
}

// The two columns of an element in the text of symbols, without the blank.
fn columns_of(text: &'static [u8], z: u8) -> &'static [u8]
    requires least { 1 ≤ z }
    requires within { 2 * z ≤ length text.now }
    ensures { result.now ≡ columns_of text.now z }
{
    let from = 2 * (z as usize - 1);
    if text[from + 1] == b' ' {
        &text[from..from + 1]
    } else {
        &text[from..from + 2]
    }
}

/// Gives the element that the bytes name: the one with this symbol, and hydrogen for `D` and `T`.
pub fn number_of(symbol: &[u8]) -> Option<u8>
    ensures names { (z : ℕ) → (result ≡ Some z) ↔ NamesElement symbol.now z }
    ensures in_range { IfSome result (λ z. (1 ≤ z) × (z ≤ 118)) }
{
    by_letters(symbol)
}

// The element of one letter, or of a letter and a small one.
fn by_letters(symbol: &[u8]) -> Option<u8>
    ensures { result ≡ by_letters symbol.now }
{
    if symbol.len() == 1 {
        return number_at(symbol[0], b'a' - 1);
    }
    if symbol.len() != 2 {
        return None;
    }
    if symbol[1] < b'a' {
        return None;
    }
    number_at(symbol[0], symbol[1])
}

// The element of the two letters, where the byte before `a` stands for no second letter.
fn number_at(first: u8, second: u8) -> Option<u8>
    requires { 96 ≤ second }
    ensures { result ≡ at_letters first second }
{
    if first < b'A' || first > b'Z' || second > b'z' {
        return None;
    }
    let z = entry(NUMBERS, (first as usize - 65) * 27 + (second as usize - 96));
    if z == 0 { None } else { Some(z) }
}

// One entry of a table.
fn entry(table: &[u8], at: usize) -> u8
    requires { at < length table.now }
    ensures { result ≡ slice_index table.now at }
{
    table[at]
}
