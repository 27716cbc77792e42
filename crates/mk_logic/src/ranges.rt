// Ranges: lists of intervals.
ghost use Rattle.std.specs.Prelude.{◌≡◌, ◌≤◌, nat_lt};
ghost use Rattle.std.specs.List.{list_all};
ghost use Rattle.mk_model.specs.Logic.{is_in_range};

use mk_model::Range;

/// Whether the number is in one of the intervals of the range.
pub fn holds(range: &Range, n: u32) -> bool
    requires { n ≤ 512 }
    ensures { result ≡ is_in_range range.now n }
{
    range
        .as_slice()
        .iter()
        .any(|interval| interval.least <= n && n <= interval.most)
}

/// Whether each interval ends below the number.
pub fn ends_below(range: &Range, n: u32) -> bool
    ensures { result ≡ list_all (λ interval. nat_lt interval.most n) range.now }
{
    range.as_slice().iter().all(|interval| interval.most < n)
}
