// What a search may still pay for asking.
ghost use Rattle.std.specs.Prelude.{◌≡◌, ◌-◌};

/// Pays so many steps from a purse, or all that is in it where they are more.
pub fn pay(purse: &mut u64, steps: u64)
    ensures { purse.new ≡ purse.old - steps }
{
    *purse = purse.saturating_sub(steps);
}
