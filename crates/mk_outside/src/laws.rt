// Laws on tables. Their functions do nothing.
ghost use Rattle.mk_outside.specs.Tables.{BatchesKeepRising};

/// Rows that stand by rising number do so after each batch.
pub fn rising_tables_stay_rising()
    ensures { BatchesKeepRising }
{}
