//! The law of the upgrade. Its function does nothing: its contract is the law.

ghost use Rattle.mf_store_schema.specs.Upgrade.{UpgradesFirst};

/// Where the rows rise by key, these writes bring the lists of the first version to those of the second.
pub fn upgrades_first()
    ensures { UpgradesFirst }
{}
