//! What holds of images.
ghost use Rattle.cam_image.specs.Laws.{ShownIsRecovered, UpgradeIsMigration, UpgradeIsOnce};

/// Entries are shown exactly if they can be recovered: a fault is the same.
pub fn inspections()
    ensures recovered { ShownIsRecovered }
{}

/// What an upgrade writes is the migrated log: it recovers what the image that was read does, and is left as it is when it is
/// upgraded again, unless it is then too long.
pub fn upgrades()
    ensures migrated { UpgradeIsMigration }
    ensures once { UpgradeIsOnce }
{}
