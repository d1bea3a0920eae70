//! A law of maps that are set, a function with an empty body whose contract states it.

ghost use Rattle.vx_volume.specs.MapLaws.{SettingStaysHonest};

/// A log that is honest stays so when a map is set, also where that fails.
pub fn each_log_stays_honest()
    ensures { SettingStaysHonest }
{}
