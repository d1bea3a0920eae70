//! Laws that callers need, each a function that does nothing and promises it.

ghost use Rattle.vx_group_recover.specs.Laws.{EachHealingHeals};

/// A recovery that is done leaves each region settled and not dirty, and no plex that is on misses one.
pub fn each_healing_heals()
    ensures { EachHealingHeals }
{}
