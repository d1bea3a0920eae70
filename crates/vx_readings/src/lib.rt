//! Other readings of a configuration: laws, as functions that do nothing and promise them. The text of a configuration is read as its
//! records, in some order; and a volume is as sound by such another reading, by fewer good disks, and by other bytes of those that are not.
#![tactic(auto)]

ghost use Rattle.vx_readings.specs.Readings.{EachReadingIsAsSound, EachTextHasOneReading};

/// Whatever configuration the text of one is read as has its records.
pub fn each_text_has_one_reading()
    ensures { EachTextHasOneReading }
{}

/// A volume is as sound by another configuration with the same records, by no more good disks, and by bytes that are the same on those.
pub fn each_reading_is_as_sound()
    ensures { EachReadingIsAsSound }
{}
