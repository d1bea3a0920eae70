//! Reading a configuration and giving its records are inverse: laws, each a function with an empty body whose contract
//! states it.

ghost use Rattle.vx_objects.specs.Laws.{PrintsBack, ReadsBack, RefusesNone};

/// What is read from the records of a configuration is that configuration.
pub fn reads_back()
    ensures { ReadsBack }
{}

/// The records of a configuration are refused for want of memory alone.
pub fn refuses_none()
    ensures { RefusesNone }
{}

/// Records in the order of print, from which a configuration is read, are the records that it gives.
pub fn prints_back()
    ensures { PrintsBack }
{}
