//! Laws, each a function with an empty body whose contract states it.

ghost use Rattle.vx_core_laws.specs.Beginning.{EachSettledBegins};
ghost use Rattle.vx_core_laws.specs.Course.{EachCourseKeeps, EachScheduleKeeps};
ghost use Rattle.vx_core_laws.specs.Exact.{EachLogIsExact};
ghost use Rattle.vx_core_laws.specs.Quiet.{EachQuietCourseStays, EachQuietScheduleStays};
ghost use Rattle.vx_core_laws.specs.Tracking.{EachTrackHolds};

/// From any moment at which a region is kept, it is kept after each course of happenings that fit, and so is each region
/// after a schedule of them.
pub fn each_course_keeps()
    ensures course { EachCourseKeeps }
    ensures schedule { EachScheduleKeeps }
{}

/// Settlings, copies and clears leave the history and the candidates as they were.
pub fn each_quiet_course_stays()
    ensures course { EachQuietCourseStays }
    ensures schedule { EachQuietScheduleStays }
{}

/// Where no call on the log failed, each copy shows exactly the bits of the region.
pub fn each_log_is_exact()
    ensures { EachLogIsExact }
{}

/// The marks of a region go with its history.
pub fn each_track_holds()
    ensures { EachTrackHolds }
{}

/// In a settled region a new history may begin, over what its current plexes hold.
pub fn each_settled_begins()
    ensures { EachSettledBegins }
{}
