use crate::WholeMaps;
use vx_maps::MapStore;
use vx_marks::{MarkFault, Marker};
use vx_pages::LocalPiece;

/// The log of a volume: its change maps on one or two copies, or none. Without maps nothing is marked.
#[derive(Drop)]
pub enum VolumeLog<P: LocalPiece> {
    Absent,
    Maps(MapStore<P>),
}

impl<P: LocalPiece> Marker for VolumeLog<P> {
    ghost use Rattle.vx_volume.specs.Log.{log_seen, LogGoes, log_kept, log_kept_on};

    ghost log = { λ log. log_seen P.seen log };

    ghost follows = { λ x y. LogGoes P.seen x y };

    fn marked(&self, region: u64) -> u64 {
        match self {
            VolumeLog::Absent => 0,
            VolumeLog::Maps(store) => store.marked(region),
        }
    }

    fn mark(&mut self, region: u64, bits: u64) -> Result<(), MarkFault> {
        match self {
            VolumeLog::Absent => Ok(()),
            VolumeLog::Maps(store) => store.mark(region, bits),
        }
    }

    fn unmark(&mut self, region: u64, bits: u64) -> Result<(), MarkFault> {
        match self {
            VolumeLog::Absent => Ok(()),
            VolumeLog::Maps(store) => store.unmark(region, bits),
        }
    }

    ghost follows_same = { λ x. log_kept x };

    ghost follows_on = { λ x y z first then. log_kept_on x y z first then };
}

impl<P: LocalPiece> VolumeLog<P> {
    ghost use Rattle.std.specs.Prelude.{◌≡◌, ◌<◌, ℕ, true};
    ghost use Rattle.vx_marks.specs.Log.{KeepsLog, MarkHasCause, OnMarks};
    ghost use Rattle.vx_pages.specs.Firm.{FirmsStore};
    ghost use Rattle.vx_pages.specs.Setting.{IsMapSet};
    ghost use Rattle.vx_volume.specs.Bytes.{map_bit};
    ghost use Rattle.vx_volume.specs.Log.{LogGoes, log_seen};
    ghost use Rattle.vx_volume.specs.Arming.{LogArmed};

    /// Whether there are maps.
    pub fn is_there(&self) -> bool
        ensures { result ≡ (log_seen P.seen self.now).there }
    {
        match self {
            VolumeLog::Absent => false,
            VolumeLog::Maps(_) => true,
        }
    }

    /// Makes the marks of a map these, page by page, and stops at the first page that fails.
    pub(crate) fn set_map(&mut self, map: u32, bits: &[u8]) -> Result<(), MarkFault>
        requires there { (log_seen P.seen self.old).there ≡ true }
        requires low { map < 32 }
        ensures kept { KeepsLog (log_seen P.seen self.old) (log_seen P.seen self.new) }
        ensures set { IsMapSet map (map_bit bits.now) result (log_seen P.seen self.old) (log_seen P.seen self.new) }
        ensures cause { MarkHasCause (log_seen P.seen self.old) (log_seen P.seen self.new) result }
        ensures goes { LogGoes P.seen self.old self.new }
    {
        match self {
            VolumeLog::Absent => Ok(()),
            VolumeLog::Maps(store) => store.set_from(map, bits),
        }
    }

    /// Writes again what failed calls have left open, page by page, and stops at the first page that fails. After Ok nothing is loose.
    pub(crate) fn firm(&mut self) -> Result<(), MarkFault>
        ensures kept { KeepsLog (log_seen P.seen self.old) (log_seen P.seen self.new) }
        ensures told { OnMarks (FirmsStore result) (log_seen P.seen self.old).told (log_seen P.seen self.new).told }
        ensures claims { (region map : ℕ) → (log_seen P.seen self.new).claims region map ≡ (log_seen P.seen self.old).claims region map }
        ensures cause { MarkHasCause (log_seen P.seen self.old) (log_seen P.seen self.new) result }
        ensures goes { LogGoes P.seen self.old self.new }
    {
        match self {
            VolumeLog::Absent => Ok(()),
            VolumeLog::Maps(store) => store.firm(),
        }
    }

    /// Sets when a power switch is to act on each of its pieces that is not cut.
    pub(crate) fn arm(&mut self, stop: Option<u64>)
        ensures { LogArmed P.seen stop self.old self.new }
    {
        match self {
            VolumeLog::Absent => {}
            VolumeLog::Maps(store) => store.arm(stop),
        }
    }
}
