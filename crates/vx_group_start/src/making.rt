//! An empty log is made on new log plexes. It lies among what is left over until it is taken.

ghost use Rattle.std.specs.Prelude.{◌≡◌, ◌<◌, ◌≤◌, ◌++◌, true, map, length, vec_len, vec_capacity, IfErr, OnErr, OnOk};
ghost use Rattle.std.specs.List.{All};
ghost use Rattle.vx_layout.specs.declared.layout.Layout.{Layout};
ghost use Rattle.vx_carve.specs.Carved.{HaveNumbers};
ghost use Rattle.vx_carve.specs.Strips.{ArePlexes, EachStrip, IsFreeStrip};
ghost use Rattle.vx_carve.specs.Together.{AreOnce, SameSectors};
ghost use Rattle.vx_maps.specs.Spares.{copies_seen};
ghost use Rattle.vx_maps.specs.Wholes.{store_copies};
ghost use Rattle.vx_lending.specs.Pieces.{copy_pieces};
ghost use Rattle.vx_lending.specs.Public.{still_pieces};
ghost use Rattle.vx_lending.specs.Taken.{AreLogCopies, HaveBlocks, log_sectors, slot_of};
ghost use Rattle.vx_group_start.specs.Fresh.{maps_to_copy};
ghost use Rattle.vx_group_start.specs.Making.{EndsInLog, HasLeftLog, IsLogMade, IsLogTaken, IsLogUnmade, IsMadeOver, IsUnmadeOver};
ghost use Rattle.vx_group_start.specs.Together.{ComeBackFrom, GoByCopies};

use crate::fault::StartFault;
use crate::logs::start_log;
use crate::remains::put_back;
use std::alloc::Global;
use vx_lending::{LogLeft, Public, Remains, VolumeForm, take_copies};
use vx_maps::MapStore;
use vx_piece::Piece;
use vx_volume::VolumeLog;

/// Takes a copy for each log plex of the form out of the pool, makes a new log on them, of which nothing is marked, and leaves it
/// as the last of what is left over. After a refusal all pieces lie still: in the pool, or where it has no room for them among
/// what is left over.
pub fn make_log<P: Piece + Drop>(
    alloc: Global,
    numbers: &[u32],
    public: &mut Public<P>,
    form: &VolumeForm,
) -> Result<(), StartFault>
    requires few { length form.now.logs.items ≤ 2 }
    requires some { 0 < length form.now.logs.items }
    requires roomy { HaveBlocks (log_sectors form.now.shape.geometry) form.now.logs.items }
    requires apart { HaveNumbers numbers.now }
    requires plexes { ArePlexes numbers.now form.now.logs.items }
    requires once { AreOnce (map P.seen public.old.pool.items.items) }
    requires free { All (λ (l : Layout). EachStrip (IsFreeStrip numbers.now (map P.seen public.old.pool.items.items)) l.columns) form.now.logs.items }
    // It has one data plex, of which nothing is to be copied.
    requires one { maps_to_copy form.now.shape ≡ 0 }
    ensures made { OnOk result (IsLogMade P.seen numbers.now form.now public.old public.new) }
    ensures refused { IfErr result (λ fault. IsLogUnmade P.seen numbers.now form.now public.old public.new fault) }
    ensures back { OnErr result (ComeBackFrom numbers.now form.now true (still_pieces P.seen public.old) (still_pieces P.seen public.new)) }
    ensures running { public.new.running ≡ public.old.running }
    ensures stuck { public.new.stuck ≡ public.old.stuck }
{
    if public.left.reserve(1).is_err() {
        return Err(StartFault::OutOfMemory);
    }
    match take_copies(
        alloc,
        &mut public.pool,
        numbers,
        &form.shape.geometry,
        &form.logs,
    ) {
        Ok(copies) => make_over(alloc, public, form, copies),
        Err((copies, _)) => {
            put_back(alloc, public, Vec::new(alloc), LogLeft::Copies(copies));
            Err(StartFault::OutOfMemory)
        }
    }
}

/// Makes a new log on copies that were taken, and leaves it as the last of what is left over.
fn make_over<P: Piece + Drop>(
    alloc: Global,
    public: &mut Public<P>,
    form: &VolumeForm,
    copies: Vec<Vec<P>>,
) -> Result<(), StartFault>
    requires room { vec_len public.old.left < vec_capacity public.old.left }
    requires copies { AreLogCopies (slot_of form.now.shape.geometry) (copies_seen P.seen copies.items) }
    requires some { 0 < length (copies_seen P.seen copies.items) }
    ensures made { OnOk result (IsMadeOver P.seen form.now.shape (copies_seen P.seen copies.items) public.old public.new) }
    ensures refused { IfErr result (λ fault. IsUnmadeOver (copies_seen P.seen copies.items) (copy_pieces (copies_seen P.seen copies.items) ++ still_pieces P.seen public.old) (still_pieces P.seen public.new) fault) }
    ensures back { OnErr result (GoByCopies (copies_seen P.seen copies.items) (copy_pieces (copies_seen P.seen copies.items) ++ still_pieces P.seen public.old) (still_pieces P.seen public.new)) }
    ensures running { public.new.running ≡ public.old.running }
    ensures stuck { public.new.stuck ≡ public.old.stuck }
{
    match start_log(alloc, form, true, copies) {
        Ok(VolumeLog::Maps(store)) => {
            leave_log(alloc, public, store);
            Ok(())
        }
        Ok(VolumeLog::Absent) => unreachable!(),
        Err(refused) => {
            put_back(alloc, public, Vec::new(alloc), refused.left);
            Err(refused.fault)
        }
    }
}

/// Leaves a log as the last of what is left over. It takes no memory.
pub fn leave_log<P: Piece + Drop>(alloc: Global, public: &mut Public<P>, log: MapStore<P>)
    requires { vec_len public.old.left < vec_capacity public.old.left }
    ensures left { HasLeftLog log public.old.left.items public.new.left.items }
    ensures still { SameSectors (copy_pieces (store_copies P.seen log) ++ still_pieces P.seen public.old) (still_pieces P.seen public.new) }
    ensures pool { public.new.pool ≡ public.old.pool }
    ensures running { public.new.running ≡ public.old.running }
    ensures stuck { public.new.stuck ≡ public.old.stuck }
{
    let regions = Vec::new(alloc);
    let log = LogLeft::Store(log);
    public.left.push_reserved(Remains { regions, log });
}

/// Takes the log that is the last of what is left over. It takes no memory.
pub fn take_log<P: Piece + Drop>(public: &mut Public<P>) -> MapStore<P>
    requires { EndsInLog public.old.left.items }
    ensures taken { IsLogTaken result public.old.left.items public.new.left.items }
    ensures still { SameSectors (still_pieces P.seen public.old) (copy_pieces (store_copies P.seen result) ++ still_pieces P.seen public.new) }
    ensures pool { public.new.pool ≡ public.old.pool }
    ensures running { public.new.running ≡ public.old.running }
    ensures stuck { public.new.stuck ≡ public.old.stuck }
{
    let Remains { regions: _, log } = public.left.pop().unwrap();
    match log {
        LogLeft::Store(store) => store,
        LogLeft::Copies(_) => unreachable!(),
    }
}
