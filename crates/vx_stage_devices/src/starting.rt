//! The only device in hand becomes a started volume.
ghost use Rattle.std.specs.Prelude.{◌≡◌, IsTrue, IfErr, OnOk, OnErr, false};
ghost use Rattle.std.specs.List.{list_any};
ghost use Rattle.std.specs.Str.{bytes_eq};
ghost use Rattle.vx_block.specs.Geometry.{is_geometry};
ghost use Rattle.vx_stages.specs.declared.stage.Stage.TheVariants as stages;
ghost use Rattle.vx_house.specs.Goes.{IsReady, StageGoes};
ghost use Rattle.vx_house.specs.Holders.{AreHeld, holders};
ghost use Rattle.vx_house.specs.Scene.{Shelved};
ghost use Rattle.vx_house.specs.View.{KeepsHouse, at};
ghost use Rattle.vx_stage_devices.specs.Starts.{is_recorded, is_named, CanStart, Starts, IsPutIn};

use std::alloc::{AllocFailed, Global};
use std::collections::BTreeMap;
use vx_answers::Refusal;
use vx_block::Geometry;
use vx_config_parts::Vol;
use vx_house::{House, Imported, Stop, Taken, refused};
use vx_names::Name;
use vx_piece::Piece;
use vx_script_words::DiskAt;
use vx_started::Started;

/// The blocks of a bare volume's regions.
const REGION: u64 = 128;

/// Starts the only device in hand as a volume. After a refusal of memory it is in hand.
pub fn start_bare<P: Piece + Drop>(
    alloc: Global,
    house: &mut House<P>,
    vol: &Name,
    _device: &Name,
    _disks: &[DiskAt],
) -> Result<(), Stop>
    requires keeps { KeepsHouse P.seen house.old }
    requires ready { IsReady P.seen (stages.StartBare vol.now _device.now) _disks.now house.old }
    ensures goes { (shelf : Shelved) → AreHeld shelf.held (holders P.seen house.old) →
        StageGoes P.seen (stages.StartBare vol.now _device.now) _disks.now result (at shelf house.old) (at shelf house.new) }
{
    if is_named(house, vol) {
        return refused(Refusal::Exists(*vol));
    }
    start(alloc, house, *vol)
}

/// A volume has the name, started or recorded.
fn is_named<P: Piece>(house: &House<P>, vol: &Name) -> bool
    ensures { result ≡ is_named house.now vol.now }
{
    house.volumes.contains_key(vol) || is_recorded(&house.group, vol)
}

fn is_recorded<P: Piece>(group: &Option<Imported<P>>, vol: &Name) -> bool
    ensures { result ≡ is_recorded group.now vol.now }
{
    match group {
        None => false,
        Some(group) => is_among(group.config.volumes.as_slice(), vol),
    }
}

fn is_among(volumes: &[Vol], name: &Name) -> bool
    ensures { result ≡ list_any (λ v. bytes_eq v.name name.now) volumes.now }
{
    volumes.iter().any(|vol| vol.name == *name)
}

/// Puts the device of the hand among the volumes.
fn start<P: Piece + Drop>(alloc: Global, house: &mut House<P>, vol: Name) -> Result<(), Stop>
    requires { CanStart P.seen house.old }
    ensures { Starts P.seen vol house.old result house.new }
{
    match house.hand.pop() {
        None => unreachable!(),
        Some(taken) => match put_in(alloc, &mut house.volumes, vol, taken) {
            Ok(()) => Ok(()),
            Err(taken) => {
                house.hand.push_reserved(taken);
                Err(Stop::OutOfMemory)
            }
        },
    }
}

/// Puts the device among the volumes, or gives it back for want of memory.
fn put_in<P: Piece + Drop>(
    alloc: Global,
    volumes: &mut BTreeMap<Name, Started<P>>,
    vol: Name,
    taken: Taken<P>,
) -> Result<(), Taken<P>>
    requires { IsTrue (is_geometry (P.seen taken.piece).sectors 128) }
    ensures put_in { OnOk result (IsPutIn P.seen vol taken volumes.old volumes.new) }
    ensures back { IfErr result (λ t. t ≡ taken) }
    ensures same { OnErr result (volumes.new.entries ≡ volumes.old.entries) }
{
    let device = taken.device;
    match Geometry::new(taken.piece.sectors(), REGION) {
        None => unreachable!(),
        Some(geometry) => match Started::new(alloc, device, taken.piece, geometry) {
            Err((piece, _)) => Err(Taken { device, piece }),
            Ok(started) => match volumes.insert(vol, started) {
                Ok(_) => Ok(()),
                Err(
                    AllocFailed {
                        value: (_, started),
                    },
                ) => Err(Taken {
                    device: started.device,
                    piece: started.piece,
                }),
            },
        },
    }
}
