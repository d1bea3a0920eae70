//! How long the texts of the commits are that the command makes.
ghost use Rattle.std.specs.Prelude.{◌≡◌, ℕ, IfOk};
ghost use Rattle.vx_stage_recovery.specs.Texts.{HasLength, IsLongestOf, IsReachedBy, IsReachedFrom, IsReachedTwice, config_of};

use crate::needs::{Need, need_by};
use std::alloc::Global;
use vx_base::OutOfMemory;
use vx_config_parts::VolState;
use vx_names::Name;
use vx_objects::{Config, Edit, Vol};
use vx_print::print_m;
use vx_stage_changes::{edited, volume_in};
use vx_state_edits::{recovered_edits, recovery_edits, start_edits};

/// How far the commits have come: the configuration that the last of them records, if there is one, and the length in bytes of the longest
/// text, 0 where there is none.
#[derive(Drop)]
pub(crate) struct Reached {
    pub config: Option<Config>,
    pub most: u64,
}

/// The length in bytes of the longest text of the commits of volumes of these names, one after the other, where at the end no map has marks;
/// 0 where there is none.
pub(crate) fn longest(alloc: Global, config: &Config, names: &[Name]) -> Result<u64, OutOfMemory>
    ensures { IfOk result (IsLongestOf names.now config.now) }
{
    let mut reached = Reached {
        config: None,
        most: 0,
    };
    for name in names {
        reached = behind(alloc, config, reached, name)?;
    }
    Ok(reached.most)
}

/// How far they come with the volume of one more name.
fn behind(
    alloc: Global,
    config: &Config,
    reached: Reached,
    name: &Name,
) -> Result<Reached, OutOfMemory>
    ensures { IfOk result (IsReachedBy name.now config.now reached) }
{
    let now = now_of(config, &reached);
    let Some(vol) = volume_in(now.volumes.as_slice(), name) else {
        return Ok(reached);
    };
    match need_by(vol.state) {
        Need::Pass => Ok(reached),
        Need::Begin => {
            let edits = start_edits(alloc, now, &vol)?;
            reach(alloc, now, &edits, reached.most)
        }
        Need::Heal => healed(alloc, now, &vol, reached.most),
    }
}

/// The configuration that the last of them records, or the first one.
fn now_of<'a>(config: &'a Config, reached: &'a Reached) -> &'a Config
    ensures { result.now ≡ config_of config.now reached.now }
{
    match &reached.config {
        Some(now) => now,
        None => config,
    }
}

/// How far they come with both commits of a recovery.
fn healed(alloc: Global, now: &Config, vol: &Vol, most: u64) -> Result<Reached, OutOfMemory>
    ensures { IfOk result (IsReachedTwice now.now vol.now most) }
{
    let edits = recovery_edits(alloc, now, vol)?;
    let mid = reach(alloc, now, &edits, most)?;
    let of = Vol {
        state: VolState::Sync,
        ..*vol
    };
    let mid_config = now_of(now, &mid);
    let edits = recovered_edits(alloc, mid_config, &of, 0)?;
    reach(alloc, mid_config, &edits, mid.most)
}

/// How far they come with one more commit, of these edits.
fn reach(alloc: Global, now: &Config, edits: &[Edit], most: u64) -> Result<Reached, OutOfMemory>
    ensures { IfOk result (IsReachedFrom edits.now now.now most) }
{
    let Ok(next) = edited(alloc, now, edits) else {
        return Err(OutOfMemory);
    };
    let bytes = length_of(alloc, &next)?;
    Ok(Reached {
        config: Some(next),
        most: most.max(bytes),
    })
}

/// The length in bytes of the configuration's text.
fn length_of(alloc: Global, config: &Config) -> Result<u64, OutOfMemory>
    ensures { IfOk result (HasLength config.now) }
{
    let mut text = Vec::new(alloc);
    match print_m(alloc, config, None, &mut text) {
        Ok(()) => Ok(text.len() as u64),
        Err(_) => Err(OutOfMemory),
    }
}
