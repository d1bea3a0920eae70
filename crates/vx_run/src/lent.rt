//! The plexes that running volumes have the pieces of, told by where these lie.
ghost use Rattle.std.specs.Prelude.{◌≡◌, ◌&&◌, ◌==◌, IfOk};
ghost use Rattle.std.specs.List.{filter_map, find, list_any};
ghost use Rattle.std.specs.Option.{option_copied, option_map};
ghost use Rattle.vx_rules.specs.Columns.{is_in_column};
ghost use Rattle.vx_run.specs.Lent.{begin_at, begins_at, first_piece, form_begins, is_lent_by, lent_name, lent_plexes, lies_by, runs_by, starts_at};

use std::alloc::{AllocError, Global};
use vx_config_parts::refers;
use vx_image::slot_of;
use vx_layout::{Layout, Strip};
use vx_lending::{Public, Running, VolumeForm};
use vx_names::Name;
use vx_objects::{Config, Disk, Plex, Subdisk};
use vx_piece::Piece;

/// The names of the plexes of the configuration that running volumes have the pieces of.
pub(crate) fn lent_plexes<P: Piece>(
    alloc: Global,
    config: &Config,
    public: &Public<P>,
) -> Result<Vec<Name>, AllocError>
    ensures { IfOk result (λ v. v.items ≡ lent_plexes config.now public.now) }
{
    config
        .plexes
        .as_slice()
        .iter()
        .filter_map(|plex| lent_name(config, public, plex))
        .collect(alloc)
}

/// The name of the plex, where its volume runs on it.
fn lent_name<P: Piece>(config: &Config, public: &Public<P>, plex: &Plex) -> Option<Name>
    ensures { result ≡ lent_name config.now public.now plex.now }
{
    if is_lent(config, public, &plex.vol, &plex.name) {
        Some(plex.name)
    } else {
        None
    }
}

fn is_lent<P: Piece>(config: &Config, public: &Public<P>, vol: &Option<Name>, plex: &Name) -> bool
    ensures { result ≡ is_lent_by config.now public.now vol.now plex.now }
{
    match vol {
        None => false,
        Some(vol) => runs_on(config, public.running.get(vol), plex),
    }
}

fn runs_on<P: Piece>(config: &Config, running: Option<&Running<P>>, plex: &Name) -> bool
    ensures { result ≡ runs_by config.now (option_copied running.entry) plex.now }
{
    match running {
        None => false,
        Some(running) => lies_by(
            config.disks.as_slice(),
            &running.form,
            first_piece(config, plex),
        ),
    }
}

/// The subdisk that begins the plex of that name.
fn first_piece<'a>(config: &'a Config, plex: &Name) -> Option<&'a Subdisk>
    ensures { option_map (λ s. s.now) result ≡ first_piece config.now plex.now }
{
    config
        .subdisks
        .as_slice()
        .iter()
        .find(|subdisk| begins_plex(subdisk, plex))
}

fn begins_plex(subdisk: &Subdisk, plex: &Name) -> bool
    ensures { result ≡ (is_in_column plex.now 0 subdisk.now && subdisk.now.at == 0) }
{
    refers(&subdisk.plex, plex) && subdisk.col == 0 && subdisk.at == 0
}

/// A layout of the form begins where the piece lies.
fn lies_by(disks: &[Disk], form: &VolumeForm, piece: Option<&Subdisk>) -> bool
    ensures { result ≡ lies_by disks.now form.now (option_map (λ s. s.now) piece.entry) }
{
    match piece {
        None => false,
        Some(piece) => form_begins(form, slot_of(disks, &piece.disk), piece.off),
    }
}

fn form_begins(form: &VolumeForm, disk: u8, start: u64) -> bool
    ensures { result ≡ form_begins form.now disk start }
{
    begin_at(&form.layouts, disk, start) || begin_at(&form.logs, disk, start)
}

fn begin_at(layouts: &[Layout], disk: u8, start: u64) -> bool
    ensures { result ≡ begin_at layouts.now disk start }
{
    layouts.iter().any(|layout| begins_at(layout, disk, start))
}

fn begins_at(layout: &Layout, disk: u8, start: u64) -> bool
    ensures { result ≡ begins_at layout.now.columns disk start }
{
    layout.columns.len() > 0 && starts_at(layout.columns.strips(0), disk, start)
}

fn starts_at(strips: &[Strip], disk: u8, start: u64) -> bool
    ensures { result ≡ starts_at strips.now disk start }
{
    match strips.first() {
        None => false,
        Some(strip) => strip.disk == disk && strip.start == start,
    }
}
