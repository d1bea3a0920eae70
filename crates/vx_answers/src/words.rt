//! The words of a refusal.
ghost use Rattle.std.specs.Prelude.{◌≡◌, ◌++◌, OnOk, codes};
ghost use Rattle.std.specs.Fmt.{decimal};
ghost use Rattle.vx_config_parts.specs.Words.{plex_state_word, vol_state_word};
ghost use Rattle.vx_answers.specs.Lines.{refusal_words, limit_word, name_or_none};

use crate::Refusal;
use itoa::Buffer;
use vx_base::OutOfMemory;
use vx_config_parts::Limit;
use vx_names::Name;

/// Appends the words of a refusal.
pub fn put_refusal(refusal: &Refusal, out: &mut Vec<u8>) -> Result<(), OutOfMemory>
    ensures ok { OnOk result (out.new.items ≡ out.old.items ++ refusal_words refusal.now) }
{
    match refusal {
        Refusal::NotBuilt => put_words(b"not built", out),
        Refusal::NoDisk(name) => put_named(b"no disk ", name, out),
        Refusal::Held(name) => put_named(b"held ", name, out),
        Refusal::Exists(name) => put_named(b"exists ", name, out),
        Refusal::NotInitialised(name) => put_named(b"not initialised ", name, out),
        Refusal::Missing(disk) => put_maybe(b"missing ", disk, out),
        Refusal::NoGroup(group) => put_maybe(b"no group ", group, out),
        Refusal::TooLong(bytes) => put_counted(b"too long ", *bytes, out),
        Refusal::Damaged { disk, byte } => put_damage(disk, *byte, out),
        Refusal::BadRecord(line) => put_counted(b"record ", *line, out),
        Refusal::NoObject(name) => put_named(b"no object ", name, out),
        Refusal::InUse(name) => put_named(b"in use ", name, out),
        Refusal::Overlap(name) => put_named(b"overlap ", name, out),
        Refusal::Outside(name) => put_named(b"outside ", name, out),
        Refusal::NotWhole(name) => put_named(b"not whole ", name, out),
        Refusal::NoMap(name) => put_named(b"no map ", name, out),
        Refusal::DeviceLimit => put_words(b"limit device", out),
        Refusal::Limit(limit) => put_limit(*limit, out),
        Refusal::NoSpace { have, need } => put_space(*have, *need, out),
        Refusal::TooFewDisks(count) => put_counted(b"too few disks ", *count, out),
        Refusal::OnlyPlex(name) => put_named(b"only ", name, out),
        Refusal::NotStarted(name) => put_named(b"not started ", name, out),
        Refusal::Range => put_words(b"range", out),
        Refusal::NoCurrent(region) => put_counted(b"no current ", *region, out),
        Refusal::NoLog(name) => put_named(b"no log ", name, out),
        Refusal::VolState(state) => put_state(state.word(), out),
        Refusal::PlexState(state) => put_state(state.word(), out),
        Refusal::NotDone(region) => put_counted(b"not done ", *region, out),
        Refusal::NotRelated(name) => put_named(b"not related ", name, out),
        Refusal::InSession(name) => put_named(b"in session ", name, out),
        Refusal::Mirrored { snap, plexes } => put_mirrored(snap, *plexes, out),
        Refusal::Cascade(name) => put_named(b"cascade ", name, out),
    }
}

fn put_limit(limit: Limit, out: &mut Vec<u8>) -> Result<(), OutOfMemory>
    ensures ok { OnOk result (out.new.items ≡ out.old.items ++ (codes "limit " ++ limit_word limit)) }
{
    out.extend_from_slice(b"limit ")?;
    let word: &'static [u8] = match limit {
        Limit::Group => b"dg",
        Limit::Number => b"number",
        Limit::Disks => b"disks",
        Limit::Volumes => b"volumes",
        Limit::Name => b"name",
        Limit::Region => b"region",
        Limit::Regions => b"regions",
        Limit::Plexes => b"plexes",
    };
    out.extend_from_slice(word)?;
    Ok(())
}

fn put_state(word: &[u8], out: &mut Vec<u8>) -> Result<(), OutOfMemory>
    ensures ok { OnOk result (out.new.items ≡ out.old.items ++ (codes "state " ++ word.now)) }
{
    out.extend_from_slice(b"state ")?;
    put_words(word, out)
}

fn put_space(have: u64, need: u64, out: &mut Vec<u8>) -> Result<(), OutOfMemory>
    ensures ok { OnOk result (out.new.items ≡ out.old.items ++ (codes "no space " ++ decimal have ++ codes " " ++ decimal need)) }
{
    put_counted(b"no space ", have, out)?;
    put_counted(b" ", need, out)
}

fn put_mirrored(snap: &Name, plexes: u64, out: &mut Vec<u8>) -> Result<(), OutOfMemory>
    ensures ok { OnOk result (out.new.items ≡ out.old.items ++ (codes "mirrored " ++ snap.now ++ codes " " ++ decimal plexes)) }
{
    put_named(b"mirrored ", snap, out)?;
    put_counted(b" ", plexes, out)
}

fn put_damage(disk: &Name, byte: u64, out: &mut Vec<u8>) -> Result<(), OutOfMemory>
    ensures ok { OnOk result (out.new.items ≡ out.old.items ++ (codes "damaged " ++ disk.now ++ codes " " ++ decimal byte)) }
{
    put_named(b"damaged ", disk, out)?;
    put_counted(b" ", byte, out)
}

/// The words, and the name or `-`.
fn put_maybe(words: &[u8], name: &Option<Name>, out: &mut Vec<u8>) -> Result<(), OutOfMemory>
    ensures ok { OnOk result (out.new.items ≡ out.old.items ++ (words.now ++ name_or_none name.now)) }
{
    match name {
        None => {
            out.extend_from_slice(words)?;
            put_words(b"-", out)
        }
        Some(name) => put_named(words, name, out),
    }
}

/// Appends words, and then a number.
pub fn put_counted(words: &[u8], number: u64, out: &mut Vec<u8>) -> Result<(), OutOfMemory>
    ensures ok { OnOk result (out.new.items ≡ out.old.items ++ (words.now ++ decimal number)) }
{
    out.extend_from_slice(words)?;
    put_number(number, out)
}

/// Appends words.
pub fn put_words(words: &[u8], out: &mut Vec<u8>) -> Result<(), OutOfMemory>
    ensures ok { OnOk result (out.new.items ≡ out.old.items ++ words.now) }
{
    out.extend_from_slice(words)?;
    Ok(())
}

/// Appends words, and then a name.
pub fn put_named(words: &[u8], name: &Name, out: &mut Vec<u8>) -> Result<(), OutOfMemory>
    ensures ok { OnOk result (out.new.items ≡ out.old.items ++ (words.now ++ name.now)) }
{
    out.extend_from_slice(words)?;
    out.extend_from_slice(name.as_bytes())?;
    Ok(())
}

/// Appends a number in decimal.
pub fn put_number(number: u64, out: &mut Vec<u8>) -> Result<(), OutOfMemory>
    ensures ok { OnOk result (out.new.items ≡ out.old.items ++ decimal number) }
{
    let mut buffer = Buffer::new();
    out.extend_from_slice(buffer.format(number).as_bytes())?;
    Ok(())
}
