//! The words of the command line.
ghost use Rattle.std.specs.Prelude.{◌↔◌, IsTrue, IsSome, IfSome, IfOk, map};
ghost use Rattle.vx_run.specs.Top.{is_form, NamesFolder};

use std::alloc::Global;
use vx_base::OutOfMemory;

/// The folder that the words name, where they are `--images DIR`.
pub fn folder<'a>(_alloc: Global, words: &[&'a str]) -> Result<Option<&'a str>, OutOfMemory>
    ensures form { IfOk result (λ dir. IsSome dir ↔ IsTrue (is_form (map (λ w. w.now) words.now))) }
    ensures named { IfOk result (λ found. IfSome found (λ dir. NamesFolder (map (λ w. w.now) words.now) dir.now)) }
{
    Ok(folder_of(words))
}

/// The same, which takes no memory.
pub fn folder_of<'a>(words: &[&'a str]) -> Option<&'a str>
    ensures form { IsSome result ↔ IsTrue (is_form (map (λ w. w.now) words.now)) }
    ensures named { IfSome result (λ dir. NamesFolder (map (λ w. w.now) words.now) dir.now) }
{
    match words {
        [option, dir] => {
            if option.as_bytes() == b"--images".as_slice() {
                Some(*dir)
            } else {
                None
            }
        }
        _ => None,
    }
}
