//! Rows of a store on two copies that gives up one of them after a map was set over two pages, of which a write may have failed. Each row
//! tells what the copy that went holds of the pages and what the store lists then, and how the other copy takes a clear alone.

ghost use Rattle.std.specs.Prelude.{◌<◌};

use crate::clock::Clock;
use crate::fault::Fault;
use crate::rows::answer;
use crate::wholes::{MAP, create, fault_at, marks, shape, show_copy, show_list};
use std::io;
use std::sync::Arc;
use vx_mapfmt::DcoShape;
use vx_volume::WholeMaps;

pub fn rows(rt: &HostRuntime) -> io::Result<()> {
    let Some(shape) = shape() else {
        return Ok(());
    };
    for copy in 0..2 {
        for step in 2..5 {
            println!(rt; "set over two pages, write {step} fails, copy {copy} is given up")?;
            row(rt, &shape, fault_at(step), copy)?;
        }
    }
    Ok(())
}

fn row(rt: &HostRuntime, shape: &DcoShape, fault: Option<Fault>, copy: u8) -> io::Result<()>
    requires { copy < 2 }
{
    let alloc = rt.alloc();
    let clock = Arc::new(alloc, Clock::new(None, fault))?;
    let Some(mut store) = create(alloc, shape, &clock)? else {
        return Ok(());
    };
    clock.set();
    answer(rt, "set", store.set_from(MAP, &marks(alloc)?))?;
    if store.copies() != 2 {
        return Ok(());
    }
    let room = Vec::with_capacity(alloc, store.copy_pieces(copy))?;
    let (mut store, gone) = store.give_up(copy, room);
    show_copy(rt, copy as u64, &gone)?;
    let Ok(listed) = store.list(alloc, MAP) else {
        return Ok(());
    };
    show_list(rt, &listed)?;
    println!(rt; "  {} writes", clock.writes())?;
    answer(rt, "clear", store.clear(MAP))?;
    let Ok(mut copies) = store.into_copies(alloc) else {
        return Ok(());
    };
    if let Some(left) = copies.pop() {
        show_copy(rt, 1 - copy as u64, &left)?;
    }
    println!(rt; "  {} writes", clock.writes())
}
