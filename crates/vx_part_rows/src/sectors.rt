//! Fields of a sector, headers and toggles.
use crate::shown::{put_bytes, text};
use std::io;
use vx_header::{Header, HeaderFault, Toggle};
use vx_names::Name;
use vx_sector::{put, put_u32, put_u64, put_zeros, u32_at, u64_at};

pub fn show<R: AllocGlobal + Print>(rt: &R) -> io::Result<()> {
    fields(rt)?;
    header(rt)?;
    toggle(rt)
}

/// Two letters, two zeros and two numbers in 16 bytes.
fn fields<R: AllocGlobal + Print>(rt: &R) -> io::Result<()> {
    let mut bytes = [1; 16];
    put(b"ab", 0, &mut bytes);
    put_zeros(2, 2, &mut bytes);
    put_u32(258, 4, &mut bytes);
    put_u64(259, 8, &mut bytes);
    println!(rt; "16 bytes: {}", hex::encode(rt.alloc(), bytes.as_slice())?)?;
    println!(rt;
        "their numbers: {} {}",
        u32_at(&bytes, 4),
        u64_at(&bytes, 8)
    )
}

fn header<R: AllocGlobal + Print>(rt: &R) -> io::Result<()> {
    let (Ok(group), Ok(disk)) = (Name::read(b"dg"), Name::read(b"disk01")) else {
        return println!(rt; "no names");
    };
    let header = Header {
        group,
        disk,
        slot: 3,
        sectors: 4096,
    };
    let mut sector = [0; 512];
    header.put(&mut sector);
    put_bytes(rt, "header", &sector, 0, 12)?;
    put_bytes(rt, "its slot", &sector, 72, 74)?;
    put_bytes(rt, "its sectors", &sector, 80, 96)?;
    put_read(rt, &sector)?;
    sector[72] = 32;
    put_read(rt, &sector)
}

/// The disk that the header names, or the byte that does not fit.
fn put_read<R: AllocGlobal + Print>(rt: &R, sector: &[u8; 512]) -> io::Result<()> {
    match Header::read(sector) {
        Ok(header) => println!(rt; "read: disk {}", text(header.disk.as_bytes())),
        Err(HeaderFault::BadHeader(byte)) => println!(rt; "read: bad at byte {byte}"),
        Err(_) => println!(rt; "read: no header"),
    }
}

fn toggle<R: AllocGlobal + Print>(rt: &R) -> io::Result<()> {
    let toggle = Toggle {
        sequence: 1,
        half: 0,
        length: 300,
        good: 1,
    };
    let mut sector = [0; 512];
    put_toggle_read(rt, &sector)?;
    toggle.put(&mut sector);
    put_bytes(rt, "toggle", &sector, 0, 28)?;
    put_toggle_read(rt, &sector)?;
    sector[16] = 9;
    put_toggle_read(rt, &sector)
}

fn put_toggle_read<R: AllocGlobal + Print>(rt: &R, sector: &[u8; 512]) -> io::Result<()> {
    match Toggle::read(sector) {
        Ok(None) => println!(rt; "read: no configuration"),
        Ok(Some(toggle)) => println!(rt;
            "read: sequence {} length {}",
            toggle.sequence, toggle.length
        ),
        Err(HeaderFault::BadHeader(byte)) => println!(rt; "read: bad at byte {byte}"),
        Err(_) => println!(rt; "read: no toggle"),
    }
}
