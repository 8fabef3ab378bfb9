ghost use Rattle.std.specs.Prelude.{◌≡◌, ◌+◌, ◌<◌, ◌≤◌, ◌^◌, ◌++◌, ◌∷◌, [], true, length, map, take, drop, OnOk, IfErr};
ghost use Rattle.std.specs.List.{flat_map};
ghost use Rattle.hc_net.specs.Run.{rams_of};
ghost use Rattle.hc_run.specs.Edif.{each_from, numbered_net};
ghost use Rattle.hc_run.specs.Pins.{ref_of, read_by, Rises, IsSplit, net_head, clock_head, reader_part, clock_part, ram_clock_part, net_text, clock_text};
ghost use Rattle.hc_run.specs.Sent.{Sent, Stopped};

use crate::cells::ram_of;
use crate::edif::frame::{clock_head, net_end};
use crate::edif::pins::{Pin, Reader, push_ref, push_ref_part};
use crate::text::{push_number, send, send_piece};
use hc_net::{Cell, Flop};
use hc_outside::{Sink, WriteErr};
use std::alloc::{AllocError, Global};

/// How many readers in front read net `net`, where the readers' nets rise from it on.
fn count_front(readers: &[Reader], net: u32) -> usize
    requires { Rises net (map read_by readers.now) }
    ensures within { result ≤ length readers.now }
    ensures split { IsSplit net (map read_by readers.now) (map read_by (take result readers.now)) (map read_by (drop result readers.now)) }
{
    for (i, reader) in readers.iter().enumerate() {
        if reader.net != net {
            return i;
        }
    }
    readers.len()
}

/// Appends net `net` up to its driver.
#[tactic(auto, using(crate::proofs::Append::appends), unfolding(crate::specs::Pins::net_head))]
fn push_net_head(text: &mut Vec<u8>, net: u32, driver: Pin) -> Result<(), AllocError>
    ensures { OnOk result (text.new.items ≡ text.old.items ++ net_head net driver) }
{
    text.extend_from_slice(b"(net n")?;
    push_number(text, net)?;
    text.extend_from_slice(b" (joined ")?;
    push_ref(text, driver)
}

/// Sends net `net` up to its driver.
fn send_net_head<K: Sink>(
    alloc: Global,
    net: u32,
    driver: Pin,
    text: &mut Vec<u8>,
    out: &mut K,
) -> Result<(), WriteErr>
    requires { (K.state out.old).ready ≡ true }
    ensures ok { OnOk result (Sent (net_head net driver) text.old.items text.new.items (K.state out.old) (K.state out.new)) }
    ensures err { IfErr result (λ e. Stopped (text.old.items ++ net_head net driver) e (K.state out.old) (K.state out.new)) }
{
    match push_net_head(text, net, driver) {
        Ok(()) => send(alloc, text, out),
        Err(_) => Err(WriteErr::NoMemory),
    }
}

/// Sends the readers of a net.
fn send_readers<K: Sink>(
    alloc: Global,
    readers: &[Reader],
    text: &mut Vec<u8>,
    out: &mut K,
) -> Result<(), WriteErr>
    requires { (K.state out.old).ready ≡ true }
    ensures ok { OnOk result (Sent (flat_map reader_part readers.now) text.old.items text.new.items (K.state out.old) (K.state out.new)) }
    ensures err { IfErr result (λ e. Stopped (text.old.items ++ flat_map reader_part readers.now) e (K.state out.old) (K.state out.new)) }
{
    for reader in readers {
        match push_ref_part(text, reader.pin) {
            Ok(()) => send(alloc, text, out)?,
            Err(_) => return Err(WriteErr::NoMemory),
        }
    }
    Ok(())
}

/// Sends net `net`.
fn send_net<K: Sink>(
    alloc: Global,
    net: u32,
    driver: Pin,
    readers: &[Reader],
    text: &mut Vec<u8>,
    out: &mut K,
) -> Result<(), WriteErr>
    requires { (K.state out.old).ready ≡ true }
    ensures ok { OnOk result (Sent (net_text net driver readers.now) text.old.items text.new.items (K.state out.old) (K.state out.new)) }
    ensures err { IfErr result (λ e. Stopped (text.old.items ++ net_text net driver readers.now) e (K.state out.old) (K.state out.new)) }
{
    send_net_head(alloc, net, driver, text, out)?;
    send_readers(alloc, readers, text, out)?;
    send_piece(alloc, net_end(), text, out)
}

/// Sends all nets of these drivers, where the readers stand in the order of the nets that they read.
pub(crate) fn send_nets<K: Sink>(
    alloc: Global,
    drivers: &[Pin],
    readers: &[Reader],
    text: &mut Vec<u8>,
    out: &mut K,
) -> Result<(), WriteErr>
    requires few { length drivers.now < 2 ^ 32 }
    requires rises { Rises 0 (map read_by readers.now) }
    requires ready { (K.state out.old).ready ≡ true }
    ensures ok { OnOk result (Sent (each_from (numbered_net (map read_by readers.now)) 0 (map ref_of drivers.now)) text.old.items text.new.items (K.state out.old) (K.state out.new)) }
    ensures err { IfErr result (λ e. Stopped (text.old.items ++ each_from (numbered_net (map read_by readers.now)) 0 (map ref_of drivers.now)) e (K.state out.old) (K.state out.new)) }
{
    let mut left = readers;
    for (n, driver) in drivers.iter().enumerate() {
        let (here, later) = left.split_at(count_front(left, n as u32));
        send_net(alloc, n as u32, *driver, here, text, out)?;
        left = later;
    }
    Ok(())
}

/// Sends the clock pins of flip-flops.
fn send_flop_clocks<K: Sink>(
    alloc: Global,
    flops: &[Flop],
    text: &mut Vec<u8>,
    out: &mut K,
) -> Result<(), WriteErr>
    requires { (K.state out.old).ready ≡ true }
    ensures ok { OnOk result (Sent (flat_map clock_part flops.now) text.old.items text.new.items (K.state out.old) (K.state out.new)) }
    ensures err { IfErr result (λ e. Stopped (text.old.items ++ flat_map clock_part flops.now) e (K.state out.old) (K.state out.new)) }
{
    for flop in flops {
        match push_ref_part(text, Pin::FlopC(flop.name)) {
            Ok(()) => send(alloc, text, out)?,
            Err(_) => return Err(WriteErr::NoMemory),
        }
    }
    Ok(())
}

/// Appends the clock pin of a RAM, where the cell is one.
fn push_ram_clock(text: &mut Vec<u8>, cell: &Cell) -> Result<(), AllocError>
    ensures { OnOk result (text.new.items ≡ text.old.items ++ flat_map ram_clock_part (rams_of (cell.now ∷ []))) }
{
    match ram_of(cell) {
        Some(ram) => push_ref_part(text, Pin::RamC(ram.object)),
        None => Ok(()),
    }
}

/// Sends the clock pins of RAMs.
fn send_ram_clocks<K: Sink>(
    alloc: Global,
    cells: &[Cell],
    text: &mut Vec<u8>,
    out: &mut K,
) -> Result<(), WriteErr>
    requires { (K.state out.old).ready ≡ true }
    ensures ok { OnOk result (Sent (flat_map ram_clock_part (rams_of cells.now)) text.old.items text.new.items (K.state out.old) (K.state out.new)) }
    ensures err { IfErr result (λ e. Stopped (text.old.items ++ flat_map ram_clock_part (rams_of cells.now)) e (K.state out.old) (K.state out.new)) }
{
    for cell in cells {
        match push_ram_clock(text, cell) {
            Ok(()) => send(alloc, text, out)?,
            Err(_) => return Err(WriteErr::NoMemory),
        }
    }
    Ok(())
}

/// Sends the clock's net up to the last flip-flop.
fn send_clock_head<K: Sink>(
    alloc: Global,
    flops: &[Flop],
    text: &mut Vec<u8>,
    out: &mut K,
) -> Result<(), WriteErr>
    requires { (K.state out.old).ready ≡ true }
    ensures ok { OnOk result (Sent (clock_head ++ flat_map clock_part flops.now) text.old.items text.new.items (K.state out.old) (K.state out.new)) }
    ensures err { IfErr result (λ e. Stopped (text.old.items ++ (clock_head ++ flat_map clock_part flops.now)) e (K.state out.old) (K.state out.new)) }
{
    send_piece(alloc, clock_head(), text, out)?;
    send_flop_clocks(alloc, flops, text, out)
}

/// Sends the clock's net.
pub(crate) fn send_clock_net<K: Sink>(
    alloc: Global,
    flops: &[Flop],
    cells: &[Cell],
    text: &mut Vec<u8>,
    out: &mut K,
) -> Result<(), WriteErr>
    requires { (K.state out.old).ready ≡ true }
    ensures ok { OnOk result (Sent (clock_text flops.now (rams_of cells.now)) text.old.items text.new.items (K.state out.old) (K.state out.new)) }
    ensures err { IfErr result (λ e. Stopped (text.old.items ++ clock_text flops.now (rams_of cells.now)) e (K.state out.old) (K.state out.new)) }
{
    send_clock_head(alloc, flops, text, out)?;
    send_ram_clocks(alloc, cells, text, out)?;
    send_piece(alloc, net_end(), text, out)
}
