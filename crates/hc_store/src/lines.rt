ghost use Rattle.std.specs.Prelude.{◌≡◌, ◌<◌, ◌≤◌, ◌+◌, ◌*◌, ◌^◌, ◌==◌, ◌&&◌, ◌∷◌, [], ◌++◌, length, map, All, IfOk, OnOk, replicate};
ghost use Rattle.std.specs.List.{range_with_len};
ghost use Rattle.hc_net.specs.Bits.{number};
ghost use Rattle.hc_net.specs.Made.{Makes};
ghost use Rattle.hc_store.specs.Takes.{AreValues};
ghost use Rattle.hc_store.specs.Arrays.{constant_number};
ghost use Rattle.hc_store.specs.Lines.{with_line, WithLines, AddsWrite, MakesLines, line_gates, all_line_gates};

use crate::index::constant_number;
use hc_bits::decode;
use hc_net::{Builder, GateKind, Nets, NoMemory};
use sqlite_items::Items;
use std::alloc::Global;

/// A write that may be on for an element.
#[derive(Clone, Copy)]
pub(crate) struct Line {
    /// The net that is 1 where it is on.
    pub(crate) enable: u32,
    /// Its number, from 0.
    pub(crate) write: usize,
}

/// The lines of an element in the order of their writes.
pub(crate) type Lines = Items<Line>;

/// The lines of each of `count` elements. A write whose index of `width` bits is a constant has a line for one element at most.
pub(crate) fn lines_of(
    alloc: Global,
    b: &mut Builder,
    count: u32,
    width: u32,
    enables: &Nets,
    indexes: &[Nets],
) -> Result<Vec<Lines>, NoMemory>
    requires enables { All (λ k. k < length b.old.nodes) enables.now }
    requires indexes { AreValues (length b.old.nodes) width indexes.now }
    requires writes { length indexes.now ≡ length enables.now }
    requires some { 1 ≤ width }
    requires narrow { width ≤ 32 }
    requires numbers { count ≤ 2 ^ width }
    requires room { length b.old.nodes + all_line_gates b.old.nodes count indexes.now < 2 ^ 32 }
    ensures { IfOk result (λ lines. MakesLines count enables.now indexes.now (length indexes.now) b.old b.new lines.items) }
{
    let mut lines = no_lines(alloc, count)?;
    for write in 0..indexes.len() {
        let enable = enables.as_slice()[write];
        add_write(alloc, b, write, enable, &indexes[write], width, &mut lines)?;
    }
    Ok(lines)
}

/// No lines for each of `count` elements.
fn no_lines(alloc: Global, count: u32) -> Result<Vec<Lines>, NoMemory>
    ensures { IfOk result (λ lines. lines.items ≡ replicate count []) }
{
    let mut lines = Vec::new(alloc);
    for i in 0..count {
        match lines.push(Lines::new(alloc)) {
            Ok(()) => {}
            Err(_) => return Err(NoMemory),
        }
    }
    Ok(lines)
}

/// Adds the lines of a write.
fn add_write(
    alloc: Global,
    b: &mut Builder,
    write: usize,
    enable: u32,
    index: &Nets,
    width: u32,
    lines: &mut Vec<Lines>,
) -> Result<(), NoMemory>
    requires enable { enable < length b.old.nodes }
    requires index { All (λ k. k < length b.old.nodes) index.now }
    requires width { length index.now ≡ width }
    requires some { 1 ≤ width }
    requires narrow { width ≤ 32 }
    requires numbers { length lines.old.items ≤ 2 ^ width }
    requires count { length lines.old.items < 2 ^ 32 }
    requires room { length b.old.nodes + line_gates (length lines.old.items) (length index.now) (constant_number b.old.nodes index.now) < 2 ^ 32 }
    ensures { OnOk result (AddsWrite enable index.now write (constant_number b.old.nodes index.now) b.old b.new lines.old.items lines.new.items) }
{
    match constant_number(b, index, width) {
        Some(element) => add_line(lines, element, Line { enable, write }),
        None => {
            let nets = element_enables(alloc, b, enable, index, lines.len() as u32)?;
            add_lines(lines, &nets, write)
        }
    }
}

/// Adds a line to those of an element, if there is one of this number.
fn add_line(lines: &mut Vec<Lines>, element: usize, line: Line) -> Result<(), NoMemory>
    ensures { OnOk result (lines.new.items ≡ with_line lines.old.items element line) }
{
    if element >= lines.len() {
        return Ok(());
    }
    match lines[element].push(line) {
        Ok(()) => Ok(()),
        Err(_) => Err(NoMemory),
    }
}

/// Adds a line to those of each element: net i of `nets` for element i.
fn add_lines(lines: &mut Vec<Lines>, nets: &Nets, write: usize) -> Result<(), NoMemory>
    requires { length nets.now ≡ length lines.old.items }
    ensures { OnOk result (WithLines nets.now write lines.old.items lines.new.items) }
{
    for i in 0..nets.len() {
        let enable = nets.as_slice()[i];
        add_line(lines, i, Line { enable, write })?;
    }
    Ok(())
}

/// For each of `count` elements a net that is 1 where `enable` is and the index is the element's number.
fn element_enables(
    alloc: Global,
    b: &mut Builder,
    enable: u32,
    index: &Nets,
    count: u32,
) -> Result<Nets, NoMemory>
    requires enable { enable < length b.old.nodes }
    requires index { All (λ k. k < length b.old.nodes) index.now }
    requires some { 1 ≤ length index.now }
    requires numbers { count ≤ 2 ^ length index.now }
    requires room { length b.old.nodes + (count * length index.now + length index.now + count) < 2 ^ 32 }
    ensures width { IfOk result (λ z. length z ≡ count) }
    ensures circuit { IfOk result (λ z. Makes (count * length index.now + length index.now + count) (enable ∷ index.now) b.old b.new z
        (λ v. map v z ≡ map (λ j. v enable && (number (map v index.now) == j)) (range_with_len 0 count))) }
{
    let terms = decode(alloc, b, index, count)?;
    each_enabled(alloc, b, enable, terms.as_slice())
}

/// Each net of `terms` where `enable` is 1, else 0.
fn each_enabled(
    alloc: Global,
    b: &mut Builder,
    enable: u32,
    terms: &[u32],
) -> Result<Nets, NoMemory>
    requires enable { enable < length b.old.nodes }
    requires terms { All (λ k. k < length b.old.nodes) terms.now }
    requires room { length b.old.nodes + length terms.now < 2 ^ 32 }
    ensures width { IfOk result (λ z. length z ≡ length terms.now) }
    ensures circuit { IfOk result (λ z. Makes (length terms.now) (enable ∷ terms.now) b.old b.new z (λ v. map v z ≡ map (λ k. v enable && v k) terms.now)) }
{
    let mut nets = Nets::new(alloc);
    for term in terms {
        let net = b.gate(GateKind::And, enable, *term)?;
        nets.push(net)?;
    }
    Ok(nets)
}
