ghost use Rattle.std.specs.Prelude.{◌≡◌, ◌<◌, ◌≤◌, ◌+◌, ◌*◌, ◌/◌, ◌^◌, ◌++◌, length, All, IfOk, OnOk};
ghost use Rattle.std.specs.List.{sum_by};
ghost use Rattle.hc_num.specs.Index.{index_width};
ghost use Rattle.hc_net.specs.Made.{Makes};
ghost use Rattle.hc_bits.specs.Elements.{element_nets};
ghost use Rattle.hc_store.specs.Takes.{AreValues, all_nets, hold_gates};
ghost use Rattle.hc_store.specs.Arrays.{TakesEach, array_gates};
ghost use Rattle.hc_store.specs.Lines.{enables_of, values_of, line_nets, TakesByLines, EachByLines};

use crate::lines::{Line, Lines, lines_of};
use crate::register::hold;
use hc_net::{Builder, Nets, NoMemory};
use hc_num::aw;
use std::alloc::Global;

/// The next bits of an array that holds the bits `q`, element 0 first and `width` bits each: for each element those of the
/// one value whose net of `enables` is 1 and whose index is the element's number, or the bits of `q` where there is none.
/// Index i and value i stand for enable i; an index that is the number of no element writes nothing.
pub fn hold_array(
    alloc: Global,
    b: &mut Builder,
    q: &Nets,
    width: u32,
    enables: &Nets,
    indexes: &[Nets],
    values: &[Nets],
) -> Result<Nets, NoMemory>
    requires width { 1 ≤ width }
    requires elements { 1 ≤ length q.now / width }
    requires whole { length q.now ≡ length q.now / width * width }
    requires present { All (λ k. k < length b.old.nodes) q.now }
    requires enables { All (λ k. k < length b.old.nodes) enables.now }
    requires indexes { AreValues (length b.old.nodes) (index_width (length q.now / width)) indexes.now }
    requires values { AreValues (length b.old.nodes) width values.now }
    requires index_writes { length indexes.now ≡ length enables.now }
    requires value_writes { length values.now ≡ length enables.now }
    requires room { length b.old.nodes + array_gates b.old.nodes (length q.now / width) width indexes.now < 2 ^ 32 }
    ensures width { IfOk result (λ z. length z ≡ length q.now) }
    ensures circuit { IfOk result (λ z. Makes (array_gates b.old.nodes (length q.now / width) width indexes.now) (q.now ++ (enables.now ++ (all_nets indexes.now ++ all_nets values.now))) b.old b.new z
        (λ v. TakesEach v (length q.now / width) width enables.now indexes.now q.now values.now z)) }
{
    let count = (q.len() / width as usize) as u32;
    let lines = lines_of(alloc, b, count, aw(count), enables, indexes)?;
    hold_elements(alloc, b, q, width, lines.as_slice(), values)
}

/// The next bits of the elements, one behind the other: each has its lines.
fn hold_elements(
    alloc: Global,
    b: &mut Builder,
    q: &Nets,
    width: u32,
    lines: &[Lines],
    values: &[Nets],
) -> Result<Nets, NoMemory>
    requires whole { length q.now ≡ length lines.now * width }
    requires few { length q.now < 2 ^ 32 }
    requires present { All (λ k. k < length b.old.nodes) q.now }
    requires enables { All (All (λ line. line.enable < length b.old.nodes)) lines.now }
    requires writes { All (All (λ line. line.write < length values.now)) lines.now }
    requires values { AreValues (length b.old.nodes) width values.now }
    requires room { length b.old.nodes + sum_by (λ ls. hold_gates width (length ls)) lines.now < 2 ^ 32 }
    ensures width { IfOk result (λ z. length z ≡ length q.now) }
    ensures circuit { IfOk result (λ z. Makes (sum_by (λ ls. hold_gates width (length ls)) lines.now) (q.now ++ (line_nets lines.now ++ all_nets values.now)) b.old b.new z
        (λ v. EachByLines v width (length lines.now) lines.now values.now q.now z)) }
{
    let mut next = Nets::new(alloc);
    for j in 0..lines.len() {
        let present = element(alloc, q, width, j)?;
        let bits = hold_element(alloc, b, &present, lines[j].as_slice(), values)?;
        append(&mut next, &bits)?;
    }
    Ok(next)
}

/// The nets of an element of `width` bits.
fn element(alloc: Global, q: &Nets, width: u32, number: usize) -> Result<Nets, NoMemory>
    requires within { (number + 1) * width ≤ length q.now }
    requires few { length q.now < 2 ^ 32 }
    ensures nets { IfOk result (λ nets. nets ≡ element_nets width q.now number) }
    ensures width { IfOk result (λ nets. length nets ≡ width) }
{
    let first = number * width as usize;
    let (_, rest) = q.as_slice().split_at(first);
    let (bits, _) = rest.split_at(width as usize);
    Nets::from_slice(alloc, bits)
}

/// Adds nets above others.
fn append(nets: &mut Nets, more: &Nets) -> Result<(), NoMemory>
    ensures { OnOk result (nets.new ≡ nets.old ++ more.now) }
{
    for net in more.as_slice() {
        nets.push(*net)?;
    }
    Ok(())
}

/// The next bits of one element that holds the bits `present`.
fn hold_element(
    alloc: Global,
    b: &mut Builder,
    present: &Nets,
    lines: &[Line],
    values: &[Nets],
) -> Result<Nets, NoMemory>
    requires present { All (λ k. k < length b.old.nodes) present.now }
    requires enables { All (λ line. line.enable < length b.old.nodes) lines.now }
    requires writes { All (λ line. line.write < length values.now) lines.now }
    requires values { AreValues (length b.old.nodes) (length present.now) values.now }
    requires room { length b.old.nodes + hold_gates (length present.now) (length lines.now) < 2 ^ 32 }
    ensures width { IfOk result (λ z. length z ≡ length present.now) }
    ensures circuit { IfOk result (λ z. Makes (hold_gates (length present.now) (length lines.now)) (present.now ++ (enables_of lines.now ++ all_nets values.now)) b.old b.new z
        (λ v. TakesByLines v lines.now values.now present.now z)) }
{
    let enables = line_enables(alloc, lines)?;
    let written = line_values(alloc, lines, values)?;
    hold(alloc, b, present, &enables, written.as_slice())
}

/// The net of each line.
fn line_enables(alloc: Global, lines: &[Line]) -> Result<Nets, NoMemory>
    ensures { IfOk result (λ nets. nets ≡ enables_of lines.now) }
{
    let mut nets = Nets::new(alloc);
    for line in lines {
        nets.push(line.enable)?;
    }
    Ok(nets)
}

/// What the write of each line writes.
fn line_values(alloc: Global, lines: &[Line], values: &[Nets]) -> Result<Vec<Nets>, NoMemory>
    requires { All (λ line. line.write < length values.now) lines.now }
    ensures { IfOk result (λ written. written.items ≡ values_of values.now lines.now) }
{
    let mut written = Vec::new(alloc);
    for line in lines {
        let value = Nets::from_slice(alloc, values[line.write].as_slice())?;
        match written.push(value) {
            Ok(()) => {}
            Err(_) => return Err(NoMemory),
        }
    }
    Ok(written)
}
