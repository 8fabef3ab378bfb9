ghost use Rattle.std.specs.Prelude.{◌≡◌, ℕ, true, List, [], ◌∷◌, ◌++◌, All, reverse, codes, Option, Some, unwrap_or, length, IfOk, OnOk, IfSome, MatchOption};
ghost use Rattle.std.specs.Str.{bytes_eq};
ghost use Rattle.hc_core.specs.Sound.{HasLabelBytes, IsPort, IsWidth};
ghost use Rattle.hc_scope.specs.Declaration as spec;
ghost use Rattle.hc_scope.specs.Expansion.{Yields, and_then};
ghost use Rattle.hc_scope.specs.Plain.{IsPlainValue, ArePlain, IsPlain};
ghost use Rattle.hc_scope.specs.Reading.{Answers};
ghost use Rattle.hc_scope.specs.declared.state.State as the_state;

use crate::refusal::{broken_name, wrong_number};
use hc_core::PinNames;
use hc_tree::{FrontErr, Ident, Name, NoMemory, Rule, Spec, SpecValue, With};
use sqlite_items::Items;
use std::alloc::Global;

/// The pins of a port of this width, that of the lowest bit first; none where no `data` entry is written. A second entry
/// breaks S5, a value that is no list of texts S6, and a list of another length than the width S7.
#[tactic(auto, using(crate::proofs::Reversed::no_port))]
pub fn pins_of(alloc: Global, width: u32, with: &Option<With>) -> Result<PinNames, FrontErr>
    requires plain { IsPlain with.now }
    requires width { IsWidth width }
    ensures answers { (s : the_state.State) → Answers (λ pins. pins) (spec.pins_of width with.now s) result s }
    ensures port { IfOk result (λ pins. IsPort width pins) }
{
    match with {
        Some(with) => data_entries(alloc, width, with.specs.as_slice()),
        None => Ok(Items::new(alloc)),
    }
}

// The pins of the only `data` entry, if there is one.
#[tactic(auto, using(crate::proofs::Reversed::no_port))]
fn data_entries(alloc: Global, width: u32, specs: &[Spec]) -> Result<PinNames, FrontErr>
    requires plain { ArePlain specs.now }
    requires width { IsWidth width }
    ensures answers { (s : the_state.State) → Answers (λ pins. pins) (spec.data_entries width None specs.now s) result s }
    ensures port { IfOk result (λ pins. IsPort width pins) }
{
    match first_data(specs) {
        Some((data, rest)) => match pins_by(alloc, &data.name, width, &data.value) {
            Ok(pins) => only_data(alloc, width, pins, rest),
            Err(e) => Err(e),
        },
        None => Ok(Items::new(alloc)),
    }
}

// These pins, where no other `data` entry follows.
fn only_data(
    alloc: Global,
    width: u32,
    pins: PinNames,
    specs: &[Spec],
) -> Result<PinNames, FrontErr>
    requires plain { ArePlain specs.now }
    ensures answers { (s : the_state.State) → Answers (λ pins. pins) (spec.data_entries width (Some pins) specs.now s) result s }
    ensures same { IfOk result (λ found. found ≡ pins) }
{
    match first_data(specs) {
        Some((data, _)) => Err(broken_name(alloc, Rule::S5, &data.name)),
        None => Ok(pins),
    }
}

// The first `data` entry, and the entries behind it.
fn first_data(mut specs: &[Spec]) -> Option<(&Spec, &[Spec])>
    requires plain { ArePlain specs.now }
    ensures entry { (width : ℕ) (pins : Option (List (List ℕ))) (s : the_state.State) → MatchOption result
        (spec.data_entries width pins specs.entry.now s ≡ Yields (unwrap_or pins []) s)
        (λ found. spec.data_entries width pins specs.entry.now s
        ≡ and_then (spec.data_entry width pins found.0.now s) (λ more. spec.data_entries width more found.1.now)) }
    ensures plain { IfSome result (λ found. IsPlainValue found.0.now.value × ArePlain found.1.now) }
{
    while let [first, rest @ ..] = specs {
        if first.name.name.as_bytes() == b"data".as_slice() {
            return Some((first, rest));
        }
        specs = rest;
    }
    None
}

// The pins that a `data` entry of this name lists, the highest bit first.
fn pins_by(alloc: Global, x: &Ident, width: u32, value: &SpecValue) -> Result<PinNames, FrontErr>
    requires plain { IsPlainValue value.now }
    requires width { IsWidth width }
    ensures answers { (s : the_state.State) → Answers (λ pins. pins) (spec.pins_by x.now width value.now s) result s }
    ensures port { IfOk result (λ pins. IsPort width pins) }
{
    match value {
        SpecValue::Expr(_) => Err(broken_name(alloc, Rule::S6, x)),
        SpecValue::Text(_) => Err(broken_name(alloc, Rule::S6, x)),
        SpecValue::Texts(texts) => pins_in(alloc, x, width, texts.as_slice()),
    }
}

// The pins of a list of texts, one for each bit.
#[tactic(auto, using(crate::proofs::Reversed::is_port))]
fn pins_in(alloc: Global, x: &Ident, width: u32, texts: &[Name]) -> Result<PinNames, FrontErr>
    requires plain { All HasLabelBytes texts.now }
    requires width { IsWidth width }
    ensures answers { (s : the_state.State) → Answers (λ pins. pins) (spec.pins_listed x.now width texts.now s) result s }
    ensures port { IfOk result (λ pins. IsPort width pins) }
{
    if texts.len() != width as usize {
        Err(wrong_number(texts.len() as u128, u128::from(width), x.place))
    } else {
        match reversed(alloc, texts) {
            Ok(pins) => Ok(pins),
            Err(NoMemory) => Err(FrontErr::NoMemory),
        }
    }
}

// Texts, the last first.
fn reversed(alloc: Global, mut texts: &[Name]) -> Result<PinNames, NoMemory>
    ensures { IfOk result (λ pins. pins ≡ reverse texts.entry.now) }
{
    let mut pins = Items::new(alloc);
    while let [rest @ .., last] = texts {
        match add_text(alloc, &mut pins, last) {
            Ok(()) => texts = rest,
            Err(NoMemory) => return Err(NoMemory),
        }
    }
    Ok(pins)
}

// One more text.
fn add_text(alloc: Global, pins: &mut PinNames, text: &Name) -> Result<(), NoMemory>
    ensures { OnOk result (pins.new ≡ pins.old ++ text.now ∷ []) }
{
    match Name::new(alloc, text.as_bytes()) {
        Ok(text) => match pins.push(text) {
            Ok(()) => Ok(()),
            Err(_) => Err(NoMemory),
        },
        Err(NoMemory) => Err(NoMemory),
    }
}
