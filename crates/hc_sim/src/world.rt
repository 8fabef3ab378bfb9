ghost use Rattle.std.specs.Prelude.{◌≡◌, ◌<◌, ◌≤◌, ◌^◌, length, Some, slice_get, slice_index_or};
ghost use Rattle.hc_core.specs.Read.{expression};
ghost use Rattle.hc_core.specs.Typed.{kinds_of, HasSomeType, kind_width, kind_sign};
ghost use Rattle.hc_meaning.specs.Value.{number_of, typed, inputs_before, word_in};
ghost use Rattle.hc_sim.specs.Readable.{IsPlaced, input_places};
ghost use Rattle.hc_sim.specs.Seen.{seen, CanRead};

use crate::operators::{binary, holds, unary};
use crate::store::{Store, bits_at};
use hc_core::{Expr, Kind, Object};
use hc_num::Num;
use std::marker::Model;

/// What has a value within a clock, by the number of its object: each signal's number, and whether a channel has a plain
/// send and a plain receive.
#[derive(Debug, Drop)]
pub struct Instant {
    pub(crate) signals: Vec<u128>,
    pub(crate) sends: Vec<bool>,
    pub(crate) receives: Vec<bool>,
}

impl Model for Instant {
    ghost use Rattle.hc_meaning.specs.Value as meaning;

    ghost Value = { meaning.Instant };

    ghost view = { λ r. record { signals = r.signals.items; sends = r.sends.items; receives = r.receives.items } };
}

/// What expressions are read in, in one clock: the objects of a core, what they hold, the inputs in order, and the instant.
#[derive(Clone, Copy)]
pub(crate) struct World<'a> {
    pub(crate) objects: &'a [Object],
    /// For each object how many inputs stand before it.
    pub(crate) places: &'a [usize],
    pub(crate) store: &'a Store,
    pub(crate) inputs: &'a [u128],
    pub(crate) instant: &'a Instant,
}

/// The width and the sign of an object.
#[derive(Clone, Copy)]
struct Type {
    width: u32,
    signed: bool,
}

fn type_of(kind: &Kind) -> Type
    ensures width { result.width ≡ kind_width (Some kind.now) }
    ensures sign { result.signed ≡ kind_sign (Some kind.now) }
{
    match kind {
        Kind::Reg { width, signed, .. } => Type {
            width: *width,
            signed: *signed,
        },
        Kind::Array { width, signed, .. } => Type {
            width: *width,
            signed: *signed,
        },
        Kind::Ram { width, signed, .. } => Type {
            width: *width,
            signed: *signed,
        },
        Kind::Rom { width, signed, .. } => Type {
            width: *width,
            signed: *signed,
        },
        Kind::Signal { width, signed, .. } => Type {
            width: *width,
            signed: *signed,
        },
        Kind::Chan { width, signed, .. } => Type {
            width: *width,
            signed: *signed,
        },
        Kind::Input { width, signed, .. } => Type {
            width: *width,
            signed: *signed,
        },
        Kind::Output { width, signed, .. } => Type {
            width: *width,
            signed: *signed,
        },
    }
}

/// A number with the type of an object.
fn typed(objects: &[Object], k: u32, bits: u128) -> Num
    requires there { k < length objects.now }
    requires least { 1 ≤ kind_width (slice_get (kinds_of objects.now) k) }
    requires most { kind_width (slice_get (kinds_of objects.now) k) ≤ 128 }
    requires fits { bits < 2 ^ kind_width (slice_get (kinds_of objects.now) k) }
    ensures { result ≡ typed (slice_get (kinds_of objects.now) k) bits }
{
    let of = type_of(&objects[k as usize].kind);
    Num::new(of.width, of.signed, bits)
}

impl<'a> World<'a> {
    /// The number of a register (at index 0), an element or a word; 0 outside.
    fn held(&self, k: u32, index: u128) -> Num
        requires readable { CanRead self.now }
        requires placed { IsPlaced (kinds_of self.now.objects.now) k }
        ensures { result ≡ typed (slice_get (kinds_of self.now.objects.now) k) (word_in self.now.store.now k index) }
    {
        typed(self.objects, k, self.store.bits(k, index))
    }

    /// The bits of an input in the clock.
    #[tactic(auto, using(crate::proofs::Places::place_within, crate::proofs::Places::place_is))]
    fn input_bits(&self, k: u32) -> u128
        requires there { k < length self.now.objects.now }
        requires places { self.now.places.now ≡ input_places (kinds_of self.now.objects.now) }
        ensures { result ≡ slice_index_or self.now.inputs.now (inputs_before (kinds_of self.now.objects.now) k) 0 }
    {
        let place = self.places[k as usize];
        bits_at(self.inputs, place as u128)
    }

    /// The number of an input in the clock.
    fn input(&self, k: u32) -> Num
        requires readable { CanRead self.now }
        requires placed { IsPlaced (kinds_of self.now.objects.now) k }
        requires fits { slice_index_or self.now.inputs.now (inputs_before (kinds_of self.now.objects.now) k) 0 < 2 ^ kind_width (slice_get (kinds_of self.now.objects.now) k) }
        ensures { result ≡ typed (slice_get (kinds_of self.now.objects.now) k) (slice_index_or self.now.inputs.now (inputs_before (kinds_of self.now.objects.now) k) 0) }
    {
        typed(self.objects, k, self.input_bits(k))
    }

    /// The number of a signal in the clock.
    fn signal(&self, k: u32) -> Num
        requires readable { CanRead self.now }
        requires placed { IsPlaced (kinds_of self.now.objects.now) k }
        ensures { result ≡ typed (slice_get (kinds_of self.now.objects.now) k) (slice_index_or self.now.instant.now.signals k 0) }
    {
        let instant = self.instant;
        let bits = bits_at(instant.signals.as_slice(), u128::from(k));
        typed(self.objects, k, bits)
    }

    /// The number of an expression. An element or word outside is 0. It takes no memory, and time in proportion to the
    /// expression.
    #[tactic(auto, using(hc_core::proofs::Read::reading))]
    pub(crate) fn number(&self, e: &Expr) -> Num
        requires readable { CanRead self.now }
        requires typed { HasSomeType (kinds_of self.now.objects.now) (expression e.now) }
        ensures { result ≡ number_of (seen self.now) (expression e.now) }
    {
        match e {
            Expr::Const(n) => *n,
            Expr::Reg(k) => self.held(*k, 0),
            Expr::Element(k, i) => {
                let index = i.get();
                let at = self.number(index);
                self.held(*k, at.bits())
            }
            Expr::Word(k, i) => {
                let address = i.get();
                let word = self.number(address);
                self.held(*k, word.bits())
            }
            Expr::Signal(k) => self.signal(*k),
            Expr::Input(k) => self.input(*k),
            Expr::Unary(op, a) => {
                let operand = a.get();
                let n = self.number(operand);
                unary(*op, n)
            }
            Expr::Binary(op, a, b) => {
                let x = a.get();
                let y = b.get();
                let p = self.number(x);
                let q = self.number(y);
                binary(*op, p, q)
            }
            Expr::Slice(a, high, low) => {
                let whole = a.get();
                let m = self.number(whole);
                m.slice(*high, *low)
            }
            Expr::Choice(c, a, b) => {
                let condition = c.get();
                let yes = a.get();
                let no = b.get();
                let decides = self.number(condition);
                if holds(decides) {
                    self.number(yes)
                } else {
                    self.number(no)
                }
            }
        }
    }
}
