ghost use Rattle.std.specs.Prelude.{◌≡◌, ◌++◌, OnOk};
ghost use Rattle.hc_run.specs.Edif.{port_id, flop_id, gate_id, ram_id, ram_cell, ram_pin};

use crate::text::push_number;
use hc_net::FlopName;
use std::alloc::AllocError;

/// Appends the name of bit `bit` of port `port`.
#[tactic(auto, using(crate::proofs::Append::appends), unfolding(crate::specs::Edif::port_id))]
pub(crate) fn push_port_id(text: &mut Vec<u8>, port: u32, bit: u32) -> Result<(), AllocError>
    ensures { OnOk result (text.new.items ≡ text.old.items ++ port_id port bit) }
{
    text.extend_from_slice(b"p")?;
    push_number(text, port)?;
    text.extend_from_slice(b"_")?;
    push_number(text, bit)
}

/// Appends the name of a flip-flop's instance.
#[tactic(auto, using(crate::proofs::Append::appends), unfolding(crate::specs::Edif::flop_id))]
pub(crate) fn push_flop_id(text: &mut Vec<u8>, name: FlopName) -> Result<(), AllocError>
    ensures { OnOk result (text.new.items ≡ text.old.items ++ flop_id name) }
{
    match name {
        FlopName::Bit { object, bit } => {
            text.extend_from_slice(b"R")?;
            push_number(text, object)?;
            text.extend_from_slice(b"_")?;
            push_number(text, bit)
        }
        FlopName::Token(number) => {
            text.extend_from_slice(b"T")?;
            push_number(text, number)
        }
    }
}

/// Appends the name of the instance of the gate whose output is net `net`.
#[tactic(auto, using(crate::proofs::Append::appends), unfolding(crate::specs::Edif::gate_id))]
pub(crate) fn push_gate_id(text: &mut Vec<u8>, net: u32) -> Result<(), AllocError>
    ensures { OnOk result (text.new.items ≡ text.old.items ++ gate_id net) }
{
    text.extend_from_slice(b"g")?;
    push_number(text, net)
}

/// Appends the name of the instance of the RAM of an object.
#[tactic(auto, using(crate::proofs::Append::appends), unfolding(crate::specs::Edif::ram_id))]
pub(crate) fn push_ram_id(text: &mut Vec<u8>, object: u32) -> Result<(), AllocError>
    ensures { OnOk result (text.new.items ≡ text.old.items ++ ram_id object) }
{
    text.extend_from_slice(b"M")?;
    push_number(text, object)
}

/// Appends the name of the cell of RAMs of `words` words of `width` bits.
#[tactic(auto, using(crate::proofs::Append::appends), unfolding(crate::specs::Edif::ram_cell))]
pub(crate) fn push_ram_cell(text: &mut Vec<u8>, words: u32, width: u32) -> Result<(), AllocError>
    ensures { OnOk result (text.new.items ≡ text.old.items ++ ram_cell words width) }
{
    text.extend_from_slice(b"HC_RAM_")?;
    push_number(text, words)?;
    text.extend_from_slice(b"_")?;
    push_number(text, width)
}

/// Appends the name of the pin of a RAM that a letter and a number name.
#[tactic(auto, using(crate::proofs::Append::appends), unfolding(crate::specs::Edif::ram_pin))]
pub(crate) fn push_ram_pin(text: &mut Vec<u8>, letter: &[u8], bit: u32) -> Result<(), AllocError>
    ensures { OnOk result (text.new.items ≡ text.old.items ++ ram_pin letter.now bit) }
{
    text.extend_from_slice(letter)?;
    push_number(text, bit)
}
