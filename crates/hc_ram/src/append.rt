ghost use Rattle.std.specs.Prelude.{◌≡◌, ◌++◌, OnOk};

use hc_net::{Nets, NoMemory};

/// Adds nets above others.
pub(crate) fn append(nets: &mut Nets, more: &Nets) -> Result<(), NoMemory>
    ensures { OnOk result (nets.new ≡ nets.old ++ more.now) }
{
    for net in more.as_slice() {
        nets.push(*net)?;
    }
    Ok(())
}
