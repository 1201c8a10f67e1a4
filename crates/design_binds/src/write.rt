//! Writing plain nets.

ghost use Rattle.std.specs.Prelude.{IfOk};
ghost use Rattle.agm_net.specs.PlainForm.{IsPlain};
ghost use Rattle.agm_net.specs.View.{plain_of};
ghost use Rattle.design_binds.specs.WrittenNet.{IsTextOf};

use agm_bits::{Memory, Name};
use agm_net::Net;
use net_design::net_text;
use std::alloc::Global;

/// A plain net as structural Verilog, for people to read: a declaration, an assign or an instance a line, in the order of the net. Its
/// module is `agm_top`, and the clock's port alone is marked. What is written is read back and bound as the net, with its wires in
/// another order.
///
/// # Errors
///
/// `Memory` where memory runs out.
pub fn write_net(alloc: Global, net: &Net) -> Result<Name, Memory>
    requires { IsPlain (plain_of net.now) }
    ensures { IfOk result (λ text. IsTextOf text (plain_of net.now)) }
{
    let text = net_text(alloc, net)?;
    Ok(text)
}
