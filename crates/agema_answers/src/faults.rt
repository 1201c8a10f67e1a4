ghost use Rattle.std.specs.Prelude.{◌≡◌};
ghost use Rattle.agema_answers.specs.Faults as spec;

use crate::{Ended, Refusal};
use bound_items::BindFault;

/// The answer for a fault of binding.
pub fn bind_ended(fault: BindFault) -> Ended
    ensures { result ≡ spec.bind_ended fault }
{
    match fault {
        BindFault::UnknownCell { instance, cell } => Ended::Refused(Refusal::UnknownCell {
            instance,
            cell,
        }),
        BindFault::UnknownPin { instance, pin } => Ended::Refused(Refusal::UnknownPin {
            instance,
            pin,
        }),
        BindFault::UnknownWire { name } => Ended::Refused(Refusal::UnknownWire { name }),
        BindFault::Driven { wire, drivers } => Ended::Refused(Refusal::Driven { wire, drivers }),
        BindFault::Width { left, right } => Ended::Refused(Refusal::Width { left, right }),
        BindFault::Top { candidates } => Ended::Refused(Refusal::Top { candidates }),
        BindFault::Recursive { module } => Ended::Refused(Refusal::Recursive { module }),
        BindFault::BarredCell {
            instance,
            cell,
            cause,
        } => Ended::Refused(Refusal::BarredCell {
            instance,
            cell,
            cause,
        }),
        BindFault::Clash { name } => Ended::Refused(Refusal::Clash { name }),
        BindFault::Memory => Ended::Memory,
    }
}
