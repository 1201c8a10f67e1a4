ghost use Rattle.std.specs.Prelude.{◌≡◌};
ghost use Rattle.agema_texts.specs.Marked as spec;

use agema_answers::{Ended, Refusal};
use annotations::AnnotationFault;

/// The answer for a fault of annotations.
pub(crate) fn annotation_ended(fault: AnnotationFault) -> Ended
    ensures { result ≡ spec.annotation_ended fault }
{
    match fault {
        AnnotationFault::Memory => Ended::Memory,
        AnnotationFault::Reserved { .. }
        | AnnotationFault::Value { .. }
        | AnnotationFault::Twice { .. }
        | AnnotationFault::SecondClock { .. }
        | AnnotationFault::NoSecure
        | AnnotationFault::NoClock
        | AnnotationFault::ClockUse { .. } => Ended::Refused(Refusal::BadAnnotation { fault }),
    }
}
