ghost use Rattle.std.specs.Prelude.{◌≡◌, ◌↔◌, ℕ, Some, slice_get};
ghost use Rattle.agm_net.specs.Plain as net_spec;
ghost use Rattle.agm_net.specs.declared.port.Port as port_type;
ghost use Rattle.agm_net.specs.declared.mark.Mark.TheVariants as mark;
ghost use Rattle.verilog_reader.specs.Plain as design_spec;
ghost use Rattle.top_module.specs.Bound.{HasPortsOf};
ghost use Rattle.annotations.specs.Rules as rules;

/// Where a net has the ports and the clock of its top module and no rule is broken, the clock's port is marked as the clock, and no
/// other port is.
pub fn clock_is_marked()
    ensures { (top : design_spec.PlainModule) (net : net_spec.PlainNet) → HasPortsOf top net → rules.NoneBroken (rules.Broken top net) (rules.annotation_rules net) → (k : ℕ) (p : port_type.Port) → slice_get net.ports k ≡ Some p → (rules.mark_of top p ≡ mark.Clock) ↔ (net.clock ≡ Some k) }
{}
