//! What is known of the ports of a bound net.

ghost use Rattle.std.specs.Prelude.{◌≡◌, ℕ, List, Ok};
ghost use Rattle.std.specs.List.{AllByRecursion};
ghost use Rattle.agm_net.specs.Plain.{PlainNet};
ghost use Rattle.cell_library.specs.Judged.{PlainCell};
ghost use Rattle.net_binding.specs.Bound.{bound};
ghost use Rattle.verilog_reader.specs.Grammar.{Spelled};
ghost use Rattle.verilog_reader.specs.Plain.{PlainDesign};
ghost use Rattle.bound_names.specs.Named.{IsNamed};

/// The ports of a net that a spelled design binds to have names that can be written, and ranges with small numbers.
pub fn bound_ports_are_named()
    ensures { (cells : List PlainCell) (bytes : List ℕ) (design : PlainDesign) (net : PlainNet) →
        Spelled bytes design → bound cells design ≡ Ok net → AllByRecursion IsNamed net.ports }
{}
