//! Laws on pipelines.

ghost use Rattle.std.specs.Prelude.{◌≡◌, ◌<◌, ◌≤◌, ◌+◌, ◌*◌, ◌&&◌, ◌++◌, ◌∷◌, [], ℕ, suc, Bool, true, false, not, List, length, map, slice_get, Some, IsTrue};
ghost use Rattle.agm_net.specs.Formula.{xor};
ghost use Rattle.agm_net.specs.Loop.{HasNoLoop};
ghost use Rattle.agm_net.specs.Plain.{PlainNet, is_input, input_bits, data_ports};
ghost use Rattle.agm_net.specs.declared.port.Port.{Port};
ghost use Rattle.agm_net.specs.declared.mark.Mark.{Mark};
ghost use Rattle.share_wiring.specs.Same.{TellsSecrets, Same};
ghost use Rattle.share_wiring.specs.Shape.{Shape};
ghost use Rattle.share_wiring.specs.declared.report.Report.{Report};
ghost use Rattle.pipeline_balance.specs.Masked.{merged, IsPipelined, IsPipeReport};
ghost use Rattle.agm_net.specs.Trace.{Row, row_at, bit_at, IsTrace};
ghost use Rattle.agm_net.specs.WellFormed.{WellFormed};
ghost use Rattle.logic_graph.specs.Nodes.{xan_reads_before};
ghost use Rattle.logic_graph.specs.Settled.{bit_of};
ghost use Rattle.logic_graph.specs.GraphOf.{IsGraphOf, output_bits};
ghost use Rattle.logic_graph.specs.declared.graphs.Graph.{Graph};
ghost use Rattle.pipeline_balance.specs.Originals.{IsMachineOf};
ghost use Rattle.logic_graph.specs.declared.nodes.XanNode.{XanNode};
ghost use Rattle.share_wiring.specs.Wiring.{Wiring, share};
ghost use Rattle.pipeline_balance.specs.Toggle.{toggle, toggle_level, toggle_signals, driven_toggle};
ghost use Rattle.pipeline_balance.specs.Assembled.{Finishes, HasPortSignals};
ghost use Rattle.share_wiring.specs.Recombine.{masked_value};
ghost use Rattle.share_wiring.specs.Schedule.{input_values};
ghost use Rattle.pipeline_balance.specs.Ranks.{secrets_before, publics_before};
ghost use Rattle.pipeline_balance.specs.Growing.{AreInOrder, AreMade, HasMore};
ghost use Rattle.share_wiring.specs.Adds.{AddsFact, Xors, Masks, Holds, Copies, Delays};
ghost use Rattle.hpc2_gadget.specs.Product.{Multiplies};
ghost use Rattle.pipeline_balance.specs.declared.chains.Layout.{Layout};
ghost use Rattle.pipeline_balance.specs.Chained.{node_kind, secret_at, first_at, last_at, late_at, IsLayout};
ghost use Rattle.pipeline_balance.specs.Piped.{node_at, ReachDepth};
ghost use Rattle.pipeline_balance.specs.Reaching.{flag_at, FitsLevels, AreReached};
ghost use Rattle.pipeline_balance.specs.Signals.{Signal, Carries, Joins, Products, selected};
ghost use Rattle.pipeline_balance.specs.Shared.{shared, Places, Agree, placed};
ghost use Rattle.level_plan.specs.Passes.{has_source};
ghost use Rattle.pipeline_balance.specs.Machines.{Machine, IsMachine, IsMachineRun, out_node};
ghost use Rattle.pipeline_balance.specs.Pipelines.{Signals, IsJoined, IsGadget, IsMade, IsPipeline, IsDriven, input_cycle};

/// A law: the outputs of a driven pipeline are, in the cycle in which they are read, those of the machine's run.
pub fn pipelines_are_right()
    ensures { (m : Machine) (level : ℕ → ℕ) (depth cycles : ℕ) (s : Signals) (stream steps : ℕ) (initial : ℕ → Bool) (inputs states values : ℕ → ℕ → Bool) →
        IsMachine m → IsPipeline m level depth cycles s → IsDriven m depth cycles s stream steps initial inputs → IsMachineRun m steps initial inputs states values →
        (k : ℕ) → k < steps → (o : ℕ) → o < m.outputs → s.output o (input_cycle depth stream k + depth) ≡ values k (out_node m o) }
{}

/// A law: each trace of a net is a run of each machine that computes what the net does, with the trace's outputs.
pub fn traces_are_runs()
    ensures { (net : PlainNet) (graph : Graph) (m : Machine) → WellFormed net → HasNoLoop net → IsGraphOf net graph → IsMachineOf net graph m →
        (power : Row) (tape table : List Row) → IsTrace net power tape table →
        (states : ℕ → ℕ → Bool) × (values : ℕ → ℕ → Bool) × IsMachineRun m (length table) (bit_of power) (λ k. bit_of (row_at tape k)) states values
        × ((k o : ℕ) → k < length table → o < length (output_bits net) → values k (out_node m o) ≡ bit_of (map (bit_at table k) (output_bits net)) o) }
{}

/// A law: a masked net with the ports of one, without a loop, whose traces are runs of a pipeline of a machine that computes the original,
/// is the same as the original.
pub fn pipelined_is_same()
    ensures { (original : PlainNet) (marks : List Mark) (graph : Graph) (m : Machine) (report : Report) (net : PlainNet) (level : ℕ → ℕ) (depth : ℕ) →
        WellFormed original → WellFormed net → HasNoLoop original → IsGraphOf original graph → IsMachineOf original graph m →
        IsPipeReport report depth → Shape original report net → HasNoLoop net →
        ((secrets : List Bool) → TellsSecrets original marks secrets → IsPipelined original secrets report net m level depth) → Same original marks report net }
{}

/// A law: there are pipelines, and every stimulus drives this one, whose register becomes its exclusive or with a product: so the law on
/// outputs is never empty for it.
pub fn toggle_is_driven()
    ensures machine { IsMachine toggle }
    ensures pipeline { (cycles : ℕ) (x y initial load : Signal) → IsPipeline toggle toggle_level 2 cycles (toggle_signals x y initial load) }
    ensures driven { (initial : ℕ → ℕ → Bool) (inputs : ℕ → ℕ → ℕ → Bool) (steps stream : ℕ) → stream < 3 →
        IsDriven toggle 2 (3 * steps + 3) (driven_toggle initial inputs) stream steps (initial stream) (inputs stream) }
{}

/// A law: a plan whose nodes are carried as far as they are read is a layout, and its sinks are carried to the depth.
pub fn plans_are_layouts()
    ensures layout { (nodes : List XanNode) (sinks : List ℕ) (layout : Layout) (depth : ℕ) → AreReached nodes sinks layout.secret layout.levels layout.late_first depth (last_at layout) →
        (inputs registers : List Bool) → length layout.secret ≡ length nodes → length layout.levels ≡ length nodes → length layout.lasts ≡ length nodes → length layout.late_first ≡ length nodes →
        ((k : ℕ) (n : XanNode) → slice_get nodes k ≡ Some n → secret_at layout k ≡ node_kind (flag_at inputs) (flag_at registers) (secret_at layout) n) →
        ((k : ℕ) (n : XanNode) → slice_get nodes k ≡ Some n → IsTrue (has_source (length inputs) (length registers) n)) →
        ((k : ℕ) (n : XanNode) → slice_get nodes k ≡ Some n → FitsLevels (secret_at layout) (first_at layout) (late_at layout k) k n) → IsLayout nodes inputs registers layout }
    ensures depth { (nodes : List XanNode) (sinks : List ℕ) (layout : Layout) (depth : ℕ) → AreReached nodes sinks layout.secret layout.levels layout.late_first depth (last_at layout) →
        ((j : ℕ) → j < length sinks → (node_at sinks j < length nodes) × (first_at layout (node_at sinks j) ≤ depth)) → ReachDepth nodes layout depth sinks }
{}
