//! What the program says of itself.

/// Printed by `--version`.
pub(crate) const VERSION: &str = "agema 0.1\n";

/// Printed by `--help`.
pub(crate) const HELP: &str =
    "agema masks gate-level netlists: it writes a netlist that computes on d+1 shares of every secret.

  agema mask LIB NET D MODE BALANCE OUT

    LIB      a Liberty cell library, or - for none
    NET      the netlist, structural Verilog; secure inputs are marked (* AGEMA = \"secure\" *)
    D        the order, 1 to 7: each secret bit is split into D+1 shares
    MODE     naive, aig or bdd
    BALANCE  pipe or gate
    OUT      the masked netlist; a report is written beside it, as OUT.json

  for example:  agema mask - examples/parity.v 1 naive pipe parity_masked.v

    It prints one line: order, mode, balance, gadgets, random bits a cycle, latency and period in cycles, streams.
    Built so far: naive and pipe.

  agema sim LIB NET STIM

    STIM     a stimulus, as JSON: {\"streams\":[{\"initial\":\"0\",\"steps\":[{\"x\":\"1\"}]}]}

  for example:  agema sim - examples/toggle.v examples/toggle.json

    It runs the netlist cycle by cycle, and prints a line for each stream and step with the output ports' bits.

  agema both LIB NET D MODE BALANCE OUT STIM SEED

    SEED     64 hexadecimal digits, a to f small, from which shares and random bits are drawn

    It masks the netlist, runs it and the masked one side by side, and prints a line for each stream, step and output
    port: its value, what the shares recombine to, and the shares. It writes OUT, without a report.

  agema report OUT

    It prints the line of mask again, by the report beside OUT.

  agema audit OUT D

    OUT      a netlist, over the cells that are known without a library
    D        the order, 1 to 7

  for example:  agema audit parity_masked.v 1

    It tells whether the netlist is an HPC2 network of that order, in which probes isolate, and prints one line: order,
    gadgets, random bits a cycle. Whatever mask writes is one. Names tell what a wire may read.

  agema cones OUT D PROBES

    PROBES   at most D probes and share indices, as JSON:
             {\"indices\":[],\"probes\":[{\"cycle\":0,\"wire\":\"x\"}]}

  for example:  agema cones product_masked.v 2 examples/probes.json

    OUT is audited first. It prints a line for each probe with what glitches can bring to it: the names of inputs and
    registers. A last line has the share indices that probes and indices together may depend on.

  agema --help       prints this
  agema --version    prints the version

exit status
   0  the command did all that it says
   2  the words are no command
   3  a file could not be read
   4  a file could not be written
   5  there is not enough memory
   6  standard output could not be written
   7  a word of the command line is not text
  10  a file is longer than 268,435,456 bytes
  11  the cell library has a syntax error
  12  the netlist has a syntax error
  13  a cell of the library has the name of an earlier one, or one that begins with AGM_
  14  an instance's cell is not known
  15  an instance's cell has no such pin
  16  a name is not declared, or a select is out of range
  17  a wire is read and not driven, or driven more than once
  18  two sides that are connected differ in width
  19  there is not one top module, or a module is inside itself
  20  the netlist has a loop
  21  the marks of ports or the use of the clock are wrong
  22  an output that is marked public has a secret bit
  23  the design is too large: its operators times shares squared exceed 65,536
  24  the report is wrong
  25  the stimulus is wrong
  26  the list of probes is wrong
  27  the netlist is no HPC2 network of the order: the wire that is named breaks a rule
  29  a cell of the library cannot be used
  30  a name is taken
  31  what is asked for is not built yet
  35  the design is too wide: it wants more than 65,536 random bits, or has more public or secret registers

A status other than 0 comes with a line on standard error that says why.
";
