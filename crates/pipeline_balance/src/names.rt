//! Laws on the ports of masked nets: they stand apart, and each can be made beside others of them.

ghost use Rattle.std.specs.Prelude.{◌≡◌, ◌≢◌, ◌++◌, ◌∷◌, [], ℕ, Bool, List, Option, map, drop};
ghost use Rattle.std.specs.List.{AllByRecursion, insert};
ghost use Rattle.agm_net.specs.Plain.{PlainNet};
ghost use Rattle.agm_net.specs.declared.port.Port.{Port};
ghost use Rattle.agm_net.specs.declared.port.Range.{Range};
ghost use Rattle.share_wiring.specs.Built.{IsNew};
ghost use Rattle.share_wiring.specs.Recombine.{port_value};
ghost use Rattle.share_wiring.specs.Shape.{Header, headers_of};
ghost use Rattle.share_wiring.specs.Wiring.{Wiring, net_of};
ghost use Rattle.share_wiring.specs.declared.report.Report.{Report};
ghost use Rattle.pipeline_balance.specs.Apart.{AreApart, IsHeader, HasNames, FitsLimits};
ghost use Rattle.pipeline_balance.specs.Entered.{entered_headers};
ghost use Rattle.pipeline_balance.specs.Ports.{FitsBeside, FitOneByOne, input_header};
ghost use Rattle.pipeline_balance.specs.Sublists.{IsSublist};

/// A law: one of ports that are apart can be made beside some others of them, and behind those that stand before it.
pub fn apart_ports_fit()
    ensures among { (before : List Header) (h : Header) (after hs : List Header) → IsSublist (before ++ h ∷ after) hs → AreApart hs → IsHeader h → FitsBeside (before ++ after) h }
    ensures behind { (olds : List Header) (h : Header) (rest : List Header) → AreApart (olds ++ h ∷ rest) → IsHeader h → FitsBeside olds h }
    ensures one_by_one { (range : Option Range) (names : List (List ℕ)) (olds rest : List Header) → AreApart (olds ++ (map (input_header range) names ++ rest)) →
        AllByRecursion IsHeader (map (input_header range) names) → FitOneByOne olds range names }
{}

/// A law: the ports of a masked net are apart, and so are those of its inputs, which are some of them.
pub fn headers_are_apart()
    ensures all { (original : PlainNet) (report : Report) → HasNames original → FitsLimits report → AreApart (headers_of original report) }
    ensures entered { (original : PlainNet) (report : Report) → HasNames original → FitsLimits report → AreApart (entered_headers original report) }
    ensures some { (original : PlainNet) (report : Report) → HasNames original → FitsLimits report → IsSublist (entered_headers original report) (headers_of original report) }
{}

/// A law: each port of a masked net but the first, the clock's, is one that a masked net may have.
pub fn headers_are_made()
    ensures all { (original : PlainNet) (report : Report) → HasNames original → FitsLimits report → AllByRecursion IsHeader (drop 1 (headers_of original report)) }
    ensures entered { (original : PlainNet) (report : Report) → HasNames original → FitsLimits report → AllByRecursion IsHeader (drop 1 (entered_headers original report)) }
{}

/// A law: a port that is made at a place has the value of its name, where no other has it, and other names keep their values. A name
/// that no port has has none.
pub fn ports_keep_values()
    ensures none { (net : Wiring) (name : List ℕ) (bit : ℕ → Bool) → IsNew (map (λ p. p.name) net.ports) name → port_value (net_of net) name bit ≡ [] }
    ensures made { (old now : Wiring) (bit : ℕ → Bool) (place : ℕ) (p : Port) → now.ports ≡ insert old.ports place p → IsNew (map (λ q. q.name) old.ports) p.name →
        port_value (net_of now) p.name bit ≡ map bit p.bits }
    ensures others { (old now : Wiring) (bit : ℕ → Bool) (place : ℕ) (p : Port) (name : List ℕ) → now.ports ≡ insert old.ports place p → p.name ≢ name →
        port_value (net_of now) name bit ≡ port_value (net_of old) name bit }
    ensures behind { (old now : Wiring) (bit : ℕ → Bool) (more : List Port) (name : List ℕ) → now.ports ≡ old.ports ++ more → IsNew (map (λ p. p.name) more) name →
        port_value (net_of now) name bit ≡ port_value (net_of old) name bit }
{}
