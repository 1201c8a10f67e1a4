//! What small netlists take in each mode: laws that show the definitions of the modes' costs to be right.
#![tactic(auto)]

ghost use Rattle.mode_examples.specs.Examples.{secure, in_a_row, side_by_side, full_adder, exclusive_or, majority, square, choice_of_two, factor_again, cancelled, bank, bank_marks, wide};
ghost use Rattle.mode_examples.specs.Takes.{Takes, takes};

/// The first product is there after two cycles and then is the late factor of the second.
pub fn products_in_a_row()
    ensures { Takes in_a_row (secure 3 1) (takes 2 3) (takes 2 3) (takes 2 3) }
{}

/// Two factors that are there at the same time cost two cycles.
pub fn products_side_by_side()
    ensures { Takes side_by_side (secure 4 1) (takes 3 4) (takes 3 4) (takes 3 4) }
{}

/// An exclusive or takes three products in a graph of products and inversions, and its inner products are not those of the carry. As a
/// decision diagram the sum takes none.
pub fn full_adder_takes()
    ensures { Takes full_adder (secure 3 2) (takes 3 4) (takes 9 7) (takes 3 3) }
{}

/// An exclusive or is free, but as products and inversions.
pub fn exclusive_or_takes()
    ensures { Takes exclusive_or (secure 2 1) (takes 0 0) (takes 3 4) (takes 0 0) }
{}

/// The diagram has a choice by each of the three inputs that takes a gadget, twice by b; the choice between 0 and 1 by c takes none.
pub fn majority_takes()
    ensures { Takes majority (secure 3 1) (takes 3 4) (takes 6 6) (takes 3 3) }
{}

/// A product of equal factors takes a gadget only where operators are taken as they stand.
pub fn square_takes()
    ensures { Takes square (secure 1 1) (takes 1 2) (takes 0 0) (takes 0 0) }
{}

/// A choice between secrets by a public bit takes no gadget as it stands, nor as a diagram whatever the order of its variables; as
/// products and inversions it joins two secrets by a product.
pub fn public_choice_takes()
    ensures { Takes choice_of_two (secure 2 2) (takes 0 0) (takes 1 2) (takes 0 0) }
{}

/// A choice by a secret is one gadget as it stands.
pub fn secret_choice_takes()
    ensures { Takes choice_of_two (secure 3 1) (takes 1 2) (takes 3 4) (takes 3 3) }
{}

/// A product is not looked through for a factor that stands in it, but by its function.
pub fn factor_again_takes()
    ensures { Takes factor_again (secure 2 1) (takes 2 3) (takes 2 3) (takes 1 2) }
{}

/// Opposite factors give 0, so that the output has lost its secret.
pub fn cancelled_takes()
    ensures { Takes cancelled (secure 1 1) (takes 0 0) (takes 0 0) (takes 0 0) }
{}

/// A sum of products by a public bit and its inverse takes a gadget, but as a diagram, which is a choice by the public bit.
pub fn bank_takes()
    ensures { Takes bank bank_marks (takes 1 2) (takes 1 2) (takes 0 0) }
{}

/// Where a function has more than ten variables its operands are variables: each is a root of its own.
pub fn wide_takes()
    ensures { Takes wide (secure 11 1) (takes 6 7) (takes 18 14) (takes 6 7) }
{}
