//! The values of trees, as a law.
ghost use Rattle.sym_terms.specs.Laws.{OpTreesHaveValues, LoadTreesHaveValues, StoreTreesHaveValues};

/// States that the trees of operations, loads and stores have the values that the machine computes, in each state of words. A law: it
/// computes nothing.
pub fn trees_keep_values()
    ensures operations { OpTreesHaveValues }
    ensures loads { LoadTreesHaveValues }
    ensures stores { StoreTreesHaveValues }
{}
