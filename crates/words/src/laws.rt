//! The laws of words, each as the contract of a function that does nothing.
ghost use Rattle.words.specs.Laws.{OperatorsGiveWords, CComputesAsTheMachine};

/// States that each operator of the machine gives a word at two words. A law: it computes nothing.
pub fn operators_give_words()
    ensures { OperatorsGiveWords }
{}

/// States that if C gives an operation on two words a value, that value is a word, and the machine's operators compute it. A law: it
/// computes nothing.
pub fn c_computes_as_the_machine()
    ensures { CComputesAsTheMachine }
{}
