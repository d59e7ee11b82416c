//! Laws of the grammar: which words it takes, and by which kind of fault it fails.

ghost use Rattle.std.specs.Prelude.{◌≡◌, [], ◌∷◌, true, codes};
ghost use Rattle.clap.specs.Words.{fault_of, is_simple_and_free, takes};
ghost use Rattle.clap.specs.declared.error.kind.ErrorKind.TheVariants.{DisplayHelp, MissingSubcommand};
ghost use Rattle.command_line.specs.Commands.{mcc_app};

/// States that clap takes some words, so what is promised of such words isn't promised of none.
pub fn some_words_are_taken()
    ensures run { takes mcc_app (codes "mcc" ∷ codes "run" ∷ codes "x" ∷ []) ≡ true }
    ensures check { takes mcc_app (codes "mcc" ∷ codes "check" ∷ codes "x" ∷ []) ≡ true }
    ensures build { takes mcc_app (codes "mcc" ∷ codes "build" ∷ codes "a" ∷ codes "b" ∷ codes "--depth" ∷ codes "7" ∷ []) ≡ true }
{}

/// States that other words have the kinds of their faults.
pub fn words_have_their_faults()
    ensures free { is_simple_and_free mcc_app ≡ true }
    ensures none { fault_of mcc_app (codes "mcc" ∷ []) ≡ MissingSubcommand ∷ [] }
    ensures help { fault_of mcc_app (codes "mcc" ∷ codes "--help" ∷ []) ≡ DisplayHelp ∷ [] }
{}
