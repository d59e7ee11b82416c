//! What terms mean: their values by an algebra, for labels, values and environments of any types. Definitions: `specs/Meanings.antt`.
//! Lemmas for callers, with a ruleset `meanings`: `proofs/Meanings.antt`.

ghost use Rattle.term_labels.specs.Codings.{IsCoding};
ghost use Rattle.term_table.specs.Meanings.{Algebra, MeaningLasts, LabelsMakeMeanings, EqualTicketsMeanTheSame, ValuesSeparateTerms};
ghost use Rattle.term_table.specs.Meanings.{MeaningsHaveOneTicket};

/// States that a ticket keeps its meaning as its handle goes on, and has it for each handle that learns of it. A law: it computes nothing.
pub fn meaning_lasts<L, V, E>()
    ensures { (a : Algebra L V E) → MeaningLasts a }
{}

/// States that the ticket of a label over children means what the label makes of their meanings. The children of a term that was read have
/// the values that its label makes its value of. A law: it computes nothing.
pub fn labels_make_meanings<L, V, E>()
    ensures { (a : Algebra L V E) → LabelsMakeMeanings a }
{}

/// States that if two tickets are equal, what they mean is one. A law: it computes nothing.
pub fn equal_tickets_mean_the_same<L, V, E>()
    ensures { (a : Algebra L V E) → IsCoding a.coding → EqualTicketsMeanTheSame a }
{}

/// States that if values separate terms, tickets that mean the same are equal. A law: it computes nothing.
pub fn same_meanings_have_equal_tickets<L, V, E>()
    ensures { (a : Algebra L V E) → IsCoding a.coding → ValuesSeparateTerms a → MeaningsHaveOneTicket a }
{}
