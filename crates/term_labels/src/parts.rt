//! Words of labels that are a kind with a content: most enums' labels.
ghost use Rattle.std.specs.Prelude.{◌≡◌, ◌/◌, ◌%◌, ◌^◌, ◌<◌};
ghost use Rattle.term_labels.specs.Kinds.{joined};

/// Returns the word of a kind and a content, of 8 and 56 bits.
pub fn word_of(kind: u8, content: u64) -> u64
    requires { content < 2 ^ 56 }
    ensures { result ≡ joined kind content }
{
    u64::from(kind) * 72_057_594_037_927_936 + content
}

/// Returns the kind and the content of a word.
pub fn parts_of(word: u64) -> (u8, u64)
    ensures kind { result.0 ≡ word / 2 ^ 56 }
    ensures content { result.1 ≡ word % 2 ^ 56 }
{
    (
        (word / 72_057_594_037_927_936) as u8,
        word % 72_057_594_037_927_936,
    )
}
