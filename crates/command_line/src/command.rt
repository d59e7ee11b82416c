//! The commands of the program.

ghost use Rattle.std.specs.Prelude.{◌≡◌, ◌≤◌};
ghost use Rattle.term_table.specs.Passes.{InRange};
ghost use Rattle.command_line.specs.declared.command.Level.TheVariants.{Blocks};

use host::WordForm;

/// What is asked of a build: the C program of a file, and the file of its image. It is made for `depth` active calls at most (1 to 4096).
/// `plain` leaves every block in its own order; else at most `workers` (1 to `MAX_PASSES`) put the blocks in order. Their table has `nodes`
/// terms for each (1 to `MAX_NODES`) and `heads` chains (1 to `MAX_HEADS`).
#[derive(Clone, Copy)]
pub struct AskedBuild<'a> {
    pub source: &'a str,
    pub image: &'a str,
    pub plain: bool,
    pub depth: u32,
    pub workers: u32,
    pub nodes: u32,
    pub heads: u32,
    ghost deep: { 1 ≤ depth },
    ghost in_range: { InRange workers nodes heads },
}

/// What a C program is run as.
#[derive(Clone, Copy)]
pub enum Level {
    /// By its meaning in C, `--at c`.
    C,
    /// As its RTL, `--at rtl`.
    Rtl,
    /// As the machine's blocks, each in its own order and without delays, `--at blocks`.
    Blocks,
}

/// What is asked of a run of a C program, with at most `depth` active calls (1 to 4096) and `steps` steps (below 2^32). The words of
/// output have the form; `count` asks how many steps ran, which is known at the level of C alone.
#[derive(Clone, Copy)]
pub struct AskedInterp<'a> {
    pub source: &'a str,
    pub depth: u32,
    pub steps: u64,
    pub level: Level,
    pub form: WordForm,
    pub count: bool,
    // the machine's stack is for one call at least
    ghost deep: { level ≡ Blocks → 1 ≤ depth },
}

/// What is asked of a run of the image of a file, for `steps` words at most (below 2^32). The words of output have the form;
/// `count` asks how many words ran.
#[derive(Clone, Copy)]
pub struct AskedRun<'a> {
    pub image: &'a str,
    pub steps: u64,
    pub form: WordForm,
    pub count: bool,
}

/// An option whose value is one of some names.
#[derive(Clone, Copy)]
pub enum Choice {
    /// `--as` unsigned, signed or hex.
    Form,
    /// `--at` c, rtl or blocks.
    Level,
}

/// A command of the program with its values.
#[derive(Drop)]
pub enum Command<'a> {
    /// The verdict on the check text of a file; `explain` asks why it isn't `same`.
    Check {
        file: &'a str,
        explain: bool,
    },
    /// The same of several files, two at least, in the order of the words.
    CheckEach {
        files: Vec<&'a str>,
        explain: bool,
    },
    /// A run of the C program of a file.
    Interp(AskedInterp<'a>),
    /// The image of the C program of a file.
    Build(AskedBuild<'a>),
    /// A run of the image of a file.
    Run(AskedRun<'a>),
    /// The listing of the image of a file, or, with `asm`, assembler source for GNU as and SPIM.
    List {
        image: &'a str,
        asm: bool,
    },
    /// What becomes of a C program at one stage (`rtl`, `homes`, `blocks`, `orders`, `check`, `terms`, `listing`, `asm`), or at three if
    /// none is named. It is of one function or of all, and of one block or of all. `dot` asks for graphs.
    Show {
        source: &'a str,
        stage: Option<&'a str>,
        function: Option<&'a str>,
        block: Option<u32>,
        dot: bool,
    },
    /// None of these: the option of `run` or `interp` has none of its names.
    NoChoice {
        choice: Choice,
        value: &'a str,
    },
}
