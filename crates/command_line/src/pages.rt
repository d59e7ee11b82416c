//! The help of `mcc` and of its commands.

const STATUS_HELP: &str = "\
Exit status: 0 for `same`, `done`, a build, a listing, stages and help, 1 for a fault (`fault N NAME` on standard error), 2 for
wrong words, 4 for `more`, 3 for any other answer.

Examples: mcc check examples/checks/slot-filled.check
          mcc interp examples/programs/squares.c
          mcc build examples/programs/squares.c squares.image --plain";

const CHECK_HELP: &str = "\
FILE spells a block and an order for it, one instruction a line:

    block
    addiu $10,$10,1
    return
    order
    return
    slot addiu $10,$10,1

Of this text the answer is `same`: the order breaks no delay rule and leaves each register, HI, LO,
memory and the exit as the block does. Other answers: `unclean U1` (to U4, the least delay rule that
is broken), `differs P` (the first place whose terms differ), `full` (the table of terms is full).
`mcc check /dev/stdin` reads standard input.

Of several files each has a line, in the order of the words: `FILE: same`, another answer, or the fault's line;
lines of --explain stand behind it. The status is the worst one: 1 where a file had a fault, else 3 where
an answer isn't `same`, else 0.";

const INTERP_HELP: &str = "\
SOURCE is a program in an integer subset of C99; `out(e)` writes the word of an expression:

    int main(void) {
        int i = 0;
        while (i < 3) {
            out(i);
            i = i + 1;
        }
    }

Of this text standard output gets 0, 1 and 2, each on a line in unsigned decimal, and then `done 0`:
main has returned 0. Other ends: `wrong` (the program did what C gives no meaning, as a signed
overflow or an index outside its array, or called too deep), `more` (it would go on). An assignment,
a test, a call, a return and an output are one step each. What is put out is printed as the run goes on.
`mcc interp --steps 100 /dev/stdin` reads standard input, and stops after 100 steps.";

const BUILD_HELP: &str = "\
SOURCE is a program in the subset of C that `mcc help interp` shows. IMAGE becomes its program for MIPS I,
which `mcc run IMAGE` runs and `mcc list IMAGE` prints:

    mcc build squares.c squares.image
    mcc run squares.image

Wherever `mcc interp squares.c` isn't `wrong`, the image has the same output, and ends with the same
status. The instructions of each block are put in order, so that few words wait, and each order is checked;
a block whose order isn't accepted keeps its own. Standard output gets
`blocks B same S unclean U differs D full F nomemory N missed X`: of B blocks, S have a checked order, and
the others keep their own, as the order broke a delay rule (U), had other terms (D), filled the table (F),
or memory (N) or a worker (X) was refused. With --plain every block keeps its own order, and the line is
`blocks B plain`. IMAGE isn't touched where the build fails.";

const RUN_HELP: &str = "\
IMAGE is a program for MIPS I: code words and data behind a head (docs/FORMATS.md). These 32 bytes put 7
into register 4 (addiu $4,$0,7), 10 into register 2 (addiu $2,$0,10) and halt (syscall):

    printf 'MCCI\\0\\0\\0\\1\\0\\0\\0\\3\\0\\100\\0\\0\\0\\0\\0\\0' > seven.image
    printf '\\44\\4\\0\\7\\44\\2\\0\\12\\0\\0\\0\\14' >> seven.image

`mcc run seven.image` prints `done 7`. A program's output comes before, each word on a line in unsigned
decimal. Other ends: `stuck M1` (to M9, the least rule that the next word breaks: M1 a register that is
just being loaded, M2 a product or division too soon behind mfhi or mflo, M3 a branch in a delay slot,
M4 a division by 0 or one that overflows, M5 an address that is no multiple of 4, M6 one that isn't
mapped, M7 no code word, M8 a word that is no instruction, M9 a syscall other than 1 and 10), `more`
(it would go on).";

const LIST_HELP: &str = "\
Each code word has a line with its address, the word and its instruction:

    00400000  24040007  addiu $4,$0,7

A word that is no instruction, and each word of data, has `.word` there, and a byte behind the last whole
word of data `.byte`. An image of version 2 tells in the last line what its blocks came to.";

const SHOW_HELP: &str = "\
Each block has one number in all stages: that of the machine's blocks.

    mcc show squares.c                        RTL, blocks and orders of each function
    mcc show squares.c --stage orders         each block as scheduled, with the validator's verdict
    mcc show squares.c --stage check --block 4    block 4 and its order as a check text, to change and check
    mcc show squares.c --dot | dot -Tsvg      the blocks and how they are left, for Graphviz

Stages: `rtl` (instructions over pseudo-registers: locals by their names, others as %3), `homes` (the register
or slot of the frame of each), `blocks` (the machine's blocks, each in its own order), `orders`
(as scheduled; where an order was refused its verdict, the order, and the one that is taken), `terms` (what each
block leaves in registers, memory, exit and guards, as the validator compares it; `$8` is what register 8
held at the start, and `..` what is cut), `listing` (the image's words under their blocks), `check` (a block and its
order as a check text, which `mcc check` reads), `asm` (assembler source with the names of functions and globals).";

/// The help of a command, or of `mcc` itself. The grammar's tables hold pages, since each function that names a table would
/// otherwise take all their letters into its proof.
#[derive(Clone, Copy)]
pub(crate) enum Page {
    Whole,
    Check,
    Interp,
    Build,
    Run,
    List,
    Show,
}

impl Page {
    pub(crate) fn text(self) -> &'static str {
        match self {
            Page::Whole => STATUS_HELP,
            Page::Check => CHECK_HELP,
            Page::Interp => INTERP_HELP,
            Page::Build => BUILD_HELP,
            Page::Run => RUN_HELP,
            Page::List => LIST_HELP,
            Page::Show => SHOW_HELP,
        }
    }
}
