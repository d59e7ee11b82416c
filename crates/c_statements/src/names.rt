//! What a name stands for.
use c_tokens::IntegerType;

/// What a name stands for. Locals are numbered within their function, global variables, arrays and functions within the program. A function
/// has its number of parameters, and whether it gives a result. `Out` is the function `out`, declared at file scope with one `unsigned`
/// parameter and no result.
#[derive(Clone, Copy)]
pub enum Named {
    Local(usize, IntegerType),
    Global(usize, IntegerType),
    Array(usize, IntegerType),
    Function(usize, usize, bool),
    Out,
}
