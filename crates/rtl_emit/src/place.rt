//! Registers for the values of operands.
ghost use Rattle.std.specs.Prelude.{◌≡◌, ◌++◌, ◌∷◌, ◌+◌, [], ◌<◌, ◌≤◌, map, List, IfOk, IfErr, OnOk, OnErr};
ghost use Rattle.c_typed.specs.Shape.{typed_expression_of, typed_expressions_of};
ghost use Rattle.rtl.specs.declared.limits.TheConstants.{MAX_REGISTERS};
ghost use Rattle.rtl_emit.specs.declared.place.Place.{Place};
ghost use Rattle.rtl_emit.specs.Expressions.{IsPlace, AddPlaces};
ghost use Rattle.rtl_emit.specs.Sizes.{is_joined, place_registers, places_registers};

use crate::expression::is_logical;
use crate::fault::LowerFault;
use c_tree::UnaryOp;
use c_typed::TypedExpression;
use rtl::{MAX_REGISTERS, Register};
use std::alloc::{AllocError, Global};

/// A register for an operand, and the first that is free while it is held.
#[derive(Clone, Copy)]
pub struct Place {
    pub register: Register,
    pub free: Register,
}

/// Returns the register of a local; a Limit above the last register.
pub fn register_of(local: usize) -> Result<Register, LowerFault>
    ensures is { IfOk result (λ r. r ≡ local) }
    ensures within { IfOk result (λ r. r < MAX_REGISTERS) }
    ensures limit { IfErr result (λ f. f ≡ LowerFault.Limit → MAX_REGISTERS < local + 1) }
    ensures kind { IfErr result (λ f. f ≡ LowerFault.Limit) }
{
    if local >= MAX_REGISTERS as usize {
        return Err(LowerFault::Limit);
    }
    Ok(local as u32)
}

/// Returns a register that is free; a Limit above the last one.
pub fn spare_register(free: Register) -> Result<Register, LowerFault>
    ensures is { IfOk result (λ r. r ≡ free) }
    ensures within { IfOk result (λ r. r < MAX_REGISTERS) }
    ensures limit { IfErr result (λ f. f ≡ LowerFault.Limit → MAX_REGISTERS < free + 1) }
    ensures kind { IfErr result (λ f. f ≡ LowerFault.Limit) }
{
    register_of(free as usize)
}

/// Reports whether branches join with the value of an expression.
fn is_joined(e: &TypedExpression) -> bool
    ensures { result ≡ is_joined (typed_expression_of e.now) }
{
    match e {
        TypedExpression::Unary(operator, _, part) => {
            *operator == UnaryOp::Not && is_logical(part)
        }
        TypedExpression::Binary(_, _, _) => is_logical(e),
        TypedExpression::Conditional(_, _) => true,
        _ => false,
    }
}

/// Returns where the value of an operand is found. A local is in its own register, others in the first of two free ones, or in the second
/// if branches join with the value. A Limit if there is none.
#[inline(always)]
pub fn place_of(e: &TypedExpression, free: Register) -> Result<Place, LowerFault>
    ensures place { IfOk result (λ p. IsPlace (typed_expression_of e.now) free p.register p.free) }
    ensures room { OnOk result (place_registers (typed_expression_of e.now) free ≤ MAX_REGISTERS) }
    ensures limit { IfErr result (λ f. f ≡ LowerFault.Limit → MAX_REGISTERS < place_registers (typed_expression_of e.now) free) }
    ensures kind { IfErr result (λ f. f ≡ LowerFault.Limit) }
{
    if let TypedExpression::Local(_, number) = e {
        let register = register_of(*number)?;
        return Ok(Place { register, free });
    }
    let first = spare_register(free)?;
    let register = if is_joined(e) {
        spare_register(first + 1)?
    } else {
        first
    };
    Ok(Place {
        register,
        free: first + 2,
    })
}

/// Adds places for the values of a list after others, which stay at the front after an Err too. A Limit if the registers don't suffice.
pub fn places_of(
    es: &[TypedExpression],
    free: Register,
    places: &mut Vec<Place>,
) -> Result<(), LowerFault>
    ensures begins { (more : List Place) × (places.new.items ≡ places.old.items ++ more) }
    ensures places { OnOk result (AddPlaces (typed_expressions_of es.now) free places.old.items places.new.items) }
    ensures room { OnOk result (places_registers (typed_expressions_of es.now) free ≤ MAX_REGISTERS) }
    ensures limit { IfErr result (λ f. f ≡ LowerFault.Limit → MAX_REGISTERS < places_registers (typed_expressions_of es.now) free) }
{
    let Some((e, rest)) = es.split_first() else {
        return Ok(());
    };
    let first_place = place_of(e, free)?;
    put_place(places, first_place)?;
    places_of(rest, first_place.free, places)
}

/// Adds one more place.
fn put_place(places: &mut Vec<Place>, place: Place) -> Result<(), AllocError>
    ensures added { OnOk result (places.new.items ≡ places.old.items ++ place ∷ []) }
    ensures left { OnErr result (places.new.items ≡ places.old.items) }
{
    places.push(place)?;
    Ok(())
}

/// Returns the registers of places; an Err means out of memory.
pub fn registers_of(alloc: Global, places: &[Place]) -> Result<Vec<Register>, AllocError>
    ensures { IfOk result (λ rs. rs.items ≡ map (λ p. p.register) places.now) }
{
    places.iter().map(|place| place.register).collect(alloc)
}
