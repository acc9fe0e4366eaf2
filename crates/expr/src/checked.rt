// Expressions that were checked: slices that are known to be the code of one.
// Two structs, and `Expression` for what they share: one over the kind would carry a marker of it at each literal.
ghost use Rattle.expr.specs.Expr.{Expr, guard, term};
ghost use Rattle.expr.specs.Coded.{Coded};

// A guard whose bytes are those of a well-formed expression.
#[derive(Clone, Copy)]
pub struct Guard<'a> {
    pub code: &'a [u8],
    ghost coded: { ∥ ((e : Expr guard) × Coded code.now e) ∥₁ },
}

// A term whose bytes are those of a well-formed expression.
#[derive(Clone, Copy)]
pub struct Term<'a> {
    pub code: &'a [u8],
    ghost coded: { ∥ ((e : Expr term) × Coded code.now e) ∥₁ },
}
