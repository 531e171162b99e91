//! A model as one line of text, for the tests of the grammar.
//!
//! - A place stands behind `@`: `7@9` is a literal, `x@5` a name and `a@3[i@5]` an element.
//! - Every other expression is `(WORD@PLACE PART PART ..)`. The word is `neg`, `not`, `and`, `or`,
//!   `=>`, a comparison's sign, or the function's name. A chain names the operator of each part:
//!   `(add@0 +a@0 -b@4)`, `(mul@0 a@0 *b@2 div 3@8 mod 2@14)`.
//! - Binders are `[i@4 in R@9][j@12 in 1@17..2@20]`, as are dimensions; a dimension without a name
//!   shows its own place: `[@6 R@6]`. An initial value in brackets is `[@10 1@11 2@14]`.
//! - Declarations, the objective, and the constraints in braces follow one another:
//!   `int n@4 = 7@8; minimize worst n@30; { n@50; { } forall [i@60 in R@65] prob i@70 >= 1@80/2@82; }`.

use sopl_ast::{
    Binder, Cons, Decl, Dim, Expr, Function, Goal, Init, Kind, Model, MulOp, Name, RangeText,
};
use sopl_base::{CmpOp, Direction, Extreme};
use std::alloc::{AllocError, Global};

/// The whole model in one line.
pub fn printed(alloc: Global, model: &Model) -> Result<String, AllocError> {
    let mut out = String::new(alloc);
    put_decls(&mut out, model.decls.as_slice())?;
    if let Some(goal) = &model.goal {
        put_goal(&mut out, goal)?;
    }
    put_body(&mut out, model.body.as_slice())?;
    Ok(out)
}

fn put_decls(out: &mut String, decls: &[Decl]) -> Result<(), AllocError> {
    for decl in decls {
        put_decl(out, decl)?;
        out.push_str("; ")?;
    }
    Ok(())
}

fn put_decl(out: &mut String, decl: &Decl) -> Result<(), AllocError> {
    match decl {
        Decl::Int {
            name,
            at,
            dims,
            init,
        } => {
            put_head(out, "int ", name, *at, dims.as_slice())?;
            out.push_str(" = ")?;
            put_init(out, init)
        }
        Decl::Range { name, at, lo, hi } => {
            put_head(out, "range ", name, *at, &[])?;
            out.push_str(" = ")?;
            put_ends(out, lo, hi)
        }
        Decl::Set { name, at, elements } => {
            put_head(out, "set ", name, *at, &[])?;
            out.push_str(" = {")?;
            put_list(out, elements.as_slice())?;
            out.push_str(" }")
        }
        Decl::Dvar { .. } | Decl::Stoch { .. } => put_variable(out, decl),
    }
}

fn put_variable(out: &mut String, decl: &Decl) -> Result<(), AllocError> {
    match decl {
        Decl::Dvar {
            name,
            at,
            dims,
            range,
            stage,
        } => {
            put_head(out, "dvar ", name, *at, dims.as_slice())?;
            out.push_str(" in ")?;
            put_range(out, range)?;
            put_stage(out, stage)
        }
        Decl::Stoch {
            name,
            at,
            dims,
            dist,
            stage,
        } => {
            put_head(out, "stoch ", name, *at, dims.as_slice())?;
            out.push_str(" in {")?;
            put_outcomes(out, dist.as_slice())?;
            out.push_str(" }")?;
            put_stage(out, stage)
        }
        _ => Ok(()),
    }
}

fn put_head(
    out: &mut String,
    word: &str,
    name: &Name,
    at: usize,
    dims: &[Dim],
) -> Result<(), AllocError> {
    out.push_str(word)?;
    put_name(out, name, at)?;
    put_dims(out, dims)
}

fn put_dims(out: &mut String, dims: &[Dim]) -> Result<(), AllocError> {
    for dim in dims {
        put_dim(out, dim)?;
    }
    Ok(())
}

fn put_dim(out: &mut String, dim: &Dim) -> Result<(), AllocError> {
    out.push('[')?;
    match &dim.binder {
        Some(name) => {
            put_name(out, name, dim.at)?;
            out.push_str(" in ")?;
        }
        None => {
            let at = dim.at;
            write!(out, "@{at} ")?;
        }
    }
    put_range(out, &dim.range)?;
    out.push(']')
}

#[cycle(init)]
fn put_init(out: &mut String, init: &Init) -> Result<(), AllocError> {
    match init {
        Init::One(value) => put_expr(out, value),
        Init::Many { at, parts } => {
            write!(out, "[@{at}")?;
            put_inits(out, parts.as_slice())?;
            out.push(']')
        }
    }
}

#[cycle(init)]
#[tactic(auto, using(sopl_ast::proofs::Lighter::lighter_init))]
fn put_inits(out: &mut String, parts: &[Init]) -> Result<(), AllocError> {
    'parts: for part in parts {
        out.push(' ')?;
        put_init(out, part)?;
    }
    Ok(())
}

fn put_outcomes(out: &mut String, outcomes: &[(Expr, Expr)]) -> Result<(), AllocError> {
    for outcome in outcomes {
        put_part(out, &outcome.0)?;
        out.push(':')?;
        put_expr(out, &outcome.1)?;
    }
    Ok(())
}

fn put_stage(out: &mut String, stage: &Option<Expr>) -> Result<(), AllocError> {
    if let Some(stage) = stage {
        out.push_str(" stage")?;
        put_part(out, stage)?;
    }
    Ok(())
}

fn put_goal(out: &mut String, goal: &Goal) -> Result<(), AllocError> {
    out.push_str(match goal.direction {
        Direction::Minimize => "minimize ",
        Direction::Maximize => "maximize ",
        Direction::Nothing => "nothing ",
    })?;
    out.push_str(if goal.worst { "worst" } else { "expected" })?;
    put_part(out, &goal.expr)?;
    out.push_str("; ")
}

fn put_body(out: &mut String, body: &[Cons]) -> Result<(), AllocError> {
    out.push('{')?;
    put_conses(out, body)?;
    out.push_str(" }")
}

#[cycle(cons)]
#[tactic(auto, using(sopl_ast::proofs::Lighter::lighter_constraints))]
fn put_conses(out: &mut String, conses: &[Cons]) -> Result<(), AllocError> {
    'conses: for cons in conses {
        out.push(' ')?;
        put_cons(out, cons)?;
    }
    Ok(())
}

#[cycle(cons)]
#[tactic(auto, using(sopl_ast::proofs::Lighter::lighter_constraints))]
fn put_cons(out: &mut String, cons: &Cons) -> Result<(), AllocError> {
    match cons {
        Cons::Forall(over, inner) => {
            out.push_str("forall")?;
            put_binders(out, over.as_slice())?;
            out.push(' ')?;
            put_cons(out, inner)
        }
        Cons::Block(parts) => {
            out.push('{')?;
            put_conses(out, parts.as_slice())?;
            out.push_str(" }")
        }
        Cons::Hard(cond) => {
            put_expr(out, cond)?;
            out.push(';')
        }
        Cons::Chance { cond, p, q } => put_chance(out, cond, p, q),
    }
}

fn put_chance(out: &mut String, cond: &Expr, p: &Expr, q: &Expr) -> Result<(), AllocError> {
    out.push_str("prob")?;
    put_part(out, cond)?;
    out.push_str(" >=")?;
    put_part(out, p)?;
    out.push('/')?;
    put_expr(out, q)?;
    out.push(';')
}

fn put_name(out: &mut String, name: &Name, at: usize) -> Result<(), AllocError> {
    match str::from_utf8(name.as_slice()) {
        Ok(text) => out.push_str(text)?,
        Err(_) => out.push('?')?,
    }
    write!(out, "@{at}")
}

fn sign(op: CmpOp) -> &'static str {
    match op {
        CmpOp::Eq => "==",
        CmpOp::Ne => "!=",
        CmpOp::Lt => "<",
        CmpOp::Le => "<=",
        CmpOp::Gt => ">",
        CmpOp::Ge => ">=",
    }
}

fn word(kind: &Kind) -> &'static str {
    match kind {
        Kind::Lit(_) | Kind::Name(_) | Kind::Index(..) => "",
        Kind::Call(Function::Negative, _) => "neg",
        Kind::Call(Function::Size, _) => "abs",
        Kind::Add(_) => "add",
        Kind::Mul(_) => "mul",
        Kind::Cmp(op, ..) => sign(*op),
        Kind::Not(_) => "not",
        Kind::And(_) => "and",
        Kind::Or(_) => "or",
        Kind::Implies(..) => "=>",
        Kind::Sum(..) => "sum",
        Kind::Selected(Extreme::Least, _) => "min",
        Kind::Selected(Extreme::Greatest, _) => "max",
        Kind::AllDifferent(..) => "allDifferent",
        Kind::Cumulative(..) => "cumulative",
    }
}

#[cycle(expr)]
#[tactic(auto, using(sopl_ast::proofs::Lighter::lighter))]
fn put_expr(out: &mut String, e: &Expr) -> Result<(), AllocError> {
    let at = e.at;
    match &e.kind {
        Kind::Lit(value) => write!(out, "{value}@{at}"),
        Kind::Name(name) => put_name(out, name, at),
        Kind::Index(name, indices) => {
            put_name(out, name, at)?;
            put_indices(out, indices.as_slice())
        }
        kind => {
            let word = word(kind);
            write!(out, "({word}@{at}")?;
            put_parts(out, e)?;
            out.push(')')
        }
    }
}

#[cycle(expr)]
#[tactic(auto, using(sopl_ast::proofs::Lighter::lighter))]
fn put_part(out: &mut String, e: &Expr) -> Result<(), AllocError> {
    out.push(' ')?;
    put_expr(out, e)
}

#[cycle(expr)]
#[tactic(auto, using(sopl_ast::proofs::Lighter::lighter))]
fn put_parts(out: &mut String, e: &Expr) -> Result<(), AllocError> {
    match &e.kind {
        Kind::Lit(_) | Kind::Name(_) | Kind::Index(..) => Ok(()),
        Kind::Call(_, a) | Kind::Not(a) => put_part(out, a),
        Kind::Add(parts) => put_terms(out, parts.as_slice()),
        Kind::Mul(parts) => {
            put_part(out, parts.first())?;
            put_factors(out, parts.as_slice())
        }
        Kind::Cmp(_, a, b) | Kind::Implies(a, b) => {
            put_part(out, a)?;
            put_part(out, b)
        }
        Kind::And(parts) | Kind::Or(parts) | Kind::Selected(_, parts) => {
            put_list(out, parts.as_slice())
        }
        Kind::Sum(over, a) | Kind::AllDifferent(over, a) => {
            put_binders(out, over.as_slice())?;
            put_part(out, a)
        }
        Kind::Cumulative(over, a, b, c, d) => {
            put_binders(out, over.as_slice())?;
            put_part(out, a)?;
            put_part(out, b)?;
            put_part(out, c)?;
            put_part(out, d)
        }
    }
}

#[cycle(expr)]
#[tactic(auto, using(sopl_ast::proofs::Lighter::lighter))]
fn put_indices(out: &mut String, indices: &[Expr]) -> Result<(), AllocError> {
    'indices: for index in indices {
        out.push('[')?;
        put_expr(out, index)?;
        out.push(']')?;
    }
    Ok(())
}

#[cycle(expr)]
#[tactic(auto, using(sopl_ast::proofs::Lighter::lighter))]
fn put_list(out: &mut String, parts: &[Expr]) -> Result<(), AllocError> {
    'parts: for part in parts {
        put_part(out, part)?;
    }
    Ok(())
}

#[cycle(expr)]
#[tactic(auto, using(sopl_ast::proofs::Lighter::lighter))]
fn put_terms(out: &mut String, parts: &[(bool, Expr)]) -> Result<(), AllocError> {
    'parts: for part in parts {
        out.push_str(if part.0 { " -" } else { " +" })?;
        put_expr(out, &part.1)?;
    }
    Ok(())
}

#[cycle(expr)]
#[tactic(auto, using(sopl_ast::proofs::Lighter::lighter))]
fn put_factors(out: &mut String, parts: &[(MulOp, Expr)]) -> Result<(), AllocError> {
    'parts: for part in parts {
        out.push_str(match part.0 {
            MulOp::Times => " *",
            MulOp::Div => " div ",
            MulOp::Mod => " mod ",
        })?;
        put_expr(out, &part.1)?;
    }
    Ok(())
}

#[cycle(expr)]
#[tactic(auto, using(sopl_ast::proofs::Lighter::lighter))]
fn put_binders(out: &mut String, over: &[Binder]) -> Result<(), AllocError> {
    out.push(' ')?;
    'over: for binder in over {
        put_binder(out, binder)?;
    }
    Ok(())
}

#[cycle(expr)]
#[tactic(auto, using(sopl_ast::proofs::Lighter::lighter))]
fn put_binder(out: &mut String, binder: &Binder) -> Result<(), AllocError> {
    out.push('[')?;
    put_name(out, &binder.name, binder.at)?;
    out.push_str(" in ")?;
    put_range(out, &binder.range)?;
    out.push(']')
}

#[cycle(expr)]
#[tactic(auto, using(sopl_ast::proofs::Lighter::lighter))]
fn put_range(out: &mut String, range: &RangeText) -> Result<(), AllocError> {
    match range {
        RangeText::Named { name, at } => put_name(out, name, *at),
        RangeText::Ends { lo, hi } => put_ends(out, lo, hi),
    }
}

#[cycle(expr)]
#[tactic(auto, using(sopl_ast::proofs::Lighter::lighter))]
fn put_ends(out: &mut String, lo: &Expr, hi: &Expr) -> Result<(), AllocError> {
    put_expr(out, lo)?;
    out.push_str("..")?;
    put_expr(out, hi)
}
