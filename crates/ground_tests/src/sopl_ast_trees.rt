//! Trees are built and taken apart as the crates above do it.

ghost use Rattle.std.specs.Prelude.{◌≡◌, pos, true, false, codes, [], ◌∷◌, IfOk};
ghost use Rattle.sopl_ast.specs.Tree.{Node, Lit, Name as NameTree, Add, Mul, Cmp, Named};
ghost use Rattle.sopl_ast.specs.Lists.{terms, factors, binders};
ghost use Rattle.sopl_ast.specs.Whole.{RangeDecl, ForallTree, HardTree};
ghost use Rattle.sopl_ast.specs.Constraints.{cons_trees};
ghost use Rattle.sopl_ast.specs.WholeModel.{whole};

use sopl_ast::{
    Binder, Binders, Cons, ConsList, Decl, Decls, Dim, Dims, Dist, Expr, Exprs, Factors, Goal,
    Init, Inits, Kind, Model, MulOp, Name, RangeText, Terms,
};
use sopl_base::{CmpOp, Direction};
use std::alloc::{AllocError, Global};
use std::test::Fail;

/// The tree of `a*2`.
fn product(alloc: Global) -> Result<Expr, AllocError>
    ensures { IfOk result (λ e. e ≡ Node 0 (Mul (Node 0 (NameTree (codes "a"))) (factors ((MulOp.Times, Node 2 (Lit (pos 2))) ∷ [])))) }
{
    let a = Expr::name(0, Name::from_bytes(alloc, b"a")?);
    let mut product = Factors::new(alloc, a)?;
    product.push((MulOp::Times, Expr::literal(2, 2)))?;
    Ok(Expr::product_of(0, product))
}

/// The tree of `a*2 + 4`.
fn sum(alloc: Global) -> Result<Expr, AllocError>
    ensures { IfOk result (λ e.
        let product = Node 0 (Mul (Node 0 (NameTree (codes "a"))) (factors ((MulOp.Times, Node 2 (Lit (pos 2))) ∷ []))) in
        e ≡ Node 0 (Add (terms ((false, product) ∷ (false, Node 6 (Lit (pos 4))) ∷ [])))) }
{
    let first = product(alloc)?;
    let mut sum = Terms::new(alloc);
    sum.push((false, first))?;
    sum.push((false, Expr::literal(6, 4)))?;
    Ok(Expr::sum_of(0, sum))
}

/// The tree of `a*2 + 4 <= x`.
fn comparison(alloc: Global) -> Result<Expr, AllocError>
    ensures built { IfOk result (λ e.
        let product = Node 0 (Mul (Node 0 (NameTree (codes "a"))) (factors ((MulOp.Times, Node 2 (Lit (pos 2))) ∷ []))) in
        let sum = Node 0 (Add (terms ((false, product) ∷ (false, Node 6 (Lit (pos 4))) ∷ []))) in
        e ≡ Node 0 (Cmp CmpOp.Le sum (Node 11 (NameTree (codes "x"))))) }
{
    let left = sum(alloc)?;
    let x = Expr::name(11, Name::from_bytes(alloc, b"x")?);
    Expr::compare(alloc, CmpOp::Le, left, x)
}

#[test]
fn takes_a_comparison_apart(rt: HostRuntime) -> Result<(), Fail> {
    let e = comparison(rt.alloc())?;
    let Kind::Cmp(op, left, right) = &e.kind else {
        return Err(Fail::from("no comparison"));
    };
    assert_eq!(rt; *op, CmpOp::Le, "the operator");
    assert_eq!(rt; right.at, 11, "the place of the right side");
    let Kind::Add(parts) = &left.kind else {
        return Err(Fail::from("no sum"));
    };
    assert_eq!(rt; parts.as_slice().len(), 2, "the terms of the sum");
    let (minus, first) = &parts.as_slice()[0];
    assert!(rt; !*minus, "the sign of the first term");
    let Kind::Mul(factors) = &first.kind else {
        return Err(Fail::from("no product"));
    };
    assert!(rt;
        matches!(factors.first().kind, Kind::Name(_)),
        "the first factor"
    );
    assert_eq!(rt; factors.as_slice().len(), 1, "the factors behind it");
    for (word, text, stands) in [
        ("a name on the left", b"a", true),
        ("the name on the right", b"x", true),
        ("another name", b"y", false),
    ] {
        let name = Name::from_bytes(rt.alloc(), text)?;
        assert_eq!(rt; e.mentions(&name), stands, "{word}");
    }
    Ok(())
}

/// `range r = 0..3;`.
fn declared(alloc: Global) -> Result<Decls, AllocError>
    ensures { IfOk result (λ decls. decls ≡ RangeDecl (codes "r") 6 (Node 10 (Lit (pos 0))) (Node 13 (Lit (pos 3))) ∷ []) }
{
    let name = Name::from_bytes(alloc, b"r")?;
    let mut decls = Decls::new(alloc);
    decls.push(Decl::Range {
        name,
        at: 6,
        lo: Expr::literal(10, 0),
        hi: Expr::literal(13, 3),
    })?;
    Ok(decls)
}

/// `i in r`.
fn bound(alloc: Global) -> Result<Binders, AllocError>
    ensures { IfOk result (λ over. over ≡ (record { name = codes "i"; at = 35; range = Named (codes "r") 40 }) ∷ []) }
{
    let range = RangeText::Named {
        name: Name::from_bytes(alloc, b"r")?,
        at: 40,
    };
    let name = Name::from_bytes(alloc, b"i")?;
    let mut over = Binders::new(alloc);
    over.push(Binder {
        name,
        at: 35,
        range,
    })?;
    Ok(over)
}

/// `forall(i in r) 4;`.
#[tactic(auto, using(sopl_ast::proofs::ConstraintTrees::constraints))]
fn constrained(alloc: Global) -> Result<ConsList, AllocError>
    ensures { IfOk result (λ body. cons_trees body ≡
        ForallTree (binders ((record { name = codes "i"; at = 35; range = Named (codes "r") 40 }) ∷ [])) (HardTree (Node 43 (Lit (pos 4)))) ∷ []) }
{
    let over = bound(alloc)?;
    let forall = Cons::forall(alloc, over, Cons::hard(Expr::literal(43, 4)))?;
    let mut body = ConsList::new(alloc);
    body.push(forall)?;
    Ok(body)
}

/// `range r = 0..3;`, `minimize 5;` and `forall(i in r) 4;`, as far as trees go.
fn small_model(alloc: Global) -> Result<Model, AllocError>
    ensures decls { IfOk result (λ m. (whole m).decls ≡ RangeDecl (codes "r") 6 (Node 10 (Lit (pos 0))) (Node 13 (Lit (pos 3))) ∷ []) }
    ensures goal { IfOk result (λ m. (whole m).goal ≡ Some (record { direction = Direction.Minimize; worst = false; expr = Node 25 (Lit (pos 5)) })) }
    ensures body { IfOk result (λ m. (whole m).body ≡
        ForallTree (binders ((record { name = codes "i"; at = 35; range = Named (codes "r") 40 }) ∷ [])) (HardTree (Node 43 (Lit (pos 4)))) ∷ []) }
{
    let decls = declared(alloc)?;
    let body = constrained(alloc)?;
    Ok(Model {
        decls,
        goal: Some(Goal {
            direction: Direction::Minimize,
            worst: false,
            expr: Expr::literal(25, 5),
        }),
        body,
    })
}

#[test]
fn takes_a_model_apart(rt: HostRuntime) -> Result<(), Fail> {
    let m = small_model(rt.alloc())?;
    assert_eq!(rt; m.decls.as_slice().len(), 1, "declarations");
    assert!(rt;
        matches!(m.decls.as_slice()[0], Decl::Range { at: 6, .. }),
        "the range"
    );
    assert!(rt; m.goal.is_some(), "the objective");
    assert_eq!(rt; m.body.as_slice().len(), 1, "constraints");
    let Cons::Forall(over, inner) = &m.body.as_slice()[0] else {
        return Err(Fail::from("no forall"));
    };
    assert_eq!(rt; over.as_slice().len(), 1, "binders");
    assert!(rt; matches!(**inner, Cons::Hard(_)), "what is bound");
    Ok(())
}

#[test]
fn fills_dimensions(rt: HostRuntime) -> Result<(), Fail> {
    let mut dims = Dims::new(rt.alloc());
    let range = RangeText::Ends {
        lo: Expr::literal(1, 0),
        hi: Expr::literal(4, 9),
    };
    dims.push(Dim {
        binder: None,
        at: 1,
        range,
    })?;
    assert_eq!(rt; dims.as_slice().len(), 1);
    Ok(())
}

#[test]
fn fills_a_distribution(rt: HostRuntime) -> Result<(), Fail> {
    let mut dist = Dist::new(rt.alloc());
    dist.push((Expr::literal(0, 7), Expr::literal(2, 1)))?;
    assert_eq!(rt; dist.as_slice().len(), 1);
    Ok(())
}

#[test]
fn fills_initial_values(rt: HostRuntime) -> Result<(), Fail> {
    let mut inits = Inits::new(rt.alloc());
    inits.push(Init::One(Expr::literal(0, 1)))?;
    assert_eq!(rt; inits.as_slice().len(), 1);
    Ok(())
}

#[test]
fn joins_conditions(rt: HostRuntime) -> Result<(), Fail> {
    let alloc = rt.alloc();
    let mut parts = Exprs::new(alloc);
    let inner = Expr::negation(alloc, 2, Expr::literal(3, 0))?;
    parts.push(inner.moved(1))?;
    assert_eq!(rt; Expr::all_of(1, parts).at, 1);
    Ok(())
}
