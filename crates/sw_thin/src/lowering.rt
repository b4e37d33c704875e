//! From trees to typed code.

ghost use Rattle.std.specs.Prelude.{◌≡◌, ◌++◌, ◌∷◌, [], length, IfOk, OnOk};
ghost use Rattle.std.specs.List.{AllByRecursion};
ghost use Rattle.sw_thin.specs.ProgramView.{expr_of, func_of, funcs_of, stmt_of};
ghost use Rattle.sw_thin.specs.Lowering.{declares, depth_of, expr_code, expr_in, expr_shapes, func_code, print_shapes, stmt_code, stmt_shapes, type_of, var_type, vars_after, IsTypedBody};
ghost use Rattle.sw_job.specs.declared.instr.Instr.TheVariants.{Discard, Print, Take};
ghost use Rattle.sw_thin.specs.Carries.{Carries};
ghost use Rattle.sw_thin.specs.Drafts.{is_named_at, scope_of};

use crate::program::{Expr, Func, Program, Stmt};
use std::alloc::Global;
use std::marker::Model;
use sw_base::{Duplicate, Items, NoMemory, Stack, Text};
use sw_job::{Code, FuncCode, Instr, Shape, Ty};

/// The variables in sight with their types, the newest first.
#[derive(Debug, Drop)]
struct Vars {
    declared: Stack<(Text, Ty)>,
}

impl Model for Vars {
    ghost use Rattle.std.specs.Prelude.{List, ℕ};
    ghost use Rattle.sw_job.specs.declared.value.Ty.{Ty};

    ghost Value = { List (List ℕ × Ty) };

    ghost view = { λ v. v.declared };
}

impl Vars {
    fn new(alloc: Global) -> Vars
        ensures { result ≡ [] }
    {
        Vars {
            declared: Stack::new(alloc),
        }
    }

    fn len(&self) -> usize
        ensures { result ≡ length self.now }
    {
        self.declared.len()
    }

    fn declare(&mut self, name: Text, ty: Ty) -> Result<(), NoMemory>
        ensures { OnOk result (self.new ≡ (name, ty) ∷ self.old) }
    {
        self.declared.push((name, ty))
    }

    fn is_named_at(&self, at: usize, name: &Text) -> bool
        ensures { result ≡ is_named_at name.now self.now at }
    {
        match self.declared.get(at) {
            Some(v) => *name == v.0,
            None => false,
        }
    }

    /// How many variables are newer than the newest of a name, or all where it has none.
    fn newer_than(&self, name: &Text) -> usize
        ensures { result ≡ depth_of name.now (scope_of [] self.now) }
    {
        for i in 0..self.len() {
            if self.is_named_at(i, name) {
                return i;
            }
        }
        self.len()
    }

    /// The type of the newest variable of a name.
    fn var_type(&self, name: &Text) -> Option<Ty>
        ensures { result ≡ var_type name.now self.now }
    {
        match self.declared.get(self.newer_than(name)) {
            Some(v) => Some(v.1),
            None => None,
        }
    }

    /// How deep the newest variable of a name is, beneath these parts.
    fn depth_of(&self, name: &Text, parts: &Stack<Ty>) -> Result<usize, NoMemory>
        ensures { IfOk result (λ depth. depth ≡ depth_of name.now (scope_of parts.now self.now)) }
    {
        match parts.len().checked_add(self.newer_than(name)) {
            Some(depth) => Ok(depth),
            None => Err(NoMemory),
        }
    }
}

/// The code of one func so far.
#[derive(Debug, Drop)]
struct Draft {
    variables: Items<Ty>,
    instrs: Items<Instr>,
    shapes: Items<Shape>,
}

impl Draft {
    fn new(alloc: Global) -> Draft
        ensures { result ≡ record { variables = []; instrs = []; shapes = [] } }
    {
        Draft {
            variables: Items::new(alloc),
            instrs: Items::new(alloc),
            shapes: Items::new(alloc),
        }
    }

    fn put(&mut self, vars: &Vars, parts: Stack<Ty>, instr: Instr) -> Result<(), NoMemory>
        ensures variables { OnOk result (self.new.variables ≡ self.old.variables) }
        ensures instrs { OnOk result (self.new.instrs ≡ self.old.instrs ++ instr ∷ []) }
        ensures shapes { OnOk result (self.new.shapes ≡ self.old.shapes ++ record { variables = length vars.now; parts = parts } ∷ []) }
    {
        self.instrs.push(instr)?;
        self.shapes.push(Shape {
            variables: vars.len(),
            parts,
        })
    }
}

fn one_part(alloc: Global, ty: Ty) -> Result<Stack<Ty>, NoMemory>
    ensures { IfOk result (λ parts. parts ≡ ty ∷ []) }
{
    let mut parts = Stack::new(alloc);
    parts.push(ty)?;
    Ok(parts)
}

/// The type of an expression, where these variables are in sight.
fn type_of(vars: &Vars, expr: &Expr) -> Ty
    ensures { result ≡ type_of vars.now (expr_of expr.now) }
{
    match expr {
        Expr::Int(_) | Expr::Add(_, _) => Ty::Int,
        Expr::Str(_) => Ty::Str,
        Expr::Var(name) => vars.var_type(name).unwrap_or(Ty::Void),
    }
}

fn put_expr(
    draft: &mut Draft,
    vars: &Vars,
    parts: &mut Stack<Ty>,
    expr: &Expr,
) -> Result<(), NoMemory>
    ensures variables { OnOk result (draft.new.variables ≡ draft.old.variables) }
    ensures instrs { OnOk result (draft.new.instrs ≡ draft.old.instrs ++ expr_code (scope_of parts.old vars.now) (expr_of expr.now)) }
    ensures shapes { OnOk result (draft.new.shapes ≡ draft.old.shapes ++ expr_shapes (length vars.now) parts.old (expr_of expr.now)) }
    ensures parts { OnOk result (parts.new ≡ parts.old) }
{
    match expr {
        Expr::Int(n) => draft.put(vars, parts.copy()?, Instr::PushInt(*n)),
        Expr::Str(text) => draft.put(vars, parts.copy()?, Instr::PushStr(text.copy()?)),
        Expr::Var(name) => {
            let depth = vars.depth_of(name, parts)?;
            draft.put(vars, parts.copy()?, Instr::Load(depth))
        }
        Expr::Add(left, right) => {
            put_expr(draft, vars, parts, left.get())?;
            parts.push(Ty::Int)?;
            put_expr(draft, vars, parts, right.get())?;
            parts.push(Ty::Int)?;
            draft.put(vars, parts.copy()?, Instr::Add)?;
            parts.discard(2);
            Ok(())
        }
    }
}

fn put_stmt(alloc: Global, draft: &mut Draft, vars: &mut Vars, stmt: &Stmt) -> Result<(), NoMemory>
    ensures variables { OnOk result (draft.new.variables ≡ draft.old.variables ++ declares vars.old (stmt_of stmt.now)) }
    ensures instrs { OnOk result (draft.new.instrs ≡ draft.old.instrs ++ stmt_code (scope_of [] vars.old) (stmt_of stmt.now)) }
    ensures shapes { OnOk result (draft.new.shapes ≡ draft.old.shapes ++ stmt_shapes (length vars.old) (type_of vars.old (expr_in (stmt_of stmt.now))) (stmt_of stmt.now)) }
    ensures vars { OnOk result (vars.new ≡ vars_after vars.old (stmt_of stmt.now)) }
{
    draft.put(vars, Stack::new(alloc), Instr::BeginStmt)?;
    match stmt {
        Stmt::Let(name, expr) => put_let(alloc, draft, vars, name, expr),
        Stmt::Print(expr) => put_print(alloc, draft, vars, expr),
    }
}

// What follows `BeginStmt` in a `let`: the value stays where it was evaluated.
fn put_let(
    alloc: Global,
    draft: &mut Draft,
    vars: &mut Vars,
    name: &Text,
    expr: &Expr,
) -> Result<(), NoMemory>
    ensures variables { OnOk result (draft.new.variables ≡ draft.old.variables ++ type_of vars.old (expr_of expr.now) ∷ []) }
    ensures instrs { OnOk result (draft.new.instrs ≡ draft.old.instrs ++ expr_code (scope_of [] vars.old) (expr_of expr.now)) }
    ensures shapes { OnOk result (draft.new.shapes ≡ draft.old.shapes ++ expr_shapes (length vars.old) [] (expr_of expr.now)) }
    ensures vars { OnOk result (vars.new ≡ (name.now, type_of vars.old (expr_of expr.now)) ∷ vars.old) }
{
    put_expr(draft, vars, &mut Stack::new(alloc), expr)?;
    let ty = type_of(vars, expr);
    draft.variables.push(ty)?;
    vars.declare(name.copy()?, ty)
}

// What follows `BeginStmt` in a `print`.
fn put_print(alloc: Global, draft: &mut Draft, vars: &Vars, expr: &Expr) -> Result<(), NoMemory>
    ensures variables { OnOk result (draft.new.variables ≡ draft.old.variables) }
    ensures instrs { OnOk result (draft.new.instrs ≡ draft.old.instrs ++ (expr_code (scope_of [] vars.now) (expr_of expr.now) ++ Print ∷ Take ∷ Discard 1 ∷ [])) }
    ensures shapes { OnOk result (draft.new.shapes ≡ draft.old.shapes ++ print_shapes (length vars.now) (type_of vars.now (expr_of expr.now)) (expr_of expr.now)) }
{
    put_expr(draft, vars, &mut Stack::new(alloc), expr)?;
    let printed = one_part(alloc, type_of(vars, expr))?;
    draft.put(vars, printed, Instr::Print)?;
    draft.put(vars, Stack::new(alloc), Instr::Take)?;
    draft.put(vars, one_part(alloc, Ty::Void)?, Instr::Discard(1))
}

fn lower_func(alloc: Global, func: &Func) -> Result<FuncCode, NoMemory>
    ensures { IfOk result (λ code. code ≡ func_code (func_of func.now)) }
{
    let mut draft = Draft::new(alloc);
    let mut vars = Vars::new(alloc);
    let body = func.body.as_slice();
    for stmt in body {
        put_stmt(alloc, &mut draft, &mut vars, stmt)?;
    }
    draft.put(&vars, Stack::new(alloc), Instr::ReturnVoid)?;
    let Draft {
        variables,
        instrs,
        shapes,
    } = draft;
    Ok(FuncCode {
        result: Ty::Void,
        variables,
        instrs,
        shapes,
    })
}

/// The code of a program, whose bodies are typed.
pub fn lower(alloc: Global, program: &Program) -> Result<Code, NoMemory>
    requires { AllByRecursion (λ f. IsTypedBody [] f.body) (funcs_of program.now) }
    ensures { IfOk result (λ code. Carries (funcs_of program.now) code) }
{
    let mut funcs = Items::new(alloc);
    let from = program.funcs.as_slice();
    for func in from {
        funcs.push(lower_func(alloc, func)?)?;
    }
    let code = Code::new(funcs);
    // For its clause `never_stuck`: only then does the code carry the program.
    let _ = code.funcs();
    Ok(code)
}
