//! A method: the variables in front of its body, the body, and its end (docs/language.md,
//! "Headers" and "Judgements").

ghost use Rattle.std.specs.Prelude.{◌≡◌, ◌+◌, ◌<◌, ◌≤◌, suc, All, length, map, option_map, IfOk};
ghost use Rattle.std.specs.Prelude.{IfSome};
ghost use Rattle.rg_base.specs.declared.limits.TheConstants.{BODY_NAMES};
ghost use Rattle.rg_base.specs.declared.fault.Code.TheVariants.{Return};
ghost use Rattle.rg_tree.specs.Rows.RowTrees.{classes_of, param_at, type_of, block_of, method_of};
ghost use Rattle.rg_tree.specs.Rows.RowsExist.{IsBlockIn, IsTypeIn, IsMethodIn};
ghost use Rattle.rg_rules.specs.Answers.{at_line, test};
ghost use Rattle.rg_rules.specs.Types as types;
ghost use Rattle.rg_rules.specs.Bodies as rules;
ghost use Rattle.rg_names.specs.TableOf.{IsTableOf};
ghost use Rattle.rg_names.specs.TreeAnswers.{IsKnown};
ghost use Rattle.rg_names.specs.Judged.{JudgedAs};
ghost use Rattle.rg_flow.specs.Scope.{env_of, IsScopeIn};
ghost use Rattle.rg_check.specs.Inner.Methods.{IsGood, MayBeJudged};

use crate::statements::{ends_in_return, judge_block};
use rg_base::{Cap, Code, Fault, Memory, Stop, Ty};
use rg_flow::Env;
use rg_names::Classes;
use rg_tree::{MethodRow, Program, TypeRow};
use std::alloc::Global;

/// A method: its body, and then its end.
pub fn judge_method(
    alloc: Global,
    program: &Program,
    classes: &Classes,
    class: u32,
    method: MethodRow,
) -> Result<(), Stop>
    requires table { IsTableOf program.now classes.now }
    requires class { class < length (classes_of program.now) }
    requires row { IsMethodIn program.now method }
    requires method { MayBeJudged (classes_of program.now) (method_of program.now method) }
    ensures { JudgedAs (rules.judge_method (classes_of program.now) class
        (method_of program.now method)) result }
{
    let Ok(front) = method_env(alloc, program, classes, class, method) else {
        return Err(Stop::Memory);
    };
    let last = result_type(program, classes, method.result);
    judge_block(front, program, classes, last, program.order(method.body))?;
    judge_end(program, method)
}

// The variables in front of a method's body: `self`, which can't be assigned, and the parameters.
fn method_env(
    alloc: Global,
    program: &Program,
    classes: &Classes,
    class: u32,
    method: MethodRow,
) -> Result<Env, Memory>
    requires table { IsTableOf program.now classes.now }
    requires class { class < length (classes_of program.now) }
    requires row { IsMethodIn program.now method }
    requires method { MayBeJudged (classes_of program.now) (method_of program.now method) }
    ensures env { IfOk result (λ env. env_of program.now env
        ≡ rules.method_env (classes_of program.now) class (method_of program.now method)) }
    ensures scope { IfOk result (IsScopeIn program.now) }
    ensures names { IfOk result (λ env.
        length env.slots ≡ suc (length (method_of program.now method).params)) }
{
    let receiver = Ty::Ref {
        cap: method.cap,
        class,
    };
    let env = Env::new(alloc).push(None, receiver, false)?;
    with_params(env, program, classes, program.order(method.params))
}

// The variables with these parameters in order, which may be assigned.
fn with_params(
    mut env: Env,
    program: &Program,
    classes: &Classes,
    these: &[u32],
) -> Result<Env, Memory>
    requires table { IsTableOf program.now classes.now }
    requires these { All (λ k. k < length program.now.params) these.now }
    requires types { All (λ p. IsGood (classes_of program.now) p.ty)
        (map (param_at program.now) these.now) }
    requires scope { IsScopeIn program.now env }
    requires room { length env.slots + length these.now ≤ BODY_NAMES }
    ensures env { IfOk result (λ out. env_of program.now out ≡ rules.with_params
        (classes_of program.now) (map (param_at program.now) these.now) (env_of program.now env)) }
    ensures scope { IfOk result (IsScopeIn program.now) }
    ensures names { IfOk result (λ out. length out.slots ≡ length env.slots + length these.now) }
{
    for k in these {
        let param = program.param(*k);
        let Ok(ty) = classes.ty(param.ty) else {
            unreachable!();
        };
        env = env.push(Some(param.name), ty, true)?;
    }
    Ok(env)
}

// The type of a result, if there is one.
fn result_type(program: &Program, classes: &Classes, row: Option<TypeRow>) -> Option<Ty>
    requires table { IsTableOf program.now classes.now }
    requires row { IfSome row (IsTypeIn program.now) }
    requires good { let t = program.now in
        IfSome (option_map (type_of t) row) (IsGood (classes_of t)) }
    ensures ty { let t = program.now in
        result ≡ option_map (types.type_of (classes_of t)) (option_map (type_of t) row) }
    ensures known { IfSome result (IsKnown (classes_of program.now)) }
{
    match row {
        None => None,
        Some(row) => match classes.ty(row) {
            Ok(ty) => Some(ty),
            Err(_) => unreachable!(),
        },
    }
}

// The end of a method: with a result, its body ends in `return`.
fn judge_end(program: &Program, method: MethodRow) -> Result<(), Stop>
    requires { IsBlockIn program.now method.body }
    ensures { let t = program.now in
        let given = option_map (type_of t) method.result in
        let gives = rules.gives_result given (block_of t method.body) in
        JudgedAs (at_line method.line (test gives Return)) result }
{
    if method.result.is_none() {
        return Ok(());
    }
    if ends_in_return(program, program.order(method.body)) {
        return Ok(());
    }
    Err(Stop::Fault(Fault {
        code: Code::Return,
        line: method.line,
    }))
}
