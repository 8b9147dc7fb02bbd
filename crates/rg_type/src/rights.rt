//! Right sides and calls (docs/language.md, "Judgements").

ghost use Rattle.std.specs.Prelude.{◌≡◌, All, map, option_map, IfOk, IfSome, OnOk, Some, length};
ghost use Rattle.rg_tree.specs.Rows.Tables.{name_at};
ghost use Rattle.rg_tree.specs.Rows.RowTrees.{call_of, expr_at, param_at, program_of, right_of};
ghost use Rattle.rg_tree.specs.Rows.RowsExist.{IsCallIn, IsExprNumber, IsNameIn, IsRightIn};
ghost use Rattle.rg_rules.specs.Types.{type_of};
ghost use Rattle.rg_rules.specs.Rights as rules;
ghost use Rattle.rg_names.specs.TreeAnswers.{IsGoodParam, IsKnown};
ghost use Rattle.rg_flow.specs.Scope.{env_of};
ghost use Rattle.rg_flow.specs.States.{IsReadable};
ghost use Rattle.rg_expressions.specs.Judging.{TypedAs};
ghost use Rattle.rg_type.specs.Inner.Changing.{CalledAs, DoneAs};
ghost use Rattle.rg_type.specs.Inner.Calls.{method_behind, param_type, SigAs};

use rg_base::{Cap, Code, Ty};
use rg_expressions::{against, expression, follow, iso_class, walk};
use rg_flow::{Env, State};
use rg_names::{Book, Sig};
use rg_rules::below;
use rg_tree::{CallRow, Right, TypeRow};

/// The type of a right side, of which a type is expected, and the variables afterwards.
pub fn right_side(env: &mut Env, book: &Book, right: Right, wanted: Ty) -> Result<Ty, Code>
    requires right { IsRightIn book.now.program right }
    requires scope { IsReadable book.now.program env.old }
    requires wanted { IsKnown (program_of book.now.program).classes wanted }
    ensures judged { let t = book.now.program in
        TypedAs (rules.judge_right (program_of t).classes (env_of t env.old) wanted
        (right_of t right)) (env_of t env.new) result }
    ensures scope { OnOk result (IsReadable book.now.program env.new) }
    ensures known { IfOk result (IsKnown (program_of book.now.program).classes) }
{
    match right {
        Right::Expr(e) => expression(env, book, e, Some(wanted)),
        Right::New { name, size } => new(env, book, Cap::Mut, name, size, wanted),
        Right::NewTmp { name, size } => new(env, book, Cap::Tmp, name, size, wanted),
        Right::NewIso { name, size, .. } => new(env, book, Cap::Iso, name, size, wanted),
        Right::Freeze(name) => consumed(env, book, Cap::Imm, name, wanted),
        Right::Merge(name) => consumed(env, book, Cap::Mut, name, wanted),
        Right::Read => against(Some(wanted), Ty::Int),
        Right::More => against(Some(wanted), Ty::Bool),
        Right::Call(row) => result_of(env, book, row, wanted),
    }
}

// `new C`, `new tmp C` and `new iso C in M`, and each with a size behind C.
fn new(
    env: &mut Env,
    book: &Book,
    cap: Cap,
    name: u32,
    size: Option<u32>,
    wanted: Ty,
) -> Result<Ty, Code>
    requires name { IsNameIn book.now.program name }
    requires size { IfSome size (IsExprNumber book.now.program) }
    requires scope { IsReadable book.now.program env.old }
    ensures judged { let t = book.now.program in
        TypedAs (rules.judge_new (program_of t).classes (env_of t env.old) wanted cap
        (name_at t name) (option_map (expr_at t) size)) (env_of t env.new) result }
    ensures scope { OnOk result (IsReadable book.now.program env.new) }
    ensures known { IfOk result (IsKnown (program_of book.now.program).classes) }
{
    let ty = book.ty(TypeRow::Ref { cap, name })?;
    sized(env, book, name, size)?;
    against(Some(wanted), ty)
}

// The number of elements, which an array class has and no other class.
fn sized(env: &mut Env, book: &Book, name: u32, size: Option<u32>) -> Result<(), Code>
    requires name { IsNameIn book.now.program name }
    requires size { IfSome size (IsExprNumber book.now.program) }
    requires scope { IsReadable book.now.program env.old }
    ensures judged { let t = book.now.program in
        DoneAs (rules.judge_size (program_of t).classes (env_of t env.old) (name_at t name)
        (option_map (expr_at t) size)) (env_of t env.new) result }
    ensures scope { OnOk result (IsReadable book.now.program env.new) }
{
    match size {
        None => {
            if book.is_array(name) {
                return Err(Code::BadType);
            }
            Ok(())
        },
        Some(e) => {
            if !book.is_array(name) {
                return Err(Code::BadType);
            }
            expression(env, book, e, Some(Ty::Int))?;
            Ok(())
        },
    }
}

// `freeze y` and `merge y`.
fn consumed(env: &mut Env, book: &Book, cap: Cap, name: u32, wanted: Ty) -> Result<Ty, Code>
    requires name { IsNameIn book.now.program name }
    requires scope { IsReadable book.now.program env.old }
    ensures judged { let t = book.now.program in
        TypedAs (rules.judge_consumed (env_of t env.old) wanted cap (name_at t name))
        (env_of t env.new) result }
    ensures scope { OnOk result (IsReadable book.now.program env.new) }
    ensures known { IfOk result (IsKnown (program_of book.now.program).classes) }
{
    let variable = env.find(Some(name))?;
    let Some(class) = iso_class(variable.ty) else {
        return Err(Code::Mismatch);
    };
    if !variable.state.is_ready() {
        return Err(Code::Unavailable);
    }
    env.mark(Some(name), State::Gone);
    against(Some(wanted), Ty::Ref { cap, class })
}

// The result of a call.
fn result_of(env: &mut Env, book: &Book, row: CallRow, wanted: Ty) -> Result<Ty, Code>
    requires row { IsCallIn book.now.program row }
    requires scope { IsReadable book.now.program env.old }
    ensures judged { let t = book.now.program in
        TypedAs (rules.judge_right (program_of t).classes (env_of t env.old) wanted
        (right_of t (Right.Call row))) (env_of t env.new) result }
    ensures scope { OnOk result (IsReadable book.now.program env.new) }
    ensures known { IfOk result (IsKnown (program_of book.now.program).classes) }
{
    let Some(ty) = call(env, book, row)? else {
        return Err(Code::Mismatch);
    };
    against(Some(wanted), ty)
}

/// The result of a call, if its method has one, and the variables afterwards.
pub fn call(env: &mut Env, book: &Book, row: CallRow) -> Result<Option<Ty>, Code>
    requires row { IsCallIn book.now.program row }
    requires scope { IsReadable book.now.program env.old }
    ensures judged { let t = book.now.program in
        CalledAs (rules.judge_call (program_of t).classes (env_of t env.old) (call_of t row))
        (env_of t env.new) result }
    ensures scope { OnOk result (IsReadable book.now.program env.new) }
    ensures known { IfOk result (λ ty. IfSome ty (IsKnown (program_of book.now.program).classes)) }
{
    let receiver = walk(env, book, row.path)?;
    let sig = method(book, receiver, row.method)?;
    let params = book.order(sig.params);
    let args = book.order(row.args);
    if args.len() != params.len() {
        return Err(Code::Arity);
    }
    arguments(env, book, params, args)?;
    Ok(sig.result)
}

// The method of a name behind a receiver, which permits to call it.
fn method(book: &Book, receiver: Ty, name: u32) -> Result<Sig, Code>
    requires name { IsNameIn book.now.program name }
    requires receiver { IsKnown (program_of book.now.program).classes receiver }
    ensures { let t = book.now.program in
        SigAs t (method_behind (program_of t).classes receiver (name_at t name)) result }
{
    let followed = follow(receiver)?;
    let Some(sig) = book.method(followed.class, name) else {
        return Err(Code::Unknown);
    };
    let least = Ty::Ref {
        cap: sig.cap,
        class: followed.class,
    };
    if !below(receiver, least) {
        return Err(Code::Capability);
    }
    Ok(sig)
}

// Arguments in order, each against the type of its parameter; there are as many.
fn arguments(env: &mut Env, book: &Book, params: &[u32], args: &[u32]) -> Result<(), Code>
    requires params { All (IsGoodParam book.now.program) params.now }
    requires args { All (IsExprNumber book.now.program) args.now }
    requires scope { IsReadable book.now.program env.old }
    requires as_many { length args.now ≡ length params.now }
    ensures judged { let t = book.now.program in
        DoneAs (rules.judge_args (program_of t).classes (env_of t env.old)
        (map (λ p. type_of (program_of t).classes p.ty) (map (param_at t) params.now))
        (map (expr_at t) args.now)) (env_of t env.new) result }
    ensures scope { OnOk result (IsReadable book.now.program env.new) }
{
    for (param, arg) in params.iter().zip(args) {
        let ty = type_of_param(book, *param);
        expression(env, book, *arg, Some(ty))?;
    }
    Ok(())
}

// The type of a parameter.
fn type_of_param(book: &Book, param: u32) -> Ty
    requires param { IsGoodParam book.now.program param }
    ensures ty { result ≡ param_type book.now.program param }
    ensures known { IsKnown (program_of book.now.program).classes result }
{
    let row = book.param(param);
    let Ok(ty) = book.ty(row.ty) else {
        unreachable!();
    };
    ty
}
