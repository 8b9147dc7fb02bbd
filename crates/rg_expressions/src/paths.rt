//! Walks of paths: from a variable through fields (docs/language.md, "Judgements").

ghost use Rattle.std.specs.Prelude.{◌≡◌, ◌<◌, ◌==◌, ◌++◌, ◌∷◌, [], if◌then◌else◌, List, All};
ghost use Rattle.std.specs.Prelude.{length, map, IfOk, IfSome};
ghost use Rattle.rg_tree.specs.Rows.Tables.{name_at};
ghost use Rattle.rg_tree.specs.Tree.{Class};
ghost use Rattle.rg_tree.specs.Rows.RowTrees.{path_of, program_of, variable_of};
ghost use Rattle.rg_tree.specs.Rows.RowsExist.{IsNameIn, IsPathIn};
ghost use Rattle.rg_rules.specs.Capabilities as tables;
ghost use Rattle.rg_rules.specs.Paths as rules;
ghost use Rattle.rg_rules.specs.Statements as statements;
ghost use Rattle.rg_names.specs.TreeAnswers.{IsKnown};
ghost use Rattle.rg_flow.specs.Scope.{env_of};
ghost use Rattle.rg_flow.specs.States.{IsReadable};
ghost use Rattle.rg_expressions.specs.Walks.{followed_of, looked_of};

use rg_base::{Cap, Code, Ty};
use rg_flow::{Env, Found};
use rg_names::Book;
use rg_rules::adapt;
use rg_tree::Path;

/// A reference: what it permits, and the class that it leads to.
#[derive(Clone, Copy)]
pub struct Followed {
    pub cap: Cap,
    pub class: u32,
}

/// A field or the elements of an array: what the reference in front permits, and the declared type.
#[derive(Clone, Copy)]
pub struct Looked {
    pub receiver: Cap,
    pub ty: Ty,
}

/// The type behind a path.
pub fn walk(env: &Env, book: &Book, path: Path) -> Result<Ty, Code>
    requires path { IsPathIn book.now.program path }
    requires scope { IsReadable book.now.program env.now }
    ensures judged { let t = book.now.program in let p = path_of t path in
        result ≡ rules.walk (program_of t).classes (env_of t env.now) p.base p.fields }
    ensures known { IfOk result (IsKnown (program_of book.now.program).classes) }
{
    let found = env.find(path.base)?;
    let ty = seen(env, &found);
    walk_fields(book, ty, book.order(path.fields))
}

/// The array at the end of a path: what its reference permits, and the declared type of its
/// elements.
pub fn walk_array(env: &Env, book: &Book, path: Path) -> Result<Looked, Code>
    requires path { IsPathIn book.now.program path }
    requires scope { IsReadable book.now.program env.now }
    ensures judged { let t = book.now.program in let p = path_of t path in
        looked_of result ≡ rules.walk_array (program_of t).classes (env_of t env.now)
        p.base p.fields }
    ensures known { IfOk result (λ l. IsKnown (program_of book.now.program).classes l.ty) }
{
    let ty = walk(env, book, path)?;
    let followed = follow(ty)?;
    match book.element(followed.class) {
        Some(ty) => Ok(Looked {
            receiver: followed.cap,
            ty,
        }),
        None => Err(Code::Mismatch),
    }
}

/// The type of the field at the end of a path, which may be written.
pub fn target(env: &Env, book: &Book, path: Path) -> Result<Ty, Code>
    requires path { IsPathIn book.now.program path }
    requires scope { IsReadable book.now.program env.now }
    ensures judged { let t = book.now.program in let p = path_of t path in
        result ≡ statements.swapped_field (program_of t).classes (env_of t env.now)
        p.base p.fields }
    ensures known { IfOk result (IsKnown (program_of book.now.program).classes) }
{
    let Some((last, front)) = book.order(path.fields).split_last() else {
        return Err(Code::Mismatch);
    };
    writable(env, book, path.base, front, *last)
}

// The type of a field at the end of a path, of which the fields in front of the last are given.
fn writable(env: &Env, book: &Book, base: Option<u32>, front: &[u32], last: u32) -> Result<Ty, Code>
    requires base { IfSome base (IsNameIn book.now.program) }
    requires fields { All (IsNameIn book.now.program) front.now × IsNameIn book.now.program last }
    requires scope { IsReadable book.now.program env.now }
    ensures judged { let t = book.now.program in
        result ≡ statements.swapped_field (program_of t).classes (env_of t env.now)
        (variable_of t base)
        (map (name_at t) front.now ++ name_at t last ∷ []) }
    ensures known { IfOk result (IsKnown (program_of book.now.program).classes) }
{
    let found = env.find(base)?;
    let ty = walk_fields(book, seen(env, &found), front)?;
    let field = look_up(book, ty, last)?;
    if !may_write(field.receiver) {
        return Err(Code::Capability);
    }
    Ok(field.ty)
}

/// The type as which a variable is seen.
pub fn seen(env: &Env, found: &Found) -> Ty
    ensures seen { result ≡
        (if found.now.depth == env.now.depth then found.now.ty else tables.pause found.now.ty) }
    ensures known { (classes : List Class) → IsKnown classes found.now.ty → IsKnown classes result }
{
    env.seen(found)
}

// The type behind fields in order.
fn walk_fields(book: &Book, ty: Ty, fields: &[u32]) -> Result<Ty, Code>
    requires known { IsKnown (program_of book.now.program).classes ty }
    requires fields { All (IsNameIn book.now.program) fields.now }
    ensures judged { let t = book.now.program in
        result ≡ rules.walk_fields (program_of t).classes ty (map (name_at t) fields.now) }
    ensures known { IfOk result (IsKnown (program_of book.now.program).classes) }
{
    let mut ty = ty;
    for field in fields {
        ty = walk_field(book, ty, *field)?;
    }
    Ok(ty)
}

// The type behind one more field.
fn walk_field(book: &Book, ty: Ty, field: u32) -> Result<Ty, Code>
    requires known { IsKnown (program_of book.now.program).classes ty }
    requires field { IsNameIn book.now.program field }
    ensures judged { let t = book.now.program in
        result ≡ rules.walk_field (program_of t).classes ty (name_at t field) }
    ensures known { IfOk result (IsKnown (program_of book.now.program).classes) }
{
    let field = look_up(book, ty, field)?;
    read_through(field.receiver, field.ty)
}

// The field of a name behind a type that can be followed.
fn look_up(book: &Book, ty: Ty, field: u32) -> Result<Looked, Code>
    requires known { IsKnown (program_of book.now.program).classes ty }
    requires field { IsNameIn book.now.program field }
    ensures judged { let t = book.now.program in
        looked_of result ≡ rules.look_up (program_of t).classes ty (name_at t field) }
    ensures known { IfOk result (λ l. IsKnown (program_of book.now.program).classes l.ty) }
{
    let followed = follow(ty)?;
    match book.field(followed.class, field) {
        Some(found) => Ok(Looked {
            receiver: followed.cap,
            ty: found.ty,
        }),
        None => Err(Code::Unknown),
    }
}

/// What is followed is a reference, and not an `iso` one.
pub fn follow(ty: Ty) -> Result<Followed, Code>
    ensures judged { followed_of result ≡ rules.follow ty }
    ensures known { (classes : List Class) → IsKnown classes ty
        → IfOk result (λ f. f.class < length classes) }
{
    match ty {
        Ty::Int | Ty::Bool => Err(Code::Mismatch),
        Ty::Ref { cap, class } => match cap {
            Cap::Mut | Cap::Tmp | Cap::Paused | Cap::Imm => Ok(Followed { cap, class }),
            Cap::Iso => Err(Code::Capability),
        },
    }
}

/// The type as which a field or an element is read through its receiver.
pub fn read_through(receiver: Cap, ty: Ty) -> Result<Ty, Code>
    ensures judged { result ≡ rules.read_through receiver ty }
    ensures known { (classes : List Class) → IsKnown classes ty → IfOk result (IsKnown classes) }
{
    match ty {
        Ty::Int | Ty::Bool => Ok(ty),
        Ty::Ref { cap, class } => match adapt(receiver, cap) {
            Some(cap) => Ok(Ty::Ref { cap, class }),
            None => Err(Code::Capability),
        },
    }
}

/// Whether fields and elements may be written through a capability.
pub fn may_write(cap: Cap) -> bool
    ensures { result ≡ tables.may_write cap }
{
    match cap {
        Cap::Mut | Cap::Tmp => true,
        Cap::Paused | Cap::Imm | Cap::Iso => false,
    }
}
