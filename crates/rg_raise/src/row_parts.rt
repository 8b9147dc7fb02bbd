//! Parts of statements, as rows (docs/architecture.md, "Modules").

ghost use Rattle.std.specs.Prelude.{◌≡◌, ℕ, List, [], ◌∷◌, ◌++◌, map, IfOk};
ghost use Rattle.rg_tree.specs.Rows.Tables.{numbers_in};
ghost use Rattle.rg_tree.specs.Rows.RowTrees.{type_of, path_of, right_of, call_of};
ghost use Rattle.rg_tree.specs.Rows.RowsExist.{IsWithin, IsTypeIn, IsPathIn, IsRightIn, IsCallIn};
ghost use Rattle.rg_tree.specs.Adds.{Extends, Adds};
ghost use Rattle.rg_verify_expressions.specs.Naming.{written};
ghost use Rattle.rg_verify_expressions.specs.Raised.{named, path_named};
ghost use Rattle.rg_verify_expressions.specs.Statements as statements;
ghost use Rattle.rg_verify_expressions.specs.Found.{right_named, call_named};
ghost use Rattle.rg_verify_expressions.specs.Blocks as blocks;
ghost use Rattle.rg_raise.specs.Fronts.{AreTrees};
ghost use Rattle.rg_raise.specs.Telling.{IsPathTo};

use rg_base::{Memory, Ty};
use rg_tree::{CallRow, Path, Program, Right, TypeRow};
use rg_verify_expressions::{Body, Making, add_name};

/// Adds what a type needs.
pub(crate) fn type_row(body: Body, program: &mut Program, ty: Ty) -> Result<TypeRow, Memory>
    ensures adds { IfOk result (λ r. Adds type_of IsTypeIn program.old program.new r (written ty)) }
    ensures grows { Extends program.old program.new }
{
    match ty {
        Ty::Int => Ok(TypeRow::Int),
        Ty::Bool => Ok(TypeRow::Bool),
        Ty::Ref { cap, class } => {
            let name = add_name(body.alloc, program, b'c', class)?;
            Ok(TypeRow::Ref { cap, name })
        }
    }
}

/// Adds what a right side of one instruction needs.
pub(crate) fn making_row(body: Body, program: &mut Program, making: Making) -> Result<Right, Memory>
    ensures adds { IfOk result (λ r. Adds right_of IsRightIn program.old program.new r
        (right_named body.in_method (blocks.right_of making))) }
    ensures grows { Extends program.old program.new }
{
    match making {
        Making::New { class } => {
            let name = add_name(body.alloc, program, b'c', class)?;
            Ok(Right::New { name, size: None })
        }
        Making::NewTmp { class } => {
            let name = add_name(body.alloc, program, b'c', class)?;
            Ok(Right::NewTmp { name, size: None })
        }
        Making::NewIso { class, manager } => {
            let name = add_name(body.alloc, program, b'c', class)?;
            Ok(Right::NewIso {
                name,
                size: None,
                manager,
            })
        }
        Making::Freeze { slot } => {
            let name = add_name(body.alloc, program, b'v', slot)?;
            Ok(Right::Freeze(name))
        }
        Making::Merge { slot } => {
            let name = add_name(body.alloc, program, b'v', slot)?;
            Ok(Right::Merge(name))
        }
        Making::Read => Ok(Right::Read),
        Making::More => Ok(Right::More),
    }
}

// The names of the fields of a path, and one more.
fn longer(body: Body, program: &Program, path: Path, name: u32) -> Result<Vec<u32>, Memory>
    requires { IsWithin program.now path.fields }
    ensures { IfOk result (λ ns. ns.items ≡ numbers_in program.now path.fields ++ name ∷ []) }
{
    let mut names = Vec::new(body.alloc);
    let Ok(()) = names.extend_from_slice(program.order(path.fields)) else {
        return Err(Memory);
    };
    let Ok(()) = names.push(name) else {
        return Err(Memory);
    };
    Ok(names)
}

/// Adds what a path needs that goes on by a field.
pub fn longer_path(
    body: Body,
    program: &mut Program,
    path: Path,
    index: u32,
) -> Result<Path, Memory>
    requires { (s : ℕ) × (ks : List ℕ) × IsPathTo program.old body.in_method path s ks }
    ensures adds { (s : ℕ) (ks : List ℕ) → IsPathTo program.old body.in_method path s ks →
        IfOk result (λ p. Adds path_of IsPathIn program.old program.new p
        (path_named body.in_method s (ks ++ index ∷ []))) }
    ensures grows { Extends program.old program.new }
{
    let name = add_name(body.alloc, program, b'f', index)?;
    let names = longer(body, program, path, name)?;
    let fields = program.add_order(names.as_slice())?;
    Ok(Path {
        base: path.base,
        fields,
    })
}

/// Adds what a call needs, whose path and arguments are there.
pub(crate) fn call_row(
    body: Body,
    program: &mut Program,
    path: Path,
    place: u32,
    args: &[u32],
) -> Result<CallRow, Memory>
    ensures adds { (c : statements.Call) → c.callee.place ≡ place →
        IsPathTo program.old body.in_method path c.slot c.fields →
        AreTrees program.old args.now (map (named body.in_method) c.args) →
        IfOk result (λ r. Adds call_of IsCallIn program.old program.new r
        (call_named body.in_method c)) }
    ensures grows { Extends program.old program.new }
{
    let method = add_name(body.alloc, program, b'm', place)?;
    let args = program.add_order(args)?;
    Ok(CallRow { path, method, args })
}
