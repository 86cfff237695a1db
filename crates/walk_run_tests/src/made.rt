//! A small program with a pointer, a call, a copy and a constant, in its checked form.
ghost use Rattle.std.specs.Prelude.{◌≡◌, [], ◌∷◌, IfOk, Some};
ghost use Rattle.task_ast.specs.declared.core_form.CoreExpr.TheVariants as expr_is;
ghost use Rattle.walk_run_tests.specs.Sample.{sample, sample_task, array, body};

use ease_base::{Boxed, List, NoMemory, Peripheral, Text};
use std::alloc::Global;
use task_ast::{
    Ann, Array, Core, CoreEnd, CoreExit, CoreExpr, CoreStmt, CoreTarget, CoreTask, Kind, Op2, Site,
};

fn list_of_one<T: Drop>(alloc: Global, item: T) -> Result<List<T>, NoMemory>
    ensures { IfOk result (λ l. l ≡ item ∷ []) }
{
    let mut list = List::new(alloc);
    list.push(item)?;
    Ok(list)
}

fn array(alloc: Global, kind: Kind, name: &[u8], first: &[u32]) -> Result<Array, NoMemory>
    ensures { IfOk result (λ a. a ≡ array kind name.now first.now) }
{
    Ok(Array {
        name: Text::from_slice(alloc, name)?,
        kind,
        first: List::from_slice(alloc, first)?,
    })
}

// The scalar of this number.
fn read(alloc: Global, number: u32) -> Result<CoreExpr, NoMemory>
    ensures { IfOk result (λ e. e ≡ expr_is.Cell number (expr_is.Number 0)) }
{
    Ok(CoreExpr::Cell(number, Boxed::new(alloc, CoreExpr::Number(0))?))
}

// p[1] + k
fn sum(alloc: Global) -> Result<CoreExpr, NoMemory>
    ensures { IfOk result (λ e. e ≡ expr_is.Two Op2.Add (expr_is.Through 0 (expr_is.Number 1)) (expr_is.Cell 1 (expr_is.Number 0))) }
{
    let through = CoreExpr::Through(0, Boxed::new(alloc, CoreExpr::Number(1))?);
    let left = Boxed::new(alloc, through)?;
    let right = Boxed::new(alloc, read(alloc, 1)?)?;
    Ok(CoreExpr::Two(Op2::Add, left, right))
}

fn body(alloc: Global) -> Result<List<CoreStmt>, NoMemory>
    ensures { IfOk result (λ b. b ≡ body) }
{
    let mut list = List::new(alloc);
    list.push(CoreStmt::Point(0, 0, CoreExpr::Number(1)))?;
    list.push(CoreStmt::Assign(CoreTarget::Cell(2, CoreExpr::Number(0)), sum(alloc)?))?;
    let args = list_of_one(alloc, read(alloc, 2)?)?;
    let onto = CoreTarget::Through(0, CoreExpr::Number(0));
    list.push(CoreStmt::Io(1, Some(onto), 0, args))?;
    let to = CoreEnd::Cell(0, CoreExpr::Number(0));
    let from = CoreEnd::Cell(0, CoreExpr::Number(1));
    list.push(CoreStmt::Copy(2, to, from, CoreExpr::Number(2)))?;
    Ok(list)
}

fn task(alloc: Global) -> Result<CoreTask, NoMemory>
    ensures { IfOk result (λ t. t ≡ sample_task) }
{
    let left = Boxed::new(alloc, read(alloc, 2)?)?;
    let right = Boxed::new(alloc, CoreExpr::Number(9))?;
    let first = Boxed::new(alloc, CoreExit::Next(1))?;
    let second = Boxed::new(alloc, CoreExit::Stop)?;
    let mut sites = List::new(alloc);
    sites.push(Site::Io(Ann::Single))?;
    sites.push(Site::Copy(3))?;
    Ok(CoreTask {
        name: Text::from_slice(alloc, b"t")?,
        body: body(alloc)?,
        exit: CoreExit::Choose(CoreExpr::Two(Op2::Lt, left, right), first, second),
        sites,
    })
}

/// The program.
pub fn sample(alloc: Global) -> Result<Core, NoMemory>
    ensures { IfOk result (λ c. c ≡ sample) }
{
    let mut arrays = List::new(alloc);
    arrays.push(array(alloc, Kind::Nv, b"a", &[1, 2, 3])?)?;
    arrays.push(array(alloc, Kind::Const, b"k", &[5])?)?;
    arrays.push(array(alloc, Kind::Nv, b"s", &[0])?)?;
    let radio = Peripheral {
        name: Text::from_slice(alloc, b"r")?,
        number: 0,
    };
    Ok(Core {
        arrays,
        pointers: list_of_one(alloc, Text::from_slice(alloc, b"p")?)?,
        peripherals: list_of_one(alloc, radio)?,
        tasks: list_of_one(alloc, task(alloc)?)?,
    })
}
