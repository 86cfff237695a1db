//! One program with each free name of it wrong in turn, and the checked form of the accepted one.
ghost use Rattle.std.specs.Prelude.{◌≡◌, IfOk};
ghost use Rattle.task_ast.specs.Readable.{IsReadable};

use ease_base::{List, NoMemory, Pos, Words};
use std::alloc::Global;
use task_ast::{
    CoreExit, CoreExpr, CoreStmt, CoreTarget, Decl, Exit, Expr, Kind, Name, Program, Stmt, Target,
    Task,
};
use task_check::{CheckError, check};

fn at(column: u32) -> Pos {
    Pos { line: 1, column }
}

fn name(alloc: Global, text: &str, column: u32) -> Result<Name, NoMemory>
    ensures { IfOk result (λ x. x.text ≡ text.now) }
{
    Ok(Name {
        text: List::from_slice(alloc, text.as_bytes())?,
        at: at(column),
    })
}

/// `nv word x; task t { X = Y; NEXT(U); }` with the names at the columns 1 to 5.
fn program(alloc: Global, names: [&str; 3]) -> Result<Program, NoMemory>
    ensures { IfOk result IsReadable }
{
    let [target, read, next] = names;
    let mut decls = List::new(alloc);
    let values: Words = List::new(alloc);
    decls.push(Decl::Words(Kind::Nv, name(alloc, "x", 1)?, None, values))?;
    let mut body = List::new(alloc);
    let target = Target::Scalar(name(alloc, target, 3)?);
    body.push(Stmt::Assign(target, Expr::Read(name(alloc, read, 4)?)))?;
    let task = Task {
        name: name(alloc, "t", 2)?,
        body,
        exit: Exit::Next(name(alloc, next, 5)?),
        close: at(6),
    };
    let mut tasks = List::new(alloc);
    tasks.push(task)?;
    Ok(Program { decls, tasks })
}

#[test]
fn each_wrong_name_is_refused_at_its_place(rt: HostRuntime) {
    let alloc = rt.alloc();
    for (names, want) in [
        (["y", "x", "t"], CheckError::UnknownName(at(3))),
        (["x", "y", "t"], CheckError::UnknownName(at(4))),
        (["x", "x", "u"], CheckError::UnknownName(at(5))),
        (["t", "x", "t"], CheckError::WrongKind(at(3))),
        (["x", "t", "t"], CheckError::WrongKind(at(4))),
        (["x", "x", "x"], CheckError::WrongKind(at(5))),
        (["y", "t", "x"], CheckError::UnknownName(at(3))),
    ] {
        let p = program(alloc, names).expect(&rt, "memory");
        match check(alloc, &p) {
            Ok(_) => panic!(&rt; "accepted"),
            Err(e) => assert_eq!(&rt; e, want),
        }
    }
}

#[test]
fn names_become_numbers(rt: HostRuntime) {
    let alloc = rt.alloc();
    let p = program(alloc, ["x", "x", "t"]).expect(&rt, "memory");
    let core = check(alloc, &p).expect(&rt, "accepted");
    let array = core.arrays.get(0).expect(&rt, "an array");
    assert!(&rt; array.first.as_slice() == [0].as_slice());
    let task = core.tasks.get(0).expect(&rt, "a task");
    assert!(&rt; matches!(task.exit, CoreExit::Next(1)));
    let first = task.body.get(0).expect(&rt, "a statement");
    assert!(&rt;
        matches!(
            first,
            CoreStmt::Assign(
                CoreTarget::Cell(0, CoreExpr::Number(0)),
                CoreExpr::Cell(0, _)
            )
        )
    );
}
