//! The arrays to which the pointers of a task may point: those whose address is given to them anywhere in it.
ghost use Rattle.std.specs.Prelude.{◌≡◌, ◌≤◌, [], ◌∷◌, ◌++◌, cond, IfOk, OnOk, false, length, replicate};
ghost use Rattle.task_ast.specs.Pointing.{addresses};
ghost use Rattle.io_depend.specs.Marks.{with_marks, marks_after, marked, given_arrays, all_given};
ghost use Rattle.io_depend.specs.Rows.{listed as row_of};

use ease_base::NoMemory;
use std::alloc::Global;
use std::marker::Model;
use task_ast::CoreStmt;

/// The arrays of each pointer, ascending and each once.
#[derive(Drop)]
pub struct Points {
    rows: Vec<Vec<u32>>,
}

impl Model for Points {
    ghost use Rattle.std.specs.Prelude.{ℕ, List, map};

    ghost Value = { List (List ℕ) };

    ghost view = { λ p. map (λ row. row.items) p.rows.items };
}

// So many arrays, none of them marked.
fn unmarked(alloc: Global, arrays: usize) -> Result<Vec<bool>, NoMemory>
    ensures { IfOk result (λ marks. marks.items ≡ replicate arrays false) }
{
    let mut marks = Vec::new(alloc);
    'marks: for _ in 0..arrays {
        marks.push(false)?;
    }
    Ok(marks)
}

// Marks an array; does nothing where there is no such array.
fn mark_array(array: u32, marks: &mut Vec<bool>)
    ensures { marks.new.items ≡ with_marks marks.old.items (array ∷ []) }
{
    if (array as usize) < marks.len() {
        marks[array as usize] = true;
    }
}

// Marks the arrays whose address a statement gives to a pointer.
#[cycle(mark)]
fn mark_one(pointer: u32, s: &CoreStmt, marks: &mut Vec<bool>)
    ensures { marks.new.items ≡ with_marks marks.old.items (addresses pointer s.now) }
{
    match s {
        CoreStmt::Assign(_, _) | CoreStmt::Io(_, _, _, _) | CoreStmt::Copy(_, _, _, _) => {}
        CoreStmt::Point(p, array, _) => {
            if *p == pointer {
                mark_array(*array, marks);
            }
        }
        CoreStmt::If(_, yes_part, no_part) => {
            mark(pointer, yes_part.as_slice(), marks);
            mark(pointer, no_part.as_slice(), marks);
        }
        CoreStmt::Loop(_, _, body) => mark(pointer, body.as_slice(), marks),
        CoreStmt::Block(_, body) => mark(pointer, body.as_slice(), marks),
    }
}

// Marks the arrays whose address statements give to a pointer.
#[cycle(mark)]
fn mark(pointer: u32, body: &[CoreStmt], marks: &mut Vec<bool>)
    ensures { marks.new.items ≡ marks_after pointer body.now marks.old.items }
{
    'statements: for s in body {
        mark_one(pointer, s, marks);
    }
}

// Puts an array at the end of a row where it is marked.
fn put_if(array: u32, is_marked: bool, row: &mut Vec<u32>) -> Result<(), NoMemory>
    ensures { OnOk result (row.new.items ≡ row.old.items ++ cond is_marked (array ∷ []) []) }
{
    if is_marked {
        row.push(array)?;
    }
    Ok(())
}

// The marked arrays, ascending.
fn list(alloc: Global, marks: &[bool]) -> Result<Vec<u32>, NoMemory>
    requires { length marks.now ≤ 4294967295 }
    ensures { IfOk result (λ row. row.items ≡ marked marks.now) }
{
    let mut row = Vec::new(alloc);
    'marks: for (number, is_marked) in marks.iter().enumerate() {
        put_if(number as u32, *is_marked, &mut row)?;
    }
    Ok(row)
}

// The arrays of so many whose address statements give to a pointer, ascending.
fn arrays_of(
    alloc: Global,
    body: &[CoreStmt],
    arrays: usize,
    pointer: u32,
) -> Result<Vec<u32>, NoMemory>
    requires { arrays ≤ 4294967295 }
    ensures { IfOk result (λ row. row.items ≡ given_arrays body.now arrays pointer) }
{
    let mut marks = unmarked(alloc, arrays)?;
    mark(pointer, body, &mut marks);
    list(alloc, marks.as_slice())
}

impl Points {
    /// The arrays of so many whose address statements give to each of so many pointers.
    pub fn of(
        alloc: Global,
        body: &[CoreStmt],
        arrays: usize,
        pointers: usize,
    ) -> Result<Points, NoMemory>
        requires arrays { arrays ≤ 4294967295 }
        requires pointers { pointers ≤ 4294967295 }
        ensures { IfOk result (λ p. p ≡ all_given body.now arrays pointers) }
    {
        let mut rows = Vec::new(alloc);
        'pointers: for pointer in 0..pointers {
            rows.push(arrays_of(alloc, body, arrays, pointer as u32)?)?;
        }
        Ok(Points { rows })
    }

    /// The arrays to which a pointer may point; none where there is no such pointer.
    pub fn arrays(&self, pointer: u32) -> &[u32]
        ensures { result.now ≡ row_of self.now pointer }
    {
        match self.rows.get(pointer as usize) {
            Some(row) => row.as_slice(),
            None => &[],
        }
    }
}
