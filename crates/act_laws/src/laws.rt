//! What the code of each act does on the machine, as the contracts of functions that do nothing (docs/CODE.md, "What is
//! proved").
ghost use Rattle.std.specs.Prelude.{◌≤◌, ◌+◌, ℕ, Bool, List, Option};
ghost use Rattle.act_laws.specs.Codes.{Fixed};
ghost use Rattle.act_laws.specs.Templates.{HeadDoes, RestoreDoes, BeginDoes, SaveDoes, LockDoes, LookDoes, ChooseDoes, ChooseCopyDoes, DropDoes, IssueDoes, SealCallDoes, SealBlockDoes, SealCopyDoes, TakeDoes, WriteDoes, WriteNoneDoes, EnterDoes, LeaveDoes, ByClassDoes, AcrossDoes, ToKeptDoes, FromKeptDoes, KeepWordsDoes, PutWordsDoes, CommitDoes};
ghost use Rattle.io_annot.specs.declared.choice.Mode.{Mode};
ghost use Rattle.task_ast.specs.declared.core_form.CoreExpr.{CoreExpr};
ghost use Rattle.task_ast.specs.declared.core_form.CoreStmt.{CoreStmt};
ghost use Rattle.task_ast.specs.declared.core_form.CoreEnd.{CoreEnd};
ghost use Rattle.task_ast.specs.declared.core_form.CoreTarget.{CoreTarget};
ghost use Rattle.task_ast.specs.declared.tree.Ann.{Ann};
ghost use Rattle.act_laws.specs.Values.{TestDoes, ArgumentsDo, PlainDoes, CallDoes, TargetCallDoes, CopyDoes};
ghost use Rattle.line_laws.specs.Relation.{Layout};
ghost use Rattle.task_ast.specs.WellFormed.{Scope};
ghost use Rattle.walk_run.specs.Store.{Store};
ghost use Rattle.word_code.specs.Beginnings.{level_count};
ghost use Rattle.word_code.specs.Frames.{Frame};
ghost use Rattle.word_machine.specs.State.{Program};
ghost use Rattle.word_machine.specs.Straight.{Spot};

use line_laws::{
    the_code_of_a_place_gives_its_address, the_code_of_a_statement_does_what_the_source_says,
    the_code_of_a_target_gives_its_address, the_code_of_an_expression_gives_its_value,
};

/// The head sets the fixed registers from the state word and leads to the running task's boot stub, or to the halt's, within 48
/// steps, for up to 64 tasks.
#[tactic(auto, using(crate::proofs::HeadActs::head_acts))]
pub fn a_boot_finds_its_task()
    ensures { (p : Program) (stride tasks task : ℕ) (s : Spot) → HeadDoes p stride tasks task s }
{}

/// Where a region's lock holds, restoring puts the copies of all its words home, in order; else nothing is written.
#[tactic(auto, using(crate::proofs::SaveActs::restore_works))]
pub fn a_region_is_restored()
    ensures { (p : Program) (x : Fixed) (f : Frame) (r next : ℕ) (s : Spot) (held : Bool) → RestoreDoes p x f r next s held }
{}

/// An attempt's beginning shows its event, sets the mode, unsets each pointer, puts each volatile word's declared word, and brings
/// the working bank level, word by word.
#[tactic(auto, using(crate::proofs::BeginActs::begin_acts))]
pub fn an_attempt_begins()
    ensures { (p : Program) (x : Fixed) (fr : Frame) (task next : ℕ) (s : Spot) (hc : x.committed ≤ 2048) (hw : x.working ≤ 2048) (few : 0 + level_count fr.scheme fr.core.arrays ≤ 2048) → BeginDoes p x fr task next s hc hw few }
{}

/// Unless a region's lock holds, saving copies all its words aside, in order.
#[tactic(auto, using(crate::proofs::SaveActs::save_works))]
pub fn a_region_is_saved()
    ensures { (p : Program) (x : Fixed) (f : Frame) (r next : ℕ) (s : Spot) (held : Bool) → SaveDoes p x f r next s held }
{}

/// A lock is one write of the epoch.
#[tactic(auto, using(crate::proofs::SimpleActs::lock_acts))]
pub fn a_lock_is_set()
    ensures { (p : Program) (x : Fixed) (r next : ℕ) (s : Spot) → LockDoes p x r next s }
{}

/// A look shows the clock and keeps it in its cell.
#[tactic(auto, using(crate::proofs::SimpleActs::look_acts))]
pub fn a_look_keeps_the_time()
    ensures { (p : Program) (x : Fixed) (f : Frame) (k next : ℕ) (s : Spot) → LookDoes p x f k next s }
{}

/// A call goes into one of its two lists as the table of annotations says of its mode, its record and the time of its look.
#[tactic(auto, using(crate::proofs::TableActs::choose_acts))]
pub fn a_call_chooses()
    ensures { (ann : Ann) (p : Program) (x : Fixed) (k value keep issue : ℕ) (s : Spot) (m : Mode) (has : Bool) → ChooseDoes ann p x k value keep issue s m has }
{}

/// A copy goes by whether it has a record.
#[tactic(auto, using(crate::proofs::TableActs::choose_copy_acts))]
pub fn a_copy_chooses()
    ensures { (p : Program) (x : Fixed) (n k keep issue : ℕ) (s : Spot) (has : Bool) → ChooseCopyDoes p x n k keep issue s has }
{}

/// A record is dropped by one write of its flag, which shows the event.
#[tactic(auto, using(crate::proofs::SimpleActs::drop_acts))]
pub fn a_record_is_dropped()
    ensures { (p : Program) (x : Fixed) (f : Frame) (k next : ℕ) (s : Spot) → DropDoes p x f k next s }
{}

/// An issue shows the peripheral, the words of the arguments' cells and the next reading, and keeps the reading in its cell.
#[tactic(auto, using(crate::proofs::SimpleActs::issue_acts))]
pub fn a_call_is_issued()
    ensures { (p : Program) (x : Fixed) (f : Frame) (o : Option CoreStmt) (k next : ℕ) (s : Spot) → IssueDoes p x f o k next s }
{}

/// The record of a call: its word and its time, and the flag last, with the event.
#[tactic(auto, using(crate::proofs::SimpleActs::seal_call_acts))]
pub fn a_call_is_sealed()
    ensures { (p : Program) (x : Fixed) (f : Frame) (ann : Ann) (k next : ℕ) (s : Spot) → SealCallDoes p x f ann k next s }
{}

/// The record of a block: the time of its beginning, and the flag last, with the event.
#[tactic(auto, using(crate::proofs::SimpleActs::seal_block_acts))]
pub fn a_block_is_sealed()
    ensures { (p : Program) (x : Fixed) (f : Frame) (ann : Ann) (k next : ℕ) (s : Spot) → SealBlockDoes p x f ann k next s }
{}

/// The record of a copy: its class, its ends and its length, and the flag last, with the event.
#[tactic(auto, using(crate::proofs::SimpleActs::seal_copy_acts))]
pub fn a_copy_is_sealed()
    ensures { (p : Program) (x : Fixed) (f : Frame) (n k next : ℕ) (s : Spot) → SealCopyDoes p x f n k next s }
{}

/// The value of a record is shown and goes to the word's cell.
#[tactic(auto, using(crate::proofs::SimpleActs::take_acts))]
pub fn a_kept_word_is_taken()
    ensures { (p : Program) (x : Fixed) (f : Frame) (k next : ℕ) (s : Spot) → TakeDoes p x f k next s }
{}

/// The word of the cell goes to the address of the target's cell.
#[tactic(auto, using(crate::proofs::SimpleActs::write_acts))]
pub fn a_word_is_written()
    ensures { (p : Program) (x : Fixed) (k q : ℕ) (target : CoreTarget) (args : List CoreExpr) (a next : ℕ) (s : Spot) → WriteDoes p x k q target args a next s }
{}

/// Where a call has no target, nothing is written.
#[tactic(auto, using(crate::proofs::SimpleActs::write_none_acts))]
pub fn a_word_without_a_target_is_not_written()
    ensures { (p : Program) (x : Fixed) (k q : ℕ) (args : List CoreExpr) (next : ℕ) (s : Spot) → WriteNoneDoes p x k q args next s }
{}

/// A block notes its beginning and the mode outside, and sets the mode inside as the table of annotations says.
#[tactic(auto, using(crate::proofs::TableActs::enter_acts))]
pub fn a_block_is_entered()
    ensures { (ann : Ann) (p : Program) (x : Fixed) (k next : ℕ) (s : Spot) (m : Mode) (has : Bool) → EnterDoes ann p x k next s m has }
{}

/// The mode outside is back, and a block that didn't keep goes to its end.
#[tactic(auto, using(crate::proofs::ClassActs::leave_acts))]
pub fn a_block_is_left()
    ensures { (p : Program) (x : Fixed) (k next acts : ℕ) (s : Spot) (m : Mode) → LeaveDoes p x k next acts s m }
{}

/// A copy goes into the list of its class: of its own, or where it keeps of its record's.
#[tactic(auto, using(crate::proofs::ClassActs::by_class_acts))]
pub fn a_copy_goes_by_its_class()
    ensures { (keeps one two : Bool) (p : Program) (x : Fixed) (k single private rest : ℕ) (s : Spot) → ByClassDoes keeps one two p x k single private rest s }
{}

/// The engine moves a copy's words across, and shows the copy with the last.
#[tactic(auto, using(crate::proofs::WordActs::across_acts))]
pub fn words_go_across()
    ensures { (p : Program) (x : Fixed) (f : Frame) (n to from k next : ℕ) (s : Spot) → AcrossDoes p x f n to from k next s }
{}

/// The engine moves a copy's words to the kept words.
#[tactic(auto, using(crate::proofs::WordActs::to_kept_acts))]
pub fn words_go_aside()
    ensures { (p : Program) (x : Fixed) (f : Frame) (n from k next : ℕ) (s : Spot) → ToKeptDoes p x f n from k next s }
{}

/// The engine moves the kept words to the record's destination.
#[tactic(auto, using(crate::proofs::WordActs::from_kept_acts))]
pub fn words_come_back()
    ensures { (p : Program) (x : Fixed) (f : Frame) (n to k next : ℕ) (s : Spot) → FromKeptDoes p x f n to k next s }
{}

/// The words at a copy's destination go to the kept words, nine steps each.
#[tactic(auto, using(crate::proofs::WordActs::keep_acts))]
pub fn words_are_kept()
    ensures { (p : Program) (x : Fixed) (f : Frame) (k next n from : ℕ) (s : Spot) → KeepWordsDoes p x f k next n from s }
{}

/// The kept words are shown by their number and go to the record's destination, nine steps each.
#[tactic(auto, using(crate::proofs::WordActs::put_acts))]
pub fn kept_words_are_put()
    ensures { (p : Program) (x : Fixed) (f : Frame) (k next n to : ℕ) (s : Spot) → PutWordsDoes p x f k next n to s }
{}

/// A commit is one write of the state word, with the event; the fixed registers are then those of the next instance.
#[tactic(auto, using(crate::proofs::CommitActs::commit_acts))]
pub fn an_instance_is_committed()
    ensures { (p : Program) (x : Fixed) (f : Frame) (task next : ℕ) (s : Spot) → CommitDoes p x f task next s }
{}

/// A test goes into the list that its condition's word says, or to the condition's trap.
pub fn a_test_goes_by_its_word()
    ensures { (p : Program) (x : Fixed) (scope : Scope) (l : Layout) (store : Store) (e : CoreExpr) (first second : ℕ) (s : Spot) → TestDoes p x scope l store e first second s }
{
    the_code_of_an_expression_gives_its_value()
}

/// The arguments of a call go to their cells from left to right, or the first that traps does.
pub fn arguments_are_valued_in_order()
    ensures { (p : Program) (x : Fixed) (scope : Scope) (l : Layout) (store : Store) (es : List CoreExpr) (cell : ℕ) (s : Spot) → ArgumentsDo p x scope l store es cell s }
{
    the_code_of_an_expression_gives_its_value()
}

/// A statement without sites, with the jump behind it, stays within its weight: its writes of FRAM are seen in order, and memory
/// is related to the store that it leaves, or it traps as the source does.
pub fn a_statement_stays_within_its_weight()
    ensures { (p : Program) (scope : Scope) (l : Layout) (s : CoreStmt) (next : ℕ) (t : Spot) (store : Store) → PlainDoes p scope l s next t store }
{
    the_code_of_a_statement_does_what_the_source_says()
}

/// A call without a target is valued: its arguments go to their cells, or the first that traps does.
pub fn a_call_is_valued()
    ensures { (p : Program) (x : Fixed) (scope : Scope) (l : Layout) (store : Store) (k q : ℕ) (es : List CoreExpr) (next : ℕ) (s : Spot) → CallDoes p x scope l store k q es next s }
{
    the_code_of_an_expression_gives_its_value()
}

/// A call with a target is valued: the target's address goes to its cell, and then the arguments to theirs, or the first of
/// them that traps does.
pub fn a_call_with_a_target_is_valued()
    ensures { (p : Program) (x : Fixed) (scope : Scope) (l : Layout) (store : Store) (k q : ℕ) (target : CoreTarget) (es : List CoreExpr) (next : ℕ) (s : Spot) → TargetCallDoes p x scope l store k q target es next s }
{
    the_code_of_an_expression_gives_its_value();
    the_code_of_a_target_gives_its_address()
}

/// A copy is valued: its ends with their rooms, its length and its class go to their cells, or the first of ends and length that
/// traps does; a length past a room is trap 4.
pub fn a_copy_is_valued()
    ensures { (p : Program) (x : Fixed) (scope : Scope) (l : Layout) (store : Store) (k : ℕ) (to from : CoreEnd) (words : CoreExpr) (next : ℕ) (s : Spot) → CopyDoes p x scope l store k to from words next s }
{
    the_code_of_an_expression_gives_its_value();
    the_code_of_a_place_gives_its_address()
}
