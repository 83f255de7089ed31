ghost use Rattle.std.specs.Prelude.{◌≡◌, ◌<◌, ◌^◌, ◌↔◌, ◌++◌, ◌∷◌, [], true, Some, length, IsTrue, IfOk, OnOk, OnErr};
ghost use Rattle.std.specs.Option.{option_and_then, option_to_list};
ghost use Rattle.span_tree.specs.Dag.{IsParallel, Precedes};
ghost use Rattle.span_tree.specs.History.{IsNumbered, IsParent, IsPlace, IsWithin32Bits, act_at, row_at, serial_order};
ghost use Rattle.span_tree.specs.Memory.{accesses_of, is_access, output_of, printed_by};
ghost use Rattle.span_tree.specs.Parting.{ComesFirst, IsParting, IsUnsynced};
ghost use Rattle.span_tree.specs.Recording.{IsOpen, first_history, next_place, spawns_none, with_act, with_child};

use crate::act::{Act, Place};
use crate::row::Row;
use outside::Words as Args;
use std::alloc::{AllocError, Global};
use std::marker::Model;

/// The history of a run: a row for each instance, numbered in serial preorder. Contracts see the rows.
///
/// An act takes 40 bytes in tables that may have room for twice as many. A row takes 64 beside its arguments, and its
/// table has room for four acts at least.
#[derive(Debug, Drop)]
pub struct History {
    alloc: Global,
    rows: Vec<Row>,
    /// All places in serial order.
    order: Vec<Place>,
}

impl Model for History {
    ghost use Rattle.span_tree.specs.History.{History as Seen};
    ghost use Rattle.span_tree.specs.Kept.{IsKept};

    ghost Value = { Seen };

    ghost view = { λ h. h.rows.items };

    ghost invariant = { λ h. IsKept h.rows.items h.order.items };
}

impl History {
    /// `main` of this procedure, before its first act.
    pub(crate) fn new(alloc: Global, main: u32) -> Result<History, AllocError>
        ensures { IfOk result (λ history. history ≡ first_history main) }
    {
        let mut rows = Vec::new(alloc);
        rows.push(Row::new(alloc, None, main, Args::new(alloc)))?;
        Ok(History {
            alloc,
            rows,
            order: Vec::new(alloc),
        })
    }

    /// The rows. Row 0 is that of `main`.
    pub fn rows(&self) -> &[Row]
        ensures rows { result.now ≡ self.now }
        ensures numbered { IsNumbered self.now }
        ensures within { IsWithin32Bits self.now }
    {
        self.rows.as_slice()
    }

    /// All places in serial order: what a Spawn act's child did stands directly behind that act.
    pub fn order(&self) -> &[Place]
        ensures { result.now ≡ serial_order self.now }
    {
        self.order.as_slice()
    }

    /// The act at a place. None exactly where there is none.
    pub fn act(&self, place: Place) -> Option<Act>
        ensures { result ≡ act_at self.now place }
    {
        self.rows.get(place.row as usize)?.act(place.act)
    }

    /// Whether an act stands there.
    pub fn is_place(&self, place: Place) -> bool
        ensures { IsTrue result ↔ IsPlace self.now place }
    {
        self.rows
            .get(place.row as usize)
            .is_some_and(|row| (place.act as usize) < row.len())
    }

    /// Whether x is executed before y in every run: it is serially before y and not parallel to it.
    ///
    /// It takes time of the depth of the two rows.
    pub fn precedes(&self, x: Place, y: Place) -> bool
        requires first { IsPlace self.now x }
        requires second { IsPlace self.now y }
        ensures { IsTrue result ↔ Precedes self.now x y }
    {
        let (first, second) = self.parting(x, y);
        first.is_before(second) && !self.runs_beside(first, second)
    }

    /// Whether neither place has to be executed before the other one. It does not matter which is named first.
    ///
    /// It takes time of the depth of the two rows.
    pub fn parallel(&self, x: Place, y: Place) -> bool
        requires first { IsPlace self.now x }
        requires second { IsPlace self.now y }
        ensures { IsTrue result ↔ IsParallel self.now x y }
    {
        let (first, second) = self.parting(x, y);
        self.runs_beside(first, second) || self.runs_beside(second, first)
    }

    /// The accesses of a word in serial order.
    pub fn places_of(&self, alloc: Global, word: u32) -> Result<Vec<Place>, AllocError>
        ensures { IfOk result (λ places. places.items ≡ accesses_of self.now word) }
    {
        let mut places = Vec::new(alloc);
        for place in &self.order {
            if self.is_access(*place, word) {
                places.push(*place)?;
            }
        }
        Ok(places)
    }

    /// The printed values in serial order.
    pub fn output(&self, alloc: Global) -> Result<Vec<i64>, AllocError>
        ensures { IfOk result (λ values. values.items ≡ output_of self.now) }
    {
        let mut values = Vec::new(alloc);
        for place in &self.order {
            add_printed(&mut values, self.act(*place))?;
        }
        Ok(values)
    }

    /// Adds an act that spawns nothing at the end of a row. Where memory is refused, or the row has 4,294,967,295 acts,
    /// the history stays as it was.
    pub(crate) fn push(&mut self, row: u32, act: Act) -> Result<(), AllocError>
        requires runs { IsOpen self.old row }
        requires spawns_none { spawns_none act ≡ true }
        ensures ok { OnOk result (self.new ≡ with_act row act self.old) }
        ensures err { OnErr result (self.new ≡ self.old) }
    {
        append(&mut self.rows, &mut self.order, row, act)
    }

    /// Adds a Spawn act at the end of a row, and the child's row, whose number is the answer. Where memory is refused,
    /// or there is no number left, the history stays as it was.
    pub(crate) fn spawn(&mut self, row: u32, proc: u32, args: Args) -> Result<u32, AllocError>
        requires runs { IsOpen self.old row }
        ensures child { IfOk result (λ child. child ≡ length self.old) }
        ensures ok { OnOk result (self.new ≡ with_child row proc args self.old) }
        ensures err { OnErr result (self.new ≡ self.old) }
    {
        let child = u32::try_from(self.rows.len()).map_err(|_| AllocError)?;
        let act = u32::try_from(self.rows[row as usize].len()).map_err(|_| AllocError)?;
        let parent = Some(Place { row, act });
        self.rows.push(Row::new(self.alloc, parent, proc, args))?;
        if let Err(error) = append(
            &mut self.rows,
            &mut self.order,
            row,
            Act::Spawn { row: child },
        ) {
            self.rows.pop();
            return Err(error);
        }
        Ok(child)
    }

    /// Whether the act at a place accesses this word.
    fn is_access(&self, place: Place, word: u32) -> bool
        ensures { result ≡ is_access self.now word place }
    {
        match self.act(place) {
            Some(
                Act::Read { word: at, .. }
                | Act::Write { word: at, .. }
                | Act::Add { word: at, .. },
            ) => word == at,
            _ => false,
        }
    }

    /// How the ways from `main` to two places go on from the last row that they have in common.
    fn parting(&self, x: Place, y: Place) -> (Branch, Branch)
        requires first { IsPlace self.now x }
        requires second { IsPlace self.now y }
        ensures parted { IsParting self.now x y result.0 result.1 }
        ensures numbered { IsNumbered self.now }
    {
        let _ = &self.rows;
        let mut first = Branch {
            place: x,
            child: None,
        };
        let mut second = Branch {
            place: y,
            child: None,
        };
        while first.place.row != second.place.row {
            if first.place.row > second.place.row {
                first = self.branch_to(first.place.row);
            } else {
                second = self.branch_to(second.place.row);
            }
        }
        (first, second)
    }

    /// The Spawn act that leads to a row.
    fn branch_to(&self, row: u32) -> Branch
        requires some { 0 < row }
        requires inside { row < length self.now }
        ensures parent { IsParent self.now row result.place }
        ensures child { result.child ≡ Some row }
        ensures numbered { IsNumbered self.now }
    {
        let parent = self.rows[row as usize].parent().unwrap();
        Branch {
            place: parent,
            child: Some(row),
        }
    }

    /// Whether the first way leads into a child that no Sync ends up to the act by which the second one goes on.
    fn runs_beside(&self, first: Branch, second: Branch) -> bool
        requires row { first.place.row ≡ second.place.row }
        requires first { IsPlace self.now first.place }
        requires second { IsPlace self.now second.place }
        ensures { IsTrue result ↔ IsUnsynced self.now first second }
    {
        first.child.is_some()
            && first.place.act < second.place.act
            && self.rows[first.place.row as usize].is_unsynced(first.place.act, second.place.act)
    }
}

/// How a way from `main` goes on from a row: by which act, and into which child, unless it ends there.
#[derive(Clone, Copy, Debug)]
struct Branch {
    place: Place,
    child: Option<u32>,
}

impl Branch {
    /// Whether a way that goes on so, or ends, is before one that goes on so from the same row.
    fn is_before(self, other: Branch) -> bool
        ensures { IsTrue result ↔ ComesFirst self other }
    {
        self.place.act < other.place.act
            || (self.place.act == other.place.act && self.child.is_none() && other.child.is_some())
    }
}

/// Adds the value that the act prints, where it prints one.
fn add_printed(values: &mut Vec<i64>, act: Option<Act>) -> Result<(), AllocError>
    ensures ok { OnOk result (values.new.items ≡ values.old.items ++ option_to_list (option_and_then printed_by act)) }
{
    if let Some(Act::Print { value }) = act {
        values.push(value)?;
    }
    Ok(())
}

/// Adds an act at the end of a row, and its place to the order. Where memory is refused both stay as they were.
fn append(rows: &mut Vec<Row>, order: &mut Vec<Place>, row: u32, act: Act) -> Result<(), AllocError>
    requires { row < length rows.old.items }
    ensures rows { OnOk result (rows.new.items ≡ with_act row act rows.old.items) }
    ensures within { OnOk result (length (row_at rows.new.items row).acts < 2 ^ 32) }
    ensures order { OnOk result (order.new.items ≡ order.old.items ++ next_place row rows.old.items ∷ []) }
    ensures err_rows { OnErr result (rows.new.items ≡ rows.old.items) }
    ensures err_order { OnErr result (order.new.items ≡ order.old.items) }
{
    let index = u32::try_from(rows[row as usize].len()).map_err(|_| AllocError)?;
    order.push(Place { row, act: index })?;
    if let Err(error) = rows[row as usize].push(act) {
        order.pop();
        return Err(error);
    }
    Ok(())
}
