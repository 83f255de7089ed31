ghost use Rattle.cilk_checker.specs.Courses.{after_effect, followed, in_row, path_course, step_course};
ghost use Rattle.cilk_checker.specs.Sets.{set_of};
ghost use Rattle.cilk_tree.specs.Lawful.Pending.{none};
ghost use Rattle.std.specs.Prelude.{◌≡◌, map, slice_get, None, IfOk, OnOk};

use crate::path::{Effect, Path, Step};
use crate::pending::Pending;
use std::alloc::{AllocError, Global};

/// Goes along the paths, and gives the first statement that uses a pending local. Where there is none, `pending` is
/// what is pending behind them.
#[cycle(search)]
pub(crate) fn find_use(
    alloc: Global,
    paths: &[Path],
    pending: &mut Pending,
) -> Result<Option<u32>, AllocError>
    ensures found { IfOk result (λ found. found ≡ slice_get ((in_row (map path_course paths.now)).uses (set_of pending.old)) 0) }
    ensures ends { IfOk result (λ found. found ≡ None → set_of pending.new ≡ (in_row (map path_course paths.now)).ends (set_of pending.old)) }
{
    for path in paths {
        let found = find_use_in(alloc, path, pending)?;
        if found.is_some() {
            return Ok(found);
        }
    }
    Ok(None)
}

/// The same along one path.
#[cycle(search)]
fn find_use_in(alloc: Global, path: &Path, pending: &mut Pending) -> Result<Option<u32>, AllocError>
    ensures found { IfOk result (λ found. found ≡ slice_get ((path_course path.now).uses (set_of pending.old)) 0) }
    ensures ends { IfOk result (λ found. found ≡ None → set_of pending.new ≡ (path_course path.now).ends (set_of pending.old)) }
{
    match path {
        Path::Alone(step) => take_step(step, pending),
        Path::Block(step, inside) => {
            let found = take_step(step, pending)?;
            if found.is_some() {
                return Ok(found);
            }
            find_use(alloc, inside.as_slice(), pending)
        }
        Path::Either(step, met, unmet) => {
            let found = take_step(step, pending)?;
            if found.is_some() {
                return Ok(found);
            }
            let mut other = pending.copy(alloc)?;
            let found = find_use(alloc, met.as_slice(), pending)?;
            if found.is_some() {
                return Ok(found);
            }
            let found = find_use(alloc, unmet.as_slice(), &mut other)?;
            pending.insert_all(&other)?;
            Ok(found)
        }
        Path::Loop(step, body, added) => {
            pending.insert_all(added)?;
            let mut turn = pending.copy(alloc)?;
            let found = take_step(step, &mut turn)?;
            if found.is_some() {
                return Ok(found);
            }
            find_use(alloc, body.as_slice(), &mut turn)
        }
    }
}

/// Whether the statement itself uses a pending local, and what is pending behind it.
fn take_step(step: &Step, pending: &mut Pending) -> Result<Option<u32>, AllocError>
    ensures found { IfOk result (λ found. found ≡ slice_get ((step_course step.now).uses (set_of pending.old)) 0) }
    ensures ends { IfOk result (λ found. found ≡ None → set_of pending.new ≡ (step_course step.now).ends (set_of pending.old)) }
{
    if pending.has_any(step.touched.as_slice()) {
        return Ok(Some(step.statement));
    }
    apply(step.effect, pending)?;
    Ok(None)
}

fn apply(effect: Effect, pending: &mut Pending) -> Result<(), AllocError>
    ensures { OnOk result (set_of pending.new ≡ after_effect effect (set_of pending.old)) }
{
    match effect {
        Effect::Keeps => {}
        Effect::Adds(local) => pending.insert(local)?,
        Effect::Empties => pending.clear(),
    }
    Ok(())
}

/// What a turn of a loop leaves pending of itself.
pub(crate) fn added_by(alloc: Global, step: &Step, body: &[Path]) -> Result<Pending, AllocError>
    ensures { IfOk result (λ added. set_of added ≡ (followed (step_course step.now) (in_row (map path_course body.now))).ends none) }
{
    let mut turn = Pending::new(alloc);
    apply(step.effect, &mut turn)?;
    pass_all(alloc, body, &mut turn)?;
    Ok(turn)
}

/// Goes along the paths.
#[cycle(pass)]
fn pass_all(alloc: Global, paths: &[Path], pending: &mut Pending) -> Result<(), AllocError>
    ensures { OnOk result (set_of pending.new ≡ (in_row (map path_course paths.now)).ends (set_of pending.old)) }
{
    for path in paths {
        pass(alloc, path, pending)?;
    }
    Ok(())
}

/// The same along one of them.
#[cycle(pass)]
fn pass(alloc: Global, path: &Path, pending: &mut Pending) -> Result<(), AllocError>
    ensures { OnOk result (set_of pending.new ≡ (path_course path.now).ends (set_of pending.old)) }
{
    match path {
        Path::Alone(step) => apply(step.effect, pending),
        Path::Block(step, inside) => {
            apply(step.effect, pending)?;
            pass_all(alloc, inside.as_slice(), pending)
        }
        Path::Either(step, met, unmet) => {
            apply(step.effect, pending)?;
            let mut other = pending.copy(alloc)?;
            pass_all(alloc, met.as_slice(), pending)?;
            pass_all(alloc, unmet.as_slice(), &mut other)?;
            pending.insert_all(&other)
        }
        Path::Loop(_, _, added) => pending.insert_all(added),
    }
}
