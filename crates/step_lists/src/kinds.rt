// A step by its kind: the instance that its numbers name is taken; where they name none, nothing is. Whether anything was lost is told.
ghost use Rattle.std.specs.Prelude.{◌≡◌, ◌+◌, ◌<◌};
ghost use Rattle.steps.specs.Passes.{changed};
ghost use Rattle.steps.specs.StepLists.{after_step};
ghost use Rattle.steps.specs.code.Decoding.{claiming_by, cross_by, exchanged_by, lone_by, named_at, named_by, pair_by, place_by, pointing_by};

use crate::{naming, taking};

fn lone_step(
    givens: &[u8; 81],
    masks: &mut [u16; 81],
    cell: usize,
    digit: usize,
    x: usize,
    y: usize,
    z: usize,
) -> bool
    ensures masks_after { masks.new ≡ after_step givens.now (lone_by cell digit x y z) masks.old }
    ensures value { result ≡ changed masks.old masks.new }
{
    naming::is_lone(cell, digit, x, y, z) && taking::take_lone(givens, masks, cell, digit - 1)
}

fn place_step(
    givens: &[u8; 81],
    masks: &mut [u16; 81],
    unit: usize,
    digit: usize,
    cell: usize,
    y: usize,
    z: usize,
) -> bool
    ensures masks_after { masks.new ≡ after_step givens.now (place_by unit digit cell y z) masks.old }
    ensures value { result ≡ changed masks.old masks.new }
{
    naming::is_place(unit, digit, cell, y, z)
        && taking::take_place(givens, masks, unit, digit - 1, naming::place_in(unit, cell))
}

fn pair_step(
    givens: &[u8; 81],
    masks: &mut [u16; 81],
    unit: usize,
    first: usize,
    second: usize,
    a: usize,
    b: usize,
) -> bool
    ensures masks_after { masks.new ≡ after_step givens.now (pair_by unit first second a b) masks.old }
    ensures value { result ≡ changed masks.old masks.new }
{
    if naming::is_pair(unit, first, second, a, b) {
        let i = naming::place_in(unit, first);
        let j = naming::place_in(unit, second);
        return taking::take_pair(givens, masks, unit, i, j, a - 1, b - 1);
    }
    false
}

fn pointing_step(
    givens: &[u8; 81],
    masks: &mut [u16; 81],
    block: usize,
    digit: usize,
    line: usize,
    y: usize,
    z: usize,
) -> bool
    ensures masks_after { masks.new ≡ after_step givens.now (pointing_by block digit line y z) masks.old }
    ensures value { result ≡ changed masks.old masks.new }
{
    naming::is_pointing(block, digit, line, y, z)
        && taking::take_locked(givens, masks, block, digit - 1, naming::line_in(line))
}

fn claiming_step(
    givens: &[u8; 81],
    masks: &mut [u16; 81],
    line: usize,
    digit: usize,
    block: usize,
    y: usize,
    z: usize,
) -> bool
    ensures masks_after { masks.new ≡ after_step givens.now (claiming_by line digit block y z) masks.old }
    ensures value { result ≡ changed masks.old masks.new }
{
    naming::is_claiming(line, digit, block, y, z)
        && taking::take_locked(givens, masks, line, digit - 1, naming::box_in(line, block))
}

fn cross_step(
    givens: &[u8; 81],
    masks: &mut [u16; 81],
    digit: usize,
    u: usize,
    v: usize,
    x: usize,
    y: usize,
) -> bool
    ensures masks_after { masks.new ≡ after_step givens.now (cross_by digit u v x y) masks.old }
    ensures value { result ≡ changed masks.old masks.new }
{
    naming::is_cross(0, 9, digit, u, v, x, y)
        && taking::take_cross(givens, masks, 0, 9, digit - 1, u, v, x - 9, y - 9)
}

fn exchanged_step(
    givens: &[u8; 81],
    masks: &mut [u16; 81],
    digit: usize,
    u: usize,
    v: usize,
    x: usize,
    y: usize,
) -> bool
    ensures masks_after { masks.new ≡ after_step givens.now (exchanged_by digit u v x y) masks.old }
    ensures value { result ≡ changed masks.old masks.new }
{
    naming::is_cross(9, 0, digit, u, v, x, y)
        && taking::take_cross(givens, masks, 9, 0, digit - 1, u - 9, v - 9, x, y)
}

// By the kind, the first of the six bytes. Each number stands here once, beside what it does: an enum of the kinds would list the seven twice.
fn take_step(
    givens: &[u8; 81],
    masks: &mut [u16; 81],
    kind: usize,
    p: usize,
    q: usize,
    r: usize,
    s: usize,
    t: usize,
) -> bool
    ensures masks_after { masks.new ≡ after_step givens.now (named_by kind p q r s t) masks.old }
    ensures value { result ≡ changed masks.old masks.new }
{
    match kind {
        0 => lone_step(givens, masks, p, q, r, s, t),
        1 => place_step(givens, masks, p, q, r, s, t),
        2 => pair_step(givens, masks, p, q, r, s, t),
        3 => pointing_step(givens, masks, p, q, r, s, t),
        4 => claiming_step(givens, masks, p, q, r, s, t),
        5 => cross_step(givens, masks, p, q, r, s, t),
        6 => exchanged_step(givens, masks, p, q, r, s, t),
        _ => false,
    }
}

// The step of the six bytes from a place on, which the stop says; a shorter piece names none.
pub fn take_at(givens: &[u8; 81], masks: &mut [u16; 81], steps: &[u8], at: usize) -> bool
    requires { at < 4374 }
    ensures masks_after { masks.new ≡ after_step givens.now (named_at steps.now at) masks.old }
    ensures value { result ≡ changed masks.old masks.new }
{
    if at + 6 <= steps.len() {
        return take_step(
            givens,
            masks,
            usize::from(steps[at]),
            usize::from(steps[at + 1]),
            usize::from(steps[at + 2]),
            usize::from(steps[at + 3]),
            usize::from(steps[at + 4]),
            usize::from(steps[at + 5]),
        );
    }
    false
}
