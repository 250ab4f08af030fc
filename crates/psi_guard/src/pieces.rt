//! The pieces of a guarded event.

ghost use Rattle.std.specs.Prelude.{◌≡◌, ◌<◌, ◌≤◌, IfSome, MatchBool, length, unsigned_abs};
ghost use borrow.Author.Differences.{up as ups, down as downs};
ghost use Rattle.psi_event.specs.Piecewise.{Does};
ghost use Rattle.psi_guard.specs.Pieces.{AreTold, Tell, clipped_at, exact_at, is_clipped, is_exact, piece_with, pieces_at};

use crate::guarded::Guarded;
use crate::parts::Part;
use psi_event::{Piece, Piecewise, PiecewiseLaw, Side};
use psi_state::State;

impl PiecewiseLaw for Guarded {
    fn piecewise(&self) -> Option<Piecewise> {
        if self.is_told() {
            Some(self.pieces())
        } else {
            None
        }
    }
}

// What a piece says of a queue.
#[derive(Clone, Copy)]
pub(crate) struct PieceAt {
    pub side: Side,
    pub up: u16,
    pub down: u16,
}

// What the pieces say of a queue.
#[derive(Clone, Copy)]
pub(crate) struct PiecesAt {
    pub bound: u16,
    pub first: PieceAt,
    pub second: PieceAt,
}

impl Guarded {
    // Whether each part is exact, but for at most one that is clipped.
    fn is_told(&self) -> bool
        ensures { MatchBool result (AreTold self.now.caps self.now.parts (length self.now.caps)) (AreTold self.now.caps self.now.parts (length self.now.caps) → ⊥) }
    {
        let mut is_one_clipped = false;
        for queue in 0..self.caps.len() {
            let cap = self.caps.get(queue);
            let part = self.part_of(queue);
            if !is_exact(cap, part) {
                if is_one_clipped || !is_clipped(cap, part) {
                    return false;
                }
                is_one_clipped = true;
            }
        }
        true
    }

    // The pieces by what they say of each queue.
    fn pieces(&self) -> Piecewise
        ensures { Tell self.now.caps self.now.parts (length self.now.caps) result }
    {
        let mut bounds = State::zero(self.caps.len());
        let mut first = Piece::empty(self.caps.len());
        let mut second = first;
        for queue in 0..self.caps.len() {
            let own = pieces_at(self.caps.get(queue), self.part_of(queue));
            bounds.set(queue, own.bound);
            put(&mut first, queue, own.first);
            put(&mut second, queue, own.second);
        }
        Piecewise {
            bounds,
            first,
            second,
        }
    }
}

// Lets a piece say this of a queue.
fn put(piece: &mut Piece, queue: u8, own: PieceAt)
    requires sides { queue < length piece.old.sides }
    requires ups { queue < length piece.old.ups }
    requires downs { queue < length piece.old.downs }
    ensures { piece.new ≡ piece_with piece.old queue own }
{
    piece.sides.set(queue, own.side);
    piece.ups.set(queue, own.up);
    piece.downs.set(queue, own.down);
}

// Whether the guard is open on one side at least, and neither the floor nor the ceiling changes what the shift makes
// of a number in it.
fn is_exact(cap: u16, part: Part) -> bool
    requires { unsigned_abs part.shift ≤ 65535 }
    ensures { result ≡ is_exact cap part }
{
    let up = ups(part.shift) as u32;
    let down = downs(part.shift) as u32;
    let is_open = part.least == 0 || part.most >= cap;
    is_open
        && part.floor as u32 + down <= part.least as u32 + up
        && part.most as u32 + up <= part.ceiling as u32 + down
}

// Whether the guard is open on both sides, and one customer comes where there is room, or one leaves where there is
// one.
fn is_clipped(cap: u16, part: Part) -> bool
    requires { unsigned_abs part.shift ≤ 65535 }
    ensures { result ≡ is_clipped cap part }
{
    let up = ups(part.shift);
    let down = downs(part.shift);
    let is_open = part.least == 0 && part.most >= cap;
    is_open
        && up as u32 + down as u32 == 1
        && part.floor <= up
        && cap as u32 <= part.ceiling as u32 + down as u32
}

// What the pieces say of a queue of this capacity with this part.
fn pieces_at(cap: u16, part: Part) -> PiecesAt
    requires most { part.most ≤ cap }
    requires shift { unsigned_abs part.shift ≤ 65535 }
    ensures { result ≡ pieces_at cap part }
{
    if is_exact(cap, part) {
        exact_at(cap, part)
    } else {
        clipped_at(cap, part)
    }
}

// What they say where the part is exact: its guard is asked in both, and its change is in the first.
fn exact_at(cap: u16, part: Part) -> PiecesAt
    requires most { part.most ≤ cap }
    requires shift { unsigned_abs part.shift ≤ 65535 }
    ensures { result ≡ exact_at cap part }
{
    let (side, bound) = if part.least > 0 {
        (Side::AtLeast, part.least)
    } else if part.most < cap {
        (Side::Below, part.most + 1)
    } else {
        (Side::Any, 0)
    };
    let first = PieceAt {
        side,
        up: ups(part.shift),
        down: downs(part.shift),
    };
    PiecesAt {
        bound,
        first,
        second: PieceAt {
            side,
            up: 0,
            down: 0,
        },
    }
}

// What they say where the part is clipped: its change is in the second, where there is room or a customer.
fn clipped_at(cap: u16, part: Part) -> PiecesAt
    requires { unsigned_abs part.shift ≤ 65535 }
    ensures { result ≡ clipped_at cap part }
{
    let up = ups(part.shift);
    let falls = up == 0;
    PiecesAt {
        bound: if falls { 1 } else { cap },
        first: PieceAt {
            side: Side::Any,
            up: 0,
            down: 0,
        },
        second: PieceAt {
            side: if falls { Side::AtLeast } else { Side::Below },
            up,
            down: downs(part.shift),
        },
    }
}

// How many customers a shift brings.
fn ups(shift: i32) -> u16
    requires { unsigned_abs shift ≤ 65535 }
    ensures { result ≡ ups shift }
{
    if shift > 0 { shift as u16 } else { 0 }
}

// How many customers a shift takes.
fn downs(shift: i32) -> u16
    requires { unsigned_abs shift ≤ 65535 }
    ensures { result ≡ downs shift }
{
    if shift < 0 {
        shift.unsigned_abs() as u16
    } else {
        0
    }
}
